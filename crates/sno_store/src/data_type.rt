//! Types that a program makes.
ghost use Rattle.std.specs.Prelude.{◌≡◌, ◌==◌, ◌<◌, ◌≤◌, map, length, position, IfSome};

use sno_value::SymId;
use std::marker::Model;

/// How many fields a type has at most (this profile).
pub(crate) const MOST_FIELDS: usize = 99;

/// A type that a program made: its name, and the symbols of its fields in the prototype's order.
#[derive(Drop)]
pub(crate) struct DataType {
    name: Vec<u8>,
    fields: Vec<SymId>,
}

impl Model for DataType {
    ghost use Rattle.std.specs.Prelude.{◌≤◌, map, length};
    ghost use Rattle.sno_store.specs.Types.{DataType as Shown};

    ghost Value = { Shown };

    ghost view = { λ t. record { name = t.name.items; fields = map (λ id. id.0) t.fields.items } };

    ghost invariant = { λ t. length t.fields.items ≤ 99 };
}

impl DataType {
    /// A type of these parts.
    pub(crate) fn new(name: Vec<u8>, fields: Vec<SymId>) -> DataType
        requires few { length fields.items ≤ 99 }
        ensures { result ≡ record { name = name.items; fields = map (λ id. id.0) fields.items } }
    {
        DataType { name, fields }
    }

    /// The name of the type.
    pub(crate) fn name(&self) -> &[u8]
        ensures { result.now ≡ self.now.name }
    {
        self.name.as_slice()
    }

    /// How many fields an object of the type has.
    pub(crate) fn count(&self) -> usize
        ensures { result ≡ length self.now.fields }
    {
        self.fields.len()
    }

    /// The number of the field that a symbol names, if it names one. It takes time for the fields of this type alone.
    pub(crate) fn field(&self, symbol: SymId) -> Option<u32>
        ensures { result ≡ position (λ field. field == symbol.0) self.now.fields }
    {
        let place = place_of(&self.fields, symbol)?;
        Some(place as u32)
    }
}

/// The place of the first of these symbols that is this one, if there is one.
fn place_of(fields: &[SymId], symbol: SymId) -> Option<usize>
    ensures place { result ≡ position (λ field. field.0 == symbol.0) fields.now }
    ensures within { IfSome result (λ place. place < length fields.now) }
{
    fields.iter().position(|field| field.0 == symbol.0)
}
