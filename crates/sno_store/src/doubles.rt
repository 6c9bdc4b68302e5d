//! The places of keys that no path leads to, since other keys have the whole of their hashes.
ghost use Rattle.std.specs.Prelude.{◌≡◌, List, None, ℕ, Some, true, OnOk};
ghost use Rattle.sno_value.specs.declared.value.Value.{Value};
ghost use Rattle.sno_store.specs.inner.Doubles.{id_of, key_place, name_id, text_place, Stay};

use sno_value::{Name, Value};
use std::alloc::{AllocError, Global};
use std::collections::BTreeMap;

/// What tells a key that is no text from others: its type, its own number, and what it names of an object.
type Id = (u8, i64, u32);

/// The places of texts, which are kept in order.
#[derive(Drop)]
pub(crate) struct TextDoubles {
    alloc: Global,
    places: BTreeMap<Vec<u8>, u32>,
}

impl TextDoubles {
    /// No texts. It takes no memory.
    pub(crate) fn new(alloc: Global) -> TextDoubles {
        TextDoubles {
            alloc,
            places: BTreeMap::new(alloc),
        }
    }

    /// Whether there are none.
    #[inline(always)]
    pub(crate) fn is_empty(&self) -> bool
        ensures { result ≡ true → (text : List ℕ) → text_place self.now text ≡ None }
    {
        self.places.is_empty()
    }

    /// The place that a text was given last.
    pub(crate) fn find(&self, text: &[u8]) -> Option<u32>
        ensures { result ≡ text_place self.now text.now }
    {
        let place = self.places.get(text)?;
        Some(*place)
    }

    /// A text is given a place.
    pub(crate) fn insert(&mut self, text: &[u8], place: u32) -> Result<(), AllocError>
        ensures own { OnOk result (text_place self.new text.now ≡ Some place) }
        ensures others { Stay text.now (text_place self.old) (text_place self.new) }
    {
        let key = text.to_vec(self.alloc)?;
        self.places.insert(key, place)?;
        Ok(())
    }
}

/// The places of a table's keys: of texts, and of keys of other types.
#[derive(Drop)]
pub(crate) struct KeyDoubles {
    texts: TextDoubles,
    others: BTreeMap<Id, u32>,
}

impl KeyDoubles {
    /// No keys. It takes no memory.
    pub(crate) fn new(alloc: Global) -> KeyDoubles {
        KeyDoubles {
            texts: TextDoubles::new(alloc),
            others: BTreeMap::new(alloc),
        }
    }

    /// Whether there are none.
    #[inline(always)]
    pub(crate) fn is_empty(&self) -> bool
        ensures { result ≡ true → (key : Value) → key_place self.now key ≡ None }
    {
        self.texts.is_empty() && self.others.is_empty()
    }

    /// The place that a key was given last.
    pub(crate) fn find(&self, key: &Value) -> Option<u32>
        ensures { result ≡ key_place self.now key.now }
    {
        if let Value::Str(text) = key {
            return self.texts.find(text.as_slice());
        }
        let place = self.others.get(&id_of(key))?;
        Some(*place)
    }

    /// A key is given a place.
    pub(crate) fn insert(&mut self, key: &Value, place: u32) -> Result<(), AllocError>
        ensures own { OnOk result (key_place self.new key.now ≡ Some place) }
        ensures others { Stay key.now (key_place self.old) (key_place self.new) }
    {
        if let Value::Str(text) = key {
            self.texts.insert(text.as_slice(), place)?;
            return Ok(());
        }
        self.others.insert(id_of(key), place)?;
        Ok(())
    }
}

/// What tells a key from others that are no texts.
fn id_of(key: &Value) -> Id
    ensures { result ≡ id_of key.now }
{
    match key {
        Value::Str(_) => (0, 0, 0),
        Value::Int(n) => (5, *n, 0),
        Value::Name(name) => name_id(name),
        Value::Array(object) => (6, i64::from(object.0), 0),
        Value::Table(object) => (7, i64::from(object.0), 0),
        Value::Data(object) => (8, i64::from(object.0), 0),
        Value::Pat(pattern) => (9, i64::from(pattern.0), 0),
        Value::Expr(expression) => (10, i64::from(expression.0), 0),
    }
}

/// The same of a name.
fn name_id(name: &Name) -> Id
    ensures { result ≡ name_id name.now }
{
    match name {
        Name::Var(symbol) => (1, i64::from(symbol.0), 0),
        Name::Elem(object, place) => (2, i64::from(object.0), *place),
        Name::Entry(object, place) => (3, i64::from(object.0), *place),
        Name::Field(object, place) => (4, i64::from(object.0), *place),
    }
}
