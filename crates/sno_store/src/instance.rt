//! Objects of the types that a program makes.
ghost use Rattle.std.specs.Prelude.{◌≡◌, ◌+◌, [], drop, option_copied, slice_get, slice_index_or, slice_set, IfOk};
ghost use Rattle.sno_value.specs.declared.value.Value.TheVariants.{Str};
ghost use Rattle.sno_store.specs.Types.{field_values};

use sno_value::Value;
use std::alloc::{AllocError, Global};
use std::mem;

/// An object of a type that the program made: the number of the type, and the values of its fields.
#[derive(Drop)]
pub(crate) struct Instance {
    pub(crate) data_type: u32,
    pub(crate) fields: Vec<Value>,
}

impl Instance {
    /// The value of a field, if there is one with this number.
    pub(crate) fn get(&self, field: u32) -> Option<&Value>
        ensures { option_copied result ≡ slice_get self.now.fields.items field }
    {
        self.fields.get(field as usize)
    }

    /// A field is given a value. Nothing changes where there is none with this number.
    pub(crate) fn set(&mut self, field: u32, value: Value)
        ensures number { self.new.data_type ≡ self.old.data_type }
        ensures fields { self.new.fields.items ≡ slice_set self.old.fields.items field value }
    {
        let place = field as usize;
        if place < self.fields.len() {
            self.fields[place] = value;
        }
    }
}

/// The values of so many fields, which are moved out of their places: missing ones are null, and extra ones stay. They
/// have their room alone.
pub(crate) fn field_values(
    alloc: Global,
    count: usize,
    values: &mut [Value],
) -> Result<Vec<Value>, AllocError>
    ensures { IfOk result (λ fields. fields.items ≡ field_values (Str []) count values.old) }
{
    let mut fields = Vec::with_capacity(alloc, count)?;
    'fields: for field in 0..count {
        let value = take_at(values, field);
        fields.push(value).unwrap();
    }
    Ok(fields)
}

/// The value at a place, which is moved out of it. A missing one is null.
fn take_at(values: &mut [Value], place: usize) -> Value
    ensures value { result ≡ slice_index_or values.old place (Str []) }
    ensures rest { drop (place + 1) values.new ≡ drop (place + 1) values.old }
{
    if place < values.len() {
        mem::replace(&mut values[place], Value::null())
    } else {
        Value::null()
    }
}
