//! Arrays, tables and objects of the types that a program makes.
ghost use Rattle.std.specs.Prelude.{◌≡◌, Some, option_map, option_copied};
ghost use Rattle.sno_store.specs.Objects.{as_array, as_fields, as_table, as_type, with_element, with_entry_value};
ghost use Rattle.sno_store.specs.Objects.{with_field};
ghost use Rattle.sno_store.specs.inner.Seen.{seen};

use crate::elements::Elements;
use crate::entries::Entries;
use crate::instance::Instance;
use sno_value::Value;

/// An array, a table, or an object of a type that the program made. Of the latter a program has many, so the others,
/// which are larger, lie apart.
#[derive(Drop)]
pub(crate) enum Object {
    Array(Box<Elements>),
    Table(Box<Entries>),
    Data(Instance),
}

impl Object {
    /// The array, if it is one.
    pub(crate) fn array(&self) -> Option<&Elements>
        ensures { option_copied result ≡ as_array (Some (seen self.now)) }
    {
        match self {
            Object::Array(elements) => Some(elements),
            Object::Table(_) | Object::Data(_) => None,
        }
    }

    /// The table, if it is one.
    pub(crate) fn table(&self) -> Option<&Entries>
        ensures { option_copied result ≡ as_table (Some (seen self.now)) }
    {
        match self {
            Object::Table(entries) => Some(entries),
            Object::Array(_) | Object::Data(_) => None,
        }
    }

    /// The object of a type that the program made, if it is one.
    pub(crate) fn instance(&self) -> Option<&Instance>
        ensures number { option_map (λ instance. instance.data_type) (option_copied result)
            ≡ as_type (Some (seen self.now)) }
        ensures fields { option_map (λ instance. instance.fields.items) (option_copied result)
            ≡ as_fields (Some (seen self.now)) }
    {
        match self {
            Object::Data(instance) => Some(instance),
            Object::Array(_) | Object::Table(_) => None,
        }
    }

    /// An element is given a value. Nothing changes where there is none with this number.
    pub(crate) fn set_element(&mut self, element: u32, value: Value)
        ensures { seen self.new ≡ with_element element value (seen self.old) }
    {
        if let Object::Array(elements) = self {
            elements.set(element, value);
        }
    }

    /// An entry is given a value. Nothing changes where there is none with this number.
    pub(crate) fn set_entry(&mut self, entry: u32, value: Value)
        ensures { seen self.new ≡ with_entry_value entry value (seen self.old) }
    {
        if let Object::Table(entries) = self {
            entries.set(entry, value);
        }
    }

    /// A field is given a value. Nothing changes where there is none with this number.
    pub(crate) fn set_field(&mut self, field: u32, value: Value)
        ensures { seen self.new ≡ with_field field value (seen self.old) }
    {
        if let Object::Data(instance) = self {
            instance.set(field, value);
        }
    }
}
