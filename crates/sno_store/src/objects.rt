//! Arrays, tables and objects by their numbers.
ghost use Rattle.std.specs.Prelude.{◌≡◌, ◌<◌, [], length, option_copied, option_map, unwrap_or};
ghost use Rattle.sno_value.specs.declared.value.Value.TheVariants.{Str};
ghost use Rattle.sno_store.specs.Arrays.{new_array};
ghost use Rattle.sno_store.specs.Objects.{DataOf, TableOf, array_at, table_at, fields_at, type_at, changed};
ghost use Rattle.sno_store.specs.Objects.{element_value, entry_value, field_value, joined, with_element};
ghost use Rattle.sno_store.specs.Objects.{with_entry_value, with_field};
ghost use Rattle.sno_store.specs.inner.Seen.{seen, Does};
ghost use Rattle.sno_store.specs.Stored.{stored_notions};
ghost use Rattle.sno_store.specs.Tables.{make_entry, table_to_array};
ghost use Rattle.sno_store.specs.Types.{field_values};

use crate::elements::{Elements, of_rows, uniform};
use crate::entries::{Entries, entry_in, is_key};
use crate::error::StoreError;
use crate::instance::{Instance, field_values};
use crate::object::Object;
use crate::prototype::{MOST_ELEMENTS, count_of};
use sno_value::{Name, ObjId, Value};
use std::alloc::Global;
use std::marker::Model;

/// How many arrays, tables and objects of a program's own types a store holds at most (this profile).
const MOST_OBJECTS: usize = 1_000_000;

/// Arrays, tables and objects of the types that a program makes, numbered from 0.
#[derive(Drop)]
pub(crate) struct Objects {
    alloc: Global,
    objects: Vec<Object>,
}

impl Model for Objects {
    ghost use Rattle.std.specs.Prelude.{List, ◌≤◌, length, map};
    ghost use Rattle.sno_value.specs.declared.value.Value.{Value as Stored};
    ghost use Rattle.sno_store.specs.Objects.{Object as Shown};
    ghost use Rattle.sno_store.specs.inner.Seen.{seen};

    ghost Value = { List (Shown Stored) };

    ghost view = { λ s. map seen s.objects.items };

    ghost invariant = { λ s. length s.objects.items ≤ 1_000_000 };
}

impl Objects {
    /// No objects. It takes no memory.
    pub(crate) fn new(alloc: Global) -> Objects
        ensures { result ≡ [] }
    {
        Objects {
            alloc,
            objects: Vec::new(alloc),
        }
    }

    /// The array with this number, if it is one's.
    pub(crate) fn array(&self, id: ObjId) -> Option<&Elements>
        ensures { option_copied result ≡ array_at self.now id }
    {
        self.objects.get(id.0 as usize)?.array()
    }

    /// The table with this number, if it is one's.
    pub(crate) fn table(&self, id: ObjId) -> Option<&Entries>
        ensures { option_copied result ≡ table_at self.now id }
    {
        self.objects.get(id.0 as usize)?.table()
    }

    /// The value of an element, if there is one.
    #[inline(always)]
    pub(crate) fn element_value(&self, id: ObjId, element: u32) -> Option<&Value>
        ensures { unwrap_or (option_copied result) (Str []) ≡ element_value (Str []) (array_at self.now id) element }
    {
        self.array(id)?.get(element)
    }

    /// The value of an entry, if there is one.
    pub(crate) fn entry_value(&self, id: ObjId, entry: u32) -> Option<&Value>
        ensures { unwrap_or (option_copied result) (Str []) ≡ entry_value (Str []) (table_at self.now id) entry }
    {
        self.table(id)?.get(entry)
    }

    /// The object of a type that the program made with this number, if it is one's.
    fn instance(&self, id: ObjId) -> Option<&Instance>
        ensures number { option_map (λ instance. instance.data_type) (option_copied result) ≡ type_at self.now id }
        ensures fields { option_map (λ instance. instance.fields.items) (option_copied result) ≡ fields_at self.now id }
    {
        self.objects.get(id.0 as usize)?.instance()
    }

    /// The number of the type of such an object, if it is one's.
    pub(crate) fn data_type(&self, id: ObjId) -> Option<u32>
        ensures { result ≡ type_at self.now id }
    {
        let instance = self.instance(id)?;
        Some(instance.data_type)
    }

    /// The value of a field, if there is one.
    pub(crate) fn field_value(&self, id: ObjId, field: u32) -> Option<&Value>
        ensures { unwrap_or (option_copied result) (Str []) ≡ field_value (Str []) (fields_at self.now id) field }
    {
        self.instance(id)?.get(field)
    }

    /// An element is given a value. Nothing changes where there is no such element.
    #[inline(always)]
    pub(crate) fn set_element(&mut self, id: ObjId, element: u32, value: Value)
        ensures { self.new ≡ changed (with_element element value) self.old id }
    {
        let place = id.0 as usize;
        if place < self.objects.len() {
            let object = &mut self.objects[place];
            object.set_element(element, value);
        }
    }

    /// An entry is given a value. Nothing changes where there is no such entry.
    #[inline(always)]
    pub(crate) fn set_entry(&mut self, id: ObjId, entry: u32, value: Value)
        ensures { self.new ≡ changed (with_entry_value entry value) self.old id }
    {
        let place = id.0 as usize;
        if place < self.objects.len() {
            let object = &mut self.objects[place];
            object.set_entry(entry, value);
        }
    }

    /// A field is given a value. Nothing changes where there is no such field.
    #[inline(always)]
    pub(crate) fn set_field(&mut self, id: ObjId, field: u32, value: Value)
        ensures { self.new ≡ changed (with_field field value) self.old id }
    {
        let place = id.0 as usize;
        if place < self.objects.len() {
            let object = &mut self.objects[place];
            object.set_field(field, value);
        }
    }

    /// A new object, with the next number.
    fn add(&mut self, object: Object) -> Result<ObjId, StoreError>
        ensures { Does (joined (seen object)) self.old self.new result }
    {
        if self.objects.len() == MOST_OBJECTS {
            return Err(StoreError::Full);
        }
        let id = ObjId(self.objects.len() as u32);
        self.objects.push(object)?;
        Ok(id)
    }

    /// A new array with this prototype, each of whose elements has the value.
    pub(crate) fn new_array(&mut self, prototype: &[u8], value: &Value) -> Result<ObjId, StoreError>
        ensures { Does (new_array prototype.now value.now) self.old self.new result }
    {
        let Some(count) = count_of(prototype) else {
            return Err(StoreError::BadPrototype)
        };
        if count > MOST_ELEMENTS || self.objects.len() == MOST_OBJECTS {
            return Err(StoreError::Full);
        }
        let elements = uniform(self.alloc, prototype, count, value)?;
        let elements = Box::new(self.alloc, elements)?;
        let id = self.add(Object::Array(elements))?;
        Ok(id)
    }

    /// A new table without entries.
    pub(crate) fn new_table(&mut self) -> Result<ObjId, StoreError>
        ensures { Does (joined (TableOf [])) self.old self.new result }
    {
        let room = MOST_OBJECTS - self.objects.len();
        if room == 0 {
            return Err(StoreError::Full);
        }
        let entries = Entries::boxed(self.alloc)?;
        let id = self.add(Object::Table(entries))?;
        Ok(id)
    }

    /// A new object of the type with this number, which has so many fields.
    pub(crate) fn new_data(
        &mut self,
        data_type: u32,
        count: usize,
        values: &mut [Value],
    ) -> Result<ObjId, StoreError>
        ensures { Does (joined (DataOf data_type (field_values (Str []) count values.old))) self.old self.new result }
    {
        let room = MOST_OBJECTS - self.objects.len();
        if room == 0 {
            return Err(StoreError::Full);
        }
        let fields = field_values(self.alloc, count, values)?;
        let id = self.add(Object::Data(Instance { data_type, fields }))?;
        Ok(id)
    }

    /// The entry of a table with a key, which is made where there is none.
    pub(crate) fn entry(&mut self, id: ObjId, key: Value) -> Result<Name, StoreError>
        ensures { Does (make_entry stored_notions id key) self.old self.new result }
    {
        if !is_key(&key) {
            return Err(StoreError::WrongType);
        }
        let place = id.0 as usize;
        if place >= self.objects.len() {
            return Err(StoreError::WrongType);
        }
        let object = &mut self.objects[place];
        let Object::Table(entries) = object else {
            return Err(StoreError::WrongType)
        };
        let entry = entry_in(entries, key)?;
        Ok(Name::Entry(id, entry))
    }

    /// An array of the entries of a table whose value isn't null, if there are any.
    pub(crate) fn table_to_array(&mut self, id: ObjId) -> Result<Option<ObjId>, StoreError>
        ensures { Does (table_to_array stored_notions id) self.old self.new result }
    {
        let Some(entries) = self.table(id) else {
            return Err(StoreError::WrongType)
        };
        let count = entries.filled();
        if count == 0 {
            return Ok(None);
        }
        if 2 * count > MOST_ELEMENTS as usize || self.objects.len() == MOST_OBJECTS {
            return Err(StoreError::Full);
        }
        let elements = of_rows(self.alloc, count, entries)?;
        let elements = Box::new(self.alloc, elements)?;
        let array = self.add(Object::Array(elements))?;
        Ok(Some(array))
    }
}
