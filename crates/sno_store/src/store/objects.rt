//! Arrays, tables and objects of a program's own types.
ghost use Rattle.std.specs.Prelude.{◌≡◌, [], option_copied};
ghost use Rattle.sno_value.specs.declared.value.Value.TheVariants.{Str};
ghost use Rattle.sno_store.specs.Arrays.{new_array, element_name, prototype_of};
ghost use Rattle.sno_store.specs.Outcomes.{IsAnswered, IsDone, itself};
ghost use Rattle.sno_store.specs.Stored.{stored_notions};
ghost use Rattle.sno_store.specs.Tables.{new_table, find_entry, make_entry, table_to_array};
ghost use Rattle.sno_store.specs.Types.{field_name, new_data, object_type, type_name};

use crate::data_type::DataType;
use crate::entries::is_key;
use crate::error::StoreError;
use crate::store::Store;
use sno_value::{Name, ObjId, SymId, Value};

impl Store {
    /// A new array, each of whose elements has the value. A prototype has one dimension or more, with commas between
    /// them; each is `n`, from 1 to n, or `l:u`, from l to u, of an optional sign and digits, without blanks (this
    /// profile).
    ///
    /// Another text is `BadPrototype`, and so are a bound that doesn't fit 64 bits, an n less than 1 and a u less than
    /// l. More than 1,000,000 elements are `Full`, and so is an array beside 1,000,000 arrays, tables and objects.
    pub fn new_array(&mut self, prototype: &[u8], value: &Value) -> Result<ObjId, StoreError>
        ensures { IsDone itself (new_array prototype.now value.now) self.old self.new result }
    {
        let id = self.objects.new_array(prototype, value)?;
        Ok(id)
    }

    /// A new table without entries. Beside 1,000,000 arrays, tables and objects it is `Full`.
    pub fn new_table(&mut self) -> Result<ObjId, StoreError>
        ensures { IsDone itself new_table self.old self.new result }
    {
        let id = self.objects.new_table()?;
        Ok(id)
    }

    /// The element of an array that subscripts name, which is None where one is out of its dimension's range. The last
    /// subscript varies fastest (this profile). It takes no memory.
    ///
    /// It is `WrongType` where the number is no array's, and `BadPrototype` where there are more or fewer subscripts
    /// than dimensions.
    pub fn element(&self, array: ObjId, subscripts: &[i64]) -> Result<Option<Name>, StoreError>
        ensures { IsAnswered itself (element_name self.now.objects array subscripts.now) result }
    {
        let Some(elements) = self.objects.array(array) else {
            return Err(StoreError::WrongType)
        };
        if subscripts.len() != elements.rank() {
            return Err(StoreError::BadPrototype);
        }
        match elements.place(subscripts) {
            Some(place) => Ok(Some(Name::Elem(array, place))),
            None => Ok(None),
        }
    }

    /// The text of the prototype that an array was made by. It is `WrongType` where the number is no array's.
    pub fn prototype(&self, array: ObjId) -> Result<&[u8], StoreError>
        ensures { IsAnswered (λ text. text.now) (prototype_of self.now.objects array) result }
    {
        match self.objects.array(array) {
            Some(elements) => Ok(elements.prototype()),
            None => Err(StoreError::WrongType),
        }
    }

    /// The entry of a table with this key, if there is one. Keys are equal where their types and values are,
    /// and an object is equal to itself alone. It takes
    /// expected constant time beside the length of the key's text, and no memory.
    ///
    /// It is `WrongType` where the number is no table's, and where the key is a pattern or an expression.
    pub fn find(&self, table: ObjId, key: &Value) -> Result<Option<Name>, StoreError>
        ensures { IsAnswered itself (find_entry stored_notions self.now.objects table key.now) result }
    {
        let Some(entries) = self.objects.table(table) else {
            return Err(StoreError::WrongType)
        };
        if !is_key(key) {
            return Err(StoreError::WrongType);
        }
        match entries.find(key) {
            Some(place) => Ok(Some(Name::Entry(table, place))),
            None => Ok(None),
        }
    }

    /// The entry of a table with this key. Where there was none, it is a new last one, whose value is null.
    ///
    /// It is `WrongType` where `find` is; a new entry beside 1,000,000 others is `Full` (this profile).
    pub fn entry(&mut self, table: ObjId, key: Value) -> Result<Name, StoreError>
        ensures { IsDone itself (make_entry stored_notions table key) self.old self.new result }
    {
        let name = self.objects.entry(table, key)?;
        Ok(name)
    }

    /// A new array of the n entries of a table whose value isn't null, in the order in which their keys joined. Its
    /// prototype is `n,2`, and a row is a key and its value. Where n is 0, there is none.
    ///
    /// It is `WrongType` where the number is no table's, and `Full` where `new_array` would be.
    pub fn table_to_array(&mut self, table: ObjId) -> Result<Option<ObjId>, StoreError>
        ensures { IsDone itself (table_to_array stored_notions table) self.old self.new result }
    {
        let array = self.objects.table_to_array(table)?;
        Ok(array)
    }

    /// A new object of the type with this number, whose fields have the values in the prototype's order: missing ones
    /// are null, and extra ones are dropped. An object of no type has no fields.
    ///
    /// Beside 1,000,000 arrays, tables and objects it is `Full` (this profile).
    pub fn new_data(&mut self, data_type: u32, values: Vec<Value>) -> Result<ObjId, StoreError>
        ensures { IsDone itself (new_data (Str []) self.old.types data_type values.items) self.old self.new result }
    {
        let mut values = values;
        let id = self.new_data_with(data_type, values.as_mut_slice())?;
        Ok(id)
    }

    /// The same as `new_data`, but the values are moved out of their places, which stay the caller's.
    pub fn new_data_with(
        &mut self,
        data_type: u32,
        values: &mut [Value],
    ) -> Result<ObjId, StoreError>
        ensures { IsDone itself (new_data (Str []) self.old.types data_type values.old) self.old self.new result }
    {
        let count = match self.types.get(data_type as usize) {
            Some(declared) => declared.count(),
            None => 0,
        };
        let id = self.objects.new_data(data_type, count, values)?;
        Ok(id)
    }

    /// The field of an object that a symbol names, if the object's type has one. It takes no memory, and time for the
    /// fields of this type alone.
    pub fn field(&self, object: ObjId, symbol: SymId) -> Option<Name>
        ensures { result ≡ field_name self.now.types self.now.objects object symbol.0 }
    {
        let declared = self.type_of(object)?;
        let field = declared.field(symbol)?;
        Some(Name::Field(object, field))
    }

    /// The name of an object's type. It is empty where the number is no object's. It takes no memory.
    pub fn type_name(&self, object: ObjId) -> &[u8]
        ensures { result.now ≡ type_name self.now.types self.now.objects object }
    {
        match self.type_of(object) {
            Some(declared) => declared.name(),
            None => b"",
        }
    }

    /// The type of an object, if the number is one's.
    fn type_of(&self, object: ObjId) -> Option<&DataType>
        ensures { option_copied result ≡ object_type self.now.types self.now.objects object }
    {
        let number = self.objects.data_type(object)?;
        self.types.get(number as usize)
    }
}
