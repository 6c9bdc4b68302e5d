//! What evaluation asks of arrays and tables.
ghost use Rattle.std.specs.Prelude.{◌≤◌, length};
ghost use Rattle.sno_store.specs.Arrays.{new_array};
ghost use Rattle.sno_store.specs.Tables.{new_table, make_entry, table_to_array};
ghost use Rattle.sno_runtime.specs.Values.{shown, IsValueOf, Array};
ghost use Rattle.sno_runtime.specs.Containers.{notions, does, prototype};
ghost use Rattle.sno_runtime.specs.Runtime.{itself};
ghost use Rattle.sno_runtime.specs.inner.Runtime.{Does, any};

use crate::runtime::Runtime;
use crate::stops::Exit;
use sno_value::{Name, ObjId, Text, Value};

impl Runtime {
    /// A new array, each of whose elements has the value. A text that is no prototype is error 12; more than 1,000,000
    /// elements are error 9, and so is an array beside 1,000,000 arrays and tables.
    pub fn new_array(&mut self, prototype: &[u8], value: &Value) -> Result<ObjId, Exit>
        requires prototype { length prototype.now ≤ 1_000_000 }
        requires value { IsValueOf self.old.nodes value.now }
        ensures { Does itself any (does (new_array prototype.now (shown self.old.nodes value.now)))
            self.old self.new result }
    {
        let id = self.store.new_array(prototype, value)?;
        Ok(id)
    }

    /// A new table without entries. Beside 1,000,000 arrays and tables it is error 9.
    pub fn new_table(&mut self) -> Result<ObjId, Exit>
        ensures { Does itself any (does new_table) self.old self.new result }
    {
        let id = self.store.new_table()?;
        Ok(id)
    }

    /// The text of the prototype that an array was made by; error 1 where there is no such array.
    pub fn prototype(&self, array: ObjId) -> Result<Value, Exit>
        ensures { Does shown IsValueOf (prototype (Array array.0)) self.now self.now result }
    {
        let text = Text::from_slice(self.alloc, self.store.prototype(array)?)?;
        Ok(Value::Str(text))
    }

    /// The entry of a table with this key, which is a new last one with null where there was none. It is error 1 where
    /// there is no such table, and where the value may be no key, and error 9 where there are 1,000,000 entries.
    pub fn entry(&mut self, table: ObjId, key: Value) -> Result<Name, Exit>
        requires { IsValueOf self.old.nodes key }
        ensures { Does itself any (does (make_entry notions table (shown self.old.nodes key)))
            self.old self.new result }
    {
        let name = self.store.entry(table, key)?;
        Ok(name)
    }

    /// A new array of the entries of a table whose value isn't null, if there are any. It is error 1 where there is no
    /// such table, and error 9 where `new_array` is.
    pub fn table_to_array(&mut self, table: ObjId) -> Result<Option<ObjId>, Exit>
        ensures { Does itself any (does (table_to_array notions table)) self.old self.new result }
    {
        let array = self.store.table_to_array(table)?;
        Ok(array)
    }
}
