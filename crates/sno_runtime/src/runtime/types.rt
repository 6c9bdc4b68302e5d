//! What evaluation asks of types that a program makes, and of their objects.
ghost use Rattle.std.specs.Prelude.{◌≡◌, ◌≤◌, ℕ, List, length, map};
ghost use Rattle.std.specs.List.{AllByRecursion};
ghost use Rattle.sno_store.specs.Functions.{function_at};
ghost use Rattle.sno_runtime.specs.Fields.{makes_object, is_made};
ghost use Rattle.sno_runtime.specs.Types.{makes_type, type_name};
ghost use Rattle.sno_runtime.specs.Values.{shown, IsValueOf};
ghost use Rattle.sno_runtime.specs.Runtime.{itself, world};
ghost use Rattle.sno_runtime.specs.inner.Runtime.{Does, any};

use crate::runtime::Runtime;
use crate::stops::Exit;
use sno_value::{Name, ObjId, SymId, Value};

impl Runtime {
    /// Whether DATA is a function.
    pub fn has_data(&self) -> bool
        ensures { result ≡ self.now.keywords.has_data }
    {
        self.keywords.has_data()
    }

    /// Makes a type by its prototype, whose names join the symbols: its name is that of a constructor from then on, and
    /// the others are fields. Another text than a prototype of a type is error 12; more than 100,000 types or 1,000,000
    /// symbols are error 9.
    pub fn define_data(&mut self, prototype: &[u8]) -> Result<(), Exit>
        requires { length prototype.now ≤ 1_000_000 }
        ensures { Does itself any (makes_type prototype.now) self.old self.new result }
    {
        self.store.define_data(prototype)?;
        Ok(())
    }

    /// Whether the program has made a function of this name: one with a definition, a constructor or a field.
    pub fn is_made(&self, function: SymId) -> bool
        ensures { result ≡ is_made (function_at self.now.store.functions function.0) }
    {
        self.store.definition(function).is_some()
            || self.store.constructor(function).is_some()
            || self.store.is_field(function)
    }

    /// A new object of a type, into which the values of its fields are moved: missing ones are null, and extra ones are
    /// dropped. Beside 1,000,000 arrays, tables and objects it is error 9.
    pub fn new_data(&mut self, number: u32, fields: &mut [Value]) -> Result<ObjId, Exit>
        requires { AllByRecursion (IsValueOf self.old.nodes) fields.old }
        ensures { Does itself any (makes_object number (map (shown self.old.nodes) fields.old))
            self.old self.new result }
    {
        let id = self.store.new_data_with(number, fields)?;
        Ok(id)
    }

    /// The name of a value's type: of an object that of the type that the program made it of.
    pub fn type_name(&self, value: &Value) -> &[u8]
        ensures name { (more : List ℕ) → result.now ≡ type_name (world self.now more) (shown self.now.nodes value.now) }
        ensures short { length result.now ≤ 1_000_000 }
    {
        match value {
            Value::Str(_) => b"STRING",
            Value::Int(_) => b"INTEGER",
            Value::Pat(_) => b"PATTERN",
            Value::Expr(_) => b"EXPRESSION",
            Value::Name(_) => b"NAME",
            Value::Array(_) => b"ARRAY",
            Value::Table(_) => b"TABLE",
            Value::Data(object) => self.store.type_name(*object),
        }
    }
}
