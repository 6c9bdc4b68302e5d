//! Values, and the names that can be assigned to.
ghost use Rattle.std.specs.Prelude.{◌≡◌, [], ℕ, List, IfOk, OnErr};

use crate::ids::{ExprId, ObjId, PatId, SymId};
use crate::text::Text;
use std::alloc::AllocError;

/// What can be assigned to: a variable, an element of an array, an entry of a table, or a field of an object. Elements
/// and entries are counted from 0, and so are fields, in the order in which the object's type names them.
#[derive(Clone, Copy, Debug, PartialEq, Eq, Hash)]
pub enum Name {
    Var(SymId),
    Elem(ObjId, u32),
    Entry(ObjId, u32),
    Field(ObjId, u32),
}

/// A value of a program.
#[derive(Debug, Drop, PartialEq, Eq, Hash)]
pub enum Value {
    Str(Text),
    Int(i64),
    Pat(PatId),
    Expr(ExprId),
    Name(Name),
    Array(ObjId),
    Table(ObjId),
    /// An object of a type that the program made.
    Data(ObjId),
}

impl Value {
    /// The null string.
    pub fn null() -> Value
        ensures { result ≡ Value.Str [] }
    {
        Value::Str(Text::null())
    }

    /// An equal value. Only a string can be refused, where its bytes have as many owners as can be counted.
    pub fn copy(&self) -> Result<Value, AllocError>
        ensures equal { IfOk result (λ value. value ≡ self.now) }
        ensures only_strings { OnErr result ((text : List ℕ) × (self.now ≡ Value.Str text)) }
    {
        Ok(match self {
            Value::Str(text) => Value::Str(text.copy()?),
            Value::Int(n) => Value::Int(*n),
            Value::Pat(pattern) => Value::Pat(*pattern),
            Value::Expr(expression) => Value::Expr(*expression),
            Value::Name(name) => Value::Name(*name),
            Value::Array(array) => Value::Array(*array),
            Value::Table(table) => Value::Table(*table),
            Value::Data(object) => Value::Data(*object),
        })
    }
}
