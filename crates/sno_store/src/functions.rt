//! What the names of functions are, by the numbers of their symbols.
ghost use Rattle.std.specs.Prelude.{◌≡◌, ◌<◌, ◌≤◌, [], map, option_copied, vec_capacity, OnOk, OnErr};
ghost use Rattle.sno_store.specs.declared.functions.Function.TheVariants.{Constructs, Defined, IsField};
ghost use Rattle.sno_store.specs.Functions.{constructor_at, definition_at, is_field_at, with_function};
ghost use Rattle.sno_store.specs.inner.Seen.{reach};
ghost use Rattle.sno_store.specs.Types.{with_fields};

use crate::definition::Definition;
use sno_value::SymId;
use std::alloc::{AllocError, Global};
use std::marker::Model;

/// What the name of a function is: what the latest DEFINE or DATA that names it has made it.
#[derive(Drop)]
pub(crate) enum Function {
    /// Nothing that the program made.
    Undefined,
    /// A function that the program defined.
    Defined(Definition),
    /// The constructor of the type with this number.
    Constructs(u32),
    /// A field of objects.
    IsField,
}

/// What names are, by the numbers of their symbols, which contracts see as a list.
#[derive(Drop)]
pub(crate) struct Functions {
    functions: Vec<Function>,
}

impl Model for Functions {
    ghost use Rattle.std.specs.Prelude.{List};
    ghost use Rattle.sno_store.specs.declared.functions.Function.{Function as Kept};

    ghost Value = { List Kept };

    ghost view = { λ s. s.functions.items };
}

impl Functions {
    /// No functions. It takes no memory.
    pub(crate) fn new(alloc: Global) -> Functions
        ensures { result ≡ [] }
    {
        Functions {
            functions: Vec::new(alloc),
        }
    }

    /// The definition of a function, if it has one.
    pub(crate) fn definition(&self, function: SymId) -> Option<&Definition>
        ensures { option_copied result ≡ definition_at self.now function.0 }
    {
        match self.functions.get(function.0 as usize) {
            Some(Function::Defined(definition)) => Some(definition),
            _ => None,
        }
    }

    /// The number of the type whose constructor a function is, if it is one.
    pub(crate) fn constructor(&self, function: SymId) -> Option<u32>
        ensures { result ≡ constructor_at self.now function.0 }
    {
        match self.functions.get(function.0 as usize) {
            Some(Function::Constructs(number)) => Some(*number),
            _ => None,
        }
    }

    /// Whether a function is a field.
    pub(crate) fn is_field(&self, function: SymId) -> bool
        ensures { result ≡ is_field_at self.now function.0 }
    {
        matches!(
            self.functions.get(function.0 as usize),
            Some(Function::IsField)
        )
    }

    /// A function is given a definition, in place of what it may be.
    pub(crate) fn define(
        &mut self,
        function: SymId,
        definition: Definition,
    ) -> Result<(), AllocError>
        ensures ok { OnOk result (self.new ≡ with_function function.0 (Defined definition) self.old) }
        ensures err { OnErr result (self.new ≡ self.old) }
    {
        let names = [function];
        let missing = reach(&names).saturating_sub(self.functions.len());
        self.functions.reserve(missing)?;
        put(&mut self.functions, function, Function::Defined(definition));
        Ok(())
    }

    /// A function becomes the constructor of the type with this number, and others become fields.
    pub(crate) fn construct(
        &mut self,
        constructor: SymId,
        number: u32,
        fields: &[SymId],
    ) -> Result<(), AllocError>
        ensures ok { OnOk result
            (self.new ≡ with_fields (map (λ id. id.0) fields.now)
            (with_function constructor.0 (Constructs number) self.old)) }
        ensures err { OnErr result (self.new ≡ self.old) }
    {
        let names = [constructor];
        let all = reach(&names).max(reach(fields));
        let missing = all.saturating_sub(self.functions.len());
        self.functions.reserve(missing)?;
        put(
            &mut self.functions,
            constructor,
            Function::Constructs(number),
        );
        put_fields(&mut self.functions, fields);
        Ok(())
    }
}

/// How long a list is that has a place for each of these symbols.
fn reach(symbols: &[SymId]) -> usize
    ensures { result ≡ reach symbols.now }
{
    let mut reach = 0;
    'symbols: for symbol in symbols {
        reach = reach.max(symbol.0 as usize + 1);
    }
    reach
}

/// A function is put in the place of what it may be. The list has room for it.
fn put(functions: &mut Vec<Function>, name: SymId, function: Function)
    requires room { name.0 < vec_capacity functions.old }
    ensures functions { functions.new.items ≡ with_function name.0 function functions.old.items }
    ensures room { vec_capacity functions.old ≤ vec_capacity functions.new }
{
    let place = name.0 as usize;
    let missing = (place + 1).saturating_sub(functions.len());
    'missing: for _added in 0..missing {
        functions.push(Function::Undefined).unwrap();
    }
    functions[place] = function;
}

/// Functions become fields. The list has room for them.
fn put_fields(functions: &mut Vec<Function>, fields: &[SymId])
    requires room { reach fields.now ≤ vec_capacity functions.old }
    ensures { functions.new.items ≡ with_fields (map (λ id. id.0) fields.now) functions.old.items }
{
    'fields: for field in fields {
        put(functions, *field, Function::IsField);
    }
}
