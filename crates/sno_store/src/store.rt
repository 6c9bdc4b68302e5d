//! The store: symbols, variables, arrays, tables and objects of a program's own types, and functions with their calls.
ghost use Rattle.std.specs.Prelude.{◌≡◌, ◌<◌, ◌≤◌, ℕ, List, [], ◌∷◌, ◌++◌, length, true, false};
ghost use Rattle.std.specs.Prelude.{slice_index_or, Some, option_map, IfSome, IfOk};
ghost use Rattle.std.specs.Prelude.{OnOk, OnErr};
ghost use Rattle.sno_value.specs.declared.value.Value.TheVariants.{Str};
ghost use Rattle.sno_store.specs.Calls.{function_value, restored};
ghost use Rattle.sno_store.specs.Store.{new_store, is_symbol, IsJoined, value_of, with_value};
ghost use Rattle.sno_store.specs.Definitions.{Definition as Shown};
ghost use Rattle.sno_store.specs.Functions.{definition_at};
ghost use Rattle.sno_store.specs.First.{first_patterns, IsBeginning};
ghost use Rattle.sno_store.specs.Outcomes.{IsEntered};
ghost use Rattle.sno_store.specs.Symbols.{found, HasKey};
ghost use Rattle.sno_store.specs.inner.Symbols.{appended};

mod definitions;
mod first;
mod objects;

use crate::calls::Calls;
use crate::data_type::DataType;
use crate::error::StoreError;
use crate::functions::Functions;
use crate::objects::Objects;
use crate::symbols::{MOST_SYMBOLS, Symbols};
use sno_pattern::Patterns;
use sno_value::{Name, SymId, Value};
use std::alloc::{AllocError, Global};
use std::marker::Model;

/// How many calls are open at most (this profile).
const MOST_CALLS: usize = 200;

/// The symbols of a program, the values of its variables, its arrays, tables and objects of its own types, and its
/// functions with their open calls.
///
/// Each symbol has a number, and names a variable, which begins with the null string (the book). Numbers are counted
/// from 0 in the order in which the symbols joined. Arrays, tables and objects have numbers of their own, in the order
/// in which they were made; they stay as long as the store, and so do types. A function has the number of its name's symbol.
#[derive(Drop)]
pub struct Store {
    alloc: Global,
    symbols: Symbols,
    values: Vec<Value>,
    objects: Objects,
    types: Vec<DataType>,
    functions: Functions,
    calls: Calls,
    // what is told of a name that the store doesn't know
    null: Value,
}

impl Model for Store {
    ghost use Rattle.std.specs.Prelude.{◌≡◌, ◌≤◌, [], length};
    ghost use Rattle.sno_value.specs.declared.value.Value.TheVariants.{Str};
    ghost use Rattle.sno_store.specs.Calls.{function_value, restored};
    ghost use Rattle.sno_store.specs.Store.{Store};

    ghost Value = { Store };

    ghost view = { λ s. record {
      symbols = s.symbols;
      values = s.values.items;
      objects = s.objects;
      types = s.types.items;
      functions = s.functions;
      calls = s.calls;
    } };

    ghost invariant = { λ s. (length s.values.items ≡ length s.symbols) × (s.null ≡ Str [])
        × (length s.calls ≤ 200) × (length s.types.items ≤ 100_000) };
}

impl Store {
    /// A new store. Its first variables are ARB, BAL, REM, FAIL, FENCE, ABORT and SUCCEED, whose patterns the empty
    /// table `patterns` is given, and INPUT and OUTPUT, which begin with null. Where memory is refused, the table holds
    /// the first of the patterns, or none.
    pub fn new(alloc: Global, patterns: &mut Patterns) -> Result<Store, AllocError>
        requires { patterns.old ≡ [] }
        ensures ok { IfOk result (λ store. store ≡ new_store) }
        ensures table { IfOk result (λ _. patterns.new ≡ first_patterns) }
        ensures refused { OnErr result (IsBeginning patterns.new) }
    {
        let mut store = Store {
            alloc,
            symbols: Symbols::new(alloc),
            values: Vec::new(alloc),
            objects: Objects::new(alloc),
            types: Vec::new(alloc),
            functions: Functions::new(alloc),
            calls: Calls::new(alloc),
            null: Value::null(),
        };
        store.begin_searches(patterns)?;
        store.begin_controls(patterns)?;
        store.begin_devices()?;
        Ok(store)
    }

    /// The number of the symbol with this text, which joins the symbols where it is none of them. Its variable then
    /// begins with the null string. It takes expected constant time beside the text's length.
    ///
    /// The null string is `NullName`; a new symbol beside 1,000,000 others is `Full` (this profile).
    pub fn symbol(&mut self, name: &[u8]) -> Result<SymId, StoreError>
        ensures { IsJoined name.now self.old self.new result }
    {
        if name.is_empty() {
            return Err(StoreError::NullName);
        }
        if let Some(symbol) = self.symbols.find(name) {
            return Ok(symbol);
        }
        if self.symbols.len() == MOST_SYMBOLS {
            return Err(StoreError::Full);
        }
        let symbol = self.append(name, Value::null())?;
        Ok(symbol)
    }

    /// The number of the symbol with this text, if it is one. It takes expected constant time beside the text's length.
    pub fn find_symbol(&self, name: &[u8]) -> Option<SymId>
        ensures { option_map (λ id. id.0) result ≡ found name.now self.now.symbols }
    {
        self.symbols.find(name)
    }

    /// The text of a symbol. It is empty where the store has no symbol with this number.
    pub fn symbol_text(&self, symbol: SymId) -> &[u8]
        ensures { result.now ≡ slice_index_or self.now.symbols symbol.0 [] }
    {
        self.symbols.text(symbol)
    }

    /// Whether a symbol is known to be the name with this key (`sno_value::name_key`). The keys of the first symbols
    /// are kept, but for that of INPUT.
    #[inline(always)]
    pub fn has_key(&self, symbol: SymId, key: u64) -> bool
        ensures { result ≡ true → HasKey symbol.0 key self.now.symbols }
    {
        self.symbols.has_key(symbol, key)
    }

    /// The value of a variable, where its symbol is known to be the name with this key.
    #[inline(always)]
    pub fn value_by_key(&self, symbol: SymId, key: u64) -> Option<&Value>
        ensures key { IfSome result (λ value. HasKey symbol.0 key self.now.symbols) }
        ensures value { IfSome result (λ value. value.now ≡ value_of self.now (Name.Var symbol)) }
    {
        if !self.symbols.has_key(symbol, key) {
            return None;
        }
        Some(&self.values[symbol.0 as usize])
    }

    /// The value of the variable that a symbol names. It is null where the store has no symbol with this number.
    #[inline(always)]
    pub fn variable(&self, symbol: SymId) -> &Value
        ensures { result.now ≡ value_of self.now (Name.Var symbol) }
    {
        match self.values.get(symbol.0 as usize) {
            Some(value) => value,
            None => &self.null,
        }
    }

    /// The value of what is named. It is null where the store has no such name.
    #[inline(always)]
    pub fn get(&self, name: Name) -> &Value
        ensures { result.now ≡ value_of self.now name }
    {
        match name {
            Name::Var(symbol) => self.variable(symbol),
            Name::Elem(array, element) => match self.objects.element_value(array, element) {
                Some(value) => value,
                None => &self.null,
            },
            Name::Entry(table, entry) => match self.objects.entry_value(table, entry) {
                Some(value) => value,
                None => &self.null,
            },
            Name::Field(object, field) => match self.objects.field_value(object, field) {
                Some(value) => value,
                None => &self.null,
            },
        }
    }

    /// Gives a value to what is named, which takes no memory. Nothing changes where the store has no such name.
    #[inline(always)]
    pub fn set(&mut self, name: Name, value: Value)
        ensures { self.new ≡ with_value name value self.old }
    {
        if let Name::Var(symbol) = name {
            self.set_variable(symbol, value);
            return;
        }
        self.set_named(name, value);
    }

    /// The same of a variable.
    #[inline(always)]
    fn set_variable(&mut self, symbol: SymId, value: Value)
        ensures { self.new ≡ with_value (Name.Var symbol) value self.old }
    {
        let place = symbol.0 as usize;
        if place < self.values.len() {
            self.values[place] = value;
        }
    }

    /// The same of any name.
    #[inline(never)]
    fn set_named(&mut self, name: Name, value: Value)
        ensures { self.new ≡ with_value name value self.old }
    {
        match name {
            Name::Var(symbol) => self.set_variable(symbol, value),
            Name::Elem(array, element) => self.objects.set_element(array, element, value),
            Name::Entry(table, entry) => self.objects.set_entry(table, entry, value),
            Name::Field(object, field) => self.objects.set_field(object, field, value),
        }
    }

    /// Begins a call of a function that has a definition. The values of its variable, of its formals and of its locals
    /// are saved, in this order. Then the function's variable and the locals are null, and the formals are the
    /// arguments: missing ones are null, and extra ones are dropped.
    /// Nothing happens where the function has no definition.
    ///
    /// Beside 200 open calls it is `CallLevel` (this profile).
    pub fn enter(&mut self, function: SymId, arguments: Vec<Value>) -> Result<(), StoreError>
        ensures { (d : Shown) → definition_at self.old.functions function.0 ≡ Some d
            → IsEntered function d arguments.items self.old self.new result }
    {
        let mut arguments = arguments;
        self.enter_with(function, arguments.as_mut_slice())?;
        Ok(())
    }

    /// The same as `enter`, but the arguments are moved out of their places, which stay the caller's: where the call is
    /// refused, they have them still.
    #[inline(always)]
    pub fn enter_with(&mut self, function: SymId, arguments: &mut [Value]) -> Result<(), StoreError>
        ensures entered { (d : Shown) → definition_at self.old.functions function.0 ≡ Some d
            → IsEntered function d arguments.old self.old self.new result }
        ensures kept { OnErr result (arguments.new ≡ arguments.old) }
    {
        let Some(definition) = self.functions.definition(function) else {
            return Ok(());
        };
        if self.calls.len() == MOST_CALLS {
            return Err(StoreError::CallLevel);
        }
        self.calls.open(
            self.alloc,
            function,
            definition,
            arguments,
            &mut self.values,
        )?;
        Ok(())
    }

    /// Ends the innermost call: gives the value of its function's variable, and brings the saved values back, the last
    /// one first. It takes no memory. Where no call is open, it is null and nothing happens.
    #[inline(always)]
    pub fn leave(&mut self) -> Value
        ensures { (calls : List (List (ℕ × Value))) (call : List (ℕ × Value)) → self.old.calls ≡ calls ++ call ∷ []
            → (result ≡ function_value (Str []) call self.old.values)
            × (self.new ≡ record self.old { values = restored call self.old.values; calls = calls }) }
    {
        self.calls.close(&mut self.values)
    }

    /// How many calls are open.
    pub fn level(&self) -> u32
        ensures value { result ≡ length self.now.calls }
        ensures few { length self.now.calls ≤ 200 }
    {
        self.calls.len() as u32
    }

    /// A name that is no symbol joins the symbols, with the value of its variable.
    fn append(&mut self, name: &[u8], value: Value) -> Result<SymId, AllocError>
        requires new { is_symbol name.now self.old.symbols ≡ false }
        requires room { length self.old.symbols < 1_000_000 }
        ensures id { IfOk result (λ id. id.0 ≡ length self.old.symbols) }
        ensures ok { OnOk result (self.new ≡ appended name.now value self.old) }
        ensures err { OnErr result (self.new ≡ self.old) }
    {
        self.values.reserve(1)?;
        let symbol = self.symbols.push(name)?;
        self.values.push(value).unwrap();
        Ok(symbol)
    }
}
