//! The functions and types that a program defines.
ghost use Rattle.std.specs.Prelude.{◌≡◌, ◌<◌, ◌≤◌, length, take, nat_lt, true, option_copied};
ghost use Rattle.std.specs.List.{list_all};
ghost use Rattle.sno_store.specs.Definitions.{is_name, is_sound, listed, names, with_names};
ghost use Rattle.sno_store.specs.Functions.{constructor_at, definition_at, is_field_at};
ghost use Rattle.sno_store.specs.Outcomes.{IsDefined, IsTyped};
ghost use Rattle.sno_store.specs.inner.Seen.{prototype_seen};
ghost use Rattle.sno_store.specs.inner.Symbols.{AreJoined, IsDefinedByParts, IsTypedByParts};
ghost use Rattle.sno_store.specs.Types.{makes_type};

use crate::data_type::DataType;
use crate::definition::Definition;
use crate::error::StoreError;
use crate::function_prototype::{FunctionPrototype, MOST_NAMES, entry_label};
use crate::store::Store;
use crate::symbols::MOST_SYMBOLS;
use crate::type_prototype::makes_type;
use sno_value::SymId;

/// How many types a program makes at most (this profile).
const MOST_TYPES: usize = 100_000;

impl Store {
    /// Defines a function, in place of what its name may be. A prototype `F(A,B)L,M` has the function's name, then
    /// its formals in parentheses, and then its locals, without blanks; `F()` has neither. A name is a letter, and then
    /// letters, digits, dots and underscores. The names join the symbols in this order. Calls begin at the label
    /// `entry`, or at the one that is named as the function where `entry` is empty.
    ///
    /// Another text is `BadPrototype`, and so are more than 100 names, and INPUT or OUTPUT among them (this profile).
    /// More than 1,000,000 symbols are `Full`.
    pub fn define(&mut self, prototype: &[u8], entry: &[u8]) -> Result<(), StoreError>
        ensures { IsDefined prototype.now entry.now self.old self.new result }
    {
        let Some(prototype) = FunctionPrototype::read(prototype) else {
            return Err(StoreError::BadPrototype)
        };
        if !prototype.is_sound() {
            return Err(StoreError::BadPrototype);
        }
        if self.is_full_with(prototype) {
            return Err(StoreError::Full);
        }
        let count = self.symbols.len();
        if let Err(refusal) = self.define_parts(prototype, entry) {
            self.take_back(count);
            return Err(refusal);
        }
        Ok(())
    }

    /// The definition of a function, if it has one. It takes no memory.
    pub fn definition(&self, function: SymId) -> Option<&Definition>
        ensures { option_copied result ≡ definition_at self.now.functions function.0 }
    {
        self.functions.definition(function)
    }

    /// Makes a type. A prototype `T(F,G)` has its name, and then 1 to 99 fields in parentheses, without blanks; each is
    /// a letter, and then letters, digits, dots and underscores. The names join the symbols in this order. As functions
    /// T is the constructor from now on, and F and G are fields, in
    /// place of what they may be; types that were made before stay.
    ///
    /// Another text is `BadPrototype`, and so are a name that stands twice, and STRING, INTEGER, PATTERN, ARRAY, TABLE,
    /// NAME or EXPRESSION as T (this profile). Beside 100,000
    /// types it is `Full`, and so are more than 1,000,000 symbols.
    pub fn define_data(&mut self, prototype: &[u8]) -> Result<(), StoreError>
        ensures { IsTyped prototype.now self.old self.new result }
    {
        let Some(parts) = FunctionPrototype::read(prototype) else {
            return Err(StoreError::BadPrototype)
        };
        if !makes_type(parts) {
            return Err(StoreError::BadPrototype);
        }
        if self.types.len() == MOST_TYPES || self.is_full_with(parts) {
            return Err(StoreError::Full);
        }
        let known = self.symbols.len();
        if let Err(refusal) = self.make_type(parts) {
            self.take_back(known);
            return Err(refusal);
        }
        Ok(())
    }

    /// The number of the type whose constructor a function is, if it is one. It takes no memory, and constant time.
    pub fn constructor(&self, function: SymId) -> Option<u32>
        ensures { result ≡ constructor_at self.now.functions function.0 }
    {
        self.functions.constructor(function)
    }

    /// Whether a function is a field. It takes no memory, and constant time.
    pub fn is_field(&self, function: SymId) -> bool
        ensures { result ≡ is_field_at self.now.functions function.0 }
    {
        self.functions.is_field(function)
    }

    /// Whether the symbols would be too many, had the names of a prototype joined them. It takes no memory, so that
    /// this is told before any is asked for.
    fn is_full_with(&self, parts: FunctionPrototype) -> bool
        requires few { length (names (prototype_seen parts)) ≤ 100 }
        ensures { result ≡ nat_lt 1_000_000
            (length (with_names (names (prototype_seen parts.entry)) self.now.symbols)) }
    {
        self.symbols.len() + MOST_NAMES > MOST_SYMBOLS
            && self.symbols.len_with(parts) > MOST_SYMBOLS
    }

    /// A function is defined by the parts of its prototype. Where
    /// that is refused, some of its names may be new symbols.
    fn define_parts(&mut self, parts: FunctionPrototype, entry: &[u8]) -> Result<(), StoreError>
        requires sound { is_sound (prototype_seen parts) ≡ true }
        requires few { length self.old.symbols ≤ 1_000_000 }
        ensures { IsDefinedByParts (prototype_seen parts.entry) entry.now self.old self.new result }
    {
        let label = Vec::from_slice(self.alloc, entry_label(entry, parts.function))?;
        let function = self.symbol(parts.function)?;
        let formals = self.join(parts.formals)?;
        let locals = self.join(parts.locals)?;
        self.functions
            .define(function, Definition::new(label, formals, locals))?;
        Ok(())
    }

    /// A type is made by the parts of its prototype. Where that is refused, some of its names may be new symbols.
    fn make_type(&mut self, parts: FunctionPrototype) -> Result<(), StoreError>
        requires sound { makes_type (prototype_seen parts) ≡ true }
        requires few { length self.old.symbols ≤ 1_000_000 }
        requires room { length self.old.types < 100_000 }
        ensures { IsTypedByParts (prototype_seen parts.entry) self.old self.new result }
    {
        let name = Vec::from_slice(self.alloc, parts.function)?;
        let constructor = self.symbol(parts.function)?;
        let fields = self.join(parts.formals)?;
        self.types.reserve(1)?;
        let number = self.types.len() as u32;
        self.functions.construct(constructor, number, &fields)?;
        self.types.push(DataType::new(name, fields)).unwrap();
        Ok(())
    }

    /// Only so many symbols and their variables stay, the first ones.
    fn take_back(&mut self, count: usize)
        ensures { self.new ≡ record self.old {
          symbols = take count self.old.symbols;
          values = take count self.old.values;
        } }
    {
        self.symbols.truncate(count);
        self.values.truncate(count);
    }

    /// The numbers of the names in a list, each of which joins the symbols where it is none of them. Where that is
    /// refused, some of them may have joined.
    fn join(&mut self, list: &[u8]) -> Result<Vec<SymId>, StoreError>
        requires names { list_all is_name (listed list.now) ≡ true }
        requires few { length self.old.symbols ≤ 1_000_000 }
        ensures { AreJoined (listed list.now) self.old self.new result }
    {
        let mut numbers = Vec::new(self.alloc);
        if list.is_empty() {
            return Ok(numbers);
        }
        'names: for name in list.split(|byte| *byte == b',') {
            let number = self.symbol(name)?;
            numbers.push(number)?;
        }
        Ok(numbers)
    }
}
