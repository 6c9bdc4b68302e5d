//! Variables by their names, and what names hold.
ghost use Rattle.std.specs.Prelude.{◌≡◌, false, IfSome, List, ℕ, Ok, OnErr, OnOk, option_map, true};
ghost use Rattle.sno_value.specs.Keys.{IsKeyOf};
ghost use Rattle.sno_value.specs.declared.value.Value.TheVariants as Stored;
ghost use Rattle.sno_store.specs.Store.{value_of, with_value};
ghost use Rattle.sno_runtime.specs.Action.{and_then};
ghost use Rattle.sno_runtime.specs.Values.{shown, IsValueOf};
ghost use Rattle.sno_runtime.specs.Runtime.{itself};
ghost use Rattle.sno_runtime.specs.inner.Growing.{lengthened, string_in};
ghost use Rattle.sno_runtime.specs.inner.Runtime.{Does, any};
ghost use Rattle.sno_runtime.specs.Variables.{variable_named, name_value, text_of_name, reads, holds};
ghost use Rattle.sno_runtime.specs.Variables.{is_input, is_output};

use crate::errors::TOO_LONG;
use crate::limits::MOST_BYTES;
use crate::runtime::{FOUND_SYMBOLS, Runtime};
use crate::stops::{Exit, error};
use sno_value::{Name, SymId, Text, Value};
use std::alloc::AllocError;

/// The number of INPUT among the symbols.
const INPUT: u32 = 7;

/// The number of OUTPUT among the symbols.
const OUTPUT: u32 = 8;

impl Runtime {
    /// The variable that a text names; a text that names none yet joins the symbols. Error 6 where it is null,
    /// error 8 where it has more than 1,000,000 bytes, and error 9 where there are 1,000,000 symbols.
    pub fn variable(&mut self, name: &[u8]) -> Result<Name, Exit>
        ensures { Does itself any (variable_named name.now) self.old self.new result }
    {
        if name.len() > MOST_BYTES {
            return Err(error(TOO_LONG));
        }
        let id = self.store.symbol(name)?;
        Ok(Name::Var(id))
    }

    /// The same of a name that stands at this place of the program. It is found by its number where it was found there
    /// before, without looking for its text.
    #[inline(always)]
    pub fn variable_at(&mut self, place: usize, name: &[u8]) -> Result<Name, Exit>
        ensures { Does itself any (variable_named name.now) self.old self.new result }
    {
        let slot = place % FOUND_SYMBOLS;
        if let Some(id) = self.known(slot, name) {
            return Ok(Name::Var(id));
        }
        self.variable_for(slot, name)
    }

    /// The same of a name that is looked for by its text, and kept for a slot.
    #[inline(never)]
    fn variable_for(&mut self, slot: usize, name: &[u8]) -> Result<Name, Exit>
        ensures { Does itself any (variable_named name.now) self.old self.new result }
    {
        let target = self.variable(name)?;
        if let Name::Var(id) = target {
            self.keep(slot, id);
        }
        Ok(target)
    }

    /// The symbol of such a name, where it was found there before.
    #[inline]
    pub fn symbol_at(&self, place: usize, name: &[u8]) -> Option<SymId>
        ensures { IfSome result (λ id. Does itself any (variable_named name.now) self.now self.now (Ok (Name.Var id))) }
    {
        self.known(place % FOUND_SYMBOLS, name)
    }

    /// Whether a symbol is known to be the variable whose name has this key (`sno_value::name_key`).
    #[inline(always)]
    pub fn has_key(&self, symbol: SymId, key: u64) -> bool
        ensures { result ≡ true → (name : List ℕ) → IsKeyOf name key
            → Does itself any (variable_named name) self.now self.now (Ok (Name.Var symbol)) }
    {
        self.store.has_key(symbol, key)
    }

    /// What the variable holds whose name has this key, where a symbol is known to be that and isn't INPUT.
    #[inline(always)]
    pub fn value_by_key(&self, symbol: SymId, key: u64) -> Option<&Value>
        ensures { IfSome result (λ value. (name : List ℕ) → IsKeyOf name key
            → Does shown IsValueOf (and_then (variable_named name) reads) self.now self.now (Ok value.now)) }
    {
        let value = self.store.value_by_key(symbol, key)?;
        Some(value)
    }

    /// What the variable of such a name holds, where it was found there before and isn't INPUT.
    #[inline]
    pub fn value_at(&self, place: usize, name: &[u8]) -> Option<&Value>
        ensures { IfSome result (λ value. Does shown IsValueOf (and_then (variable_named name.now) reads)
            self.now self.now (Ok value.now)) }
    {
        let target = Name::Var(self.symbol_at(place, name)?);
        if is_input(target) {
            return None;
        }
        Some(self.store.get(target))
    }

    /// The symbol that was found last in a slot, where it is this name.
    fn known(&self, slot: usize, name: &[u8]) -> Option<SymId>
        ensures { IfSome result (λ id. Does itself any (variable_named name.now) self.now self.now (Ok (Name.Var id))) }
    {
        let id = *self.found.get(slot)?;
        if name.is_empty() || self.store.symbol_text(id) != name {
            return None;
        }
        Some(id)
    }

    /// Keeps the symbol that was found for a slot.
    fn keep(&mut self, slot: usize, id: SymId)
        ensures { self.new ≡ self.old }
    {
        if slot < self.found.len() {
            self.found[slot] = id;
        }
    }

    /// The bytes of a variable's name; none of any other name.
    pub fn name_text(&self, name: Name) -> &[u8]
        ensures { result.now ≡ text_of_name self.now.store.symbols name }
    {
        match name {
            Name::Var(id) => self.store.symbol_text(id),
            _ => &[],
        }
    }

    /// A name as a value: the text of a variable's.
    pub fn name_value(&self, name: Name) -> Result<Value, Exit>
        ensures { Does shown IsValueOf (name_value name) self.now self.now result }
    {
        match name {
            Name::Var(id) => {
                let text = Text::from_slice(self.alloc, self.store.symbol_text(id))?;
                Ok(Value::Str(text))
            }
            other => Ok(Value::Name(other)),
        }
    }

    /// The value that a variable, an element, an entry or a field holds.
    pub fn stored(&self, name: Name) -> Result<Value, Exit>
        ensures { Does shown IsValueOf (holds name) self.now self.now result }
    {
        let value = self.store.get(name).copy()?;
        Ok(value)
    }

    /// The same, where it lies.
    #[inline(always)]
    pub fn held(&self, name: Name) -> &Value
        ensures { Does shown IsValueOf (holds name) self.now self.now (Ok result.now) }
    {
        self.store.get(name)
    }

    /// Gives a variable a value.
    #[inline(always)]
    pub fn set(&mut self, name: Name, value: Value)
        requires { IsValueOf self.old.nodes value }
        ensures { self.new ≡ record self.old { store = with_value name value self.old.store } }
    {
        self.store.set(name, value);
    }

    /// The string that a variable holds, where it lies, if that is neither INPUT nor OUTPUT.
    #[inline(always)]
    pub fn string_held(&self, symbol: SymId) -> Option<&[u8]>
        ensures reads { IfSome result (λ bytes. Does shown IsValueOf (reads (Name.Var symbol))
            self.now self.now (Ok (Stored.Str bytes.now))) }
        ensures held { IfSome result (λ bytes. value_of self.now.store (Name.Var symbol) ≡ Stored.Str bytes.now) }
        ensures stored { IfSome result (λ bytes. is_output (Name.Var symbol) ≡ false) }
    {
        let name = Name::Var(symbol);
        if is_input(name) || is_output(name) {
            return None;
        }
        let text = string(self.store.get(name))?;
        Some(text.as_slice())
    }

    /// Puts bytes behind the string that a variable holds, which is taken out of it meanwhile, so that nothing else keeps
    /// its block. Where memory is refused nothing changes, nor where the variable holds no string.
    #[inline(never)]
    pub fn append_to(&mut self, symbol: SymId, bytes: &[u8]) -> Result<(), AllocError>
        requires { IsValueOf self.old.nodes (lengthened bytes.now (value_of self.old.store (Name.Var symbol))) }
        ensures ok { OnOk result (self.new ≡ record self.old {
          store = with_value (Name.Var symbol)
              (lengthened bytes.now (value_of self.old.store (Name.Var symbol))) self.old.store;
        }) }
        ensures err { OnErr result (self.new ≡ self.old) }
    {
        let name = Name::Var(symbol);
        let Some(text) = string(self.store.get(name)) else {
            return Ok(());
        };
        let mut text = text.copy()?;
        self.set(name, Value::null());
        if let Err(refused) = text.append(self.alloc, bytes) {
            self.set(name, Value::Str(text));
            return Err(refused);
        }
        self.set(name, Value::Str(text));
        Ok(())
    }
}

/// The string that a value is.
fn string(value: &Value) -> Option<&Text>
    ensures { option_map (λ text. text.now) result ≡ string_in value.now }
{
    match value {
        Value::Str(text) => Some(text),
        _ => None,
    }
}

/// Whether a name is that of INPUT, which reads a line where its value is asked for.
pub fn is_input(name: Name) -> bool
    ensures { result ≡ is_input name }
{
    match name {
        Name::Var(id) => id.0 == INPUT,
        _ => false,
    }
}

/// Whether a name is that of OUTPUT.
pub fn is_output(name: Name) -> bool
    ensures { result ≡ is_output name }
{
    match name {
        Name::Var(id) => id.0 == OUTPUT,
        _ => false,
    }
}
