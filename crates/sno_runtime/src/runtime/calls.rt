//! Functions that a program defines, and their calls.
ghost use Rattle.std.specs.Prelude.{◌≡◌, ◌≤◌, ℕ, List, [], ◌∷◌, ◌++◌, length, map, option_copied, Some};
ghost use Rattle.std.specs.List.{AllByRecursion};
ghost use Rattle.sno_value.specs.declared.value.Value.{Value as Stored};
ghost use Rattle.sno_store.specs.Definitions.{Definition as Defined};
ghost use Rattle.sno_store.specs.Functions.{definition_at};
ghost use Rattle.sno_runtime.specs.Values.{shown, IsValueOf};
ghost use Rattle.sno_runtime.specs.Calls.{defines};
ghost use Rattle.sno_runtime.specs.inner.Calls.{definition_named, Enters, Leaves};
ghost use Rattle.sno_runtime.specs.Runtime.{itself};
ghost use Rattle.sno_runtime.specs.inner.Runtime.{Does, any};

use crate::errors::UNDEFINED_FUNCTION;
use crate::runtime::{FOUND_ENTRIES, Runtime};
use crate::stops::{Exit, error};
use sno_store::Definition;
use sno_value::{Name, SymId, Value};

impl Runtime {
    /// Defines a function by its prototype, whose names join the symbols; its calls begin at the label `entry`, or at
    /// the function's name where that is null. Another text than a sound prototype is error 12, and more than 1,000,000
    /// symbols are error 9.
    pub fn define(&mut self, prototype: &[u8], entry: &[u8]) -> Result<(), Exit>
        requires { length prototype.now ≤ 1_000_000 }
        ensures { Does itself any (defines prototype.now entry.now) self.old self.new result }
    {
        self.store.define(prototype, entry)?;
        Ok(())
    }

    /// The definition of the function with a name, if it has one.
    pub fn definition(&self, function: Name) -> Option<&Definition>
        ensures { option_copied result ≡ definition_named self.now.store.functions function }
    {
        match function {
            Name::Var(id) => self.store.definition(id),
            _ => None,
        }
    }

    /// The statement at which calls of a function began last, as far as that is kept; 0 where it isn't. It may be kept
    /// for another function, or for what this one was before.
    #[inline]
    pub fn entry_kept(&self, function: SymId) -> u32 {
        match self.entries.get(function.0 as usize % FOUND_ENTRIES) {
            Some(number) => *number,
            None => 0,
        }
    }

    /// Keeps the statement at which calls of a function begin.
    pub fn keep_entry(&mut self, function: SymId, number: u32)
        ensures { self.new ≡ self.old }
    {
        let slot = function.0 as usize % FOUND_ENTRIES;
        if slot < self.entries.len() {
            self.entries[slot] = number;
        }
    }

    /// `&STNO`: the number of the statement that is performed.
    pub fn statement(&self) -> u32
        ensures { result ≡ self.now.keywords.statement }
    {
        self.keywords.statement()
    }

    /// Begins a call of a function: the values of its variables are saved, and they are set for the call. The arguments
    /// are moved out of their places. A function without a definition is error 4; beside 200 open calls it is error 10.
    #[inline(always)]
    pub fn enter(&mut self, function: SymId, arguments: &mut [Value]) -> Result<(), Exit>
        requires { AllByRecursion (IsValueOf self.old.nodes) arguments.old }
        ensures { (d : Defined) → definition_at self.old.store.functions function.0 ≡ Some d
            → Enters function.0 d (map (shown self.old.nodes) arguments.old) self.old self.new result }
    {
        if self.store.definition(function).is_none() {
            return Err(error(UNDEFINED_FUNCTION));
        }
        self.store.enter_with(function, arguments)?;
        Ok(())
    }

    /// Ends the innermost call, whose statement had this number: gives the value of its function, and brings back the
    /// values that it saved. Where no call is open it gives null, and nothing changes.
    #[inline(always)]
    pub fn leave(&mut self, statement: u32) -> Value
        ensures { (calls : List (List (ℕ × Stored))) (call : List (ℕ × Stored)) → self.old.store.calls ≡ calls
            ++ call ∷ [] → Leaves calls call statement self.old self.new result }
    {
        if self.store.level() == 0 {
            return Value::null();
        }
        self.keywords.set_statement(statement);
        self.store.leave()
    }
}
