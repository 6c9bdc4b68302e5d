//! Calls of functions that a program defines.
ghost use Rattle.std.specs.Prelude.{◌≡◌, ◌+◌, ◌≤◌, ◌<◌, [], ◌∷◌, ◌++◌, map, length, take, drop, vec_len, vec_capacity};
ghost use Rattle.std.specs.Prelude.{List, ℕ, OnErr, OnOk, slice_index_or, slice_set};
ghost use Rattle.sno_value.specs.declared.value.Value.{Value as Stored};
ghost use Rattle.sno_value.specs.declared.value.Value.TheVariants.{Str};
ghost use Rattle.sno_store.specs.Calls.{entered, function_value, restored, saved, with_arguments, with_nulls};
ghost use Rattle.sno_store.specs.inner.Seen.{moved, numbered, saved_seen};

use crate::definition::Definition;
use sno_value::{SymId, Value};
use std::alloc::{AllocError, Global};
use std::marker::Model;
use std::mem;

/// What the open calls have saved, the innermost last, and each function's own value first. Where a symbol stands more
/// than once in a call, the value that its variable had stands with the first, and null with the others.
///
/// It is one list for all calls, so that a call takes memory only where none was as deep before.
#[derive(Drop)]
pub(crate) struct Calls {
    saved: Vec<(SymId, Value)>,
    // how many values each of the calls has saved
    counts: Vec<usize>,
}

impl Model for Calls {
    ghost use Rattle.std.specs.Prelude.{◌≡◌, List, ℕ, length, sum};
    ghost use Rattle.sno_value.specs.declared.value.Value.{Value as Stored};
    ghost use Rattle.sno_store.specs.inner.Seen.{calls_seen};

    ghost Value = { List (List (ℕ × Stored)) };

    ghost view = { λ c. calls_seen c.counts.items c.saved.items };

    ghost invariant = { λ c. sum c.counts.items ≡ length c.saved.items };
}

impl Calls {
    /// No calls. It takes no memory.
    pub(crate) fn new(alloc: Global) -> Calls
        ensures { result ≡ [] }
    {
        Calls {
            saved: Vec::new(alloc),
            counts: Vec::new(alloc),
        }
    }

    /// How many calls are open.
    pub(crate) fn len(&self) -> usize
        ensures { result ≡ length self.now }
    {
        self.counts.len()
    }

    /// Begins a call of a function: the values of its variables are saved, then it and its locals are null and its
    /// formals are the arguments, which are moved out of their places. Where memory is refused, all is as it was.
    #[inline(always)]
    pub(crate) fn open(
        &mut self,
        alloc: Global,
        function: SymId,
        definition: &Definition,
        arguments: &mut [Value],
        values: &mut Vec<Value>,
    ) -> Result<(), AllocError>
        ensures ok { OnOk result
            (self.new ≡ self.old ++ saved (Str []) function.0 definition.now values.old.items ∷ []) }
        ensures values { OnOk result
            (values.new.items ≡ entered (Str []) function.0 definition.now arguments.old values.old.items) }
        ensures err { OnErr result (self.new ≡ self.old) }
        ensures err_values { OnErr result (values.new.items ≡ values.old.items) }
        ensures err_arguments { OnErr result (arguments.new ≡ arguments.old) }
    {
        let (formals, locals) = (definition.formals(), definition.locals());
        let count = 1 + formals.len() + locals.len();
        self.saved.reserve(count)?;
        self.counts.reserve(1)?;
        self.counts.push_reserved(count);
        save_one(function, values, &mut self.saved);
        save(formals, values, &mut self.saved);
        save(locals, values, &mut self.saved);
        give(formals, arguments, values);
        Ok(())
    }

    /// Ends the innermost call: gives the value of its function, and brings the saved values back, the last one first.
    /// Where no call is open, it is null and nothing happens.
    #[inline(always)]
    pub(crate) fn close(&mut self, values: &mut Vec<Value>) -> Value
        ensures does { (calls : List (List (ℕ × Stored))) (call : List (ℕ × Stored)) → self.old ≡ calls ++ call ∷ []
            → (result ≡ function_value (Str []) call values.old.items)
            × (values.new.items ≡ restored call values.old.items) × (self.new ≡ calls) }
        ensures values { length values.new.items ≡ length values.old.items }
        ensures few { length self.new ≤ length self.old }
    {
        let Some(count) = self.counts.pop() else {
            return Value::null();
        };
        let held = self.saved.len() - count;
        let result = take_result(&self.saved, held, values);
        bring_back(&mut self.saved, held, values);
        result
    }
}

/// The values of variables go behind what is saved, and the variables become null.
#[inline(always)]
fn save(symbols: &[SymId], values: &mut Vec<Value>, saved: &mut Vec<(SymId, Value)>)
    requires room { vec_len saved.old + length symbols.now ≤ vec_capacity saved.old }
    ensures saved { saved.new.items ≡ saved.old.items ++ moved symbols.now values.old.items }
    ensures values { values.new.items ≡ with_nulls (Str []) (map (λ id. id.0) symbols.now) values.old.items }
    ensures len { vec_len saved.new ≡ vec_len saved.old + length symbols.now }
    ensures room { vec_capacity saved.old ≤ vec_capacity saved.new }
{
    'symbols: for symbol in symbols {
        save_one(*symbol, values, saved);
    }
}

/// The value of a variable goes behind what is saved, and the variable becomes null.
#[inline(always)]
fn save_one(symbol: SymId, values: &mut Vec<Value>, saved: &mut Vec<(SymId, Value)>)
    requires room { vec_len saved.old < vec_capacity saved.old }
    ensures saved { saved.new.items ≡ saved.old.items
        ++ (symbol, slice_index_or values.old.items symbol.0 (Str [])) ∷ [] }
    ensures values { values.new.items ≡ slice_set values.old.items symbol.0 (Str []) }
    ensures len { vec_len saved.new ≡ vec_len saved.old + 1 }
    ensures room { vec_capacity saved.old ≤ vec_capacity saved.new }
{
    let place = symbol.0 as usize;
    if place < values.len() {
        let value = mem::replace(&mut values[place], Value::null());
        saved.push_reserved((symbol, value));
    } else {
        saved.push_reserved((symbol, Value::null()));
    }
}

/// Formals are given arguments from left to right, which are moved out of their places: missing ones are null, and
/// extra ones stay.
#[inline(always)]
fn give(formals: &[SymId], arguments: &mut [Value], values: &mut Vec<Value>)
    ensures { values.new.items ≡ with_arguments (Str []) (map (λ id. id.0) formals.now)
        arguments.old values.old.items }
{
    let mut place = 0;
    'formals: for formal in formals {
        give_one(*formal, arguments, place, values);
        place += 1;
    }
}

/// A formal is given the argument at a place, which is moved out of it. A missing one is null.
#[inline(always)]
fn give_one(formal: SymId, arguments: &mut [Value], place: usize, values: &mut Vec<Value>)
    ensures value { values.new.items
        ≡ slice_set values.old.items formal.0 (slice_index_or arguments.old place (Str [])) }
    ensures rest { drop (place + 1) arguments.new ≡ drop (place + 1) arguments.old }
{
    let variable = formal.0 as usize;
    if variable < values.len() {
        if place < arguments.len() {
            mem::swap(&mut arguments[place], &mut values[variable]);
        } else {
            values[variable] = Value::null();
        }
    }
}

/// Takes the value of the function of a call out of its variable, where the call's values are those behind the first so
/// many.
#[inline(always)]
fn take_result(saved: &[(SymId, Value)], held: usize, values: &mut Vec<Value>) -> Value
    ensures value { result ≡ function_value (Str []) (saved_seen (drop held saved.now)) values.old.items }
    ensures values { restored (numbered (drop held saved.now)) values.new.items
        ≡ restored (saved_seen (drop held saved.now)) values.old.items }
    ensures len { length values.new.items ≡ length values.old.items }
{
    match saved.get(held) {
        Some((function, _value)) => taken(values, *function),
        None => Value::null(),
    }
}

/// The value that a variable had, which is null now. Where there is no such variable, it is null.
#[inline(always)]
fn taken(values: &mut Vec<Value>, variable: SymId) -> Value
    ensures value { result ≡ slice_index_or values.old.items variable.0 (Str []) }
    ensures values { values.new.items ≡ slice_set values.old.items variable.0 (Str []) }
{
    let place = variable.0 as usize;
    if place < values.len() {
        mem::replace(&mut values[place], Value::null())
    } else {
        Value::null()
    }
}

/// The saved values behind the first so many are brought back, the last one first.
#[inline(always)]
fn bring_back(saved: &mut Vec<(SymId, Value)>, held: usize, values: &mut Vec<Value>)
    ensures saved { saved.new.items ≡ take held saved.old.items }
    ensures values { values.new.items ≡ restored (numbered (drop held saved.old.items)) values.old.items }
    ensures len { length values.new.items ≡ length values.old.items }
{
    'saved: while saved.len() > held {
        bring_back_last(saved, values);
    }
}

/// The value that was saved last is brought back. Where its variable is none, it is let go.
#[inline(always)]
fn bring_back_last(saved: &mut Vec<(SymId, Value)>, values: &mut Vec<Value>)
    requires { 0 < vec_len saved.old }
    ensures { (s : SymId × Stored) × (saved.old.items ≡ saved.new.items ++ s ∷ [])
        × (values.new.items ≡ slice_set values.old.items s.0.0 s.1) }
{
    let (symbol, _value) = &saved[saved.len() - 1];
    let place = symbol.0 as usize;
    if place < values.len() {
        let (_symbol, value) = saved.take_last();
        values[place] = value;
    } else {
        saved.truncate(saved.len() - 1);
    }
}
