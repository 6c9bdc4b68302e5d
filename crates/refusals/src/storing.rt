//! The calls of a store.
ghost use Rattle.std.specs.Prelude.{◌<◌, length};

use crate::twins::are_same_stores;
use sno_pattern::{Patterns, Shape};
use sno_store::{Store, StoreError};
use sno_value::{Name, ObjId, PatId, SymId, Text, Value};
use std::alloc::{AllocError, Global};

/// A call of a store.
#[derive(Clone, Copy, PartialEq, Eq)]
enum Call {
    Symbol(&'static [u8]),
    Array(&'static [u8]),
    Table,
    /// The entry of a table with this text as its key, which is then given a text as its value.
    Entry(u32, &'static [u8]),
    ToArray(u32),
    Define(&'static [u8], &'static [u8]),
    DefineData(&'static [u8]),
    /// An object of the type with this number, of two values.
    Object(u32),
    /// A call of a function with two arguments.
    Enter(u32),
    Leave,
}

/// What a call answers.
#[derive(Clone, Copy, PartialEq, Eq)]
enum Answer {
    Symbol(SymId),
    Object(ObjId),
    Named(Name),
    Array(Option<ObjId>),
    Done,
}

/// Each list is done in a new store, and has so many calls that what it makes outgrows the room that is first made for
/// it. Symbols are numbered from 9 on, objects and types from 0 on.
const SYMBOLS: &[Call] = &[
    Call::Symbol(b"X"),
    Call::Symbol(b"a symbol with blanks, which is long"),
    Call::Symbol(b""),
    Call::Symbol(b"A"),
    Call::Symbol(b"B"),
    Call::Symbol(b"X"),
    Call::Symbol(b"C"),
    Call::Symbol(b"D"),
    Call::Symbol(b"E"),
    Call::Symbol(b"F"),
    Call::Symbol(b"G"),
    Call::Symbol(b"H"),
];

const ARRAYS: &[Call] = &[
    Call::Array(b"2,2"),
    Call::Array(b"0:2"),
    Call::Array(b"2:0"),
    Call::Array(b"1"),
    Call::Array(b"0:1,0:1,0:1"),
    Call::Array(b"3"),
    Call::Array(b"4"),
];

const TABLES: &[Call] = &[
    Call::Table,
    Call::Entry(0, b"key"),
    Call::Entry(0, b"another key"),
    Call::Entry(0, b"key"),
    Call::Entry(0, b"K"),
    Call::Entry(0, b"L"),
    Call::Entry(0, b"M"),
    Call::Entry(0, b"N"),
    Call::Entry(0, b"O"),
    Call::Entry(0, b"P"),
    Call::Entry(1, b"key"),
    Call::ToArray(0),
    Call::ToArray(1),
    Call::ToArray(0),
    Call::Table,
    Call::Table,
    Call::ToArray(0),
    Call::ToArray(3),
    Call::Table,
];

const FUNCTIONS: &[Call] = &[
    Call::Define(b"F(A,B)L,M", b"ENTRY"),
    Call::Define(b"G(A,INPUT)", b""),
    Call::Define(b"G(A,B,C,D,E)I,J,K,N,O", b""),
    Call::Define(b"F(A)", b""),
    Call::Define(b"H()", b"F"),
    Call::Define(b"P(Q,R,S,T,U,V,W,X,Y,Z)", b""),
];

const TYPES: &[Call] = &[
    Call::DefineData(b"NODE(VAL,NEXT)"),
    Call::DefineData(b"LEAF()"),
    Call::DefineData(b"T(A,B,C,D,E,F,G)"),
    Call::DefineData(b"VAL(NODE)"),
    Call::DefineData(b"NODE(VAL)"),
    Call::Define(b"VAL()", b""),
    Call::DefineData(b"U(V)"),
    Call::DefineData(b"W(A,U,V)"),
];

const OBJECTS: &[Call] = &[
    Call::DefineData(b"NODE(VAL,NEXT,LAST)"),
    Call::DefineData(b"LEAF(VAL)"),
    Call::Object(0),
    Call::Object(1),
    Call::Object(0),
    Call::Object(1),
    Call::Object(0),
    Call::Object(2),
];

const CALLED: &[Call] = &[
    Call::Define(b"F(A,B)L,M", b""),
    Call::Enter(9),
    Call::Define(b"A(B)F", b""),
    Call::Enter(10),
    Call::Enter(9),
    Call::Enter(9),
    Call::Leave,
    Call::Enter(10),
    Call::Enter(9),
    Call::Leave,
    Call::Leave,
];

/// Each list, and how many of its calls are refused with ample memory.
const LISTS: [(&[Call], u32); 7] = [
    (SYMBOLS, 1),
    (ARRAYS, 1),
    (TABLES, 2),
    (FUNCTIONS, 1),
    (TYPES, 1),
    (OBJECTS, 0),
    (CALLED, 0),
];

/// Whether a refused call leaves the store as it was, and one that is made again does what it must.
pub(crate) fn holds(alloc: Global) -> Result<bool, AllocError> {
    for (calls, refused) in LISTS {
        if are_answered(alloc, calls)? != Some(refused) {
            return Ok(false);
        }
    }
    Ok(true)
}

/// Makes calls of a new store and of its twin. Where both answer the same and are the same it is how many calls are
/// refused with ample memory.
fn are_answered(alloc: Global, calls: &[Call]) -> Result<Option<u32>, AllocError> {
    let key = text(alloc, b"key")?;
    let mut store = new_store(alloc)?;
    let mut twin = new_store(alloc)?;
    count_refused(alloc, &mut store, &mut twin, calls, &key)
}

fn new_store(alloc: Global) -> Result<Store, AllocError> {
    let mut table = Patterns::new(alloc);
    let store = Store::new(alloc, &mut table)?;
    Ok(store)
}

/// Makes calls of a store and of its twin, as `are_answered` says.
fn count_refused(
    alloc: Global,
    store: &mut Store,
    twin: &mut Store,
    calls: &[Call],
    key: &Value,
) -> Result<Option<u32>, AllocError> {
    let mut refused = 0u32;
    for call in calls {
        match answer_of_both(alloc, store, twin, *call, key)? {
            Some(Ok(_answer)) => {}
            Some(Err(_refusal)) => refused = refused.saturating_add(1),
            None => return Ok(None),
        }
    }
    if are_same_stores(store, twin, key) {
        Ok(Some(refused))
    } else {
        Ok(None)
    }
}

/// What a store and then its twin answer a call, or None where their answers differ or a refusal has changed the store.
fn answer_of_both(
    alloc: Global,
    store: &mut Store,
    twin: &mut Store,
    call: Call,
    key: &Value,
) -> Result<Option<Result<Answer, StoreError>>, AllocError> {
    if call == Call::Leave {
        let is_same = store.leave() == twin.leave();
        return Ok(if is_same {
            Some(Ok(Answer::Done))
        } else {
            None
        });
    }
    let mut answer = make_call(alloc, store, call)?;
    if answer == Err(StoreError::NoMemory) {
        if !are_same_stores(store, twin, key) {
            return Ok(None);
        }
        answer = make_call(alloc, store, call)?;
    }
    let wanted = make_call(alloc, twin, call)?;
    if wanted == Err(StoreError::NoMemory) {
        return Err(AllocError);
    }
    if let Ok(Answer::Named(name)) = answer {
        store.set(name, text(alloc, b"a value")?);
        twin.set(name, text(alloc, b"a value")?);
    }
    Ok(if answer == wanted { Some(answer) } else { None })
}

/// Makes a call. An `Err` is a growth of its arguments that was refused, before the call.
fn make_call(
    alloc: Global,
    store: &mut Store,
    call: Call,
) -> Result<Result<Answer, StoreError>, AllocError> {
    Ok(match call {
        Call::Symbol(name) => match store.symbol(name) {
            Ok(symbol) => Ok(Answer::Symbol(symbol)),
            Err(refusal) => Err(refusal),
        },
        Call::Array(prototype) => {
            let value = text(alloc, b"an element")?;
            object(store.new_array(prototype, &value))
        }
        Call::Table => object(store.new_table()),
        Call::Entry(table, key) => {
            let key = text(alloc, key)?;
            match store.entry(ObjId(table), key) {
                Ok(name) => Ok(Answer::Named(name)),
                Err(refusal) => Err(refusal),
            }
        }
        Call::ToArray(table) => match store.table_to_array(ObjId(table)) {
            Ok(array) => Ok(Answer::Array(array)),
            Err(refusal) => Err(refusal),
        },
        Call::Define(prototype, entry) => nothing(store.define(prototype, entry)),
        Call::DefineData(prototype) => nothing(store.define_data(prototype)),
        Call::Object(data_type) => {
            let values = two_values(alloc)?;
            object(store.new_data(data_type, values))
        }
        Call::Enter(function) => {
            let arguments = two_values(alloc)?;
            nothing(store.enter(SymId(function), arguments))
        }
        Call::Leave => Ok(Answer::Done),
    })
}

fn object(answer: Result<ObjId, StoreError>) -> Result<Answer, StoreError> {
    match answer {
        Ok(object) => Ok(Answer::Object(object)),
        Err(refusal) => Err(refusal),
    }
}

fn nothing(answer: Result<(), StoreError>) -> Result<Answer, StoreError> {
    match answer {
        Ok(()) => Ok(Answer::Done),
        Err(refusal) => Err(refusal),
    }
}

fn text(alloc: Global, bytes: &[u8]) -> Result<Value, AllocError> {
    let text = Text::from_slice(alloc, bytes)?;
    Ok(Value::Str(text))
}

fn two_values(alloc: Global) -> Result<Vec<Value>, AllocError> {
    let mut values = Vec::with_capacity(alloc, 2)?;
    values.push(text(alloc, b"first")?)?;
    values.push(Value::Int(2))?;
    Ok(values)
}

/// The names of the variables of a new store.
const NAMES: [&[u8]; 9] = [
    b"ARB", b"BAL", b"REM", b"FAIL", b"FENCE", b"ABORT", b"SUCCEED", b"INPUT", b"OUTPUT",
];

/// Whether a new store has its nine variables, and a refused one has left the first of the seven patterns, or none.
pub(crate) fn new_holds(alloc: Global) -> Result<bool, AllocError> {
    let mut table = Patterns::new(alloc);
    match Store::new(alloc, &mut table) {
        Ok(store) => Ok(is_new(&store) && table.len() == 7 && is_beginning(&table)),
        Err(_) => {
            if table.len() > 7 || !is_beginning(&table) {
                return Ok(false);
            }
            let mut table = Patterns::new(alloc);
            match Store::new(alloc, &mut table) {
                Ok(store) => Ok(is_new(&store) && table.len() == 7 && is_beginning(&table)),
                Err(_) => Ok(false),
            }
        }
    }
}

/// Whether a store has the variables of a new one, and no call is open.
fn is_new(store: &Store) -> bool {
    for number in 0..9u32 {
        let symbol = SymId(number);
        if store.symbol_text(symbol) != NAMES[number as usize]
            || !is_first_value(store.get(Name::Var(symbol)), number)
        {
            return false;
        }
    }
    store.level() == 0 && store.symbol_text(SymId(9)).is_empty()
}

/// Whether a value is that of the new variable with this number.
fn is_first_value(value: &Value, number: u32) -> bool {
    match value {
        Value::Pat(pattern) => number < 7 && pattern.0 == number,
        Value::Str(text) => 7 <= number && text.as_slice().is_empty(),
        _ => false,
    }
}

/// Whether the patterns of a table are ARB, BAL, REM, FAIL, FENCE, ABORT and SUCCEED, or the first of them.
fn is_beginning(table: &Patterns) -> bool {
    for number in 0..table.len() {
        if !is_first_pattern(table, PatId(number)) {
            return false;
        }
    }
    true
}

/// Whether a pattern is that of the seven with its number.
fn is_first_pattern(table: &Patterns, id: PatId) -> bool
    requires { id.0 < length table.now }
{
    let wanted = match id.0 {
        0 => Some(0),
        1 => Some(3),
        2 => Some(4),
        3 => None,
        4 => return table.shape(id) == Shape::Fence,
        5 => return table.shape(id) == Shape::Abort,
        6 => return table.shape(id) == Shape::Succeed,
        _ => return false,
    };
    match table.shape(id) {
        // The first end in (A)B tells these primitives apart.
        Shape::Primitive => table.end_at(id, b"(A)B", 0, 0) == wanted,
        _ => false,
    }
}
