//! Worked rows: calls of one store, and what they answer.
mod arrays;
mod calls;
mod symbols;
mod tables;
mod types;

use sno_pattern::Patterns;
use sno_store::{Definition, Store, StoreError};
use sno_value::{ExprId, Name, ObjId, PatId, SymId, Text, Value, int_text, name_key};
use std::alloc::{AllocError, Global};
use std::process::Abort;
use std::test::Fail;

/// A value of a row.
#[derive(Clone, Copy)]
enum Row {
    Str(&'static str),
    Int(i64),
    Pattern(u32),
    Expression(u32),
    Name(Name),
    Array(u32),
    Table(u32),
    Data(u32),
}

impl Row {
    /// The value.
    fn value(self, alloc: Global) -> Result<Value, AllocError> {
        Ok(match self {
            Row::Str(text) => Value::Str(Text::from_slice(alloc, text.as_bytes())?),
            Row::Int(number) => Value::Int(number),
            Row::Pattern(number) => Value::Pat(PatId(number)),
            Row::Expression(number) => Value::Expr(ExprId(number)),
            Row::Name(name) => Value::Name(name),
            Row::Array(number) => Value::Array(ObjId(number)),
            Row::Table(number) => Value::Table(ObjId(number)),
            Row::Data(number) => Value::Data(ObjId(number)),
        })
    }
}

/// A call, and what it answers: a number, a place or a text, or the number of an error.
#[derive(Clone, Copy)]
enum Step {
    Symbol(&'static str, Result<u32, u32>),
    SymbolText(u32, &'static str),
    Get(Name, Row),
    // the symbol, and the name by whose key its variable is looked for
    ByKey(u32, &'static str, Option<Row>),
    Set(Name, Row),
    NewArray(&'static str, Row, Result<u32, u32>),
    NewTable(Result<u32, u32>),
    Element(u32, &'static [i64], Result<Option<u32>, u32>),
    Prototype(u32, Result<&'static [u8], u32>),
    Find(u32, Row, Result<Option<u32>, u32>),
    Entry(u32, Row, Result<u32, u32>),
    TableToArray(u32, Result<Option<u32>, u32>),
    Define(&'static str, &'static str, Result<(), u32>),
    // a function F whose formals are A, so many times
    DefineMany(u32, Result<(), u32>),
    // the label, the formals and the locals
    Definition(u32, Option<(&'static str, &'static [SymId], &'static [SymId])>),
    Enter(u32, &'static [Row], Result<(), u32>),
    // calls of a function one in another, with 1, 2, 3 .. as their arguments
    EnterMany(u32, u32),
    Leave(Row),
    // so many calls end, whose functions have the null string as their value
    LeaveMany(u32),
    Level(u32),
    DefineData(&'static str, Result<(), u32>),
    // a type T with so many fields
    DefineFields(u32, Result<(), u32>),
    Constructor(u32, Option<u32>),
    IsField(u32, bool),
    NewData(u32, &'static [Row], Result<u32, u32>),
    Field(u32, u32, Option<u32>),
    TypeName(u32, &'static str),
}

/// The number of the error that a refusal is.
fn error_of(refusal: StoreError) -> u32 {
    match refusal {
        StoreError::WrongType => 1,
        StoreError::NullName => 6,
        StoreError::Full => 9,
        StoreError::CallLevel => 10,
        StoreError::BadPrototype => 12,
        StoreError::NoMemory => 0,
    }
}

/// The number of an object, or of the error.
fn object_of(answer: Result<ObjId, StoreError>) -> Result<u32, u32> {
    match answer {
        Ok(id) => Ok(id.0),
        Err(refusal) => Err(error_of(refusal)),
    }
}

/// The place that a name of the object's part is, or the number of the error.
fn place_of(object: u32, answer: Result<Option<Name>, StoreError>) -> Result<Option<u32>, u32> {
    match answer {
        Ok(
            Some(Name::Elem(ObjId(id), place))
            | Some(Name::Entry(ObjId(id), place))
            | Some(Name::Field(ObjId(id), place)),
        ) => Ok(if id == object { Some(place) } else { None }),
        Ok(_none) => Ok(None),
        Err(refusal) => Err(error_of(refusal)),
    }
}

/// Nothing, or the number of the error.
fn done_of(answer: Result<(), StoreError>) -> Result<(), u32> {
    match answer {
        Ok(()) => Ok(()),
        Err(refusal) => Err(error_of(refusal)),
    }
}

/// Makes a call that may change the store, and says whether it answers what the step says.
fn changes(store: &mut Store, alloc: Global, step: Step) -> Result<bool, AllocError> {
    Ok(match step {
        Step::Symbol(text, want) => match store.symbol(text.as_bytes()) {
            Ok(id) => want == Ok(id.0),
            Err(refusal) => want == Err(error_of(refusal)),
        },
        Step::Set(name, value) => {
            store.set(name, value.value(alloc)?);
            true
        }
        Step::NewArray(text, value, want) => {
            let value = value.value(alloc)?;
            object_of(store.new_array(text.as_bytes(), &value)) == want
        }
        Step::NewTable(want) => object_of(store.new_table()) == want,
        Step::Entry(id, key, want) => match store.entry(ObjId(id), key.value(alloc)?) {
            Ok(name) => place_of(id, Ok(Some(name))) == Ok(want.ok()),
            Err(refusal) => want == Err(error_of(refusal)),
        },
        Step::TableToArray(id, want) => match store.table_to_array(ObjId(id)) {
            Ok(Some(array)) => want == Ok(Some(array.0)),
            Ok(None) => want == Ok(None),
            Err(refusal) => want == Err(error_of(refusal)),
        },
        other => {
            let answers = calls_functions(store, alloc, other)?;
            answers
        }
    })
}

/// Makes a call that defines a function, or that begins or ends a call of one, and says whether it answers what the
/// step says.
fn calls_functions(store: &mut Store, alloc: Global, step: Step) -> Result<bool, AllocError> {
    Ok(match step {
        Step::Define(prototype, entry, want) => {
            done_of(store.define(prototype.as_bytes(), entry.as_bytes())) == want
        }
        Step::DefineMany(formals, want) => {
            let prototype = many_formals(alloc, formals)?;
            done_of(store.define(&prototype, b"")) == want
        }
        Step::Enter(function, arguments, want) => {
            let arguments = values(alloc, arguments)?;
            done_of(store.enter(SymId(function), arguments)) == want
        }
        Step::EnterMany(function, times) => {
            let answers = enters(store, alloc, function, times)?;
            answers
        }
        Step::Leave(want) => {
            let value = store.leave();
            value == want.value(alloc)?
        }
        Step::LeaveMany(times) => {
            let answers = leaves(store, alloc, times)?;
            answers
        }
        other => {
            let answers = makes_types(store, alloc, other)?;
            answers
        }
    })
}

/// Makes a call that makes a type or an object of one, and says whether it answers what the step says.
fn makes_types(store: &mut Store, alloc: Global, step: Step) -> Result<bool, AllocError> {
    Ok(match step {
        Step::DefineData(prototype, want) => {
            done_of(store.define_data(prototype.as_bytes())) == want
        }
        Step::DefineFields(fields, want) => {
            let prototype = many_fields(alloc, fields)?;
            done_of(store.define_data(&prototype)) == want
        }
        Step::NewData(data_type, fields, want) => {
            let fields = values(alloc, fields)?;
            object_of(store.new_data(data_type, fields)) == want
        }
        other => {
            let answers = reads(store, alloc, other)?;
            answers
        }
    })
}

/// A prototype T with the fields F0, F1, F2 .., so many.
fn many_fields(alloc: Global, fields: u32) -> Result<Vec<u8>, AllocError> {
    let mut prototype = Vec::from_slice(alloc, b"T(F0")?;
    for field in 1..fields {
        prototype.extend_from_slice(b",F")?;
        let number = int_text(alloc, i64::from(field))?;
        prototype.extend_from_slice(&number)?;
    }
    prototype.push(b')')?;
    Ok(prototype)
}

/// A prototype whose formals are A, so many times.
fn many_formals(alloc: Global, formals: u32) -> Result<Vec<u8>, AllocError> {
    let mut prototype = Vec::from_slice(alloc, b"F(A")?;
    for _formal in 1..formals {
        prototype.extend_from_slice(b",A")?;
    }
    prototype.push(b')')?;
    Ok(prototype)
}

/// The values of rows.
fn values(alloc: Global, rows: &[Row]) -> Result<Vec<Value>, AllocError> {
    let mut values = Vec::new(alloc);
    for row in rows {
        values.push(row.value(alloc)?)?;
    }
    Ok(values)
}

/// Begins calls of a function one in another, with 1, 2, 3 .. as their arguments, and says whether each is accepted.
fn enters(store: &mut Store, alloc: Global, function: u32, times: u32) -> Result<bool, AllocError> {
    let mut accepted = true;
    for argument in 0..times {
        let mut arguments = Vec::new(alloc);
        arguments.push(Value::Int(i64::from(argument) + 1))?;
        accepted = store.enter(SymId(function), arguments).is_ok() && accepted;
    }
    Ok(accepted)
}

/// Ends calls, and says whether each gives the null string.
fn leaves(store: &mut Store, alloc: Global, times: u32) -> Result<bool, AllocError> {
    let null = Row::Str("").value(alloc)?;
    let mut are_null = true;
    for _call in 0..times {
        are_null = store.leave() == null && are_null;
    }
    Ok(are_null)
}

/// Whether a definition has this label, these formals and these locals.
fn is_definition(
    definition: Option<&Definition>,
    want: Option<(&'static str, &'static [SymId], &'static [SymId])>,
) -> bool {
    match (definition, want) {
        (Some(definition), Some((entry, formals, locals))) => {
            definition.entry() == entry.as_bytes()
                && definition.formals() == formals
                && definition.locals() == locals
        }
        (None, None) => true,
        _ => false,
    }
}

/// Makes a call that changes nothing, and says whether it answers what the step says.
fn reads(store: &Store, alloc: Global, step: Step) -> Result<bool, AllocError> {
    Ok(match step {
        Step::SymbolText(number, want) => store.symbol_text(SymId(number)) == want.as_bytes(),
        Step::Get(name, want) => *store.get(name) == want.value(alloc)?,
        Step::ByKey(symbol, name, want) => {
            let found = store.value_by_key(SymId(symbol), name_key(name.as_bytes()));
            match (found, want) {
                (Some(value), Some(row)) => *value == row.value(alloc)?,
                (None, None) => true,
                _ => false,
            }
        }
        Step::Element(id, subscripts, want) => {
            place_of(id, store.element(ObjId(id), subscripts)) == want
        }
        Step::Prototype(id, want) => match store.prototype(ObjId(id)) {
            Ok(text) => want == Ok(text),
            Err(refusal) => want == Err(error_of(refusal)),
        },
        Step::Find(id, key, want) => place_of(id, store.find(ObjId(id), &key.value(alloc)?))
            == want,
        Step::Definition(function, want) => is_definition(store.definition(SymId(function)), want),
        Step::Level(want) => store.level() == want,
        other => reads_types(store, other),
    })
}

/// Asks for types and fields, and says whether it is answered what the step says.
fn reads_types(store: &Store, step: Step) -> bool {
    match step {
        Step::Constructor(function, want) => store.constructor(SymId(function)) == want,
        Step::IsField(function, want) => store.is_field(SymId(function)) == want,
        Step::Field(object, symbol, want) => {
            place_of(object, Ok(store.field(ObjId(object), SymId(symbol)))) == Ok(want)
        }
        Step::TypeName(object, want) => store.type_name(ObjId(object)) == want.as_bytes(),
        _ => false,
    }
}

/// Makes the calls of a store in turn, and checks their answers.
fn check_steps(
    rt: &impl Abort,
    alloc: Global,
    store: &mut Store,
    name: &str,
    steps: &[Step],
) -> Result<(), AllocError> {
    for (i, step) in steps.iter().enumerate() {
        assert!(rt; changes(store, alloc, *step)?, "{name}: step {i}");
    }
    Ok(())
}

/// The same of a new store.
fn check_new(rt: &impl Abort, alloc: Global, name: &str, steps: &[Step]) -> Result<(), AllocError> {
    let mut patterns = Patterns::new(alloc);
    let mut store = Store::new(alloc, &mut patterns)?;
    check_steps(rt, alloc, &mut store, name, steps)
}

/// The same of several lists of calls, each with its name.
fn check(rt: &impl Abort, alloc: Global, stores: &[(&str, &[Step])]) -> Result<(), Fail> {
    for (name, steps) in stores {
        check_new(rt, alloc, name, steps)?;
    }
    Ok(())
}
