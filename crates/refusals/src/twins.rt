//! Whether two tables of patterns, or two stores, answer the same.
ghost use Rattle.std.specs.Prelude.{◌<◌, length};

use sno_pattern::{Patterns, Shape};
use sno_store::Store;
use sno_value::{Name, ObjId, PatId, SymId, Value};

/// A subject in which the primitives end at different places.
const SUBJECT: &[u8] = b"AB(AB)AB";

/// The most symbols of a store that is compared, and the most objects.
const SYMBOLS: u32 = 40;

const OBJECTS: u32 = 12;

/// The most parts of an object.
const PARTS: u32 = 8;

/// Whether all that two tables tell is equal.
pub(crate) fn are_same_tables(table: &Patterns, twin: &Patterns) -> bool {
    if table.len() != twin.len() {
        return false;
    }
    for number in 0..table.len() {
        if !is_same_pattern(table, twin, PatId(number)) {
            return false;
        }
    }
    true
}

/// Whether two tables tell the same of a number.
pub(crate) fn is_same_pattern(table: &Patterns, twin: &Patterns, id: PatId) -> bool
    requires table { id.0 < length table.now }
    requires twin { id.0 < length twin.now }
{
    if table.shape(id) != twin.shape(id) || table.is_quiet(id) != twin.is_quiet(id) {
        return false;
    }
    for number in 0..4 {
        if end(table, id, 0, number) != end(twin, id, 0, number)
            || end(table, id, 5, number) != end(twin, id, 5, number)
        {
            return false;
        }
    }
    true
}

/// The end with this number from a cursor, where a pattern is a primitive.
fn end(table: &Patterns, id: PatId, at: usize, number: usize) -> Option<usize>
    requires { id.0 < length table.now }
{
    if at > SUBJECT.len() {
        return None;
    }
    match table.shape(id) {
        Shape::Primitive => table.end_at(id, SUBJECT, at, number),
        _ => None,
    }
}

/// Whether all that two stores tell is equal. `key` is one that tables are asked for.
pub(crate) fn are_same_stores(store: &Store, twin: &Store, key: &Value) -> bool {
    if store.level() != twin.level() {
        return false;
    }
    for number in 0..SYMBOLS {
        if !is_same_symbol(store, twin, SymId(number)) {
            return false;
        }
    }
    for number in 0..OBJECTS {
        if !is_same_object(store, twin, ObjId(number), key) {
            return false;
        }
    }
    true
}

/// Whether two stores tell the same of a symbol, its variable and its function.
fn is_same_symbol(store: &Store, twin: &Store, symbol: SymId) -> bool {
    let name = Name::Var(symbol);
    store.symbol_text(symbol) == twin.symbol_text(symbol)
        && store.get(name) == twin.get(name)
        && store.constructor(symbol) == twin.constructor(symbol)
        && store.is_field(symbol) == twin.is_field(symbol)
        && is_same_definition(store, twin, symbol)
}

/// Whether two stores have the same definition of a function, or none.
fn is_same_definition(store: &Store, twin: &Store, function: SymId) -> bool {
    match (store.definition(function), twin.definition(function)) {
        (Some(definition), Some(other)) => {
            definition.entry() == other.entry()
                && definition.formals() == other.formals()
                && definition.locals() == other.locals()
        }
        (None, None) => true,
        _ => false,
    }
}

/// Whether two stores tell the same of an object and of its parts.
fn is_same_object(store: &Store, twin: &Store, object: ObjId, key: &Value) -> bool {
    if store.prototype(object) != twin.prototype(object)
        || store.type_name(object) != twin.type_name(object)
        || store.find(object, key) != twin.find(object, key)
        || store.element(object, &[1, 2]) != twin.element(object, &[1, 2])
        || store.element(object, &[2]) != twin.element(object, &[2])
    {
        return false;
    }
    for part in 0..PARTS {
        if !is_same_part(store, twin, object, part) {
            return false;
        }
    }
    for number in 0..SYMBOLS {
        if store.field(object, SymId(number)) != twin.field(object, SymId(number)) {
            return false;
        }
    }
    true
}

/// Whether an object's element, entry or field with this number has the same value in two stores.
fn is_same_part(store: &Store, twin: &Store, object: ObjId, part: u32) -> bool {
    let (element, entry) = (Name::Elem(object, part), Name::Entry(object, part));
    let field = Name::Field(object, part);
    store.get(element) == twin.get(element)
        && store.get(entry) == twin.get(entry)
        && store.get(field) == twin.get(field)
}
