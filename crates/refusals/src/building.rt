//! The builders of patterns.
ghost use Rattle.std.specs.Prelude.{◌<◌, length};

use crate::twins::are_same_tables;
use sno_pattern::{Arg, BuildError, Patterns};
use sno_value::{ExprId, Name, PatId, Prim, SymId};
use std::alloc::{AllocError, Global};

/// How many builders there are, by their numbers.
const BUILDERS: u32 = 22;

/// How many times each is called on a table, so often that the table grows.
const CALLS: u32 = 8;

const X: Name = Name::Var(SymId(9));

/// Whether each builder that is refused leaves the table as it
/// was, and builds what its twin does where it is called again.
pub(crate) fn holds(alloc: Global) -> Result<bool, AllocError> {
    for builder in 0..BUILDERS {
        if !builds(alloc, builder)? {
            return Ok(false);
        }
    }
    Ok(true)
}

/// Calls a builder on a new table and on its twin. The first two calls build a text in its place.
fn builds(alloc: Global, builder: u32) -> Result<bool, AllocError> {
    let mut table = Patterns::new(alloc);
    let mut twin = Patterns::new(alloc);
    for _call in 0..CALLS {
        if !builds_both(&mut table, &mut twin, builder)? {
            return Ok(false);
        }
    }
    Ok(are_same_tables(&table, &twin))
}

/// Calls a builder on a table and then on its twin.
fn builds_both(
    table: &mut Patterns,
    twin: &mut Patterns,
    builder: u32,
) -> Result<bool, AllocError> {
    let mut built = build(table, builder);
    if built == Err(BuildError::NoMemory) {
        if !are_same_tables(table, twin) {
            return Ok(false);
        }
        built = build(table, builder);
    }
    let wanted = build(twin, builder);
    if wanted == Err(BuildError::NoMemory) {
        return Err(AllocError);
    }
    Ok(built == wanted && wanted.is_ok())
}

/// Calls the builder with this number.
fn build(table: &mut Patterns, builder: u32) -> Result<PatId, BuildError> {
    if 2 <= table.len() {
        build_over(table, builder)
    } else {
        table.text(b"AB")
    }
}

/// Calls the builder with this number, where the table has two patterns for its parts.
fn build_over(table: &mut Patterns, builder: u32) -> Result<PatId, BuildError>
    requires { 1 < length table.old }
{
    let (first, second) = (PatId(0), PatId(1));
    match builder {
        0 => table.arbno(second),
        1 => table.alt(first, second),
        2 => table.cat(second, first),
        3 => table.cond(first, X),
        4 => table.imm(second, X),
        5 => table.cut(first),
        _ => build_leaf(table, builder),
    }
}

/// Calls the builder with this number, which needs no parts.
fn build_leaf(table: &mut Patterns, builder: u32) -> Result<PatId, BuildError> {
    if builder < 12 {
        build_with_argument(table, builder)
    } else if builder < 19 {
        build_plain(table, builder)
    } else {
        build_named(table, builder)
    }
}

/// Calls the builder with this number, which takes a text, a count or a set.
fn build_with_argument(table: &mut Patterns, builder: u32) -> Result<PatId, BuildError> {
    match builder {
        6 => table.text(b"a text of some length"),
        7 => table.text(b""),
        8 => table.prim(Prim::Len, Arg::Count(2)),
        9 => table.prim(Prim::Rtab, Arg::Count(1)),
        10 => table.prim(Prim::Span, Arg::Set(b"AB")),
        _ => table.prim(Prim::BreakX, Arg::Set(b")")),
    }
}

/// Calls the builder with this number, which takes nothing.
fn build_plain(table: &mut Patterns, builder: u32) -> Result<PatId, BuildError> {
    match builder {
        12 => table.arb(),
        13 => table.bal(),
        14 => table.rem(),
        15 => table.fail(),
        16 => table.fence(),
        17 => table.abort(),
        _ => table.succeed(),
    }
}

/// Calls the builder with this number, which takes a name or an expression.
fn build_named(table: &mut Patterns, builder: u32) -> Result<PatId, BuildError> {
    match builder {
        19 => table.cursor(X),
        20 => table.defer(ExprId(3)),
        _ => table.defer_prim(Prim::Any, ExprId(4)),
    }
}
