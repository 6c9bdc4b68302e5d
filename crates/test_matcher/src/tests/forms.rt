//! Patterns for tests, beside the table of nodes.
ghost use Rattle.std.specs.Prelude.{◌<◌, length, IfOk};

use sno_pattern::{Arg, BuildError, Patterns};
use sno_value::{ExprId, Name, PatId, Prim, SymId};
use std::alloc::Global;
use std::test::Fail;

/// A pattern whose parts are known by their places in a list of forms, which are also their numbers in a table.
#[derive(Clone, Copy, Drop)]
pub enum Form {
    Text(&'static [u8]),
    Count(Prim, u64),
    Set(Prim, &'static [u8]),
    Arb,
    Bal,
    Rem,
    Fail,
    Fence,
    Cut(PatId),
    Abort,
    Succeed,
    Arbno(PatId),
    Alt(PatId, PatId),
    Cat(PatId, PatId),
    Cond(PatId, u32),
    Imm(PatId, u32),
    Cursor(u32),
    Defer(Option<Prim>, ExprId),
}

/// The variable with a number.
pub fn variable(number: u32) -> Name {
    Name::Var(SymId(number))
}

/// A table of these forms, and the number of the last.
pub fn table_of(alloc: Global, forms: &[Form]) -> Result<(Patterns, PatId), Fail>
    ensures { IfOk result (λ made. made.1.0 < length made.0) }
{
    let mut table = Patterns::new(alloc);
    for form in forms {
        let place = table.len();
        let id = build(&mut table, *form)?;
        if id.0 != place {
            return Err(Fail::from("a form has another number than its place"));
        }
    }
    let last = PatId(table.len().saturating_sub(1));
    if last.0 < table.len() {
        Ok((table, last))
    } else {
        Err(Fail::from("no form"))
    }
}

/// Puts a form into the table of nodes, where its parts are already.
fn build(table: &mut Patterns, form: Form) -> Result<PatId, BuildError> {
    match form {
        Form::Text(bytes) if bytes.len() <= 9 => table.text(bytes),
        Form::Count(prim, n) if prim.takes_count() && n <= 9_223_372_036_854_775_807 => {
            table.prim(prim, Arg::Count(n as i64))
        }
        Form::Set(prim, set) if !prim.takes_count() => table.prim(prim, Arg::Set(set)),
        Form::Arb => table.arb(),
        Form::Bal => table.bal(),
        Form::Rem => table.rem(),
        Form::Fail => table.fail(),
        Form::Fence => table.fence(),
        Form::Abort => table.abort(),
        Form::Succeed => table.succeed(),
        Form::Cursor(n) => table.cursor(variable(n)),
        Form::Defer(None, expression) => table.defer(expression),
        Form::Defer(Some(prim), expression) => table.defer_prim(prim, expression),
        joined => build_over(table, joined),
    }
}

/// The forms with parts. A form that can't be built is refused as by a full table.
fn build_over(table: &mut Patterns, form: Form) -> Result<PatId, BuildError> {
    let end = table.len();
    match form {
        Form::Cut(p) if p.0 < end => table.cut(p),
        Form::Arbno(p) if p.0 < end => table.arbno(p),
        Form::Alt(p, q) if p.0 < end && q.0 < end => table.alt(p, q),
        Form::Cat(p, q) if p.0 < end && q.0 < end => table.cat(p, q),
        Form::Cond(p, n) if p.0 < end => table.cond(p, variable(n)),
        Form::Imm(p, n) if p.0 < end => table.imm(p, variable(n)),
        _ => Err(BuildError::Full),
    }
}
