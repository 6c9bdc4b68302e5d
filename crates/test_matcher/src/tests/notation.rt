//! A notation for forms: words as `TEXT:A LEN:1 |:0,1`. A part is named by the place of its word, counted from 0, and a
//! variable or an expression by its number. `CUT:0` is FENCE(P).
use super::forms::Form;
use sno_value::{ExprId, PatId, Prim};
use std::alloc::Global;
use std::test::Fail;

/// The forms that words stand for.
pub fn forms_of(alloc: Global, words: &'static str) -> Result<Vec<Form>, Fail> {
    let mut forms = Vec::new(alloc);
    for word in words.split_whitespace() {
        let (name, argument) = word.split_once(":").unwrap_or((word, ""));
        forms.push(form_of(name, argument)?)?;
    }
    Ok(forms)
}

fn form_of(name: &'static str, argument: &'static str) -> Result<Form, Fail> {
    if let Some(prim) = primitive_of(name) {
        return if prim.takes_count() {
            Ok(Form::Count(prim, argument.parse()?))
        } else {
            Ok(Form::Set(prim, argument.as_bytes()))
        };
    }
    let form = match name {
        "TEXT" => Form::Text(argument.as_bytes()),
        "ARB" => Form::Arb,
        "BAL" => Form::Bal,
        "REM" => Form::Rem,
        "FAIL" => Form::Fail,
        "FENCE" => Form::Fence,
        "ABORT" => Form::Abort,
        "SUCCEED" => Form::Succeed,
        _ => numbered(name, argument)?,
    };
    Ok(form)
}

/// The forms with one or two numbers.
fn numbered(name: &'static str, argument: &'static str) -> Result<Form, Fail> {
    let (first, second) = argument.split_once(",").unwrap_or((argument, "0"));
    let first: u32 = first.parse()?;
    let second: u32 = second.parse()?;
    match name {
        "CUT" => Ok(Form::Cut(PatId(first))),
        "ARBNO" => Ok(Form::Arbno(PatId(first))),
        "|" => Ok(Form::Alt(PatId(first), PatId(second))),
        "&" => Ok(Form::Cat(PatId(first), PatId(second))),
        "." => Ok(Form::Cond(PatId(first), second)),
        "$" => Ok(Form::Imm(PatId(first), second)),
        "@" => Ok(Form::Cursor(first)),
        "*" => Ok(Form::Defer(None, ExprId(first))),
        "*LEN" => Ok(Form::Defer(Some(Prim::Len), ExprId(first))),
        "*SPAN" => Ok(Form::Defer(Some(Prim::Span), ExprId(first))),
        _ => Err(Fail::from("no such form")),
    }
}

fn primitive_of(name: &str) -> Option<Prim> {
    match name {
        "LEN" => Some(Prim::Len),
        "POS" => Some(Prim::Pos),
        "RPOS" => Some(Prim::Rpos),
        "TAB" => Some(Prim::Tab),
        "RTAB" => Some(Prim::Rtab),
        "ANY" => Some(Prim::Any),
        "NOTANY" => Some(Prim::NotAny),
        "SPAN" => Some(Prim::Span),
        "BREAK" => Some(Prim::Break),
        "BREAKX" => Some(Prim::BreakX),
        _ => None,
    }
}
