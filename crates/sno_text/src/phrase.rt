//! Whole statements.
ghost use Rattle.std.specs.Prelude.{◌≡◌, ◌≢◌, ◌+◌, ◌^◌, ◌<◌, ◌≤◌, ℕ, length, true, false, Some, None, IfOk};
ghost use Rattle.sno_text.specs.Lines.{part};
ghost use Rattle.sno_text.specs.inner.Parsed.{Extends};
ghost use Rattle.sno_text.specs.inner.Phrases.{PlainOutcome, EndOutcome, StatementOutcome, FindsEntry};

use crate::body::read_body;
use crate::bytes::{Class, run_end};
use crate::goto::{read_jump, read_label};
use crate::node::{Node, Span};
use crate::statement::{Core, Jump};
use crate::table::{Read, both};
use std::alloc::{AllocError, Global};

/// What a statement was read as.
#[derive(Clone, Copy)]
pub struct Phrase {
    pub label: Option<Span>,
    pub core: Option<Core>,
    pub jump: Jump,
    pub entry: Option<Span>,
    /// Whether each integer is in range.
    pub fits: bool,
}

/// Whether a token has this text.
pub fn is_name(text: &[u8], span: Span, name: &[u8]) -> bool
    requires order { span.start ≤ span.end }
    requires within { span.end ≤ length text.now }
    ensures same { result ≡ true → part text.now span ≡ name.now }
    ensures other { result ≡ false → part text.now span ≢ name.now }
{
    &text[span.start..span.end] == name
}

/// Whether nothing stands in a statement.
fn is_nothing(label: Option<Span>, core: Option<Core>, jump: Jump) -> bool
    ensures nothing { result ≡ true → (label ≡ None) × (core ≡ None) × (jump ≡ Jump.Fall) }
    ensures some { result ≡ false → label ≡ None → core ≡ None → jump ≢ Jump.Fall }
{
    if label.is_some() || core.is_some() {
        return false;
    }
    matches!(jump, Jump::Fall)
}

/// [b core] [b goto] [b], behind [label]
#[tactic(auto, using(crate::proofs::Phrases::plain_facts))]
fn read_plain(
    alloc: Global,
    text: &[u8],
    nodes: &mut Vec<Node>,
    label: Option<Span>,
    from: usize,
) -> Result<Option<Phrase>, AllocError>
    requires within { from ≤ length text.now }
    requires room { length nodes.old.items + length text.now < from + 2 ^ 32 }
    ensures read { IfOk result (PlainOutcome text.now label from nodes.old.items nodes.new.items) }
    ensures extends { Extends (length text.now) nodes.old.items nodes.new.items }
{
    let Some(body) = read_body(alloc, text, nodes, from)? else {
        return Ok(None);
    };
    let Some(jump) = read_jump(alloc, text, nodes, body.end)? else {
        return Ok(None);
    };
    if run_end(text, Class::Blank, jump.end) != text.len() {
        return Ok(None);
    }
    if is_nothing(label, body.what, jump.what) {
        return Ok(None);
    }
    let fits = both(body.fits, jump.fits);
    Ok(Some(Phrase {
        label,
        core: body.what,
        jump: jump.what,
        entry: None,
        fits,
    }))
}

/// [b label]
#[tactic(auto, using(crate::proofs::Phrases::entry_facts))]
fn read_entry(text: &[u8], from: usize) -> Read<Option<Span>>
    requires { from ≤ length text.now }
    ensures { FindsEntry text.now from result }
{
    let at = run_end(text, Class::Blank, from);
    if at == from {
        return Read {
            what: None,
            end: from,
            fits: true,
        };
    }
    match read_label(text, at) {
        Some(span) => Read {
            what: Some(span),
            end: span.end,
            fits: true,
        },
        None => Read {
            what: None,
            end: from,
            fits: true,
        },
    }
}

/// [b label] [b], behind "END"
#[tactic(auto, using(crate::proofs::Phrases::end_facts))]
fn read_end(text: &[u8], label: Span) -> Option<Phrase>
    requires { label.end ≤ length text.now }
    ensures { EndOutcome text.now label result }
{
    let entry = read_entry(text, label.end);
    if run_end(text, Class::Blank, entry.end) != text.len() {
        return None;
    }
    Some(Phrase {
        label: Some(label),
        core: None,
        jump: Jump::Fall,
        entry: entry.what,
        fits: true,
    })
}

/// statement = [label] [b core] [b goto] [b] | "END" [b label] [b]
#[tactic(auto, using(crate::proofs::Phrases::statement_facts))]
pub fn read_statement(
    alloc: Global,
    text: &[u8],
    nodes: &mut Vec<Node>,
    from: usize,
) -> Result<Option<Phrase>, AllocError>
    requires within { from ≤ length text.now }
    requires room { length nodes.old.items + length text.now < from + 2 ^ 32 }
    ensures read { IfOk result (StatementOutcome text.now from nodes.old.items nodes.new.items) }
    ensures extends { Extends (length text.now) nodes.old.items nodes.new.items }
{
    let Some(label) = read_label(text, from) else {
        let found = read_plain(alloc, text, nodes, None, from)?;
        return Ok(found);
    };
    if is_name(text, label, b"END") {
        return Ok(read_end(text, label));
    }
    if is_name(text, label, b"RETURN") {
        return Ok(None);
    }
    if is_name(text, label, b"FRETURN") {
        return Ok(None);
    }
    let found = read_plain(alloc, text, nodes, Some(label), label.end)?;
    Ok(found)
}
