//! The lines of a program: they are joined, and cut into statements.
ghost use Rattle.std.specs.Prelude.{◌≡◌, ◌+◌, ◌<◌, ◌≤◌, ◌^◌, ◌++◌, length, true, map, OnOk, IfOk};
ghost use Rattle.std.specs.List.{list_all};
ghost use Rattle.bstr.specs.Text.{without_terminator};
ghost use Rattle.sno_text.specs.Bytes.{is_blank};
ghost use Rattle.sno_text.specs.Lines as spec;
ghost use Rattle.sno_text.specs.Lines.{is_continuation};
ghost use Rattle.sno_text.specs.inner.Layouts.{kind_of, read_line, part_from, InOrder};

use crate::bytes::{Class, is_in};
use crate::node::Span;
use crate::scan::step_quote;
use bstr::ByteSlice;
use std::alloc::{AllocError, Global};

/// A text with its lines joined, and where its statements stand in it.
#[derive(Drop)]
pub struct Layout {
    pub joined: Vec<u8>,
    pub extents: Vec<Span>,
}

/// What a line is.
#[derive(Clone, Copy)]
pub enum LineKind {
    /// A comment, a control line or a line of blanks.
    Skipped,
    /// It continues the card before it.
    Continuation,
    /// It begins a card.
    Card,
}

/// A line without its end, LF or CR LF.
fn content(line: &[u8]) -> &[u8]
    ensures { result.now ≡ without_terminator line.now }
{
    if line.is_empty() || line[line.len() - 1] != b'\n' {
        return line;
    }
    let text = &line[..line.len() - 1];
    if text.is_empty() || text[text.len() - 1] != b'\r' {
        return text;
    }
    &text[..text.len() - 1]
}

/// Whether all bytes are blanks.
#[tactic(auto, using(crate::proofs::Layouts::layout_facts))]
fn is_all_blank(bytes: &[u8]) -> bool
    ensures { result ≡ list_all is_blank bytes.now }
{
    for byte in bytes {
        if !is_in(Class::Blank, *byte) {
            return false;
        }
    }
    true
}

/// What a line is, `begun` telling whether a card stands before it.
fn line_kind(begun: bool, content: &[u8]) -> LineKind
    ensures { result ≡ kind_of begun content.now }
{
    if is_all_blank(content) {
        return LineKind::Skipped;
    }
    match content[0] {
        b'*' | b'-' => LineKind::Skipped,
        b'+' | b'.' if begun => LineKind::Continuation,
        _ => LineKind::Card,
    }
}

/// Appends LFs.
#[tactic(auto, using(crate::proofs::Layouts::layout_facts))]
fn push_line_feeds(joined: &mut Vec<u8>, count: usize) -> Result<(), AllocError>
    ensures { OnOk result (joined.new.items ≡ joined.old.items ++ spec.line_feeds count) }
{
    for _ in 0..count {
        joined.push(b'\n')?;
    }
    Ok(())
}

/// Appends a line as it is read.
#[tactic(auto, using(crate::proofs::Layouts::line_facts))]
fn push_line(joined: &mut Vec<u8>, kind: LineKind, line: &[u8]) -> Result<(), AllocError>
    requires { kind ≡ LineKind.Continuation → is_continuation (without_terminator line.now) ≡ true }
    ensures { OnOk result (joined.new.items ≡ joined.old.items ++ read_line kind line.now) }
{
    let content = content(line);
    match kind {
        LineKind::Skipped => push_line_feeds(joined, line.len())?,
        LineKind::Continuation => {
            joined.push(b' ')?;
            joined.extend_from_slice(&content[1..])?;
            push_line_feeds(joined, line.len() - content.len())?;
        }
        LineKind::Card => {
            joined.extend_from_slice(content)?;
            push_line_feeds(joined, line.len() - content.len())?;
        }
    }
    Ok(())
}

/// Appends the extent of a part of the card at `at`, unless it is of blanks alone.
fn push_part(
    extents: &mut Vec<Span>,
    card: &[u8],
    at: usize,
    start: usize,
    end: usize,
) -> Result<(), AllocError>
    requires order { start ≤ end }
    requires within { end ≤ length card.now }
    requires room { at + length card.now < 2 ^ 64 }
    ensures { OnOk result (extents.new.items ≡ extents.old.items ++ part_from at card.now start end) }
{
    if !is_all_blank(&card[start..end]) {
        extents.push(Span {
            start: at + start,
            end: at + end,
        })?;
    }
    Ok(())
}

/// Appends the extents of the statements in a card, which stands at `at`.
fn push_statements(extents: &mut Vec<Span>, card: &[u8], at: usize) -> Result<(), AllocError>
    requires room { at + length card.now < 2 ^ 64 }
    ensures { OnOk result (extents.new.items ≡ extents.old.items ++ map (spec.moved at) (spec.statements_of card.now)) }
{
    let mut quote = 0;
    let mut start = 0;
    for end in 0..card.len() {
        if card[end] == b';' && quote == 0 {
            push_part(extents, card, at, start, end)?;
            start = end + 1;
        }
        quote = step_quote(quote, card[end]);
    }
    push_part(extents, card, at, start, card.len())
}

/// Joins the lines of a text, and tells where its statements stand.
#[tactic(auto, using(crate::proofs::Layouts::line_facts))]
pub fn lay_out(alloc: Global, text: &[u8]) -> Result<Layout, AllocError>
    requires { length text.now ≤ 4000000 }
    ensures joined { IfOk result (λ l. l.joined.items ≡ spec.joined text.now) }
    ensures extents { IfOk result (λ l. l.extents.items ≡ spec.extents text.now) }
    ensures length { IfOk result (λ l. length l.joined.items ≡ length text.now) }
    ensures order { IfOk result (λ l. InOrder 0 (length text.now) l.extents.items) }
{
    let mut joined = Vec::new(alloc);
    let mut extents = Vec::new(alloc);
    let mut begun = false;
    let mut start = 0;
    for line in text.lines_with_terminator() {
        let kind = line_kind(begun, content(line));
        if let LineKind::Card = kind {
            push_statements(&mut extents, &joined.as_slice()[start..], start)?;
            start = joined.len();
            begun = true;
        }
        push_line(&mut joined, kind, line)?;
    }
    push_statements(&mut extents, &joined.as_slice()[start..], start)?;
    Ok(Layout { joined, extents })
}
