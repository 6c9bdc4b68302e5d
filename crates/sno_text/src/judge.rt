//! The reader of programs: statements are judged in their order, up to END.
ghost use Rattle.std.specs.Prelude.{◌≡◌, ◌≢◌, ◌+◌, ◌<◌, ◌≤◌, ◌⊎◌, ◌∷◌, ◌++◌, ◌^◌, [], None, Some, true, false, ℕ, List};
ghost use Rattle.std.specs.Prelude.{length, codes, is_some, IfOk, IfErr, IfNone, IfSome, OnOk};
ghost use Rattle.sno_text.specs.Lines as lines;
ghost use Rattle.sno_text.specs.Lines.{part};
ghost use Rattle.sno_text.specs.Refusals.{HasOpenLiteral};
ghost use Rattle.sno_text.specs.Program.{IsWithin, IsOptionWithin};
ghost use Rattle.sno_text.specs.inner.Program.{number_of, IsIndex};
ghost use Rattle.sno_text.specs.Statements.{StatementTree};
ghost use Rattle.sno_text.specs.Programs.{IsTooLargeBytes, IsRefusedAt};
ghost use Rattle.sno_text.specs.inner.Judging.{Knows, IsJudged, IsPlaced, IsShapeRefused, IsLabelRefused, statement_of};

use crate::error::ReadError;
use crate::node::{Node, Span};
use crate::phrase::{Phrase, is_name, read_statement};
use crate::reader::LONGEST;
use crate::scan::{has_open_literal, nests_deep};
use crate::statement::Statement;
use std::alloc::Global;
use std::collections::BTreeMap;

/// The most statements of a program, END included.
const MOST_STATEMENTS: usize = 100_000;

/// How many bytes a statement has: LFs are none.
fn size_of(bytes: &[u8]) -> usize
    ensures { result ≡ lines.size bytes.now }
{
    let mut size = 0;
    for byte in bytes {
        if *byte != b'\n' {
            size += 1;
        }
    }
    size
}

/// Why a statement is refused before its grammar is asked, `count` being how many stand before it.
fn refuse_shape(count: usize, bytes: &[u8], line: u32) -> Option<ReadError>
    ensures fits { IfNone result ((count < 100000) × (HasOpenLiteral bytes.now → ⊥) × (IsTooLargeBytes bytes.now → ⊥)) }
    ensures refused { IfSome result (λ e. IsShapeRefused count bytes.now line e) }
{
    if count >= MOST_STATEMENTS {
        return Some(ReadError::TooLarge { line });
    }
    if has_open_literal(bytes) {
        return Some(ReadError::Syntax { line, code: 1 });
    }
    if size_of(bytes) > LONGEST {
        return Some(ReadError::TooLarge { line });
    }
    if nests_deep(bytes) {
        return Some(ReadError::TooLarge { line });
    }
    None
}

/// Whether a statement before has the label that stands at a place.
fn has_label(text: &[u8], labels: &BTreeMap<Vec<u8>, u32>, span: Span) -> bool
    requires { IsWithin span (length text.now) }
    ensures { result ≡ is_some (number_of labels.now.entries (part text.now span)) }
{
    labels.contains_key(&text[span.start..span.end])
}

/// Why a statement is refused by its labels.
fn refuse_labels(
    text: &[u8],
    labels: &BTreeMap<Vec<u8>, u32>,
    phrase: Phrase,
    line: u32,
) -> Option<ReadError>
    requires label { IsOptionWithin phrase.label (length text.now) }
    requires entry { IsOptionWithin phrase.entry (length text.now) }
    ensures fresh { IfNone result ((span : Span) → phrase.label ≡ Some span
        → number_of labels.now.entries (part text.now span) ≡ None) }
    ensures known { IfNone result ((span : Span) → phrase.entry ≡ Some span → part text.now span ≢ codes "END"
        → is_some (number_of labels.now.entries (part text.now span)) ≡ true) }
    ensures refused { IfSome result (λ e. IsLabelRefused text.now labels.now.entries phrase line e) }
{
    if let Some(label) = phrase.label {
        if has_label(text, labels, label) {
            return Some(ReadError::DuplicateLabel { line });
        }
    }
    if let Some(entry) = phrase.entry {
        if !is_name(text, entry, b"END") {
            if !has_label(text, labels, entry) {
                return Some(ReadError::Syntax { line, code: 4 });
            }
        }
    }
    None
}

/// Reads the statement at an extent, and judges it by the first row of the table of refusals that fits. `labels` are
/// those of the statements before it, and `count` is how many they are.
pub fn judge(
    alloc: Global,
    text: &[u8],
    joined: &[u8],
    nodes: &mut Vec<Node>,
    labels: &BTreeMap<Vec<u8>, u32>,
    count: usize,
    extent: Span,
    line: u32,
) -> Result<Phrase, ReadError>
    requires place { IsPlaced text.now joined.now extent line }
    requires room { length nodes.old.items ≤ extent.start }
    ensures accepted { IfOk result (λ p. IsJudged text.now count labels.now.entries extent nodes.old.items
        nodes.new.items p) }
    ensures refused { IfErr result (λ e. (e ≡ ReadError.NoMemory)
        ⊎ ((before : List StatementTree) → Knows text.now before count labels.now.entries
        → IsRefusedAt text.now before extent e)) }
{
    if let Some(error) = refuse_shape(count, &joined[extent.start..extent.end], line) {
        return Err(error);
    }
    let Some(phrase) = read_statement(alloc, &joined[..extent.end], nodes, extent.start)? else {
        return Err(ReadError::Syntax { line, code: 3 });
    };
    if !phrase.fits {
        return Err(ReadError::Syntax { line, code: 2 });
    }
    if let Some(error) = refuse_labels(text, labels, phrase, line) {
        return Err(error);
    }
    Ok(phrase)
}

/// Appends a statement that was judged.
pub fn push_statement(
    alloc: Global,
    text: &[u8],
    statements: &mut Vec<Statement>,
    labels: &mut BTreeMap<Vec<u8>, u32>,
    phrase: Phrase,
    line: u32,
) -> Result<(), ReadError>
    requires few { length statements.old.items < 100000 }
    requires label { IsOptionWithin phrase.label (length text.now) }
    requires fresh { (span : Span) → phrase.label ≡ Some span
        → number_of labels.old.entries (part text.now span) ≡ None }
    ensures pushed { OnOk result (statements.new.items ≡ statements.old.items ++ statement_of phrase line ∷ []) }
    ensures index { OnOk result (IsIndex text.now statements.old.items labels.old.entries
        → IsIndex text.now statements.new.items labels.new.entries) }
    ensures err { IfErr result (λ e. e ≡ ReadError.NoMemory) }
{
    let Phrase {
        label,
        core,
        jump,
        entry,
        fits: _fits,
    } = phrase;
    let number = statements.len() as u32 + 1;
    statements.push(Statement {
        line,
        label,
        core,
        jump,
        entry,
    })?;
    if let Some(label) = label {
        let name = text[label.start..label.end].to_vec(alloc)?;
        labels.insert(name, number)?;
    }
    Ok(())
}
