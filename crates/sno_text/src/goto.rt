//! The gotos of statements, with their targets.
ghost use Rattle.std.specs.Prelude.{◌≡◌, ◌+◌, ◌^◌, ◌<◌, ◌≤◌, ◌⊎◌, ℕ, length, Option, IfOk, MatchOption};
ghost use Rattle.sno_text.specs.Statements.{IsLabel, IsPlace, IsTarget, HasOther, IsBranch, HasJump, TargetTree};
ghost use Rattle.sno_text.specs.Statements.{JumpTree, target_fits, target_option_fits, jump_fits};
ghost use Rattle.sno_text.specs.inner.Links.{Stops};
ghost use Rattle.sno_text.specs.Program.{target_ids, target_option_ids, jump_ids};
ghost use Rattle.sno_text.specs.inner.Parsed.{Extends};
ghost use Rattle.sno_text.specs.Pieces.{StandsTarget};
ghost use Rattle.sno_text.specs.inner.Pieces.{ParsedPiece, MeetsEnd, StandsTargets, StandsTargetPair};
ghost use Rattle.sno_text.specs.Pieces.{StandsJump};
ghost use Rattle.sno_text.specs.inner.Pieces.{HasTargetPair, pair_ids, pair_fits, Anywhere};

use crate::bytes::{Class, byte_at, is_in, run_end};
use crate::expression::read_element;
use crate::node::{Node, Span};
use crate::statement::{Jump, Target};
use crate::table::{Read, both};
use std::alloc::{AllocError, Global};

/// label = (letter | digit) {letter | digit | "." | "_"}
pub fn read_label(text: &[u8], from: usize) -> Option<Span>
    requires { from ≤ length text.now }
    ensures { MatchOption result ((j : ℕ) → IsLabel text.now from j → ⊥)
        (λ span. (span.start ≡ from) × IsLabel text.now from span.end × (from < span.end)
        × (span.end ≤ length text.now)) }
{
    let first = byte_at(text, from);
    if is_in(Class::Letter, first) || is_in(Class::Digit, first) {
        let end = run_end(text, Class::NameByte, from);
        Some(Span { start: from, end })
    } else {
        None
    }
}

/// place = label | "$" element
#[tactic(auto, using(crate::proofs::Targets::place_facts))]
fn read_place(
    alloc: Global,
    text: &[u8],
    nodes: &mut Vec<Node>,
    from: usize,
) -> Result<Option<Read<Target>>, AllocError>
    requires within { from ≤ length text.now }
    requires room { length nodes.old.items + length text.now < from + 2 ^ 32 }
    ensures read { IfOk result
        (ParsedPiece TargetTree Target (IsPlace text.now from) (Stops text.now 7) StandsTarget target_ids target_fits
        (length text.now) from nodes.old.items nodes.new.items) }
    ensures extends { Extends (length text.now) nodes.old.items nodes.new.items }
{
    if byte_at(text, from) == b'$' {
        let Some(found) = read_element(alloc, text, nodes, from + 1)? else {
            return Ok(None);
        };
        let what = Target::Computed(found.id);
        return Ok(Some(Read {
            what,
            end: found.end,
            fits: found.fits,
        }));
    }
    let Some(span) = read_label(text, from) else {
        return Ok(None);
    };
    Ok(Some(Read {
        what: Target::Label(span),
        end: span.end,
        fits: true,
    }))
}

/// target = "(" [b] place [b] ")"
#[tactic(auto, using(crate::proofs::Targets::target_facts))]
pub fn read_target(
    alloc: Global,
    text: &[u8],
    nodes: &mut Vec<Node>,
    from: usize,
) -> Result<Option<Read<Target>>, AllocError>
    requires within { from ≤ length text.now }
    requires room { length nodes.old.items + length text.now < from + 2 ^ 32 }
    ensures read { IfOk result
        (ParsedPiece TargetTree Target (IsTarget text.now from) Anywhere StandsTarget target_ids target_fits
        (length text.now) from nodes.old.items nodes.new.items) }
    ensures extends { Extends (length text.now) nodes.old.items nodes.new.items }
{
    if byte_at(text, from) != b'(' {
        return Ok(None);
    }
    let start = run_end(text, Class::Blank, from + 1);
    let Some(found) = read_place(alloc, text, nodes, start)? else {
        return Ok(None);
    };
    let end = run_end(text, Class::Blank, found.end);
    if byte_at(text, end) != b')' {
        return Ok(None);
    }
    Ok(Some(Read {
        what: found.what,
        end: end + 1,
        fits: found.fits,
    }))
}

/// [[b] letter target]
#[tactic(auto, using(crate::proofs::Targets::other_facts))]
fn read_other(
    alloc: Global,
    text: &[u8],
    nodes: &mut Vec<Node>,
    letter: u8,
    from: usize,
) -> Result<Option<Read<Option<Target>>>, AllocError>
    requires letter { (letter ≡ 70) ⊎ (letter ≡ 83) }
    requires within { from ≤ length text.now }
    requires room { length nodes.old.items + length text.now < from + 2 ^ 32 }
    ensures read { IfOk result
        (ParsedPiece (Option TargetTree) (Option Target) (HasOther text.now letter from)
        (MeetsEnd text.now) StandsTargets
        target_option_ids target_option_fits (length text.now) from nodes.old.items nodes.new.items) }
    ensures extends { Extends (length text.now) nodes.old.items nodes.new.items }
{
    let at = run_end(text, Class::Blank, from);
    if byte_at(text, at) != letter {
        return Ok(Some(Read {
            what: None,
            end: from,
            fits: true,
        }));
    }
    let Some(found) = read_target(alloc, text, nodes, at + 1)? else {
        return Ok(None);
    };
    Ok(Some(Read {
        what: Some(found.what),
        end: found.end,
        fits: found.fits,
    }))
}

/// A target, and the other one behind it.
#[derive(Clone, Copy)]
pub struct Targets {
    pub first: Target,
    pub second: Option<Target>,
}

/// target [[b] letter target]
#[tactic(auto, using(crate::proofs::Jumps::targets_facts))]
fn read_targets(
    alloc: Global,
    text: &[u8],
    nodes: &mut Vec<Node>,
    letter: u8,
    from: usize,
) -> Result<Option<Read<Targets>>, AllocError>
    requires letter { (letter ≡ 70) ⊎ (letter ≡ 83) }
    requires within { from ≤ length text.now }
    requires room { length nodes.old.items + length text.now < from + 2 ^ 32 }
    ensures read { IfOk result
        (ParsedPiece (TargetTree × Option TargetTree) Targets (HasTargetPair text.now letter from)
        (MeetsEnd text.now) StandsTargetPair pair_ids pair_fits (length text.now) from
        nodes.old.items nodes.new.items) }
    ensures extends { Extends (length text.now) nodes.old.items nodes.new.items }
{
    let Some(first) = read_target(alloc, text, nodes, from)? else {
        return Ok(None);
    };
    let Some(second) = read_other(alloc, text, nodes, letter, first.end)? else {
        return Ok(None);
    };
    let what = Targets {
        first: first.what,
        second: second.what,
    };
    let fits = both(first.fits, second.fits);
    Ok(Some(Read {
        what,
        end: second.end,
        fits,
    }))
}

/// branch = target | "S" target [[b] "F" target] | "F" target [[b] "S" target]
#[tactic(auto, using(crate::proofs::Jumps::branch_facts))]
fn read_branch(
    alloc: Global,
    text: &[u8],
    nodes: &mut Vec<Node>,
    from: usize,
) -> Result<Option<Read<Jump>>, AllocError>
    requires within { from ≤ length text.now }
    requires room { length nodes.old.items + length text.now < from + 2 ^ 32 }
    ensures read { IfOk result
        (ParsedPiece JumpTree Jump (IsBranch text.now from) (MeetsEnd text.now) StandsJump jump_ids jump_fits
        (length text.now) from nodes.old.items nodes.new.items) }
    ensures extends { Extends (length text.now) nodes.old.items nodes.new.items }
{
    let letter = byte_at(text, from);
    if letter == b'S' {
        let Some(found) = read_targets(alloc, text, nodes, b'F', from + 1)? else {
            return Ok(None);
        };
        let what = Jump::Either(Some(found.what.first), found.what.second);
        return Ok(Some(Read {
            what,
            end: found.end,
            fits: found.fits,
        }));
    }
    if letter == b'F' {
        let Some(found) = read_targets(alloc, text, nodes, b'S', from + 1)? else {
            return Ok(None);
        };
        let what = Jump::Either(found.what.second, Some(found.what.first));
        return Ok(Some(Read {
            what,
            end: found.end,
            fits: found.fits,
        }));
    }
    let Some(found) = read_target(alloc, text, nodes, from)? else {
        return Ok(None);
    };
    Ok(Some(Read {
        what: Jump::Always(found.what),
        end: found.end,
        fits: found.fits,
    }))
}

/// [b goto], goto = ":" [b] branch
#[tactic(auto, using(crate::proofs::Jumps::jump_facts))]
pub fn read_jump(
    alloc: Global,
    text: &[u8],
    nodes: &mut Vec<Node>,
    from: usize,
) -> Result<Option<Read<Jump>>, AllocError>
    requires within { from ≤ length text.now }
    requires room { length nodes.old.items + length text.now < from + 2 ^ 32 }
    ensures read { IfOk result
        (ParsedPiece JumpTree Jump (HasJump text.now from) (MeetsEnd text.now) StandsJump jump_ids jump_fits
        (length text.now) from nodes.old.items nodes.new.items) }
    ensures extends { Extends (length text.now) nodes.old.items nodes.new.items }
{
    let at = run_end(text, Class::Blank, from);
    if at == from || byte_at(text, at) != b':' {
        return Ok(Some(Read {
            what: Jump::Fall,
            end: from,
            fits: true,
        }));
    }
    let start = run_end(text, Class::Blank, at + 1);
    let Some(found) = read_branch(alloc, text, nodes, start)? else {
        return Ok(None);
    };
    Ok(Some(Read {
        what: found.what,
        end: found.end,
        fits: found.fits,
    }))
}
