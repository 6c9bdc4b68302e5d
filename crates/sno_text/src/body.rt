//! The cores of statements.
ghost use Rattle.std.specs.Prelude.{◌≡◌, ◌+◌, ◌^◌, ◌<◌, ◌≤◌, ℕ, length, Option, Bool, IfOk};
ghost use Rattle.sno_text.specs.Trees.{Tree};
ghost use Rattle.sno_text.specs.Statements.{HasExpression, HasObject, IsCore, HasCore, CoreTree, option_fits};
ghost use Rattle.sno_text.specs.Statements.{core_fits, core_option_fits};
ghost use Rattle.sno_text.specs.Program.{option_ids, core_ids, core_option_ids};
ghost use Rattle.sno_text.specs.inner.Parsed.{Extends};
ghost use Rattle.sno_text.specs.Pieces.{StandsExpression};
ghost use Rattle.sno_text.specs.inner.Pieces.{ParsedPiece, MeetsColon, MeetsEquals, StandsObject};
ghost use Rattle.sno_text.specs.Pieces.{StandsCore};
ghost use Rattle.sno_text.specs.Pieces.{StandsCores};
ghost use Rattle.sno_text.specs.inner.Pieces.{HasObjectPair, object_ids, object_fits};

use crate::bytes::{Class, byte_at, is_in, run_end};
use crate::expression::{read_element, read_level};
use crate::node::Node;
use crate::statement::Core;
use crate::table::{Read, both};
use sno_value::ExprId;
use std::alloc::{AllocError, Global};

/// Whether `=` stands, and what stands behind it.
#[derive(Clone, Copy)]
pub struct Object {
    pub equals: bool,
    pub object: Option<ExprId>,
}

/// [b expr]
#[tactic(auto, using(crate::proofs::Bodies::optional_facts))]
fn read_optional(
    alloc: Global,
    text: &[u8],
    nodes: &mut Vec<Node>,
    from: usize,
) -> Result<Option<Read<Option<ExprId>>>, AllocError>
    requires within { from ≤ length text.now }
    requires room { length nodes.old.items + length text.now < from + 2 ^ 32 }
    ensures read { IfOk result
        (ParsedPiece (Option Tree) (Option ExprId) (HasExpression text.now from) (MeetsEquals text.now) StandsExpression
        option_ids option_fits (length text.now) from nodes.old.items nodes.new.items) }
    ensures extends { Extends (length text.now) nodes.old.items nodes.new.items }
{
    let at = run_end(text, Class::Blank, from);
    if at == from || !is_in(Class::Start, byte_at(text, at)) {
        return Ok(Some(Read {
            what: None,
            end: from,
            fits: true,
        }));
    }
    let Some(found) = read_level(alloc, text, nodes, 0, at)? else {
        return Ok(None);
    };
    Ok(Some(Read {
        what: Some(found.id),
        end: found.end,
        fits: found.fits,
    }))
}

/// [b "=" [b expr]]
#[tactic(auto, using(crate::proofs::Bodies::object_facts))]
fn read_object(
    alloc: Global,
    text: &[u8],
    nodes: &mut Vec<Node>,
    from: usize,
) -> Result<Option<Read<Object>>, AllocError>
    requires within { from ≤ length text.now }
    requires room { length nodes.old.items + length text.now < from + 2 ^ 32 }
    ensures read { IfOk result
        (ParsedPiece (Bool × Option Tree) Object (HasObjectPair text.now from)
        (MeetsColon text.now) StandsObject object_ids
        object_fits (length text.now) from nodes.old.items nodes.new.items) }
    ensures extends { Extends (length text.now) nodes.old.items nodes.new.items }
{
    let at = run_end(text, Class::Blank, from);
    if at == from || byte_at(text, at) != b'=' {
        let what = Object {
            equals: false,
            object: None,
        };
        return Ok(Some(Read {
            what,
            end: from,
            fits: true,
        }));
    }
    let Some(found) = read_optional(alloc, text, nodes, at + 1)? else {
        return Ok(None);
    };
    let what = Object {
        equals: true,
        object: found.what,
    };
    Ok(Some(Read {
        what,
        end: found.end,
        fits: found.fits,
    }))
}

/// core = element [b expr] [b "=" [b expr]]
#[tactic(auto, using(crate::proofs::Bodies::core_facts))]
fn read_core(
    alloc: Global,
    text: &[u8],
    nodes: &mut Vec<Node>,
    from: usize,
) -> Result<Option<Read<Core>>, AllocError>
    requires within { from ≤ length text.now }
    requires room { length nodes.old.items + length text.now < from + 2 ^ 32 }
    ensures read { IfOk result
        (ParsedPiece CoreTree Core (IsCore text.now from) (MeetsColon text.now) StandsCore core_ids core_fits
        (length text.now) from nodes.old.items nodes.new.items) }
    ensures extends { Extends (length text.now) nodes.old.items nodes.new.items }
{
    let Some(subject) = read_element(alloc, text, nodes, from)? else {
        return Ok(None);
    };
    let Some(pattern) = read_optional(alloc, text, nodes, subject.end)? else {
        return Ok(None);
    };
    let Some(object) = read_object(alloc, text, nodes, pattern.end)? else {
        return Ok(None);
    };
    let what = Core {
        subject: subject.id,
        pattern: pattern.what,
        equals: object.what.equals,
        object: object.what.object,
    };
    let fits = both(both(subject.fits, pattern.fits), object.fits);
    Ok(Some(Read {
        what,
        end: object.end,
        fits,
    }))
}

/// [b core]
#[tactic(auto, using(crate::proofs::Bodies::body_facts))]
pub fn read_body(
    alloc: Global,
    text: &[u8],
    nodes: &mut Vec<Node>,
    from: usize,
) -> Result<Option<Read<Option<Core>>>, AllocError>
    requires within { from ≤ length text.now }
    requires room { length nodes.old.items + length text.now < from + 2 ^ 32 }
    ensures read { IfOk result
        (ParsedPiece (Option CoreTree) (Option Core) (HasCore text.now from) (MeetsColon text.now) StandsCores
        core_option_ids core_option_fits (length text.now) from nodes.old.items nodes.new.items) }
    ensures extends { Extends (length text.now) nodes.old.items nodes.new.items }
{
    let at = run_end(text, Class::Blank, from);
    if at == from || !is_in(Class::Start, byte_at(text, at)) {
        return Ok(Some(Read {
            what: None,
            end: from,
            fits: true,
        }));
    }
    let Some(found) = read_core(alloc, text, nodes, at)? else {
        return Ok(None);
    };
    Ok(Some(Read {
        what: Some(found.what),
        end: found.end,
        fits: found.fits,
    }))
}
