//! Looks for so many different sets over one subject that they come to share what is present in its parts.
ghost use Rattle.std.specs.Prelude.{◌<◌, length};
ghost use Rattle.sno_pattern.specs.Looks.{AreTrue};

use super::looks::look;
use sno_pattern::{Arg, Looks, Patterns};
use sno_value::{PatId, Prim};
use std::alloc::{AllocError, Global};
use std::process::Abort;
use std::test::Fail;

/// A primitive with its set, a cursor, and its first end from there.
type Row = (Prim, &'static [u8], usize, Option<usize>);

/// The subject: 4,095 times A, a comma, 512 times B, a semicolon at 4,608, 1,391 times C, and a dot at 6,000. The first
/// five looks go through all of it. By then it is worth telling what is present in each part, and those behind them use
/// that: they end before, at and behind the edges of parts of 64, of 512 and of 4,096 bytes.
const ROWS: [Row; 25] = [
    (Prim::Break, b"a", 0, None),
    (Prim::Break, b"bc", 0, None),
    (Prim::BreakX, b"d", 0, None),
    (Prim::Break, b"ef", 0, None),
    (Prim::Span, b"A,B;C.", 0, Some(6001)),
    (Prim::Break, b",", 0, Some(4095)),
    (Prim::BreakX, b",x", 1, Some(4095)),
    (Prim::Break, b",y", 4095, Some(4095)),
    (Prim::Break, b",z", 4096, None),
    (Prim::Break, b"B", 63, Some(4096)),
    (Prim::Break, b";", 64, Some(4608)),
    (Prim::BreakX, b";x", 4609, None),
    (Prim::Break, b".", 65, Some(6000)),
    (Prim::Break, b".x", 6000, Some(6000)),
    (Prim::Break, b".y", 6001, None),
    (Prim::Break, b"x", 5, None),
    (Prim::Span, b"A", 0, Some(4095)),
    (Prim::Span, b"A,", 511, Some(4096)),
    (Prim::Span, b"A,B", 512, Some(4608)),
    (Prim::Span, b"A,B;", 4094, Some(4609)),
    (Prim::Span, b"A,B;C", 7, Some(6000)),
    (Prim::Span, b"B", 4097, Some(4608)),
    (Prim::Span, b"C", 4608, None),
    (Prim::Span, b"C.", 5000, Some(6001)),
    (Prim::Span, b"x", 6001, None),
];

fn subject(alloc: Global) -> Result<Vec<u8>, AllocError> {
    let mut bytes = vec![in alloc; b'A'; 4095]?;
    bytes.push(b',')?;
    bytes.extend_from_slice(&[b'B'; 512])?;
    bytes.push(b';')?;
    bytes.extend_from_slice(&[b'C'; 1391])?;
    bytes.push(b'.')?;
    Ok(bytes)
}

/// The primitives of the rows, in their order.
fn primitives(alloc: Global, patterns: &mut Patterns) -> Result<Vec<PatId>, Fail> {
    let mut ids = Vec::new(alloc);
    for (prim, set, _at, _end) in &ROWS {
        let id = patterns.prim(*prim, Arg::Set(set))?;
        ids.push(id)?;
    }
    Ok(ids)
}

/// Compares the first end of each row.
fn check_rows(
    rt: &impl Abort,
    patterns: &Patterns,
    looks: &mut Looks,
    ids: &[PatId],
    subject: &[u8],
) -> Result<(), Fail>
    requires looks { AreTrue patterns.now subject.now looks.old }
    ensures looks { AreTrue patterns.now subject.now looks.new }
{
    'rows: for (row, id) in ROWS.iter().zip(ids) {
        let (_prim, _set, at, end) = row;
        if id.0 >= patterns.len() {
            return Err(Fail::from("no such node"));
        }
        let found = look(patterns, looks, *id, subject, *at)?;
        assert_eq!(rt; found, *end);
    }
    Ok(())
}

#[test]
fn many_sets_share_what_is_present(rt: HostRuntime) -> Result<(), Fail> {
    let subject = subject(rt.alloc())?;
    let mut patterns = Patterns::new(rt.alloc());
    let ids = primitives(rt.alloc(), &mut patterns)?;
    let mut looks = Looks::new(rt.alloc());
    check_rows(&rt, &patterns, &mut looks, &ids, &subject)
}
