//! Looks for texts so long that it is remembered how far they agreed with the subject.
ghost use Rattle.std.specs.Prelude.{◌<◌, length, IfOk};
ghost use Rattle.sno_pattern.specs.Looks.{AreTrue};

use super::looks::{look, place};
use sno_pattern::{Looks, Patterns};
use sno_value::PatId;
use std::alloc::{AllocError, Global};
use std::process::Abort;
use std::test::Fail;

/// The number of a text, a cursor, and the text's end from there.
type EndRow = (usize, usize, Option<usize>);

/// The number of a text, a cursor, and the first place from there on at which the text stands.
type PlaceRow = (usize, usize, usize);

/// The subject is 12,000 times A, a C and 8,000 times A. The texts are 6,000 times A; a C amid 5,000 and 500 times A;
/// 5,000 times A and a B; and 5,000 times A, which stands in each that agrees with the first.
const ENDS: [EndRow; 24] = [
    (0, 0, Some(6000)),
    (0, 1, Some(6001)),
    (0, 6000, Some(12000)),
    (0, 6001, None),
    (0, 6001, None),
    (0, 12000, None),
    (0, 12001, Some(18001)),
    (0, 14001, Some(20001)),
    (0, 14002, None),
    (0, 20001, None),
    (0, 5, Some(6005)),
    (1, 0, None),
    (1, 6999, None),
    (1, 7000, Some(12501)),
    (1, 7001, None),
    (1, 12001, None),
    (1, 7000, Some(12501)),
    (1, 6998, None),
    (2, 0, None),
    (2, 1, None),
    (2, 7000, None),
    (3, 14001, Some(19001)),
    (3, 7000, Some(12000)),
    (3, 7001, None),
];

const PLACES: [PlaceRow; 7] = [
    (0, 0, 0),
    (0, 6001, 12001),
    (0, 14002, 20002),
    (1, 0, 7000),
    (1, 7001, 20002),
    (2, 0, 20002),
    (3, 7001, 12001),
];

/// So many times A, some bytes, and so many times A again.
fn bytes_around(
    alloc: Global,
    before: usize,
    bytes: &[u8],
    behind: usize,
) -> Result<Vec<u8>, AllocError> {
    let mut all = vec![in alloc; b'A'; before]?;
    all.extend_from_slice(bytes)?;
    let rest = vec![in alloc; b'A'; behind]?;
    all.extend_from_slice(&rest)?;
    Ok(all)
}

/// A node for a text.
fn text_node(
    alloc: Global,
    patterns: &mut Patterns,
    before: usize,
    bytes: &[u8],
    behind: usize,
) -> Result<PatId, Fail> {
    let text = bytes_around(alloc, before, bytes, behind)?;
    if text.len() > 1_000_000 {
        return Err(Fail::from("the text is too long"));
    }
    let id = patterns.text(&text)?;
    Ok(id)
}

/// The node with a number, which the table has.
fn node(patterns: &Patterns, ids: &[PatId; 4], number: usize) -> Result<PatId, Fail>
    ensures { IfOk result (λ id. id.0 < length patterns.now) }
{
    let Some(id) = ids.get(number) else {
        return Err(Fail::from("no such text"));
    };
    if id.0 >= patterns.len() {
        return Err(Fail::from("no such node"));
    }
    Ok(*id)
}

/// Compares the end of each row.
fn check_ends(
    rt: &impl Abort,
    patterns: &Patterns,
    looks: &mut Looks,
    ids: &[PatId; 4],
    subject: &[u8],
) -> Result<(), Fail>
    requires looks { AreTrue patterns.now subject.now looks.old }
    ensures looks { AreTrue patterns.now subject.now looks.new }
{
    'rows: for (number, at, end) in &ENDS {
        let id = node(patterns, ids, *number)?;
        let found = look(patterns, looks, id, subject, *at)?;
        assert_eq!(rt; found, *end);
    }
    Ok(())
}

/// Compares the place of each row.
fn check_places(
    rt: &impl Abort,
    patterns: &Patterns,
    looks: &mut Looks,
    ids: &[PatId; 4],
    subject: &[u8],
) -> Result<(), Fail>
    requires looks { AreTrue patterns.now subject.now looks.old }
    ensures looks { AreTrue patterns.now subject.now looks.new }
{
    'rows: for (number, from, first) in &PLACES {
        let id = node(patterns, ids, *number)?;
        let found = place(patterns, looks, id, subject, *from)?;
        assert_eq!(rt; found, *first);
    }
    Ok(())
}

#[test]
fn long_texts_end_where_they_stand(rt: HostRuntime) -> Result<(), Fail> {
    let subject = bytes_around(rt.alloc(), 12_000, b"C", 8_000)?;
    let mut patterns = Patterns::new(rt.alloc());
    let ids = [
        text_node(rt.alloc(), &mut patterns, 6_000, b"", 0)?,
        text_node(rt.alloc(), &mut patterns, 5_000, b"C", 500)?,
        text_node(rt.alloc(), &mut patterns, 5_000, b"B", 0)?,
        text_node(rt.alloc(), &mut patterns, 5_000, b"", 0)?,
    ];
    let mut looks = Looks::new(rt.alloc());
    check_ends(&rt, &patterns, &mut looks, &ids, &subject)?;
    check_places(&rt, &patterns, &mut looks, &ids, &subject)?;
    looks.clear();
    check_places(&rt, &patterns, &mut looks, &ids, &subject)?;
    check_ends(&rt, &patterns, &mut looks, &ids, &subject)
}
