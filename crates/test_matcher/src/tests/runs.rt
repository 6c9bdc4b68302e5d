//! Runs of bytes in subjects of several lengths: what the look-ups find, beside a look at each byte.
ghost use Rattle.std.specs.Prelude.{◌<◌, length};

use super::ends::first_set_end;
use sno_pattern::{Arg, Patterns, Shape, first_in, first_not_in};
use sno_value::Prim;
use std::alloc::{AllocError, Global};
use std::process::Abort;
use std::test::Fail;

/// How long the subjects are: none, one block less a byte, one, one more, and two.
const LENGTHS: [usize; 6] = [0, 31, 32, 33, 64, 65];

/// From where the look-ups go on.
const CURSORS: [usize; 3] = [0, 1, 31];

/// Sets of one, two and eight bytes, in another order and with repeats.
const SMALL_SETS: [&str; 5] = ["A", "AB", "BABA", "HGFEDCBA", "ACBDCEDFGH"];

/// A set of nine bytes.
const LARGE_SET: &str = "ABCDEFGHI";

/// A byte that stands in none of the sets.
const OTHER: u8 = b'z';

/// A byte of a run that begins again at its end.
fn byte_of(run: &[u8], i: usize) -> u8 {
    if run.is_empty() {
        return OTHER;
    }
    run[i % run.len()]
}

/// A subject of such a run, with one byte that stops it.
fn subject_of(
    alloc: Global,
    run: &[u8],
    length: usize,
    place: usize,
    stop: u8,
) -> Result<Vec<u8>, AllocError> {
    let mut subject = Vec::new(alloc);
    for i in 0..length {
        let byte = if i == place { stop } else { byte_of(run, i) };
        subject.push(byte)?;
    }
    Ok(subject)
}

/// The eight bytes of a set of at most eight different ones, or the first eight of it.
fn eight_of(set: &[u8]) -> [u8; 8] {
    let mut eight = [byte_of(set, 0); 8];
    let mut count = 0;
    for byte in set {
        if count < 8 && !eight.contains(byte) {
            eight[count] = *byte;
            count += 1;
        }
    }
    eight
}

/// The first place whose byte is among a set, or is not, by a look at each byte.
fn first_by_look(bytes: &[u8], set: &[u8], inside: bool) -> Option<usize> {
    for (place, byte) in bytes.iter().enumerate() {
        if set.contains(byte) == inside {
            return Some(place);
        }
    }
    None
}

/// Compares the end of a primitive from each cursor.
fn check_ends(
    rt: &impl Abort,
    alloc: Global,
    prim: Prim,
    set: &[u8],
    subject: &[u8],
) -> Result<(), Fail> {
    if prim.takes_count() {
        return Err(Fail::from("no primitive with a set"));
    }
    let mut patterns = Patterns::new(alloc);
    let id = patterns.prim(prim, Arg::Set(set))?;
    for at in CURSORS {
        if at <= subject.len() && patterns.shape(id) == Shape::Primitive {
            let end = patterns.end_at(id, subject, at, 0);
            assert_eq!(rt; end, first_set_end(prim, set, subject, at));
        }
    }
    Ok(())
}

/// Compares the places of eight bytes from each cursor.
fn check_places(rt: &impl Abort, set: &[u8], subject: &[u8]) {
    let eight = eight_of(set);
    for at in CURSORS {
        if at <= subject.len() {
            let bytes = &subject[at..];
            assert_eq!(rt; first_in(bytes, &eight), first_by_look(bytes, &eight, true));
            assert_eq!(rt;
                first_not_in(bytes, &eight),
                first_by_look(bytes, &eight, false)
            );
        }
    }
}

/// Compares what is found of a set where one byte stops its run, and where one of its bytes stops a run of others.
fn check_stop(
    rt: &impl Abort,
    alloc: Global,
    set: &[u8],
    other: u8,
    length: usize,
    place: usize,
) -> Result<(), Fail> {
    let stopped = subject_of(alloc, set, length, place, other)?;
    check_ends(rt, alloc, Prim::Span, set, &stopped)?;
    check_places(rt, set, &stopped);
    let ahead = subject_of(alloc, &[other], length, place, byte_of(set, place))?;
    check_ends(rt, alloc, Prim::Break, set, &ahead)?;
    check_places(rt, set, &ahead);
    Ok(())
}

/// Puts the byte that stops at each place of a subject, and nowhere.
fn check_set(rt: &impl Abort, alloc: Global, set: &[u8]) -> Result<(), Fail> {
    for length in LENGTHS {
        for place in 0..=length {
            check_stop(rt, alloc, set, OTHER, length, place)?;
        }
    }
    Ok(())
}

#[test]
fn runs_are_stopped_at_each_place(rt: HostRuntime) -> Result<(), Fail> {
    for set in SMALL_SETS {
        check_set(&rt, rt.alloc(), set.as_bytes())?;
    }
    check_set(&rt, rt.alloc(), LARGE_SET.as_bytes())
}

#[test]
fn each_byte_stops_a_run(rt: HostRuntime) -> Result<(), Fail> {
    for byte in 0..=255u8 {
        check_stop(&rt, rt.alloc(), &[byte ^ 1], byte, 65, byte as usize % 65)?;
    }
    Ok(())
}
