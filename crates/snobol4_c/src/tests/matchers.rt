//! Listings that stay from call to call.
ghost use Rattle.std.specs.Prelude.{◌≤◌};

use super::{AMPLE, UNTOUCHED, check, unasked};
use crate::{snobol4_matcher_free, snobol4_matcher_new, snobol4_matcher_next};
use sno_calls::{Handle, Matcher};
use std::alloc::Global;
use std::process::Abort;

/// A matcher that holds no listing.
fn no_matcher() -> Matcher {
    Matcher {
        handle: Handle::none(),
        held: false,
    }
}

/// Lets a listing go, twice, and the matcher too.
fn let_go(alloc: Global, mut matcher: Matcher) {
    snobol4_matcher_free(alloc, &mut matcher);
    snobol4_matcher_free(alloc, &mut matcher);
    let Matcher { handle, held: _ } = matcher;
    handle.gone();
}

/// Begins a listing in the place of what a matcher holds, and checks what is told of that.
fn check_new<R: Abort>(
    rt: &R,
    alloc: Global,
    matcher: &mut Matcher,
    pattern: &[u8],
    subject: &[u8],
    steps: u32,
    status: u32,
    said: &[u8],
) {
    let (mut line, mut told) = ([UNTOUCHED; AMPLE], unasked());
    snobol4_matcher_new(
        alloc, pattern, subject, false, steps, matcher, &mut line, &mut told,
    );
    check(rt, "new", &told, status, (b"", &line), b"", said);
    assert_eq!(rt; matcher.held, status == 0);
}

/// Asks for the next line in a room of this size, and checks what is given.
fn check_next<R: Abort>(
    rt: &R,
    alloc: Global,
    matcher: &mut Matcher,
    size: usize,
    status: u32,
    lines: &[u8],
    said: &[u8],
)
    requires { size ≤ 48 }
{
    let (mut out, mut line, mut told) = ([UNTOUCHED; AMPLE], [UNTOUCHED; AMPLE], unasked());
    let room = &mut out[..size];
    snobol4_matcher_next(alloc, matcher, room, &mut line, &mut told);
    check(rt, "next", &told, status, (room, &line), lines, said);
}

#[test]
fn tells_a_line_at_a_time(rt: HostRuntime) {
    let alloc = rt.alloc();
    let (mut first, mut second) = (no_matcher(), no_matcher());
    check_new(
        &rt,
        alloc,
        &mut first,
        b"LEN(1) $ OUTPUT",
        b"AB",
        100,
        0,
        b"",
    );
    check_new(&rt, alloc, &mut second, b"'B'", b"AB", 100, 0, b"");
    let lines: [(&[u8], &[u8]); 6] = [
        (b"set OUTPUT 0 1\nA\n", b"way 1 2\n"),
        (b"way 0 1\n", b"exhausted\n"),
        (b"set OUTPUT 1 2\nB\n", b""),
        (b"way 1 2\n", b""),
        (b"exhausted\n", b""),
        (b"", b""),
    ];
    for (one, other) in lines {
        check_next(&rt, alloc, &mut first, AMPLE, 0, one, b"");
        check_next(&rt, alloc, &mut second, AMPLE, 0, other, b"");
    }
    check_new(&rt, alloc, &mut second, b"'A'", b"AB", 100, 0, b"");
    check_next(&rt, alloc, &mut second, AMPLE, 0, b"way 0 1\n", b"");
    let_go(alloc, first);
    let_go(alloc, second);
}

#[test]
fn keeps_what_finds_no_room(rt: HostRuntime) {
    let alloc = rt.alloc();
    for size in 0..8 {
        let mut matcher = no_matcher();
        check_new(&rt, alloc, &mut matcher, b"LEN(1)", b"AB", 100, 0, b"");
        for _ in 0..2 {
            check_next(&rt, alloc, &mut matcher, size, 7, b"", b"");
        }
        check_next(&rt, alloc, &mut matcher, 8, 0, b"way 0 1\n", b"");
        check_next(&rt, alloc, &mut matcher, size, 7, b"", b"");
        let_go(alloc, matcher);
    }
}

#[test]
fn tells_the_end_again(rt: HostRuntime) {
    let alloc = rt.alloc();
    let mut matcher = no_matcher();
    check_new(
        &rt,
        alloc,
        &mut matcher,
        b"'A' $ INPUT *LEN('X')",
        b"A",
        100,
        0,
        b"",
    );
    check_next(&rt, alloc, &mut matcher, AMPLE, 0, b"set INPUT 0 1\n", b"");
    for _ in 0..2 {
        check_next(
            &rt,
            alloc,
            &mut matcher,
            AMPLE,
            1,
            b"",
            b"snobol4: error 1\n",
        );
    }
    check_new(&rt, alloc, &mut matcher, b"ARB", b"AB", 0, 0, b"");
    check_next(&rt, alloc, &mut matcher, AMPLE, 0, b"limit\n", b"");
    check_next(&rt, alloc, &mut matcher, AMPLE, 0, b"", b"");
    let_go(alloc, matcher);
}

#[test]
fn begins_no_listing(rt: HostRuntime) {
    let alloc = rt.alloc();
    let refused: [(&[u8], &[u8], u32, u32, &[u8]); 4] = [
        (b"'A", b"A", 100, 2, b"snobol4: syntax 1 at line 1\n"),
        (b"'\xff'", b"A", 100, 64, b""),
        (b"'A'", b"\xff", 100, 64, b""),
        (b"'A'", b"A", 1_000_000_001, 64, b""),
    ];
    let mut matcher = no_matcher();
    check_next(&rt, alloc, &mut matcher, AMPLE, 64, b"", b"");
    for (pattern, subject, steps, status, said) in refused {
        check_new(
            &rt,
            alloc,
            &mut matcher,
            b"'A'",
            b"A",
            1_000_000_000,
            0,
            b"",
        );
        check_new(
            &rt,
            alloc,
            &mut matcher,
            pattern,
            subject,
            steps,
            status,
            said,
        );
        check_next(&rt, alloc, &mut matcher, AMPLE, 64, b"", b"");
    }
    let_go(alloc, matcher);
}
