//! Calls with ample room, with little and with none.
mod matchers;

use crate::{snobol4_check, snobol4_list, snobol4_run, snobol4_ways};
use sno_calls::Told;
use std::alloc::Global;
use std::process::Abort;

/// What stands in a room before a call.
const UNTOUCHED: u8 = b'~';

/// The size of an ample room.
const AMPLE: usize = 48;

/// The ways of LEN(1) in AB.
const WAYS: &[u8] = b"way 0 1\nway 1 2\nexhausted\n";

const COPY: &[u8] = b"NEXT OUTPUT = INPUT :S(NEXT)\nEND\n";

const DIVIDES: &[u8] = b" OUTPUT = 'A'\n X = 1 / 0\nEND\n";

const WRITE_FAULT: &[u8] = b"snobol4: write fault\n";

/// What no call answers.
fn unasked() -> Told {
    Told {
        status: 99,
        written: 99,
        told: 99,
    }
}

/// Whether these bytes begin a room, as many as it has room for, that is otherwise untouched.
fn holds(room: &[u8], bytes: &[u8]) -> bool {
    for at in 0..room.len() {
        let wanted = if at < bytes.len() {
            bytes[at]
        } else {
            UNTOUCHED
        };
        if room[at] != wanted {
            return false;
        }
    }
    true
}

/// Checks what a call with this name answered, and what it left in its rooms.
fn check<R: Abort>(
    rt: &R,
    name: &str,
    told: &Told,
    status: u32,
    rooms: (&[u8], &[u8]),
    out: &[u8],
    line: &[u8],
) {
    assert_eq!(rt;
        told.status,
        status,
        "{name} in rooms of {} and {}",
        rooms.0.len(),
        rooms.1.len()
    );
    assert_eq!(rt; told.written, out.len().min(rooms.0.len()));
    assert_eq!(rt; told.told, line.len().min(rooms.1.len()));
    assert!(rt;
        holds(rooms.0, out),
        "the output of {name} in a room of {}",
        rooms.0.len()
    );
    assert!(rt;
        holds(rooms.1, line),
        "the line of {name} in a room of {}",
        rooms.1.len()
    );
}

/// What is wanted of a call that writes this, in a room of this size.
fn wanted<'a>(
    size: usize,
    out: &[u8],
    status: u32,
    line: &'a [u8],
    fault: &'a [u8],
) -> (u32, &'a [u8]) {
    if size < out.len() {
        (7, fault)
    } else {
        (status, line)
    }
}

/// A call, and what it is given beside the rooms.
#[derive(Clone, Copy, Drop)]
enum Call<'a> {
    Ways {
        pattern: &'a [u8],
        subject: &'a [u8],
        anchored: bool,
        steps: u32,
    },
    Run {
        program: &'a [u8],
        input: &'a [u8],
        statements: u64,
        match_steps: u32,
    },
    Check {
        program: &'a [u8],
    },
    List {
        program: &'a [u8],
        number: u32,
    },
}

fn name_of(call: Call<'_>) -> &'static str {
    match call {
        Call::Ways { .. } => "ways",
        Call::Run { .. } => "run",
        Call::Check { .. } => "check",
        Call::List { .. } => "list",
    }
}

/// Makes a call in these rooms.
fn make(alloc: Global, call: Call<'_>, out: &mut [u8], line: &mut [u8]) -> Told {
    let mut told = unasked();
    match call {
        Call::Ways {
            pattern,
            subject,
            anchored,
            steps,
        } => snobol4_ways(
            alloc, pattern, subject, anchored, steps, out, line, &mut told,
        ),
        Call::Run {
            program,
            input,
            statements,
            match_steps,
        } => snobol4_run(
            alloc,
            program,
            input,
            statements,
            match_steps,
            out,
            line,
            &mut told,
        ),
        Call::Check { program } => snobol4_check(alloc, program, line, &mut told),
        Call::List { program, number } => {
            snobol4_list(alloc, program, number, out, line, &mut told)
        }
    }
    told
}

/// Makes a call in rooms of these sizes, of which none is larger than an ample one, and checks what it answers and
/// leaves.
fn check_call<R: Abort + AllocGlobal>(
    rt: &R,
    call: Call<'_>,
    sizes: (usize, usize),
    status: u32,
    out: &[u8],
    line: &[u8],
) {
    let (mut out_room, mut line_room) = ([UNTOUCHED; AMPLE], [UNTOUCHED; AMPLE]);
    let out_room = &mut out_room[..sizes.0.min(AMPLE)];
    let line_room = &mut line_room[..sizes.1.min(AMPLE)];
    let told = make(rt.alloc(), call, out_room, line_room);
    check(
        rt,
        name_of(call),
        &told,
        status,
        (out_room, line_room),
        out,
        line,
    );
}

/// Makes a call in an ample room for its line and in one of each size for its output, which it fills or fails to.
fn check_sizes<R: Abort + AllocGlobal>(
    rt: &R,
    call: Call<'_>,
    status: u32,
    out: &[u8],
    line: &[u8],
    fault: &[u8],
) {
    for size in 0..=AMPLE {
        let (status, said) = wanted(size, out, status, line, fault);
        check_call(rt, call, (size, AMPLE), status, out, said);
    }
}

#[test]
fn lists_ways_and_runs(rt: HostRuntime) {
    let ways = Call::Ways {
        pattern: b"LEN(1)",
        subject: b"AB",
        anchored: false,
        steps: 100,
    };
    let run = Call::Run {
        program: COPY,
        input: b"ONE\nTWO",
        statements: 1000,
        match_steps: 1000,
    };
    check_sizes(&rt, ways, 0, WAYS, b"", WRITE_FAULT);
    check_sizes(&rt, run, 0, b"ONE\nTWO\n", b"", WRITE_FAULT);
}

#[test]
fn tells_as_much_of_a_line_as_has_room(rt: HostRuntime) {
    let run = Call::Run {
        program: DIVIDES,
        input: b"",
        statements: 1000,
        match_steps: 1000,
    };
    let check = Call::Check {
        program: b" OUTPUT = 1\n",
    };
    for size in 0..=AMPLE {
        check_call(
            &rt,
            run,
            (2, size),
            1,
            b"A\n",
            b"snobol4: error 3 in statement 2\n",
        );
        check_call(&rt, check, (0, size), 2, b"", b"snobol4: no END\n");
    }
    check_call(&rt, Call::Check { program: COPY }, (0, AMPLE), 0, b"", b"");
}

/// Numbers of statements, and what a listing of a program of two statements tells.
const LISTED: [(u32, u32, &[u8], &[u8]); 6] = [
    (0, 0, b"     1   OUTPUT = 1\n     2  END\n", b""),
    (1, 0, b"     1   OUTPUT = 1\n", b""),
    (2, 0, b"     2  END\n", b""),
    (3, 64, b"", b"snobol4-list: no statement 3\n"),
    (100_000, 64, b"", b"snobol4-list: no statement 100000\n"),
    (100_001, 64, b"", b""),
];

#[test]
fn lists(rt: HostRuntime) {
    for (number, status, listed, line) in LISTED {
        let list = Call::List {
            program: b" OUTPUT = 1\nEND\n",
            number,
        };
        check_sizes(
            &rt,
            list,
            status,
            listed,
            line,
            b"snobol4-list: write fault\n",
        );
    }
}

/// Patterns, subjects and steps, and what is told of them.
const JUDGED_WAYS: [(&[u8], &[u8], u32, u32, &[u8]); 7] = [
    (b"'\xff'", b"AB", 100, 64, b""),
    (b"'A'", b"\xc3", 100, 64, b""),
    (b"'A'", b"A", 0, 0, b"limit\n"),
    (b"'A'", b"A", 1, 0, b"way 0 1\nexhausted\n"),
    (b"'A'", b"A", 1_000_000_000, 0, b"way 0 1\nexhausted\n"),
    (b"'A'", b"A", 1_000_000_001, 64, b""),
    (b"'A'", b"A", u32::MAX, 64, b""),
];

/// Limits of a run, and its status.
const JUDGED_RUNS: [(u64, u32, u32); 5] = [
    (0, 1000, 64),
    (1, 0, 0),
    (1_000_000_000_000, 1_000_000_000, 0),
    (1_000_000_000_001, 1000, 64),
    (1, 1_000_000_001, 64),
];

#[test]
fn judges_texts_and_limits(rt: HostRuntime) {
    for (pattern, subject, steps, status, lines) in JUDGED_WAYS {
        let ways = Call::Ways {
            pattern,
            subject,
            anchored: true,
            steps,
        };
        check_call(&rt, ways, (AMPLE, AMPLE), status, lines, b"");
    }
    for (statements, match_steps, status) in JUDGED_RUNS {
        let run = Call::Run {
            program: b"END\n",
            input: b"",
            statements,
            match_steps,
        };
        check_call(&rt, run, (AMPLE, AMPLE), status, b"", b"");
    }
}
