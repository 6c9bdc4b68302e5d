//! Programs on devices that fail, and on readers that give a byte at a time.
ghost use Rattle.snobol.specs.Jobs.{IsInRange};

use super::writers::Shut;
use sno_text::{Program, read_program};
use snobol::{Device, Job, Limits, Outcome, Sink, perform, run};
use std::alloc::Global;
use std::io::{self, ErrorKind, Read};
use std::process::Abort;
use std::test::Fail;

const LIMITS: Limits = Limits {
    statements: 1_000_000,
    match_steps: 1_000_000,
};

/// Copies its input, each line behind the number of it.
const NUMBERS: &[u8] = b"L X = INPUT :F(END)\n N = N + 1\n OUTPUT = N ' ' X :(L)\nEND\n";

/// A reader that gives one byte a call, and fails at the call behind so many.
#[derive(Drop)]
struct Drip<'a> {
    bytes: &'a [u8],
    at: usize,
    calls: usize,
}

impl Read for Drip<'_> {
    fn read(&mut self, buf: &mut [u8]) -> io::Result<usize> {
        if self.calls == 0 {
            return Err(ErrorKind::PermissionDenied.into());
        }
        self.calls -= 1;
        if self.at >= self.bytes.len() || buf.is_empty() {
            return Ok(0);
        }
        buf[0] = self.bytes[self.at];
        self.at += 1;
        Ok(1)
    }
}

/// How a run of NUMBERS ends on a reader that fails at the call behind so many, and what it writes.
fn numbered(alloc: Global, program: &Program, calls: usize) -> (Outcome, Vec<u8>) {
    let mut input = Device::new(Drip {
        bytes: b"ab\n\ncd",
        at: 0,
        calls,
    });
    let mut output = Device::new(Vec::new(alloc));
    let outcome = run(alloc, program, &mut input, &mut output, LIMITS);
    (outcome, output.into_inner())
}

fn check_numbered<R: Abort + AllocGlobal>(
    rt: &R,
    calls: usize,
    ending: Outcome,
    lines: &[u8],
) -> Result<(), Fail> {
    let program = read_program(rt.alloc(), NUMBERS)?;
    let (outcome, written) = numbered(rt.alloc(), &program, calls);
    check_written(rt, outcome, ending, &written, lines);
    Ok(())
}

/// Compares how a run ended, and what it has written, with what must be.
fn check_written<R: Abort + AllocGlobal>(
    rt: &R,
    outcome: Outcome,
    ending: Outcome,
    written: &[u8],
    lines: &[u8],
) {
    assert_eq!(rt; outcome, ending);
    assert_eq!(rt; written, lines);
}

#[test]
fn a_reader_of_single_bytes(rt: HostRuntime) -> Result<(), Fail> {
    check_numbered(&rt, 1000, Outcome::Ended, b"1 ab\n2 \n3 cd\n")
}

/// Six bytes and the end are seven calls. What was written are the lines whose bytes had come.
#[test]
fn a_reader_that_fails_at_each_call(rt: HostRuntime) -> Result<(), Fail> {
    for calls in 0..3 {
        check_numbered(&rt, calls, Outcome::ReadFault, b"")?;
    }
    check_numbered(&rt, 3, Outcome::ReadFault, b"1 ab\n")?;
    for calls in 4..7 {
        check_numbered(&rt, calls, Outcome::ReadFault, b"1 ab\n2 \n")?;
    }
    check_numbered(&rt, 7, Outcome::Ended, b"1 ab\n2 \n3 cd\n")
}

/// How a run ends on a writer with so much room, whether the writer has failed, and what it has taken.
fn ran_in_room(
    alloc: Global,
    program: &Program,
    input: &[u8],
    room: usize,
) -> (Outcome, bool, Vec<u8>) {
    let taken = Vec::new(alloc);
    let mut output = Device::new(Shut { taken, room });
    let outcome = run(alloc, program, &mut Device::new(input), &mut output, LIMITS);
    let has_failed = output.failed();
    let Shut { taken, room: _ } = output.into_inner();
    (outcome, has_failed, taken)
}

/// Runs a program on writers with room for 0 bytes, 1 byte and so on.
fn check_room<R: Abort + AllocGlobal>(
    rt: &R,
    text: &[u8],
    input: &[u8],
    lines: &[u8],
) -> Result<(), Fail> {
    let program = read_program(rt.alloc(), text)?;
    for room in 0..lines.len() {
        let (outcome, has_failed, taken) = ran_in_room(rt.alloc(), &program, input, room);
        check_written(rt, outcome, Outcome::WriteFault, &taken, &lines[..room]);
        assert!(rt; has_failed, "room for {room}");
    }
    let (outcome, has_failed, taken) = ran_in_room(rt.alloc(), &program, input, lines.len());
    check_written(rt, outcome, Outcome::Ended, &taken, lines);
    assert!(rt; !has_failed);
    Ok(())
}

#[test]
fn writers_that_fill_up(rt: HostRuntime) -> Result<(), Fail> {
    check_room(&rt, NUMBERS, b"ab\n\ncd", b"1 ab\n2 \n3 cd\n")?;
    check_room(
        &rt,
        b" 'ABC' LEN(1) $ OUTPUT LEN(1) . OUTPUT 'C' . OUTPUT\n OUTPUT = 'end'\nEND\n",
        b"",
        b"A\nB\nC\nend\n",
    )?;
    check_room(
        &rt,
        b"L OUTPUT = INPUT :S(L)F(END)\nEND\n",
        b"a\n\nb",
        b"a\n\nb\n",
    )
}

/// The job of running a program.
const RUN: Job<'static> = Job::Run {
    file: "f.sno",
    limits: LIMITS,
};

/// What a job gave: its status, what was written and what was told.
#[derive(Drop)]
struct Done {
    status: u8,
    written: Vec<u8>,
    told: Vec<u8>,
}

/// Does a job on a reader that fails at the call behind so many, and on writers with so much room for what is written
/// and for what is told.
fn performed(
    alloc: Global,
    job: &Job<'_>,
    file: Option<&[u8]>,
    calls: usize,
    room: usize,
    line_room: usize,
) -> Done
    requires { IsInRange job.now }
{
    let mut input = Device::new(Drip {
        bytes: b"ab\n\ncd",
        at: 0,
        calls,
    });
    let mut output = Device::new(Shut {
        taken: Vec::new(alloc),
        room,
    });
    let mut errors = Device::new(Shut {
        taken: Vec::new(alloc),
        room: line_room,
    });
    let status = perform(alloc, job, file, &mut input, &mut output, &mut errors);
    let Shut {
        taken: written,
        room: _,
    } = output.into_inner();
    let Shut {
        taken: told,
        room: _,
    } = errors.into_inner();
    Done {
        status,
        written,
        told,
    }
}

/// Compares the status of a job and what it told with what must be.
fn check_told<R: Abort + AllocGlobal>(rt: &R, done: &Done, status: u8, told: &[u8]) {
    assert_eq!(rt; done.status, status);
    assert_eq!(rt; done.told.as_slice(), told);
}

#[test]
fn a_read_fault_has_its_status_and_its_line(rt: HostRuntime) {
    for calls in 0..7 {
        let fault = performed(rt.alloc(), &RUN, Some(NUMBERS), calls, 1000, 1000);
        check_told(&rt, &fault, 7, b"snobol4: read fault\n");
    }
    let well = performed(rt.alloc(), &RUN, Some(NUMBERS), 7, 1000, 1000);
    check_told(&rt, &well, 0, b"");
    assert_eq!(rt; well.written.as_slice(), b"1 ab\n2 \n3 cd\n".as_slice());
}

/// Does a job on writers with room for 0 bytes, 1 byte and so on, which do not suffice for these lines.
fn check_write_faults<R: Abort + AllocGlobal>(
    rt: &R,
    job: &Job<'_>,
    file: Option<&[u8]>,
    lines: &[u8],
)
    requires { IsInRange job.now }
{
    for room in 0..lines.len() {
        let fault = performed(rt.alloc(), job, file, 1000, room, 1000);
        check_told(rt, &fault, 7, b"snobol4: write fault\n");
        assert_eq!(rt; fault.written.as_slice(), &lines[..room]);
    }
    let well = performed(rt.alloc(), job, file, 1000, lines.len(), 1000);
    check_told(rt, &well, 0, b"");
}

#[test]
fn a_write_fault_has_its_status_and_its_line(rt: HostRuntime) {
    let ways = Job::Ways {
        anchored: true,
        steps: 1000,
        pattern: "'A' | 'AB'",
        subject: "AB",
    };
    check_write_faults(&rt, &RUN, Some(NUMBERS), b"1 ab\n2 \n3 cd\n");
    check_write_faults(&rt, &ways, None, b"way 0 1\nway 0 2\nexhausted\n");
}

/// Does a job where standard error has room for 0 bytes, 1 byte and so on: the line is cut off, and the status stays.
fn check_line<R: Abort + AllocGlobal>(
    rt: &R,
    job: &Job<'_>,
    file: Option<&[u8]>,
    status: u8,
    line: &[u8],
)
    requires { IsInRange job.now }
{
    for room in 0..line.len() + 2 {
        let ended = performed(rt.alloc(), job, file, 1000, 1000, room);
        check_told(rt, &ended, status, &line[..line.len().min(room)]);
    }
}

/// The same of a program that is run and of one that is checked.
fn check_program<R: Abort + AllocGlobal>(rt: &R, text: &[u8], status: u8, line: &[u8]) {
    let check = Job::Check { file: "f.sno" };
    check_line(rt, &RUN, Some(text), status, line);
    check_line(rt, &check, Some(text), status, line);
}

#[test]
fn a_refusal_has_its_line_or_a_beginning(rt: HostRuntime) {
    check_program(&rt, b" X = 'A\n", 2, b"snobol4: syntax 1 at line 1\n");
    check_program(
        &rt,
        b"L X = 1\nL X = 2\nEND\n",
        2,
        b"snobol4: duplicate label at line 2\n",
    );
    check_program(&rt, b"", 2, b"snobol4: no END\n");
    check_program(
        &rt,
        b" X = 1\n X = ((((((((((((((((((((((((((((((((((((((((((((1\n",
        2,
        b"snobol4: too large at line 2\n",
    );
    check_line(&rt, &RUN, None, 3, b"snobol4: cannot read f.sno\n");
    check_line(
        &rt,
        &Job::Check { file: "" },
        None,
        3,
        b"snobol4: cannot read \n",
    );
}

#[test]
fn an_error_has_its_line_or_a_beginning(rt: HostRuntime) {
    let ways = Job::Ways {
        anchored: false,
        steps: 1000,
        pattern: "LEN(-1)",
        subject: "A",
    };
    let short = Job::Run {
        file: "f.sno",
        limits: Limits {
            statements: 1,
            match_steps: 0,
        },
    };
    check_line(&rt, &ways, None, 1, b"snobol4: error 7\n");
    check_line(
        &rt,
        &RUN,
        Some(b" X = 1\n X = 1 / 0\nEND\n"),
        1,
        b"snobol4: error 3 in statement 2\n",
    );
    check_line(
        &rt,
        &short,
        Some(b" X = 1\n X = 1\nEND\n"),
        4,
        b"snobol4: error 20 in statement 2\n",
    );
    check_line(
        &rt,
        &short,
        Some(b" 'A' 'A'\nEND\n"),
        5,
        b"snobol4: error 21 in statement 1\n",
    );
}

/// A refusal's own message is the line that a job tells of it.
fn check_message<R: Abort + AllocGlobal>(rt: &R, text: &[u8]) -> Result<(), Fail> {
    let alloc = rt.alloc();
    let Err(error) = read_program(alloc, text) else {
        return Err(Fail::from("accepted"));
    };
    let message = format!(in alloc; "{error}\n")?;
    let ended = performed(alloc, &RUN, Some(text), 1000, 1000, 1000);
    assert_eq!(rt; ended.told.as_slice(), message.as_bytes());
    Ok(())
}

#[test]
fn a_line_is_the_message_of_the_refusal(rt: HostRuntime) -> Result<(), Fail> {
    check_message(&rt, b" X = 'A\n")?;
    check_message(&rt, b" X = 1 +\n")?;
    check_message(&rt, b"L X = 1\nL X = 2\nEND\n")?;
    check_message(&rt, b"")?;
    check_message(&rt, b" X = ((((((((((((((((((((((((((((((((((((((((((((1\n")
}
