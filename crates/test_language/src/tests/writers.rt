//! Writers that fill up.
use snobol::{Device, Sink, WaysOutcome, ways};
use std::alloc::Global;
use std::io::{self, Write};
use std::process::Abort;

/// A writer with room for so many bytes, which takes none when it is full.
#[derive(Drop)]
pub(super) struct Shut {
    pub(super) taken: Vec<u8>,
    pub(super) room: usize,
}

impl Write for Shut {
    fn write(&mut self, bytes: &[u8]) -> io::Result<usize> {
        let count = bytes.len().min(self.room);
        self.taken.extend_from_slice(&bytes[..count])?;
        self.room -= count;
        Ok(count)
    }

    fn flush(&mut self) -> io::Result<()> {
        Ok(())
    }
}

/// How a list of the ways of a pattern on AB ends on a writer with so much room, whether the writer has failed, and
/// what it has taken.
fn listed_in_room(alloc: Global, pattern: &[u8], room: usize) -> (WaysOutcome, bool, Vec<u8>) {
    let taken = Vec::new(alloc);
    let mut output = Device::new(Shut { taken, room });
    let outcome = ways(alloc, pattern, b"AB", true, 1000, &mut output);
    let has_failed = output.failed();
    let Shut { taken, room: _ } = output.into_inner();
    (outcome, has_failed, taken)
}

/// Lists the ways of a pattern on AB to a writer with so much room: what is written is exactly these lines.
fn check_listed<R: Abort + AllocGlobal>(
    rt: &R,
    pattern: &[u8],
    room: usize,
    ending: WaysOutcome,
    lines: &[u8],
) {
    let (outcome, has_failed, taken) = listed_in_room(rt.alloc(), pattern, room);
    assert_eq!(rt; outcome, ending, "room for {room}");
    assert_eq!(rt; has_failed, ending == WaysOutcome::WriteFault);
    assert_eq!(rt; taken.as_slice(), lines);
}

/// Lists the ways to writers with room for 0 bytes, 1 byte and so on: what is written is exactly a beginning.
fn check_room<R: Abort + AllocGlobal>(rt: &R, pattern: &[u8], lines: &[u8]) {
    for room in 0..lines.len() {
        check_listed(rt, pattern, room, WaysOutcome::WriteFault, &lines[..room]);
    }
    for room in lines.len()..80 {
        check_listed(rt, pattern, room, WaysOutcome::Done, lines);
    }
}

#[test]
fn writers_that_fill_up(rt: HostRuntime) {
    check_room(&rt, b"'A' | 'AB'", b"way 0 1\nway 0 2\nexhausted\n");
    check_room(
        &rt,
        b"LEN(1) . X @N | LEN(2) $ X",
        b"cursor N 1\nway 0 1 X=0-1\nset X 0 2\nway 0 2\nexhausted\n",
    );
    check_room(
        &rt,
        b"LEN(1) $ OUTPUT @OUTPUT . Y",
        b"set OUTPUT 0 1\nA\ncursor OUTPUT 1\n1\nway 0 1 Y=1-1\nexhausted\n",
    );
}
