//! The lines of an input.
ghost use Rattle.std.specs.Prelude.{◌≡◌, None, false, true};

use super::rows::{Question, check_rows};
use sno_io::{Device, LineError, Lines, Source};
use std::alloc::{AllocError, Global};
use std::io::{self, ErrorKind, Read};
use std::process::Abort;
use std::test::Fail;

/// Gives its bytes `at_once` at a time, and fails where it is asked more than `reads` times.
#[derive(Drop)]
struct Pieces<'a> {
    rest: &'a [u8],
    at_once: usize,
    reads: usize,
    asked: usize,
}

impl<'a> Read for Pieces<'a> {
    fn read(&mut self, buf: &mut [u8]) -> io::Result<usize> {
        self.asked = self.asked.saturating_add(1);
        if self.asked > self.reads {
            return Err(ErrorKind::BrokenPipe.into());
        }
        let count = self.rest.len().min(buf.len()).min(self.at_once);
        buf[..count].copy_from_slice(&self.rest[..count]);
        self.rest = &self.rest[count..];
        Ok(count)
    }
}

fn reader_of<'a>(rest: &'a [u8], at_once: usize, reads: usize) -> Device<Pieces<'a>>
    ensures { result.has_failed ≡ false }
{
    Device::new(Pieces {
        rest,
        at_once,
        reads,
        asked: 0,
    })
}

/// The next line in brackets, `-` at the end, or the error.
fn next_line(
    alloc: Global,
    lines: &mut Lines,
    device: &mut Device<Pieces<'_>>,
) -> Result<String, Fail>
    requires sound { lines.old.stopped ≡ None → device.old.has_failed ≡ false }
    requires same { lines.old.stopped ≡ None → lines.old.told_end ≡ true → device.old.told_end ≡ true }
    ensures sound { lines.new.stopped ≡ None → device.new.has_failed ≡ false }
    ensures same { lines.new.stopped ≡ None → lines.new.told_end ≡ true → device.new.told_end ≡ true }
{
    let line = lines.next(device);
    let text = line_text(alloc, line);
    text
}

/// Adds what is held behind a line, in parentheses.
fn push_held(told: &mut String, held: &[u8]) -> Result<(), Fail> {
    told.push_str("(")?;
    told.push_str(str::from_utf8(held)?)?;
    told.push_str(")")?;
    Ok(())
}

fn line_text(alloc: Global, line: Result<Option<Vec<u8>>, LineError>) -> Result<String, Fail> {
    match line {
        Ok(Some(line)) => Ok(format!(in alloc; "[{}]", str::from_utf8(&line)?)?),
        Ok(None) => Ok(String::from_str(alloc, "-")?),
        Err(error) => Ok(format!(in alloc; "{error:?}")?),
    }
}

/// What is told of the first four calls, where wanted with what is held behind each, and how often the reader was asked;
/// behind that `!` where it has failed.
fn four_calls(
    alloc: Global,
    text: &[u8],
    at_once: usize,
    reads: usize,
    tells_held: bool,
) -> Result<(String, usize), Fail> {
    let mut device = reader_of(text, at_once, reads);
    let told = tell_lines(alloc, &mut device, tells_held)?;
    Ok((told, device.into_inner().asked))
}

fn tell_lines(
    alloc: Global,
    device: &mut Device<Pieces<'_>>,
    tells_held: bool,
) -> Result<String, Fail>
    requires { device.old.has_failed ≡ false }
{
    let mut lines = Lines::new(alloc);
    tell_four(alloc, &mut lines, device, tells_held)
}

fn tell_four(
    alloc: Global,
    lines: &mut Lines,
    device: &mut Device<Pieces<'_>>,
    tells_held: bool,
) -> Result<String, Fail>
    requires sound { lines.old.stopped ≡ None → device.old.has_failed ≡ false }
    requires same { lines.old.stopped ≡ None → lines.old.told_end ≡ true → device.old.told_end ≡ true }
{
    let mut told = String::new(alloc);
    'calls: for _ in 0..4 {
        let line = next_line(alloc, lines, device)?;
        told.push_str(line.as_str())?;
        if tells_held {
            push_held(&mut told, lines.held())?;
        }
    }
    if Source::failed(device) {
        told.push_str("!")?;
    }
    Ok(told)
}

/// The lines of an input, behind the numbers of bytes that come at once: they are the same for each of these. A reader
/// of up to 100 bytes at once that is asked once more than it has to be fails.
#[derive(Drop)]
struct Inputs;

impl Question for Inputs {
    fn answer(alloc: Global, text: &[u8]) -> Result<String, Fail> {
        let (sizes, text) = str::from_utf8(text)?.split_once("|").ok_or("no sizes")?;
        let mut told = String::new(alloc);
        for size in sizes.split_whitespace() {
            let lines = lines_at_once(alloc, text.as_bytes(), size)?;
            if !told.is_empty() && told != lines {
                return Err(Fail::from("other lines"));
            }
            told = lines;
        }
        Ok(told)
    }
}

/// What is told where so many bytes come at once.
fn lines_at_once(alloc: Global, text: &[u8], size: &str) -> Result<String, Fail> {
    let size: usize = size.parse()?;
    let reads = text.len().div_ceil(size.clamp(1, 100)).saturating_add(1);
    let (lines, _) = four_calls(alloc, text, size, reads, false)?;
    Ok(lines)
}

/// Gives lines.
const LINES: &str = r"
1 2 3 100| => ----
1 2 3 100|\n => []---
1 2 3 100|\n\n => [][]--
1 2 3 100|CAT => [CAT]---
1 2 3 100|CAT\n => [CAT]---
1 2 3 100|CAT  \nDOG => [CAT  ][DOG]--
1 2 3 100|CAT\n\nDOG\n => [CAT][][DOG]-
1 2 3 100|a\r\nb\r => [a\r][b\r]--
1 2 3 100|\r\r\n => [\r\r]---
1 2 3 100|1\n2\n3\n4\n5 => [1][2][3][4]
1 8192 1000000 2000000|\<1000000:x\>\nnext => [\<1000000:x\>][next]--
";

/// What is told of `size` letters of which that at the place is a line feed, or none where the place is behind them.
fn two_lines(alloc: Global, size: usize, place: usize) -> Result<String, AllocError> {
    let mut told = String::new(alloc);
    if size == 0 {
        told.push_str("----")?;
        return Ok(told);
    }
    push_line(&mut told, place.min(size))?;
    if place.saturating_add(1) >= size {
        told.push_str("---")?;
        return Ok(told);
    }
    push_line(&mut told, size.saturating_sub(place).saturating_sub(1))?;
    told.push_str("--")?;
    Ok(told)
}

/// Adds a line of so many letters.
fn push_line(told: &mut String, letters: usize) -> Result<(), AllocError> {
    told.push_str("[")?;
    for _ in 0..letters {
        told.push_str("x")?;
    }
    told.push_str("]")?;
    Ok(())
}

/// A line feed at each place of so many letters, and none, where so many bytes come at once.
fn check_places<R: Abort + AllocGlobal>(rt: &R, size: usize, at_once: usize) -> Result<(), Fail> {
    for place in 0..=size {
        let mut text = vec![in rt.alloc(); b'x'; size]?;
        if place < size {
            text[place] = b'\n';
        }
        let (told, _) = four_calls(rt.alloc(), &text, at_once, 100, false)?;
        let wanted = two_lines(rt.alloc(), size, place)?;
        assert!(rt; told == wanted, "{size} letters, a line feed at {place}");
    }
    Ok(())
}

#[test]
fn a_line_feed_at_each_place(rt: HostRuntime) -> Result<(), Fail> {
    for size in [0, 1, 31, 32, 33, 63, 64, 65] {
        check_places(&rt, size, 8192)?;
        check_places(&rt, size, 31)?;
        check_places(&rt, size, 32)?;
    }
    Ok(())
}

/// The lines of an input and what is held behind each, behind how many bytes come at once and how many reads succeed.
#[derive(Drop)]
struct Reads;

impl Question for Reads {
    fn answer(alloc: Global, text: &[u8]) -> Result<String, Fail> {
        let (at_once, rest) = str::from_utf8(text)?.split_once("|").ok_or("no size")?;
        let (reads, text) = rest.split_once("|").ok_or("no number of reads")?;
        let at_once: usize = at_once.parse()?;
        let reads: usize = reads.parse()?;
        told_and_asked(alloc, text.as_bytes(), at_once, reads)
    }
}

fn told_and_asked(
    alloc: Global,
    text: &[u8],
    at_once: usize,
    reads: usize,
) -> Result<String, Fail> {
    let (told, asked) = four_calls(alloc, text, at_once, reads, true)?;
    Ok(format!(in alloc; "{told} {asked}")?)
}

/// Holds what was read.
const HELD: &str = r"
9|3|one\ntwo\nthree => [one](two\nt)[two](t)[three]()-() 3
4|0|one\n => ReadFault()ReadFault()ReadFault()ReadFault()! 1
6|1|one\ntwo\n => [one](tw)ReadFault(tw)ReadFault(tw)ReadFault(tw)! 2
";

/// A line that is too long is refused again, and what was read stays held.
fn check_refused<R: Abort + AllocGlobal>(rt: &R, text: &[u8], at_once: usize) {
    let mut device = reader_of(text, at_once, 2_000_000);
    let mut lines = Lines::new(rt.alloc());
    let first = lines.next(&mut device).err();
    let held = lines.held().len();
    assert!(rt; first == Some(LineError::TooLong) && text.starts_with(lines.held()));
    let second = lines.next(&mut device).err();
    assert!(rt; second == Some(LineError::TooLong) && lines.held().len() == held);
}

#[test]
fn refuses_a_longer_line(rt: HostRuntime) -> Result<(), Fail> {
    let mut text = vec![in rt.alloc(); b'x'; 1_000_001]?;
    check_refused(&rt, &text, 8192);
    text.extend_from_slice(b"\nnext")?;
    check_refused(&rt, &text, 1);
    check_refused(&rt, &text, 2_000_000);
    Ok(())
}

#[test]
fn rows(rt: HostRuntime) -> Result<(), Fail> {
    check_rows::<Inputs, _>(&rt, LINES)?;
    check_rows::<Reads, _>(&rt, HELD)
}
