//! A listing that stays from call to call.
ghost use Rattle.std.specs.Prelude.{◌≡◌, [], None, Some, IfSome};
ghost use Rattle.snobol.specs.Enumeration.{IsBegun};
ghost use Rattle.snobol.specs.Jobs.{listed};
ghost use Rattle.snobol.specs.Listing.{IsListing};
ghost use Rattle.sno_calls.specs.Calls.{IsTold};
ghost use Rattle.sno_calls.specs.Searches.{Gives, IsToldOf, Writes};

use crate::Told;
use crate::room::{Held, copy_into};
use crate::work::{LONGEST_LINE, tell};
use snobol::{Ways, WaysOutcome, tell_ways};
use std::alloc::Global;

/// The status where what is to be given finds no room.
const NO_ROOM: u32 = 7;

/// A listing, with what was written of it and is to be given.
#[derive(Drop)]
pub struct Search {
    /// The listing.
    pub ways: Ways,
    /// What its last line wrote and that waits for room.
    pub bytes: Vec<u8>,
}

impl Search {
    /// Gives what comes next: what is still to be given, or else what the next line writes. It is given whole or not at all.
    pub fn give(&mut self, alloc: Global, out: &mut [u8], line: &mut [u8], told: &mut Told)
        ensures { Gives self.old self.new out.old out.new line.old line.new told.new }
    {
        self.fetch(alloc);
        if self.bytes.len() > out.len() {
            told.status = NO_ROOM;
            told.written = 0;
            told.told = 0;
            return;
        }
        told.written = copy_into(self.bytes.as_slice(), out);
        self.bytes.clear();
        tell_outcome(alloc, self.ways.ended(), line, told);
    }

    /// Has the next line written, where nothing is still to be given.
    fn fetch(&mut self, alloc: Global)
        ensures { Writes self.old self.new.ways self.new.bytes.items }
    {
        if self.bytes.len() > 0 {
            return;
        }
        let mut writer = Held::endless(alloc, LONGEST_LINE);
        let _outcome = self.ways.next(&mut writer);
        self.bytes = writer.into_bytes();
    }
}

/// Begins a listing, and tells that it has begun, or how it ended.
pub fn begin(
    alloc: Global,
    pattern: &[u8],
    subject: &[u8],
    anchored: bool,
    steps: u32,
    line: &mut [u8],
    told: &mut Told,
) -> Option<Box<Search>>
    ensures begun { IfSome result (λ search. IsBegun pattern.now subject.now anchored steps search.value.ways
        × (search.value.bytes.items ≡ []) × IsToldOf None line.old line.new told.new) }
    ensures ended { result ≡ None → (outcome : WaysOutcome)
        × IsListing pattern.now subject.now anchored steps outcome [] × IsToldOf (Some outcome) line.old line.new told.new }
    ensures written { told.new.written ≡ 0 }
{
    told.written = 0;
    let ways = match Ways::new(alloc, pattern, subject, anchored, steps) {
        Ok(ways) => ways,
        Err(outcome) => {
            tell_outcome(alloc, Some(outcome), line, told);
            return None;
        }
    };
    let bytes = Vec::new(alloc);
    match Box::new(alloc, Search { ways, bytes }) {
        Ok(search) => {
            tell_outcome(alloc, None, line, told);
            Some(search)
        }
        Err(_) => {
            tell_outcome(alloc, Some(WaysOutcome::NoMemory), line, told);
            None
        }
    }
}

/// Tells how a listing stands: that more may come, or how it ended. Its writer fails for want of memory alone.
fn tell_outcome(alloc: Global, outcome: Option<WaysOutcome>, line: &mut [u8], told: &mut Told)
    ensures status { IsToldOf outcome line.old line.new told.new }
    ensures written { told.new.written ≡ told.old.written }
{
    match outcome {
        None | Some(WaysOutcome::Done) => {
            told.status = 0;
            told.told = 0;
        }
        Some(WaysOutcome::WriteFault) => tell_fault(alloc, WaysOutcome::NoMemory, line, told),
        Some(outcome) => tell_fault(alloc, outcome, line, told),
    }
}

/// Tells the status and the line of an outcome.
fn tell_fault(alloc: Global, outcome: WaysOutcome, line: &mut [u8], told: &mut Told)
    ensures status { IsTold (listed outcome) line.old line.new told.new }
    ensures written { told.new.written ≡ told.old.written }
{
    let mut errors = Held::endless(alloc, LONGEST_LINE);
    let status = tell_ways(&outcome, &mut errors);
    tell(&errors, status, line, told);
}
