//! A listing whose lines are told one after another.
ghost use Rattle.std.specs.Prelude.{◌≡◌, ℕ, List, [], None, Some, false, true, IfOk, IfErr, IfSome};
ghost use Rattle.std.specs.Io.KnownBytes.{Appends};
ghost use Rattle.sno_runtime.specs.World.{listing_keywords};
ghost use Rattle.sno_runtime.specs.inner.Runtime.{new_runtime};
ghost use Rattle.snobol.specs.Enumeration.{Goes, IsBegun, TellsLine, rest_of};
ghost use Rattle.snobol.specs.Listing.{IsListing};
ghost use Rattle.snobol.specs.inner.Telling.{ended_by};

use crate::enumeration::{LONGEST_SUBJECT, STATEMENTS, WaysOutcome, outcome_of};
use crate::no_input::NoInput;
use crate::telling::tell_next;
use sno_io::Sink;
use sno_match::Matcher;
use sno_runtime::{Exit, Keywords, Runtime};
use sno_text::{Program, ReadError, read_expression};
use sno_value::ExprId;
use std::alloc::Global;
use std::marker::Model;

/// The ways in which a pattern matches a subject, as lines that are told one after another: no more is searched than the
/// line needs that is asked for, and nothing is searched twice. Once a call has told the end, each later call tells it
/// again, changes nothing and writes nothing.
#[derive(Drop)]
pub struct Ways {
    program: Program,
    expression: ExprId,
    subject: Vec<u8>,
    anchored: bool,
    limit: u32,
    runtime: Runtime,
    reader: NoInput,
    /// The search, once the pattern was evaluated.
    search: Option<Matcher>,
    /// The end that was told.
    ended: Option<WaysOutcome>,
}

impl Model for Ways {
    ghost use Rattle.std.specs.Prelude.{◌≡◌, None};
    ghost use Rattle.snobol.specs.Enumeration.{Enumeration};
    ghost use Rattle.snobol.specs.inner.Telling.{Stands};
    ghost use Rattle.snobol.specs.inner.Running.{no_input};

    ghost Value = { Enumeration };

    ghost view = { λ w. record {
      program = w.program;
      number = w.expression;
      subject = w.subject.items;
      anchored = w.anchored;
      limit = w.limit;
      state = w.runtime;
      search = w.search;
      ended = w.ended;
    } };

    ghost invariant = { λ w. w.ended ≡ None
        → Stands w.program w.subject.items w.limit w.runtime (no_input w.reader.told_end) w.search };
}

impl Ways {
    /// The listing, of which nothing is told: its pattern is evaluated for the first line. Where there is none, how it
    /// ended: the pattern's text is refused, the subject is too long, or memory is refused.
    pub fn new(
        alloc: Global,
        pattern: &[u8],
        subject: &[u8],
        anchored: bool,
        limit: u32,
    ) -> Result<Ways, WaysOutcome>
        ensures begun { IfOk result (λ ways. IsBegun pattern.now subject.now anchored limit ways) }
        ensures refused { IfErr result (λ outcome. IsListing pattern.now subject.now anchored limit outcome []) }
    {
        let (program, expression) = match read_expression(alloc, pattern) {
            Ok(read) => read,
            Err(ReadError::NoMemory) => return Err(WaysOutcome::NoMemory),
            Err(error) => return Err(WaysOutcome::Refused(error)),
        };
        if subject.len() > LONGEST_SUBJECT {
            return Err(WaysOutcome::Error { code: 8 });
        }
        let Ok(subject) = subject.to_vec(alloc) else {
            return Err(WaysOutcome::NoMemory);
        };
        let keywords = Keywords::for_listing(anchored, STATEMENTS, limit);
        let Ok(runtime) = Runtime::new(alloc, keywords) else {
            return Err(WaysOutcome::NoMemory);
        };
        Ok(Ways {
            program,
            expression,
            subject,
            anchored,
            limit,
            runtime,
            reader: NoInput::new(),
            search: None,
            ended: None,
        })
    }

    /// How the listing ended, where that was told.
    pub fn ended(&self) -> Option<WaysOutcome>
        ensures { result ≡ self.now.ended }
    {
        self.ended
    }

    /// Writes the next line, and does what its event does: None where more may come, else how the listing ended. The
    /// caller owes a writer that has not failed, unless an end was told.
    pub fn next<W: Sink>(&mut self, writer: &mut W) -> Option<WaysOutcome>
        requires sound { self.old.ended ≡ None → (W.drain writer.old).broken ≡ false }
        ensures tells { self.old.ended ≡ None → (wrote : List ℕ)
            × Appends (W.drain writer.old).taken (W.drain writer.new).taken wrote
            × Goes (rest_of self.old) (rest_of self.new) wrote result }
        ensures line { self.old.ended ≡ None → result ≡ None
            → TellsLine self.old.search self.new.search self.old.limit }
        ensures kept { self.new ≡ record self.old {
          state = self.new.state;
          search = self.new.search;
          ended = result;
        } }
        ensures again { IfSome self.old.ended (λ outcome. (result ≡ Some outcome) × (self.new ≡ self.old)
            × (writer.new ≡ writer.old)) }
        ensures sound { result ≡ None → (W.drain writer.new).broken ≡ false }
        ensures fault { self.old.ended ≡ None → result ≡ Some WaysOutcome.WriteFault
            → (W.drain writer.new).broken ≡ true }
    {
        if let Some(outcome) = self.ended {
            return Some(outcome);
        }
        let told = tell_next(
            &mut self.runtime,
            &self.program,
            self.expression,
            &mut self.reader,
            &mut self.search,
            &self.subject,
            self.anchored,
            self.limit,
            writer,
        );
        self.ended = ended_by(told);
        self.ended
    }
}

/// How a listing ended that answered this for a line; None where more may come.
fn ended_by(told: Result<bool, Exit>) -> Option<WaysOutcome>
    ensures { result ≡ ended_by told }
{
    match told {
        Ok(true) => None,
        Ok(false) => Some(WaysOutcome::Done),
        Err(exit) => Some(outcome_of(Err(exit))),
    }
}
