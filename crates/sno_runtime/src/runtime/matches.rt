//! Matches of the program that runs.
ghost use Rattle.std.specs.Prelude.{◌≡◌, ◌<◌, length, IfOk};
ghost use Rattle.sno_pattern.specs.Table.{tree};
ghost use Rattle.sno_match.specs.Direct.{IsFirst, IsInVain, pending_of};
ghost use Rattle.sno_match.specs.Matching.{begins, IsWithin};
ghost use Rattle.sno_match.specs.Search.{Way};
ghost use Rattle.sno_runtime.specs.Keywords.{is_anchored};

use crate::runtime::Runtime;
use sno_match::{Direct, DirectWay, Matcher, direct_way};
use sno_value::{PatId, Text};
use std::alloc::AllocError;

/// The most steps of a match whose matcher is kept: the lists of a matcher have room for little more than what its
/// steps can have put there.
const KEPT_STEPS: u32 = 1_000;

/// The same where no other matcher is kept, as in a program that begins no match inside another.
const KEPT_ALONE: u32 = 10_000;

/// From how many bytes on a string lies in a block.
const BLOCK_BYTES: usize = 23;

impl Runtime {
    /// Whether it is worth a look whether the first way of a match of this pattern is found directly. It is not, where
    /// such looks were in vain lately.
    #[inline(always)]
    pub fn looks_directly(&mut self, pattern: PatId) -> bool
        ensures { self.new ≡ self.old }
    {
        self.made.looks.is_worth(pattern)
    }

    /// Finds the first way of a match of a pattern in a subject, as the keywords have it, or that it has none, as
    /// `direct_way` does.
    pub fn finds_directly(&mut self, pattern: PatId, subject: &Text, way: &mut DirectWay) -> Direct
        requires { pattern.0 < length self.old.nodes }
        ensures same { self.new ≡ self.old }
        ensures first { result ≡ Direct.Way → IsFirst (tree self.old.nodes pattern.0) subject.now
            (is_anchored self.old.keywords.anchor) self.old.keywords.steps way.new.start way.new.end
            (pending_of way.new) }
        ensures within { result ≡ Direct.Way
            → IsWithin (length subject.now) (Way way.new.start way.new.end (pending_of way.new)) }
        ensures vain { result ≡ Direct.Vain → IsInVain (tree self.old.nodes pattern.0) subject.now
            (is_anchored self.old.keywords.anchor) self.old.keywords.steps }
    {
        let anchored = self.anchored();
        let limit = self.steps();
        let bytes = subject.as_slice();
        let found = direct_way(&self.patterns, pattern, bytes, anchored, limit, way);
        let tells = !matches!(found, Direct::Unknown);
        self.made.looks.tell(pattern, bytes.len(), tells);
        found
    }

    /// A match of a pattern in a subject, as the keywords have it: a matcher that was kept begins again, where there is
    /// one. It shares the block of a long subject until the matcher is kept again.
    pub fn begin_match(
        &mut self,
        pattern: PatId,
        subject: &Text,
    ) -> Result<Box<Matcher>, AllocError>
        requires { pattern.0 < length self.old.nodes }
        ensures begun { IfOk result (λ matcher. matcher.value ≡ begins self.old.nodes pattern subject.now
            (is_anchored self.old.keywords.anchor) self.old.keywords.steps matcher.value.records) }
        ensures same { self.new ≡ self.old }
    {
        if let Some(mut matcher) = self.idle.pop() {
            let anchored = self.anchored();
            let limit = self.steps();
            matcher.begin_on(&self.patterns, pattern, subject, anchored, limit)?;
            return Ok(matcher);
        }
        self.new_match(pattern, subject)
    }

    /// The same with a matcher of its own. It stands apart, so that a match that begins again needs no room for one.
    #[cold]
    #[inline(never)]
    fn new_match(&self, pattern: PatId, subject: &Text) -> Result<Box<Matcher>, AllocError>
        requires { pattern.0 < length self.now.nodes }
        ensures { IfOk result (λ matcher. matcher.value ≡ begins self.now.nodes pattern subject.now
            (is_anchored self.now.keywords.anchor) self.now.keywords.steps matcher.value.records) }
    {
        let anchored = self.anchored();
        let limit = self.steps();
        let none = Vec::new(self.alloc);
        let mut matcher = Matcher::over(
            self.alloc,
            &self.patterns,
            pattern,
            none,
            anchored,
            limit,
        )?;
        matcher.begin_on(&self.patterns, pattern, subject, anchored, limit)?;
        let matcher = Box::new(self.alloc, matcher)?;
        Ok(matcher)
    }

    /// Keeps a matcher that is done with its match for `begin_match`, and lets go of the subject. It is itself let go
    /// where it may hold much memory, or where memory is refused.
    pub fn keep_matcher(&mut self, mut matcher: Box<Matcher>)
        ensures { self.new ≡ self.old }
    {
        let most = if self.idle.is_empty() {
            KEPT_ALONE
        } else {
            KEPT_STEPS
        };
        if matcher.steps() <= most && self.lets_go(&mut matcher) {
            let _kept = self.idle.push(matcher);
        }
    }

    /// Lets go of the block that a matcher's subject shares, where it is so long that it lies in one: the matcher begins
    /// on the null string. It is false where that isn't done.
    #[inline(always)]
    fn lets_go(&self, matcher: &mut Matcher) -> bool {
        if matcher.subject().len() < BLOCK_BYTES {
            return true;
        }
        if self.patterns.len() == 0 {
            return false;
        }
        let null = Text::null();
        matcher
            .begin_on(&self.patterns, PatId(0), &null, true, 0)
            .is_ok()
    }
}
