//! The bytes that a match searches.
ghost use Rattle.std.specs.Prelude.{◌≡◌, ◌≤◌, length, slice_range, IfOk, OnOk};
ghost use Rattle.sno_match.specs.inner.Subject.{searched};

use crate::bytes::put_in_place;
use sno_value::Text;
use std::alloc::{AllocError, Global};
use std::marker::Model;

/// From how many bytes on a part may share a block: a shorter one is copied sooner than that is found out.
const LONG: usize = 64;

/// The bytes of a subject: those of a string that is lent, whose block is shared, or else its own.
#[derive(Drop)]
pub(crate) struct Subject {
    /// The list keeps its room while a string is lent.
    own: Vec<u8>,
    lent: Option<Text>,
}

impl Model for Subject {
    ghost use Rattle.std.specs.Prelude.{vec_capacity};
    ghost use Rattle.sno_match.specs.inner.Subject.{Searched, searched};

    ghost Value = { Searched };

    ghost view = { λ s. record { bytes = searched s.lent s.own.items; room = vec_capacity s.own } };
}

impl Subject {
    /// The subject of these bytes.
    pub(crate) fn of(own: Vec<u8>) -> Subject
        ensures { result.bytes ≡ own.items }
    {
        Subject { own, lent: None }
    }

    /// The bytes.
    #[inline(always)]
    pub(crate) fn as_slice(&self) -> &[u8]
        ensures value { result.now ≡ self.now.bytes }
    {
        match &self.lent {
            Some(text) => text.as_slice(),
            None => self.own.as_slice(),
        }
    }

    /// The bytes from `start` up to `end` as a string. A long one shares the block of what is lent, as `Text::part` does.
    #[inline(always)]
    pub(crate) fn part(&self, alloc: Global, start: usize, end: usize) -> Result<Text, AllocError>
        requires order { start ≤ end }
        requires inside { end ≤ length self.now.bytes }
        ensures { IfOk result (λ text. text ≡ slice_range self.now.bytes start end) }
    {
        if let Some(text) = &self.lent
            && end - start >= LONG
        {
            let part = text.part(alloc, start, end)?;
            return Ok(part);
        }
        let part = Text::from_slice(alloc, &self.as_slice()[start..end])?;
        Ok(part)
    }

    /// Makes room for so many bytes that are copied.
    #[inline(always)]
    pub(crate) fn make_room(&mut self, bytes: usize) -> Result<(), AllocError>
        ensures same { self.new.bytes ≡ self.old.bytes }
        ensures room { OnOk result (bytes ≤ self.new.room) }
    {
        let more = bytes.saturating_sub(self.own.len());
        self.own.reserve(more)?;
        Ok(())
    }

    /// The string that is lent takes the place of the bytes, or else a copy of these.
    #[inline(always)]
    pub(crate) fn put(&mut self, lent: Option<Text>, copied: &[u8])
        requires { length copied.now ≤ self.old.room }
        ensures { self.new.bytes ≡ searched lent copied.now }
    {
        if lent.is_none() {
            put_in_place(&mut self.own, copied);
        }
        self.lent = lent;
    }
}
