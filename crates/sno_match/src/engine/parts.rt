//! Parts of the subject as strings.
ghost use Rattle.std.specs.Prelude.{◌≡◌, ◌≤◌, length, slice_range, IfOk};

use crate::engine::Engine;
use crate::points::Points;
use sno_value::Text;
use std::alloc::{AllocError, Global};

impl<P: Points> Engine<P> {
    /// The bytes of the subject from `start` up to `end` as a string. Where the subject is lent a long part shares its
    /// block.
    #[inline(always)]
    pub fn text(&self, alloc: Global, start: usize, end: usize) -> Result<Text, AllocError>
        requires order { start ≤ end }
        requires inside { end ≤ length self.now.subject }
        ensures { IfOk result (λ text. text ≡ slice_range self.now.subject start end) }
    {
        let text = self.subject.part(alloc, start, end)?;
        Ok(text)
    }
}
