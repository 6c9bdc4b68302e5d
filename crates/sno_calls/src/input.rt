//! The input of a run, whose bytes the caller lends.
ghost use Rattle.std.specs.Prelude.{◌≡◌, [], Some, false, true};

use snobol::{DeviceFault, Source};

/// A reader that gives its bytes, and then tells their end.
#[derive(Drop)]
pub(crate) struct Lent<'a> {
    left: &'a [u8],
    told_end: bool,
    ghost whole: { told_end ≡ true → left.now ≡ [] },
}

impl<'a> Lent<'a> {
    /// All bytes are left.
    pub fn new(bytes: &'a [u8]) -> Lent<'a>
        ensures left { result.left.now ≡ bytes.now }
    {
        Lent {
            left: bytes,
            told_end: false,
        }
    }
}

impl Source for Lent<'_> {
    ghost feed = { λ l. record { left = Some l.left.now; at_end = l.told_end; broken = false } };

    fn read(&mut self, buf: &mut [u8]) -> Result<usize, DeviceFault> {
        let count = self.left.len().min(buf.len());
        buf[..count].copy_from_slice(&self.left[..count]);
        self.left = &self.left[count..];
        self.told_end = count == 0;
        Ok(count)
    }

    fn failed(&self) -> bool {
        false
    }
}
