//! Bytes that are read ahead of their use.
ghost use Rattle.std.specs.Prelude.{◌≡◌, ℕ, ◌<◌, ◌≤◌, ◌↔◌, ◌==◌, ◌++◌, false, true, [], List, drop, length, vec_len};
ghost use Rattle.std.specs.Prelude.{IfOk, IsErrOf, OnOk};
ghost use Rattle.std.specs.Io.KnownBytes.{Consumes};

use crate::devices::Source;
use crate::lines::LineError;
use std::alloc::{AllocError, Global};

/// The least room for which a reader is asked.
const BLOCK: usize = 8192;

/// Bytes that were read and are held: `bytes[start..end]`. Behind them is room for more.
#[derive(Drop)]
pub(crate) struct Buffer {
    bytes: Vec<u8>,
    start: usize,
    end: usize,
    ghost ordered: { start ≤ end },
    ghost within: { end ≤ vec_len bytes },
}

impl Buffer {
    ghost use Rattle.sno_io.specs.inner.Held.{held_in, room_in};

    /// A buffer that holds nothing. It takes no memory.
    pub fn new(alloc: Global) -> Buffer
        ensures { held_in result ≡ [] }
    {
        Buffer {
            bytes: Vec::new(alloc),
            start: 0,
            end: 0,
        }
    }

    /// The bytes that are held.
    pub fn held(&self) -> &[u8]
        ensures { result.now ≡ held_in self.now }
    {
        &self.bytes[self.start..self.end]
    }

    /// Lets go the first `count` bytes that are held, or all where there are fewer.
    pub fn consume(&mut self, count: usize)
        ensures { held_in self.new ≡ drop count (held_in self.old) }
    {
        self.start += count.min(self.end - self.start);
    }

    /// Makes room for a block. What is held is moved only where more bytes were let go, so each byte is moved once on
    /// the whole.
    fn make_room(&mut self) -> Result<(), AllocError>
        ensures held { held_in self.new ≡ held_in self.old }
        ensures room { OnOk result (0 < room_in self.new) }
    {
        let (start, end) = (self.start, self.end);
        if end - start < start {
            self.bytes.copy_within(start..end, 0);
            self.start = 0;
            self.end = end - start;
        }
        let len = self.bytes.len();
        if len - self.end < BLOCK {
            self.bytes.resize(len + len.max(BLOCK), 0)?;
        }
        Ok(())
    }

    /// Asks the reader once, and holds what it gives. 0 tells the end. Where memory is refused the reader is not asked.
    pub fn read_from<R: Source>(&mut self, reader: &mut R) -> Result<usize, LineError>
        requires { (R.feed reader.old).broken ≡ false }
        ensures given { (given : List ℕ) × Consumes (R.feed reader.old).left (R.feed reader.new).left given
            × (held_in self.new ≡ held_in self.old ++ given) × IfOk result (λ n. n ≡ length given) }
        ensures end { IfOk result (λ n. (R.feed reader.new).at_end ≡ (n == 0)) }
        ensures sound { OnOk result ((R.feed reader.new).broken ≡ false) }
        ensures fault { IsErrOf result LineError.ReadFault ↔ ((R.feed reader.new).broken ≡ true) }
        ensures fits { IsErrOf result LineError.TooLong → ⊥ }
    {
        self.make_room()?;
        let end = self.end;
        let count = reader.read(&mut self.bytes[end..])?;
        self.end = end + count;
        Ok(count)
    }
}
