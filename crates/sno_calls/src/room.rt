//! What is written for a caller who lends room for so much.
ghost use Rattle.std.specs.Prelude.{◌≡◌, [], Some, false};
ghost use Rattle.sno_calls.specs.Calls.{Holds};

use snobol::{DeviceFault, Sink};
use std::alloc::Global;

/// A writer that holds what it took, up to so many bytes: it has failed once a byte found no room or no memory.
#[derive(Drop)]
pub(crate) struct Held {
    bytes: Vec<u8>,
    most: usize,
    failed: bool,
}

impl Held {
    /// A writer of at most so many bytes, of which nothing was written yet.
    pub fn new(alloc: Global, most: usize) -> Held
        ensures bytes { result.bytes.items ≡ [] }
        ensures sound { result.failed ≡ false }
    {
        Held {
            bytes: Vec::new(alloc),
            most,
            failed: false,
        }
    }

    /// A writer that fails for want of memory alone. If so many bytes find memory now, that is kept for them.
    pub fn endless(alloc: Global, count: usize) -> Held
        ensures bytes { result.bytes.items ≡ [] }
        ensures sound { result.failed ≡ false }
    {
        Held {
            bytes: empty(alloc, count),
            most: usize::MAX,
            failed: false,
        }
    }

    /// What was written.
    pub fn into_bytes(self) -> Vec<u8>
        ensures { result ≡ self.bytes }
    {
        self.bytes
    }

    /// What was written, copied into the room that was lent; the count of bytes that found room.
    pub fn hand_over(&self, room: &mut [u8]) -> usize
        ensures { Holds room.old room.new result self.now.bytes.items }
    {
        copy_into(self.bytes.as_slice(), room)
    }
}

impl Sink for Held {
    ghost drain = { λ h. record { taken = Some h.bytes.items; broken = h.failed } };

    fn write(&mut self, bytes: &[u8]) -> Result<usize, DeviceFault> {
        let count = bytes.len().min(self.most.saturating_sub(self.bytes.len()));
        if count == 0 || self.bytes.extend_from_slice(&bytes[..count]).is_err() {
            self.failed = true;
            return Err(DeviceFault);
        }
        Ok(count)
    }

    fn failed(&self) -> bool {
        self.failed
    }
}

/// An empty list, with room for so many bytes if there is memory.
fn empty(alloc: Global, count: usize) -> Vec<u8>
    ensures { result.items ≡ [] }
{
    match Vec::with_capacity(alloc, count) {
        Ok(bytes) => bytes,
        Err(_) => Vec::new(alloc),
    }
}

/// Copies as many bytes as both have to the beginning of the room, and answers how many.
pub(crate) fn copy_into(from: &[u8], room: &mut [u8]) -> usize
    ensures { Holds room.old room.new result from.now }
{
    let count = from.len().min(room.len());
    room[..count].copy_from_slice(&from[..count]);
    count
}
