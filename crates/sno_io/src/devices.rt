//! What a run reads from and writes to.
ghost use Rattle.std.specs.Prelude.{◌≡◌, ℕ, ◌<◌, ◌==◌, Bool, false, true, IfOk, List, OnErr, OnOk, Option, length};
ghost use Rattle.std.specs.Io.{ReadsAtMost, WritesAtMost};
ghost use Rattle.std.specs.Io.KnownBytes.{ReadConsumes, WriteAppends};
ghost use Rattle.sno_io.specs.Devices.{Drain, Feed, TakesBytes};

/// A device has failed. It says nothing more of why.
#[derive(Clone, Copy, Debug, Drop, PartialEq, Eq)]
pub struct DeviceFault;

/// What bytes are read from. The caller owes that it has not failed yet and that there is room for a byte.
pub trait Source {
    /// What it tells: the bytes that it has left to give, whether
    /// its last read told the end, and whether one has failed.
    ghost feed: { Self → Feed };

    /// Puts bytes at the front of `buf` and answers how many; 0 tells the end. An `Err` is a failure, and gives none.
    fn read(&mut self, buf: &mut [u8]) -> Result<usize, DeviceFault>
        requires room { 0 < length buf.old }
        requires sound { (feed self.old).broken ≡ false }
        ensures bound { ReadsAtMost result buf.new }
        ensures bytes { ReadConsumes (feed self.old).left (feed self.new).left result buf.new }
        ensures end { IfOk result (λ n. (feed self.new).at_end ≡ (n == 0)) }
        ensures sound { OnOk result ((feed self.new).broken ≡ false) }
        ensures fault { OnErr result ((feed self.new).broken ≡ true) };

    /// Whether a read has failed.
    fn failed(&self) -> bool
        ensures { result ≡ (feed self.now).broken };
}

/// What bytes are written to. The caller owes that it has not failed yet and that there is a byte to write.
pub trait Sink {
    /// What it tells: the bytes that it has taken, and whether a write has failed.
    ghost drain: { Self → Drain };

    /// Takes bytes from the front of `bytes` and answers how many. An `Err` is a failure, and takes none; an answer
    /// of 0 is a failure too.
    fn write(&mut self, bytes: &[u8]) -> Result<usize, DeviceFault>
        requires some { 0 < length bytes.now }
        requires sound { (drain self.old).broken ≡ false }
        ensures bound { WritesAtMost result bytes.now }
        ensures bytes { WriteAppends (drain self.old).taken (drain self.new).taken result bytes.now }
        ensures sound { IfOk result (λ n. (drain self.new).broken ≡ (n == 0)) }
        ensures fault { OnErr result ((drain self.new).broken ≡ true) };

    /// Whether a write has failed.
    fn failed(&self) -> bool
        ensures { result ≡ (drain self.now).broken };
}

/// Writes all the bytes, or on a fault a beginning of them. A fault is answered only where the writer has failed, and
/// the writer must not have failed before. It takes no memory.
pub fn put<W: Sink>(writer: &mut W, bytes: &[u8]) -> Result<(), DeviceFault>
    requires { (W.drain writer.old).broken ≡ false }
    ensures bytes { TakesBytes (W.drain writer.old).taken (W.drain writer.new).taken result bytes.now }
    ensures sound { OnOk result ((W.drain writer.new).broken ≡ false) }
    ensures fault { OnErr result ((W.drain writer.new).broken ≡ true) }
{
    let mut at = 0;
    while at < bytes.len() {
        let count = writer.write(&bytes[at..])?;
        if count == 0 {
            return Err(DeviceFault);
        }
        at += count;
    }
    Ok(())
}
