//! An input without lines.
ghost use Rattle.std.specs.Prelude.{◌≡◌, false};

use sno_io::{DeviceFault, Source};

/// A reader that has nothing to give.
#[derive(Drop)]
pub(crate) struct NoInput {
    told_end: bool,
}

impl NoInput {
    pub(crate) fn new() -> NoInput
        ensures { result.told_end ≡ false }
    {
        NoInput { told_end: false }
    }
}

impl Source for NoInput {
    ghost use Rattle.snobol.specs.inner.Running.{no_input};

    ghost feed = { λ n. no_input n.told_end };

    fn read(&mut self, _buf: &mut [u8]) -> Result<usize, DeviceFault> {
        self.told_end = true;
        Ok(0)
    }

    fn failed(&self) -> bool {
        false
    }
}
