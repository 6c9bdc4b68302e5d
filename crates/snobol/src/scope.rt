//! What the statements of a call, or of the program itself, are performed in.
ghost use Rattle.std.specs.Prelude.{◌≡◌, ◌-◌};
ghost use Rattle.snobol.specs.Meaning.{call_at, calls};
ghost use Rattle.snobol.specs.inner.Calling.{Calling};

use crate::calls::call;
use sno_io::{Sink, Source};
use sno_runtime::{Exit, Runtime};
use sno_statement::{Calls, Code};
use sno_value::{SymId, Value};

/// The program itself: no call is open.
#[derive(Drop)]
pub(crate) struct Outermost<'a, 'p> {
    pub code: &'a Code<'p>,
}

impl<'a, 'p, R: Source, W: Sink> Calls<R, W> for Outermost<'a, 'p> {
    ghost code = { λ s. s.code.now };

    ghost within = { λ s n. n ≡ 0 };

    ghost caller = { λ s. calls s.code.now };

    #[inline(always)]
    fn code(&self) -> &Code<'_> {
        self.code
    }

    #[inline(always)]
    fn call(
        &self,
        runtime: &mut Runtime,
        reader: &mut R,
        writer: &mut W,
        function: SymId,
        arguments: &mut [Value],
    ) -> Result<Value, Exit> {
        call(runtime, self.code, reader, writer, function, arguments)
    }
}

/// A call of a function: how many calls are open, and how calls inside these are done.
#[derive(Drop)]
pub(crate) struct Scope<'a, 'p, C> {
    pub code: &'a Code<'p>,
    pub level: u32,
    pub call: C,
}

impl<
    'a,
    'p,
    R: Source,
    W: Sink,
    C: Fn(&mut Runtime, &mut R, &mut W, SymId, &mut [Value]) -> Result<Value, Exit>,
> Calls<R, W> for Scope<'a, 'p, C> {
    ghost code = { λ s. s.code.now };

    ghost within = { λ s n. (n ≡ s.level)
        × Calling R.feed W.drain s.code.now s.level (C.pre s.call) (C.post s.call) };

    ghost caller = { λ s. call_at s.code.now (200 - s.level) };

    #[inline(always)]
    fn code(&self) -> &Code<'_> {
        self.code
    }

    #[inline(always)]
    fn call(
        &self,
        runtime: &mut Runtime,
        reader: &mut R,
        writer: &mut W,
        function: SymId,
        arguments: &mut [Value],
    ) -> Result<Value, Exit> {
        (self.call)(runtime, reader, writer, function, arguments)
    }
}
