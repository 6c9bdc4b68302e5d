//! How calls of the program's functions are done, for what stands in their midst.
ghost use Rattle.std.specs.Prelude.{◌≡◌, ◌-◌, ℕ, map};
ghost use Rattle.std.specs.List.{AllByRecursion};
ghost use Rattle.sno_text.specs.Program.{Program};
ghost use Rattle.sno_runtime.specs.Values.{shown, IsValueOf};
ghost use Rattle.sno_expression.specs.Evaluate.{Caller};
ghost use Rattle.sno_statement.specs.Running.{Runs, devices};
ghost use Rattle.sno_statement.specs.inner.Calling.{CanRunIn};
ghost use Rattle.sno_expression.specs.inner.Forms.{IsOrdered};

use crate::code::Code;
use sno_io::{Sink, Source};
use sno_runtime::{Exit, Runtime};
use sno_text::Program;
use sno_value::{SymId, Value};

/// A program, and how calls of its functions are done.
pub trait Calls<R: Source, W: Sink> {
    ghost code: { Self → Program };

    /// Whether calls can be done where so many are open.
    ghost within: { Self → ℕ → Type 0 };

    /// What a call means.
    ghost caller: { Self → Caller };

    fn code(&self) -> &Code<'_>
        ensures { result.now ≡ code self.now };

    /// Does the call of a function that the program defines. The arguments are moved out of their places.
    fn call(
        &self,
        runtime: &mut Runtime,
        reader: &mut R,
        writer: &mut W,
        function: SymId,
        arguments: &mut [Value],
    ) -> Result<Value, Exit>
        requires values { AllByRecursion (IsValueOf runtime.old.nodes) arguments.old }
        requires within { CanRunIn (within self.now) runtime.old (devices (R.feed reader.old) (W.drain writer.old)) }
        ensures { Runs shown IsValueOf (caller self.now function.0 (map (shown runtime.old.nodes) arguments.old))
            runtime.old runtime.new (devices (R.feed reader.old) (W.drain writer.old))
            (devices (R.feed reader.new) (W.drain writer.new)) result };

    #[inline(always)]
    fn program(&self) -> &Program
        ensures program { result.now ≡ code self.now }
        ensures ordered { IsOrdered (code self.now) }
    {
        self.code().program()
    }
}
