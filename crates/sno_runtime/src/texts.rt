//! The functions of texts.
ghost use Rattle.sno_runtime.specs.Values.{shown, IsValueOf};
ghost use Rattle.sno_runtime.specs.Functions.{lgt, size, trim, dupl, replace};
ghost use Rattle.sno_runtime.specs.Runtime.{Runtime};
ghost use Rattle.sno_runtime.specs.inner.Runtime.{Does};

use crate::convert::{null_where, number_of, text_of};
use crate::errors::TOO_LONG;
use crate::stops::{Exit, Stop, error};
use sno_value::{TextError, Value, dupl_text, lgt, replace_text, trim};
use std::alloc::Global;

/// LGT: null where the first text is after the second in byte order.
pub fn is_after(alloc: Global, x: Value, y: Value) -> Result<Value, Exit>
    ensures { (s : Runtime) → Does shown IsValueOf (lgt (shown s.nodes x) (shown s.nodes y)) s s result }
{
    let first = text_of(alloc, x)?;
    let second = text_of(alloc, y)?;
    null_where(lgt(first.as_slice(), second.as_slice()))
}

/// SIZE: how many bytes the text has.
pub fn size(alloc: Global, x: Value) -> Result<Value, Exit>
    ensures { (s : Runtime) → Does shown IsValueOf (size (shown s.nodes x)) s s result }
{
    let text = text_of(alloc, x)?;
    Ok(Value::Int(text.as_slice().len() as i64))
}

/// TRIM: the text without its trailing spaces.
pub fn trimmed(alloc: Global, x: Value) -> Result<Value, Exit>
    ensures { (s : Runtime) → IsValueOf s.nodes x → Does shown IsValueOf (trim (shown s.nodes x)) s s result }
{
    let text = text_of(alloc, x)?;
    let kept = text.part(alloc, 0, trim(text.as_slice()).len())?;
    Ok(Value::Str(kept))
}

/// DUPL: copies of the text, one after another. A negative count fails, and more than 1,000,000 bytes are error 8.
pub fn copies(alloc: Global, x: Value, y: &Value) -> Result<Value, Exit>
    ensures { (s : Runtime) → Does shown IsValueOf (dupl (shown s.nodes x) (shown s.nodes y.now)) s s result }
{
    let text = text_of(alloc, x)?;
    let count = number_of(y)?;
    match dupl_text(alloc, text.as_slice(), count) {
        Ok(Some(copied)) => Ok(Value::Str(copied)),
        Ok(None) => Err(Exit::Failure),
        Err(TextError::TooLong) => Err(error(TOO_LONG)),
        Err(TextError::NoMemory) => Err(Exit::Halt(Stop::NoMemory)),
    }
}

/// REPLACE: the first text with each byte that stands in the second replaced by the byte of the third at the same
/// place. It fails where the second is null, or not as long as the third.
pub fn replaced(alloc: Global, x: Value, y: Value, z: Value) -> Result<Value, Exit>
    ensures { (s : Runtime) → IsValueOf s.nodes x
        → Does shown IsValueOf (replace (shown s.nodes x) (shown s.nodes y) (shown s.nodes z)) s s result }
{
    let text = text_of(alloc, x)?;
    let from = text_of(alloc, y)?;
    let to = text_of(alloc, z)?;
    match replace_text(alloc, text.as_slice(), from.as_slice(), to.as_slice())? {
        Some(text) => Ok(Value::Str(text)),
        None => Err(Exit::Failure),
    }
}
