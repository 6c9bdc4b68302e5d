//! Keywords of the program that runs, and the count of the statements that it has begun.
ghost use Rattle.std.specs.Prelude.{◌≡◌, ◌<◌, IfErr, IfOk, None, Some};
ghost use Rattle.sno_runtime.specs.Values.{shown, IsValueOf};
ghost use Rattle.sno_runtime.specs.World.{Keywords};
ghost use Rattle.sno_runtime.specs.Keywords.{keyword, alphabet, is_anchored, with_begun, with_keyword};
ghost use Rattle.sno_runtime.specs.declared.stops.Stop.{Stop};
ghost use Rattle.sno_runtime.specs.inner.Runtime.{Does};
ghost use Rattle.sno_runtime.specs.declared.stops.Stop.{Stop};

use crate::errors::{NO_KEYWORD, STATEMENT_LIMIT};
use crate::runtime::Runtime;
use crate::stops::{Exit, error};
use sno_value::{Text, Value};
use std::alloc::{AllocError, Global};

impl Runtime {
    /// The value of a keyword; error 14 where there is none of this name.
    pub fn keyword(&self, name: &[u8]) -> Result<Value, Exit>
        ensures { Does shown IsValueOf (keyword name.now) self.now self.now result }
    {
        if name == b"ALPHABET".as_slice() {
            let bytes = alphabet(self.alloc)?;
            let text = Text::new(self.alloc, bytes)?;
            return Ok(Value::Str(text));
        }
        match self.keywords.number(name, self.store.level()) {
            Some(number) => Ok(Value::Int(number)),
            None => Err(error(NO_KEYWORD)),
        }
    }

    /// Whether a match may begin at the subject's first byte alone.
    pub fn anchored(&self) -> bool
        ensures { result ≡ is_anchored self.now.keywords.anchor }
    {
        self.keywords.anchored()
    }

    /// The most steps of a match.
    pub fn steps(&self) -> u32
        ensures { result ≡ self.now.keywords.steps }
    {
        self.keywords.steps()
    }

    /// Begins a statement; error 20 where as many have begun as may.
    pub fn begin(&mut self, statement: u32) -> Result<(), Exit>
        ensures begun { IfOk result (λ done. (k : Keywords) × (with_begun statement self.old.keywords ≡ Some k)
            × (self.new ≡ record self.old { keywords = k })) }
        ensures over { IfErr result (λ e. (e ≡ Exit.Halt (Stop.Error 20))
            × (with_begun statement self.old.keywords ≡ None) × (self.new ≡ self.old)) }
        ensures room { IfOk result (λ done. self.old.keywords.begun < self.old.keywords.cap) }
    {
        if !self.keywords.begin(statement) {
            return Err(error(STATEMENT_LIMIT));
        }
        Ok(())
    }

    /// Sets a keyword that a program sets; error 14 where it can't have this number.
    pub fn set_keyword(&mut self, name: &[u8], number: i64) -> Result<(), Exit>
        ensures set { IfOk result (λ done. (k : Keywords) × (with_keyword name.now number self.old.keywords ≡ Some k)
            × (self.new ≡ record self.old { keywords = k })) }
        ensures unset { IfErr result (λ e. (e ≡ Exit.Halt (Stop.Error 14))
            × (with_keyword name.now number self.old.keywords ≡ None) × (self.new ≡ self.old)) }
    {
        if !self.keywords.set(name, number) {
            return Err(error(NO_KEYWORD));
        }
        Ok(())
    }
}

/// The 256 bytes in order.
fn alphabet(alloc: Global) -> Result<Vec<u8>, AllocError>
    ensures { IfOk result (λ bytes. bytes.items ≡ alphabet) }
{
    let mut bytes = Vec::new(alloc);
    for byte in 0..256u16 {
        bytes.push(byte as u8)?;
    }
    Ok(bytes)
}
