//! The variables that a new store has.
ghost use Rattle.std.specs.Prelude.{◌≡◌, ◌<◌, [], length, false, IfOk, OnOk, OnErr, IsOkAnd};
ghost use Rattle.sno_store.specs.Store.{new_store, is_symbol};
ghost use Rattle.sno_store.specs.First.{first_patterns, IsBeginning};
ghost use Rattle.sno_store.specs.inner.First.{search_patterns};
ghost use Rattle.sno_store.specs.inner.Symbols.{appended, no_contents, with_searches, with_controls};

use crate::store::Store;
use sno_pattern::{BuildError, Patterns};
use sno_value::{PatId, Value};
use std::alloc::AllocError;

impl Store {
    /// The variables whose patterns search for an end, of a store that has no variables yet.
    pub(crate) fn begin_searches(&mut self, patterns: &mut Patterns) -> Result<(), AllocError>
        requires first { self.old ≡ no_contents }
        requires table { patterns.old ≡ [] }
        ensures ok { OnOk result (self.new ≡ with_searches) }
        ensures table { OnOk result (patterns.new ≡ search_patterns) }
        ensures refused { OnErr result (IsBeginning patterns.new) }
    {
        self.begin(b"ARB", patterns.arb())?;
        self.begin(b"BAL", patterns.bal())?;
        self.begin(b"REM", patterns.rem())?;
        self.begin(b"FAIL", patterns.fail())?;
        Ok(())
    }

    /// The variables whose patterns steer the search, behind those.
    pub(crate) fn begin_controls(&mut self, patterns: &mut Patterns) -> Result<(), AllocError>
        requires next { self.old ≡ with_searches }
        requires table { patterns.old ≡ search_patterns }
        ensures ok { OnOk result (self.new ≡ with_controls) }
        ensures table { OnOk result (patterns.new ≡ first_patterns) }
        ensures refused { OnErr result (IsBeginning patterns.new) }
    {
        self.begin(b"FENCE", patterns.fence())?;
        self.begin(b"ABORT", patterns.abort())?;
        self.begin(b"SUCCEED", patterns.succeed())?;
        Ok(())
    }

    /// The variables that are read and written as lines, behind those.
    pub(crate) fn begin_devices(&mut self) -> Result<(), AllocError>
        requires { self.old ≡ with_controls }
        ensures { OnOk result (self.new ≡ new_store) }
    {
        self.append(b"INPUT", Value::null())?;
        self.append(b"OUTPUT", Value::null())?;
        Ok(())
    }

    /// A variable joins, with the pattern that was built for it.
    fn begin(&mut self, name: &[u8], pattern: Result<PatId, BuildError>) -> Result<(), AllocError>
        requires new { is_symbol name.now self.old.symbols ≡ false }
        requires room { length self.old.symbols < 1_000_000 }
        ensures { OnOk result (IsOkAnd pattern (λ id. self.new ≡ appended name.now (Value.Pat id) self.old)) }
    {
        let id = built(pattern)?;
        self.append(name, Value::Pat(id))?;
        Ok(())
    }
}

/// What a builder of an empty table answers: it is refused memory alone.
fn built(pattern: Result<PatId, BuildError>) -> Result<PatId, AllocError>
    ensures { IfOk result (λ id. pattern ≡ Ok id) }
{
    match pattern {
        Ok(id) => Ok(id),
        Err(_refused) => Err(AllocError),
    }
}
