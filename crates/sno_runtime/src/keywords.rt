//! The keywords.
ghost use Rattle.std.specs.Prelude.{◌≡◌, ◌≤◌, ◌<◌, Bool, true, false, Option, Some, None, IfSome, IfNone};
ghost use Rattle.sno_runtime.specs.World.{Keywords, new_keywords, listing_keywords};
ghost use Rattle.sno_runtime.specs.Builtins.{found};
ghost use Rattle.sno_runtime.specs.Keywords.{keyword_numbers, is_anchored, is_settable, with_keyword, with_limit};
ghost use Rattle.sno_runtime.specs.Keywords.{with_begun};

use std::marker::Model;

/// The keywords that a program sets, and those that count.
#[derive(Drop)]
pub struct Keywords {
    /// `&ANCHOR`: not 0 where a match may begin at the subject's first byte alone.
    anchor: i64,
    /// `&TRIM`: not 0 where a line of input loses its trailing spaces.
    trim: i64,
    /// `&STLIMIT`: the most statements that may begin.
    limit: u64,
    /// `&STCOUNT`: how many have begun.
    begun: u64,
    /// `&STNO`: the number of the one that is performed, 0 outside any.
    statement: u32,
    /// The most that `&STLIMIT` may be.
    cap: u64,
    /// The most steps of a match.
    steps: u32,
    /// Whether DATA is a function.
    has_data: bool,
}

impl Model for Keywords {
    ghost use Rattle.std.specs.Prelude.{◌≤◌};
    ghost use Rattle.sno_runtime.specs.World.{Keywords as Known};

    ghost Value = { Known };

    ghost view = { λ k. record {
      anchor = k.anchor;
      trim = k.trim;
      limit = k.limit;
      begun = k.begun;
      statement = k.statement;
      cap = k.cap;
      steps = k.steps;
      has_data = k.has_data;
    } };

    ghost invariant = { λ k. (k.begun ≤ k.cap) × (k.limit ≤ k.cap) × (k.cap ≤ 1_000_000_000_000) };
}

impl Keywords {
    /// The keywords before a first statement, of which `cap` may begin: at most 1,000,000,000,000.
    pub fn new(anchored: bool, cap: u64, steps: u32) -> Keywords
        requires { cap ≤ 1_000_000_000_000 }
        ensures { result ≡ new_keywords anchored cap steps }
    {
        Keywords {
            anchor: if anchored { 1 } else { 0 },
            trim: 0,
            limit: cap,
            begun: 0,
            statement: 0,
            cap,
            steps,
            has_data: true,
        }
    }

    /// The same for a listing, in which DATA is no function: it assigns to variables alone.
    pub fn for_listing(anchored: bool, cap: u64, steps: u32) -> Keywords
        requires { cap ≤ 1_000_000_000_000 }
        ensures { result ≡ listing_keywords anchored cap steps }
    {
        Keywords {
            has_data: false,
            ..Keywords::new(anchored, cap, steps)
        }
    }

    /// `&TRIM`.
    pub fn trim(&self) -> i64
        ensures { result ≡ self.now.trim }
    {
        self.trim
    }

    /// Whether a match may begin at the subject's first byte alone.
    pub fn anchored(&self) -> bool
        ensures { result ≡ is_anchored self.now.anchor }
    {
        self.anchor != 0
    }

    /// The most steps of a match.
    pub fn steps(&self) -> u32
        ensures { result ≡ self.now.steps }
    {
        self.steps
    }

    /// Whether DATA is a function.
    pub fn has_data(&self) -> bool
        ensures { result ≡ self.now.has_data }
    {
        self.has_data
    }

    /// The keyword with a name that is a number, where `level` calls are open.
    pub fn number(&self, name: &[u8], level: u32) -> Option<i64>
        ensures { result ≡ found name.now (keyword_numbers level self.now) }
    {
        if name == b"ANCHOR".as_slice() {
            Some(self.anchor)
        } else if name == b"TRIM".as_slice() {
            Some(self.trim)
        } else if name == b"STLIMIT".as_slice() {
            Some(self.limit as i64)
        } else if name == b"STCOUNT".as_slice() {
            Some(self.begun as i64)
        } else if name == b"STNO".as_slice() {
            Some(i64::from(self.statement))
        } else if name == b"FNCLEVEL".as_slice() {
            Some(i64::from(level))
        } else if name == b"FULLSCAN".as_slice() {
            Some(1)
        } else if name == b"MAXLNGTH".as_slice() {
            Some(1_000_000)
        } else {
            None
        }
    }

    /// Sets one that a program sets, or answers that it can't have this number, and changes nothing.
    pub fn set(&mut self, name: &[u8], number: i64) -> bool
        ensures set { result ≡ true → with_keyword name.now number self.old ≡ Some self.new }
        ensures unset { result ≡ false → (with_keyword name.now number self.old ≡ None) × (self.new ≡ self.old) }
    {
        if name == b"ANCHOR".as_slice() {
            self.anchor = number;
            return true;
        }
        if name == b"TRIM".as_slice() {
            self.trim = number;
            return true;
        }
        self.set_limit(number)
    }

    /// Sets `&STLIMIT`, to a number from 0 to the cap.
    fn set_limit(&mut self, number: i64) -> bool
        ensures set { result ≡ true → with_limit number self.old ≡ Some self.new }
        ensures unset { result ≡ false → (with_limit number self.old ≡ None) × (self.new ≡ self.old) }
    {
        if number < 0 || number as u64 > self.cap {
            return false;
        }
        self.limit = number as u64;
        true
    }

    /// `&STNO`.
    pub fn statement(&self) -> u32
        ensures { result ≡ self.now.statement }
    {
        self.statement
    }

    /// Sets `&STNO` back to the statement that goes on.
    pub fn set_statement(&mut self, statement: u32)
        ensures { self.new ≡ record self.old { statement = statement } }
    {
        self.statement = statement;
    }

    /// Begins a statement, where fewer have begun than may.
    pub fn begin(&mut self, statement: u32) -> bool
        ensures begun { result ≡ true → with_begun statement self.old ≡ Some self.new }
        ensures over { result ≡ false → (with_begun statement self.old ≡ None) × (self.new ≡ self.old) }
        ensures room { result ≡ true → self.old.begun < self.old.cap }
    {
        if self.begun >= self.limit {
            return false;
        }
        self.begun += 1;
        self.statement = statement;
        true
    }
}

/// Whether a program sets the keyword with this name.
pub fn is_settable(name: &[u8]) -> bool
    ensures { result ≡ is_settable name.now }
{
    name == b"ANCHOR".as_slice() || name == b"TRIM".as_slice() || name == b"STLIMIT".as_slice()
}
