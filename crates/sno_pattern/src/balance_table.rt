//! BAL's first end from each cursor of a subject, in a table.
ghost use Rattle.std.specs.Prelude.{◌≡◌, ◌≤◌, ◌<◌, ◌+◌, [], length, slice_get, get_or, IfOk};
ghost use Rattle.sno_pattern.specs.Pattern.{Bal};
ghost use Rattle.sno_pattern.specs.Ends.{ends};
ghost use Rattle.sno_pattern.specs.BalanceTable.{end_code, IsBalanceFrom, IsBalanceTable, IsTableIfMade};

use crate::balance::balanced_end;
use std::alloc::{AllocError, Global};
use std::marker::Model;

/// BAL's first ends in one subject. The bytes that looks without a table go through are counted, and once they are more
/// than the subject has the table is made: few looks take no memory, and many take time for a few subjects at most.
#[derive(Drop)]
pub(crate) struct Balance {
    /// Empty as long as it is not made.
    table: Vec<usize>,
    looked: usize,
    alloc: Global,
}

impl Model for Balance {
    ghost use Rattle.std.specs.Prelude.{ℕ, List};

    ghost Value = { List ℕ };

    ghost view = { λ balance. balance.table.items };
}

impl Balance {
    /// No table is made.
    pub(crate) fn new(alloc: Global) -> Balance
        ensures { result ≡ [] }
    {
        Balance {
            table: Vec::new(alloc),
            looked: 0,
            alloc,
        }
    }

    /// The table is let go, as long as it may be, and looks are counted anew.
    pub(crate) fn clear(&mut self)
        ensures { self.new ≡ [] }
    {
        if !self.table.is_empty() {
            self.table = Vec::new(self.alloc);
        }
        self.looked = 0;
    }

    /// BAL's first end from a cursor.
    pub(crate) fn first_end(&mut self, subject: &[u8], at: usize) -> Option<usize>
        requires at { at ≤ length subject.now }
        requires table { IsTableIfMade subject.now self.old }
        ensures table { IsTableIfMade subject.now self.new }
        ensures value { result ≡ slice_get (ends Bal subject.now at) 0 }
    {
        if self.table.is_empty() && self.looked > subject.len() {
            self.make_table(subject);
        }
        if !self.table.is_empty() {
            let end = table_end(&self.table, subject, at);
            return end;
        }
        let end = balanced_end(subject, at);
        let passed = end.unwrap_or(subject.len()).saturating_sub(at);
        self.looked = self.looked.saturating_add(passed);
        end
    }

    /// Makes the table. Where memory is refused looks go on without, and are counted anew.
    fn make_table(&mut self, subject: &[u8])
        requires { IsTableIfMade subject.now self.old }
        ensures { IsTableIfMade subject.now self.new }
    {
        self.looked = 0;
        if let Ok(table) = first_ends(self.alloc, subject) {
            self.table = table;
        }
    }
}

/// The end of BAL from a `(`, or 0. It hops from balanced part to balanced part up to the `)` that closes the bracket.
/// Each part belongs to one bracket, so all brackets of a subject together hop over no more parts than it has bytes.
fn closed_end(table: &[usize], subject: &[u8], at: usize) -> usize
    requires inside { at < length subject.now }
    requires bracket { get_or subject.now at 0 ≡ 40 }
    requires known { IsBalanceFrom (at + 1) subject.now table.now }
    ensures { result ≡ end_code (slice_get (ends Bal subject.now at) 0) }
{
    let mut place = at + 1;
    'parts: while place < subject.len() && subject[place] != b')' {
        let end = table[place];
        if end == 0 {
            return 0;
        }
        place = end;
    }
    if place < subject.len() { place + 1 } else { 0 }
}

/// The first end of BAL from a cursor, or 0, where the ends from all later cursors are known.
fn end_before_known(table: &[usize], subject: &[u8], at: usize) -> usize
    requires inside { at < length subject.now }
    requires known { IsBalanceFrom (at + 1) subject.now table.now }
    ensures { result ≡ end_code (slice_get (ends Bal subject.now at) 0) }
{
    let byte = subject[at];
    if byte == b'(' {
        return closed_end(table, subject, at);
    }
    if byte == b')' {
        return 0;
    }
    at + 1
}

/// BAL's first end from each cursor before the subject's end, 0 for none.
fn first_ends(alloc: Global, subject: &[u8]) -> Result<Vec<usize>, AllocError>
    ensures { IfOk result (λ table. IsBalanceTable subject.now table.items) }
{
    let mut table = vec![in alloc; 0usize; subject.len()]?;
    let mut known = subject.len();
    'cursors: while known > 0 {
        known -= 1;
        let end = end_before_known(&table, subject, known);
        table[known] = end;
    }
    Ok(table)
}

/// What a subject's table says of a cursor.
fn table_end(table: &[usize], subject: &[u8], at: usize) -> Option<usize>
    requires { IsBalanceTable subject.now table.now }
    ensures { result ≡ slice_get (ends Bal subject.now at) 0 }
{
    if at >= table.len() {
        return None;
    }
    match table[at] {
        0 => None,
        end => Some(end),
    }
}
