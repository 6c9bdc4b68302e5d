//! A string of bytes.
ghost use Rattle.std.specs.Prelude.{◌≡◌, ◌+◌, ◌++◌, ◌≤◌, [], IfOk, OnOk, OnErr, length, slice_range, take};

use std::alloc::{AllocError, Global};
use std::hash::{Hash, Hasher};
use std::marker::Model;
use std::rc::Rc;

/// The most bytes of a string that lies in its value: with their count they leave a value at 32 bytes.
pub(crate) const MOST_HERE: usize = 22;

/// A string of bytes, which contracts see as a list. A short one lies in the value itself and takes no memory; a longer
/// one is a part of a block, which it shares with its copies and with other parts.
#[derive(Debug, Drop)]
pub struct Text {
    held: Held,
}

/// Where the bytes of a string are.
#[derive(Debug, Drop)]
pub(crate) enum Held {
    /// Here, so many.
    Here(u8, [u8; MOST_HERE]),
    /// In a block, from one place up to another.
    Shared(Rc<Vec<u8>>, u32, u32),
}

impl Model for Text {
    ghost use Rattle.std.specs.Prelude.{List, ℕ};
    ghost use Rattle.sno_value.specs.inner.Text.{bytes_of, IsHeld};

    ghost Value = { List ℕ };

    ghost view = { λ t. bytes_of t.held };

    ghost invariant = { λ t. IsHeld t.held };
}

impl PartialEq for Text {
    ghost use Rattle.std.specs.Str.{bytes_eq};
    ghost use Rattle.std.specs.Cmp.{partial_equiv_from_equiv};
    ghost use Rattle.std.specs.Cmp.Lexicographic.{nat_list_eq_equiv};

    ghost eq = { bytes_eq };

    ghost laws = { partial_equiv_from_equiv nat_list_eq_equiv };

    fn eq(&self, other: &Text) -> bool {
        self.as_slice() == other.as_slice()
    }
}

impl Eq for Text {
    ghost use Rattle.std.specs.Cmp.Lexicographic.{nat_list_eq_equiv};

    ghost laws = { nat_list_eq_equiv };
}

impl Hash for Text {
    ghost use Rattle.std.proofs.Common.{rules};
    ghost use Rattle.std.specs.Cmp.Rules.{hashing};
    ghost use Rattle.std.specs.Hash as fed;

    ghost hash_input = { fed.slice fed.u8 };

    ghost respects_eq = { Prim.search (hashing, rules) };

    fn hash<H: Hasher>(&self, state: &mut H) {
        self.as_slice().hash(state);
    }
}

impl Text {
    /// The null string. It takes no memory.
    pub fn null() -> Text
        ensures { result ≡ [] }
    {
        Text {
            held: Held::Here(0, [0; MOST_HERE]),
        }
    }

    /// The string of these bytes. One of more than 4,294,967,295 bytes is want of memory.
    pub fn new(alloc: Global, bytes: Vec<u8>) -> Result<Text, AllocError>
        ensures { IfOk result (λ text. text ≡ bytes.items) }
    {
        if bytes.len() <= MOST_HERE {
            return Ok(here(&bytes, &[]));
        }
        let Ok(end) = u32::try_from(bytes.len()) else {
            return Err(AllocError);
        };
        let block = Rc::new(alloc, bytes)?;
        Ok(Text {
            held: Held::Shared(block, 0, end),
        })
    }

    /// The string of the first ones of these bytes. It takes no memory.
    #[inline(always)]
    pub(crate) fn first_of(bytes: [u8; MOST_HERE], count: usize) -> Text
        requires { count ≤ 22 }
        ensures { result ≡ take count bytes }
    {
        Text {
            held: Held::Here(count as u8, bytes),
        }
    }

    /// The string of these bytes, which are copied.
    pub fn from_slice(alloc: Global, bytes: &[u8]) -> Result<Text, AllocError>
        ensures { IfOk result (λ text. text ≡ bytes.now) }
    {
        if bytes.len() <= MOST_HERE {
            return Ok(here(bytes, &[]));
        }
        Text::joined(alloc, bytes, &[])
    }

    /// The string of these bytes and then others.
    pub fn joined(alloc: Global, first: &[u8], second: &[u8]) -> Result<Text, AllocError>
        ensures { IfOk result (λ text. text ≡ first.now ++ second.now) }
    {
        let length = first.len().saturating_add(second.len());
        if length <= MOST_HERE {
            return Ok(here(first, second));
        }
        let mut bytes = Vec::with_capacity(alloc, length)?;
        bytes.extend_from_slice(first)?;
        bytes.extend_from_slice(second)?;
        Text::new(alloc, bytes)
    }

    /// The bytes.
    pub fn as_slice(&self) -> &[u8]
        ensures { result.now ≡ self.now }
    {
        match &self.held {
            Held::Here(count, bytes) => &bytes[..*count as usize],
            Held::Shared(block, start, end) => &block.as_slice()[*start as usize..*end as usize],
        }
    }

    /// An equal string. It takes no memory; it is refused where a block has as many owners as can be counted.
    pub fn copy(&self) -> Result<Text, AllocError>
        ensures { IfOk result (λ text. text ≡ self.now) }
    {
        let held = match &self.held {
            Held::Here(count, bytes) => Held::Here(*count, *bytes),
            Held::Shared(block, start, end) => Held::Shared(block.clone()?, *start, *end),
        };
        Ok(Text { held })
    }

    /// The bytes from `start` up to `end`. One of at least an eighth of its block shares it; what is shorter is copied,
    /// so that no small string keeps a large block.
    pub fn part(&self, alloc: Global, start: usize, end: usize) -> Result<Text, AllocError>
        requires order { start ≤ end }
        requires within { end ≤ length self.now }
        ensures { IfOk result (λ text. text ≡ slice_range self.now start end) }
    {
        if let Held::Shared(block, first, _) = &self.held
            && end - start > MOST_HERE
            && end - start >= block.len() / 8
        {
            let first = *first as usize;
            return Ok(Text {
                held: Held::Shared(block.clone()?, (first + start) as u32, (first + end) as u32),
            });
        }
        Text::from_slice(alloc, &self.as_slice()[start..end])
    }

    /// Puts bytes behind the string. Where it is the only one in its block they go there, into room that doubles when it
    /// is used up; else both are copied to a new block. Where memory is refused the string stays as it was.
    pub fn append(&mut self, alloc: Global, bytes: &[u8]) -> Result<(), AllocError>
        ensures ok { OnOk result (self.new ≡ self.old ++ bytes.now) }
        ensures err { OnErr result (self.new ≡ self.old) }
    {
        if let Held::Shared(block, start, end) = &mut self.held
            && let Some(own) = Rc::get_mut(block)
            && (*start == 0 || bytes.len() <= own.capacity() - *end as usize)
        {
            *end = append_at(own, *end, bytes)?;
            return Ok(());
        }
        let longer = Text::joined(alloc, self.as_slice(), bytes)?;
        *self = longer;
        Ok(())
    }
}

/// Puts bytes into a block at a place, where all that stands behind it is cut off. The place behind them.
fn append_at(block: &mut Vec<u8>, place: u32, bytes: &[u8]) -> Result<u32, AllocError>
    requires { place ≤ length block.old.items }
    ensures ok { IfOk result (λ behind. (block.new.items ≡ take place block.old.items ++ bytes.now)
        × (behind ≡ place + length bytes.now)) }
    ensures err { OnErr result (block.new.items ≡ take place block.old.items) }
{
    block.truncate(place as usize);
    let Ok(behind) = u32::try_from(block.len().saturating_add(bytes.len())) else {
        return Err(AllocError);
    };
    block.extend_from_slice(bytes)?;
    Ok(behind)
}

/// A short string of these bytes and then others.
fn here(first: &[u8], second: &[u8]) -> Text
    requires { length first.now + length second.now ≤ 22 }
    ensures { result ≡ first.now ++ second.now }
{
    let length = first.len() + second.len();
    let mut bytes = [0; MOST_HERE];
    bytes[..first.len()].copy_from_slice(first);
    bytes[first.len()..length].copy_from_slice(second);
    Text {
        held: Held::Here(length as u8, bytes),
    }
}
