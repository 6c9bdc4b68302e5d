//! Sets of bytes.
ghost use Rattle.std.specs.Prelude.{◌≡◌, ◌==◌, ℕ, Bool, false, not, ◌||◌, position, IfSome, IsTrue};
ghost use Rattle.sno_pattern.specs.Ends.{is_in};
ghost use Rattle.sno_pattern.specs.Sets.{set_of};
ghost use Rattle.sno_pattern.specs.inner.Lanes.{passes};
ghost use Rattle.sno_pattern.specs.Masks.{members};
ghost use Rattle.sno_pattern.specs.inner.Present.{NonePasses};

use crate::lanes;
use std::marker::Model;

/// How many bytes are looked up one by one before lanes are made ready.
const NEAR: usize = 8;

/// An odd number of which a multiple has a bit of each factor in its upper half.
const SPREAD: u64 = 0x9E37_79B9_7F4A_7C15;

/// Fewer bytes than this are looked up one by one.
pub(crate) const FEW: usize = 32;

/// A set of bytes, as a mask of 256 bits. Contracts see its members in rising order.
#[derive(Drop)]
pub struct ByteSet {
    words: [u64; 4],
    /// The members where they are at most eight, filled up with one of them.
    eight: Option<[u8; 8]>,
}

impl Model for ByteSet {
    ghost use Rattle.std.specs.Prelude.{List, ℕ, IfSome, ◌≡◌};
    ghost use Rattle.sno_pattern.specs.Ends.{is_in};
    ghost use Rattle.sno_pattern.specs.Masks.{members};

    ghost Value = { List ℕ };

    ghost view = { λ s. members s.words };

    ghost invariant = { λ s. IfSome s.eight (λ eight. (b : ℕ) → is_in eight b ≡ is_in (members s.words) b) };
}

impl ByteSet {
    /// The bytes that stand in a list.
    pub(crate) fn of(bytes: &[u8]) -> ByteSet
        ensures { result ≡ set_of bytes.now }
    {
        let mut words = [0u64; 4];
        for byte in bytes {
            words[(byte / 64) as usize] |= 1 << (byte % 64);
        }
        let eight = eight_of(bytes);
        ByteSet { words, eight }
    }

    /// No byte.
    pub fn none() -> ByteSet
        ensures { (b : ℕ) → is_in result b ≡ false }
    {
        ByteSet {
            words: [0; 4],
            eight: None,
        }
    }

    /// The bytes whose bits are set in four words.
    pub(crate) fn with_words(words: [u64; 4]) -> ByteSet
        ensures { result ≡ members words }
    {
        ByteSet { words, eight: None }
    }

    /// Its bits, in four words.
    pub(crate) fn words(&self) -> [u64; 4]
        ensures { members result ≡ self.now }
    {
        self.words
    }

    /// Whether another set has the same bytes.
    pub(crate) fn is_same(&self, other: &ByteSet) -> bool
        ensures { IsTrue result → self.now ≡ other.now }
    {
        self.words == other.words
    }

    /// Whether its bits are those of four words.
    pub(crate) fn has_words(&self, words: [u64; 4]) -> bool
        ensures { IsTrue result → self.now ≡ members words }
    {
        self.words == words
    }

    /// A number for the set, below 2^32, by which few different sets are told to be the same.
    pub(crate) fn hash(&self) -> u32 {
        let [a, b, c, d] = self.words;
        let mixed = mix(mix(mix(mix(a) ^ b) ^ c) ^ d);
        (mixed >> 32) as u32
    }

    /// The byte joins the set.
    pub(crate) fn add(&mut self, byte: u8)
        ensures { (b : ℕ) → is_in self.new b ≡ (is_in self.old b || (byte == b)) }
    {
        self.words[(byte / 64) as usize] |= 1 << (byte % 64);
        self.eight = None;
    }

    /// The bytes of another set join this one.
    pub(crate) fn add_all(&mut self, other: &ByteSet)
        ensures { (b : ℕ) → is_in self.new b ≡ (is_in self.old b || is_in other.now b) }
    {
        self.words = [
            self.words[0] | other.words[0],
            self.words[1] | other.words[1],
            self.words[2] | other.words[2],
            self.words[3] | other.words[3],
        ];
        self.eight = None;
    }

    #[inline(always)]
    pub(crate) fn contains(&self, byte: u8) -> bool
        ensures { result ≡ is_in self.now byte }
    {
        self.words[(byte / 64) as usize] >> (byte % 64) & 1 == 1
    }

    /// Whether no byte of a mask is in the set, or each is where `inside` is false.
    #[inline(always)]
    pub(crate) fn passes_over(&self, mask: &[u64; 4], inside: bool) -> bool
        ensures { IsTrue result → NonePasses inside self.now mask.now }
    {
        let common = [
            mask[0] & self.words[0],
            mask[1] & self.words[1],
            mask[2] & self.words[2],
            mask[3] & self.words[3],
        ];
        if inside {
            common == [0; 4]
        } else {
            common == *mask
        }
    }

    /// The first place whose byte is in the set.
    pub(crate) fn first_in(&self, bytes: &[u8]) -> Option<usize>
        ensures { result ≡ position (is_in self.now) bytes.now }
    {
        let place = self.first_that_passes(bytes, true);
        place
    }

    /// The first place whose byte is not in the set.
    pub(crate) fn first_not_in(&self, bytes: &[u8]) -> Option<usize>
        ensures { result ≡ position (λ byte. not (is_in self.now byte)) bytes.now }
    {
        let place = self.first_that_passes(bytes, false);
        place
    }

    /// The first place whose byte is in the set, or is not where `inside` is false. What is near is found without
    /// lanes, which take longer to make ready than a short run to look through.
    #[inline(always)]
    pub(crate) fn first_that_passes(&self, bytes: &[u8], inside: bool) -> Option<usize>
        ensures { result ≡ position (passes inside self.now) bytes.now }
    {
        let near = bytes.len().min(NEAR);
        if let Some(place) = self.first_by_mask(&bytes[..near], inside) {
            return Some(place);
        }
        match self.first_far(&bytes[near..], inside) {
            Some(before) => Some(near + before),
            None => None,
        }
    }

    /// The same by lanes, where the set has few bytes and there are many to look at.
    #[inline(always)]
    fn first_far(&self, bytes: &[u8], inside: bool) -> Option<usize>
        ensures { result ≡ position (passes inside self.now) bytes.now }
    {
        if bytes.len() < FEW {
            return self.first_by_mask(bytes, inside);
        }
        match &self.eight {
            Some(eight) if inside => lanes::first_in(bytes, eight),
            Some(eight) => lanes::first_not_in(bytes, eight),
            None => self.first_by_mask(bytes, inside),
        }
    }

    /// The same by a look at each byte.
    #[inline(always)]
    fn first_by_mask(&self, bytes: &[u8], inside: bool) -> Option<usize>
        ensures { result ≡ position (passes inside self.now) bytes.now }
    {
        if inside {
            bytes.iter().position(|byte| self.contains(*byte))
        } else {
            bytes.iter().position(|byte| !self.contains(*byte))
        }
    }
}

/// A number of which each bit depends on many of the word's. Different words have different ones.
fn mix(word: u64) -> u64 {
    let product = word.wrapping_mul(SPREAD);
    product ^ product >> 32
}

/// The different bytes of a list, if they are at most eight, filled up with one of them.
fn eight_of(bytes: &[u8]) -> Option<[u8; 8]>
    ensures { IfSome result (λ eight. (b : ℕ) → is_in eight b ≡ is_in bytes.now b) }
{
    if bytes.is_empty() {
        return None;
    }
    let mut eight = [bytes[0]; 8];
    let mut count = 0;
    for byte in bytes {
        if !eight[..count].contains(byte) {
            if count == 8 {
                return None;
            }
            eight[count] = *byte;
            count += 1;
        }
    }
    Some(eight)
}
