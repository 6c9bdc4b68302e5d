//! Which numbers lie on the paths of hashes.
ghost use Rattle.std.specs.Prelude.{◌≡◌, ◌<◌, ◌≤◌, [], length, true, IfOk};
ghost use Rattle.sno_store.specs.inner.Paths.{at, end_of, IsFoundIn, IsLive, IsLiveAnswer, IsOn, Keeps};

use std::alloc::{AllocError, Global};
use std::vec::Vec;

/// No number is as large, and each larger one in a slot tells where a node begins.
const MOST: u32 = 1_000_000;

/// How many slots a node has: one for each of the next four bits of a hash.
const WIDTH: usize = 16;

/// How many nodes a path goes through at most.
const LEVELS: u32 = 16;

/// A node of slots for each step that two numbers or more share. A hash gives the slots of its path by four bits each,
/// the lowest first, and the path ends at a slot that leads no further: it is empty or has a number.
#[derive(Drop)]
pub(crate) struct Tree {
    // 0 in an empty one, a number and 1, or where a node begins, and MOST
    slots: Vec<u32>,
}

/// The slot at which a path ends, what of the hash is behind it, and how many levels are.
#[derive(Clone, Copy)]
pub(crate) struct End {
    slot: usize,
    rest: u64,
    left: u32,
}

impl Tree {
    /// No numbers. It takes no memory.
    pub(crate) fn new(alloc: Global) -> Tree
        ensures { result.slots.items ≡ [] }
    {
        Tree {
            slots: Vec::new(alloc),
        }
    }

    /// The number on the path of a hash, if one is.
    #[inline(always)]
    pub(crate) fn find(&self, hash: u64) -> Option<u32>
        ensures { IsFoundIn result (at self.now.slots.items (end_of self.now.slots.items hash).slot) }
    {
        let held = self.held(hash);
        if held == 0 || held > MOST {
            return None;
        }
        Some(held - 1)
    }

    /// What the slot has at which the path of a hash ends.
    #[inline(always)]
    fn held(&self, hash: u64) -> u32
        ensures { result ≡ at self.now.slots.items (end_of self.now.slots.items hash).slot }
    {
        let mut node = 0;
        let mut rest = hash;
        let mut left = LEVELS;
        'levels: while left > 0 {
            let held = self.at(node as usize + (rest % 16) as usize);
            if held <= MOST {
                return held;
            }
            node = held - MOST;
            rest /= 16;
            left -= 1;
        }
        self.at(0)
    }

    /// Where the path of a hash ends.
    fn end(&self, hash: u64) -> End
        ensures { result ≡ end_of self.now.slots.items hash }
    {
        let mut node = 0;
        let mut rest = hash;
        let mut left = LEVELS;
        'levels: while left > 0 {
            let slot = node as usize + (rest % 16) as usize;
            let held = self.at(slot);
            rest /= 16;
            left -= 1;
            if held <= MOST {
                return End { slot, rest, left };
            }
            node = held - MOST;
        }
        End {
            slot: 0,
            rest: 0,
            left: 0,
        }
    }

    /// What a slot has.
    #[inline(always)]
    fn at(&self, slot: usize) -> u32
        ensures { result ≡ at self.now.slots.items slot }
    {
        match self.slots.get(slot) {
            Some(held) => *held,
            None => 0,
        }
    }

    /// A number joins at the end of the path of its hash, unless another number has the whole of that.
    pub(crate) fn insert(
        &mut self,
        hashes: &[u64],
        number: u32,
        hash: u64,
    ) -> Result<bool, AllocError>
        requires few { number < 1_000_000 }
        ensures keeps { Keeps hashes.now self.old.slots.items self.new.slots.items }
        ensures leads { IfOk result (λ done. done ≡ true → IsOn self.new.slots.items hash number) }
    {
        if self.slots.is_empty() {
            self.slots.resize(WIDTH, 0)?;
        }
        let mut tries = LEVELS;
        'tries: while tries > 0 {
            if self.settle(hashes, number, hash)? {
                return Ok(true);
            }
            tries -= 1;
        }
        Ok(false)
    }

    /// A number goes to the end of its path, if that is free, or else what is there goes one node further.
    fn settle(&mut self, hashes: &[u64], number: u32, hash: u64) -> Result<bool, AllocError>
        requires few { number < 1_000_000 }
        ensures keeps { Keeps hashes.now self.old.slots.items self.new.slots.items }
        ensures leads { IfOk result (λ done. done ≡ true → IsOn self.new.slots.items hash number) }
    {
        let slot = self.end(hash).slot;
        let held = self.at(slot);
        if held > MOST || slot >= self.slots.len() {
            return Ok(false);
        }
        if self.is_live(hashes, slot, held) {
            self.split(hashes, slot, held)?;
            return Ok(false);
        }
        self.slots[slot] = number + 1;
        Ok(true)
    }

    /// Whether what a slot has is a number that is found there.
    fn is_live(&self, hashes: &[u64], slot: usize, held: u32) -> bool
        ensures { IsLiveAnswer self.now.slots.items hashes.now slot held result }
    {
        if held == 0 || held as usize > hashes.len() {
            return false;
        }
        self.end(hashes[held as usize - 1]).slot == slot
    }

    /// The number that a slot has goes to a new node, which the slot leads to.
    fn split(&mut self, hashes: &[u64], slot: usize, held: u32) -> Result<(), AllocError>
        requires live { IsLive self.old.slots.items hashes.now slot held }
        requires here { at self.old.slots.items slot ≡ held }
        requires few { held ≤ 1_000_000 }
        requires within { slot < length self.old.slots.items }
        ensures { Keeps hashes.now self.old.slots.items self.new.slots.items }
    {
        let end = self.end(hashes[held as usize - 1]);
        if end.left == 0 {
            return Ok(());
        }
        let node = self.slots.len();
        let Ok(link) = u32::try_from(node as u64 + MOST as u64) else {
            return Err(AllocError);
        };
        self.slots.resize(node + WIDTH, 0)?;
        self.slots[node + (end.rest % 16) as usize] = held;
        self.slots[slot] = link;
        Ok(())
    }
}
