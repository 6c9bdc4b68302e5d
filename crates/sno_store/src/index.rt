//! Keys by their hashes.
ghost use Rattle.std.specs.Prelude.{◌≡◌, ◌<◌, ◌++◌, [], ◌∷◌, length, take, true, IfOk, OnErr, OnOk};
ghost use Rattle.sno_store.specs.inner.Paths.{at, end_of, IsFoundIn, IsOn, Keeps};

use crate::tree::Tree;
use std::alloc::{AllocError, Global};
use std::marker::Model;

/// The places of keys, which contracts see as the list of the keys' hashes, and the slots of the paths to them.
#[derive(Drop)]
pub(crate) struct Index {
    hashes: Vec<u64>,
    tree: Tree,
}

impl Model for Index {
    ghost use Rattle.std.specs.Prelude.{List, ℕ};

    ghost Value = { List ℕ × List ℕ };

    ghost view = { λ i. (i.hashes.items, i.tree.slots.items) };
}

impl Index {
    /// No keys. It takes no memory.
    pub(crate) fn new(alloc: Global) -> Index
        ensures { result.0 ≡ [] }
    {
        Index {
            hashes: Vec::new(alloc),
            tree: Tree::new(alloc),
        }
    }

    /// The place to which the path of a hash leads.
    #[inline(always)]
    pub(crate) fn find(&self, hash: u64) -> Option<u32>
        ensures { IsFoundIn result (at self.now.1 (end_of self.now.1 hash).slot) }
    {
        self.tree.find(hash)
    }

    /// Makes a path to the place of the key that joins next, and tells whether it leads there: none does where another
    /// key has the whole of its hash.
    pub(crate) fn settle(&mut self, hash: u64) -> Result<bool, AllocError>
        requires few { length self.old.0 < 1_000_000 }
        ensures hashes { self.new.0 ≡ self.old.0 }
        ensures keeps { Keeps self.old.0 self.old.1 self.new.1 }
        ensures leads { IfOk result (λ done. done ≡ true → IsOn self.new.1 hash (length self.old.0)) }
    {
        let place = self.hashes.len() as u32;
        let done = self.tree.insert(self.hashes.as_slice(), place, hash)?;
        Ok(done)
    }

    /// A key with a hash joins at the end.
    pub(crate) fn push(&mut self, hash: u64) -> Result<(), AllocError>
        ensures ok { OnOk result (self.new.0 ≡ self.old.0 ++ hash ∷ []) }
        ensures err { OnErr result (self.new.0 ≡ self.old.0) }
        ensures slots { self.new.1 ≡ self.old.1 }
    {
        self.hashes.push(hash)?;
        Ok(())
    }

    /// Only so many keys stay, the first ones.
    pub(crate) fn truncate(&mut self, count: usize)
        ensures hashes { self.new.0 ≡ take count self.old.0 }
        ensures slots { self.new.1 ≡ self.old.1 }
    {
        self.hashes.truncate(count);
    }
}
