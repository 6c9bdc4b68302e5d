//! Names, and how often each was met.
use crate::words::word_at;
use std::alloc::{AllocError, Global};
use std::collections::BTreeMap;

/// Names with how often each was added.
#[derive(Drop)]
pub struct Names {
    alloc: Global,
    counts: BTreeMap<Vec<u8>, u32>,
}

impl Names {
    /// No names.
    pub fn new(alloc: Global) -> Names {
        Names {
            alloc,
            counts: BTreeMap::new(alloc),
        }
    }

    /// Whether there are none.
    pub fn is_empty(&self) -> bool {
        self.counts.is_empty()
    }

    /// How often a name was added.
    pub fn count(&self, name: &[u8]) -> u32 {
        match self.counts.get(name) {
            Some(count) => *count,
            None => 0,
        }
    }

    /// Adds a name once more.
    pub fn add(&mut self, name: &[u8]) -> Result<(), AllocError> {
        let count = self.count(name).saturating_add(1);
        let name = name.to_vec(self.alloc)?;
        self.counts.insert(name, count)?;
        Ok(())
    }

    /// Adds each word of a text.
    pub fn add_words(&mut self, text: &[u8]) -> Result<(), AllocError> {
        for at in 0..text.len() {
            if let Some(word) = word_at(text, at) {
                self.add(word)?;
            }
        }
        Ok(())
    }
}

/// Names that are found by others that differ from them in large and small letters alone.
#[derive(Drop)]
pub struct Folded {
    alloc: Global,
    names: BTreeMap<Vec<u8>, Vec<u8>>,
}

impl Folded {
    /// No names.
    pub fn new(alloc: Global) -> Folded {
        Folded {
            alloc,
            names: BTreeMap::new(alloc),
        }
    }

    /// Adds a name. Of those that differ in letters alone the last one stays.
    pub fn add(&mut self, name: &[u8]) -> Result<(), AllocError> {
        let key = capitals_of(self.alloc, name)?;
        let name = name.to_vec(self.alloc)?;
        self.names.insert(key, name)?;
        Ok(())
    }

    /// Adds each of some names.
    pub fn add_all(&mut self, names: &Names) -> Result<(), AllocError> {
        for (name, _count) in names.counts.iter() {
            self.add(name.as_slice())?;
        }
        Ok(())
    }

    /// Another name that differs from this one in letters alone.
    pub fn other(&self, name: &[u8]) -> Result<Option<&[u8]>, AllocError> {
        let key = capitals_of(self.alloc, name)?;
        match self.names.get(key.as_slice()) {
            Some(other) if other.as_slice() != name => Ok(Some(other.as_slice())),
            _ => Ok(None),
        }
    }
}

/// A name in large letters.
fn capitals_of(alloc: Global, name: &[u8]) -> Result<Vec<u8>, AllocError> {
    let mut capitals = Vec::new(alloc);
    for byte in name {
        capitals.push(byte.to_ascii_uppercase())?;
    }
    Ok(capitals)
}
