//! What a function of the program is.
ghost use Rattle.std.specs.Prelude.{◌≡◌, map};
ghost use Rattle.sno_value.specs.Keys.{IsKeyOf};

use sno_value::{SymId, name_key};
use std::marker::Model;

/// A function that a program defined: the label at which its calls begin, its formals and its locals.
#[derive(Drop)]
pub struct Definition {
    entry: Vec<u8>,
    // the key of the entry, by which it is told from other labels at once
    entry_key: u64,
    formals: Vec<SymId>,
    locals: Vec<SymId>,
}

impl Model for Definition {
    ghost use Rattle.std.specs.Prelude.{map};
    ghost use Rattle.sno_value.specs.Keys.{IsKeyOf};
    ghost use Rattle.sno_store.specs.Definitions.{Definition as Shown};

    ghost Value = { Shown };

    ghost view = { λ d. record {
      entry = d.entry.items;
      formals = map (λ id. id.0) d.formals.items;
      locals = map (λ id. id.0) d.locals.items;
    } };

    ghost invariant = { λ d. IsKeyOf d.entry.items d.entry_key };
}

impl Definition {
    /// A definition of these parts.
    pub(crate) fn new(entry: Vec<u8>, formals: Vec<SymId>, locals: Vec<SymId>) -> Definition
        ensures { result ≡ record {
          entry = entry.items;
          formals = map (λ id. id.0) formals.items;
          locals = map (λ id. id.0) locals.items;
        } }
    {
        let entry_key = name_key(&entry);
        Definition {
            entry,
            entry_key,
            formals,
            locals,
        }
    }

    /// The label at which calls of the function begin.
    pub fn entry(&self) -> &[u8]
        ensures { result.now ≡ self.now.entry }
    {
        self.entry.as_slice()
    }

    /// The key of that label (`sno_value::name_key`).
    #[inline(always)]
    pub fn entry_key(&self) -> u64
        ensures { IsKeyOf self.now.entry result }
    {
        self.entry_key
    }

    /// The symbols of the formals, in their order.
    pub fn formals(&self) -> &[SymId]
        ensures { map (λ id. id.0) result.now ≡ self.now.formals }
    {
        self.formals.as_slice()
    }

    /// The symbols of the locals, in their order.
    pub fn locals(&self) -> &[SymId]
        ensures { map (λ id. id.0) result.now ≡ self.now.locals }
    {
        self.locals.as_slice()
    }
}
