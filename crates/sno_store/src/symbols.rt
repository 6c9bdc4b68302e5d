//! The texts of the symbols, by number and by text.
ghost use Rattle.std.specs.Prelude.{◌≡◌, ◌+◌, ◌||◌, ◌≤◌, ◌<◌, [], ◌∷◌, ◌++◌, length, take, false, slice_index_or};
ghost use Rattle.std.specs.Prelude.{option_map, true, Some, ◌⊎◌, IfNone, IfOk, IfSome, OnOk, OnErr};
ghost use Rattle.std.specs.List.{list_any, position};
ghost use Rattle.std.specs.Str.{bytes_eq};
ghost use Rattle.sno_value.specs.Keys.{name_of};
ghost use Rattle.sno_store.specs.Store.{is_symbol};
ghost use Rattle.sno_store.specs.Definitions.{listed, names, with_names};
ghost use Rattle.sno_store.specs.inner.Doubles.{text_place, Stay};
ghost use Rattle.sno_store.specs.inner.Indexed.{IsAnswer, IsAt, IsNoDouble};
ghost use Rattle.sno_store.specs.inner.Paths.{IsOn, Keeps};
ghost use Rattle.sno_store.specs.inner.Seen.{prototype_seen};
ghost use Rattle.sno_store.specs.Symbols.{found, HasKey};

use crate::doubles::TextDoubles;
use crate::function_prototype::{FunctionPrototype, count, is_among};
use crate::hash::text_hash;
use crate::index::Index;
use sno_value::{SymId, Text, name_key};
use std::alloc::{AllocError, Global};
use std::marker::Model;

/// How many symbols a store holds at most (this profile).
pub(crate) const MOST_SYMBOLS: usize = 1_000_000;

/// Of how many symbols the keys are kept: a program's own names are the first ones.
const MOST_KEYS: usize = 4096;

/// The number of INPUT among the symbols.
const INPUT: u32 = 7;

/// What is kept of a symbol without a key. It is no name's key.
const NO_KEY: u64 = 1;

/// The symbols, which contracts see as the list of their texts.
#[derive(Drop)]
pub(crate) struct Symbols {
    alloc: Global,
    texts: Vec<Text>,
    index: Index,
    doubles: TextDoubles,
    // the keys of the first of them
    keys: Vec<u64>,
}

impl Model for Symbols {
    ghost use Rattle.std.specs.Prelude.{List, ℕ, ◌≡◌, ◌≤◌, length, map};
    ghost use Rattle.sno_store.specs.inner.Doubles.{text_place};
    ghost use Rattle.sno_store.specs.inner.Hashes.{text_hash};
    ghost use Rattle.sno_store.specs.inner.Indexed.{AreDistinct, AreFound};
    ghost use Rattle.sno_store.specs.inner.Symbols.{AreKeysOf};

    ghost Value = { List (List ℕ) };

    ghost view = { λ s. s.texts.items };

    ghost invariant = { λ s. (length s.texts.items ≤ 1_000_000) × AreKeysOf s.texts.items s.keys.items
        × (length s.keys.items ≤ length s.texts.items) × (s.index.0 ≡ map text_hash s.texts.items) × AreDistinct s.texts.items
        × AreFound (text_place s.doubles) text_hash s.index.1 s.texts.items };
}

impl Symbols {
    /// No symbols. It takes no memory.
    pub(crate) fn new(alloc: Global) -> Symbols
        ensures { result ≡ [] }
    {
        Symbols {
            alloc,
            texts: Vec::new(alloc),
            index: Index::new(alloc),
            doubles: TextDoubles::new(alloc),
            keys: Vec::new(alloc),
        }
    }

    /// How many symbols there are.
    pub(crate) fn len(&self) -> usize
        ensures number { result ≡ length self.now }
        ensures few { result ≤ 1_000_000 }
    {
        self.texts.len()
    }

    /// The number of a text, if it is a symbol.
    pub(crate) fn find(&self, name: &[u8]) -> Option<SymId>
        ensures { option_map (λ id. id.0) result ≡ found name.now self.now }
    {
        let place = self.place_of(name)?;
        Some(SymId(place))
    }

    /// The place of a text.
    fn place_of(&self, name: &[u8]) -> Option<u32>
        ensures { result ≡ position (bytes_eq name.now) self.now }
    {
        if let Some(place) = self.index.find(text_hash(name)) {
            if is_at(&self.texts, place, name) {
                return Some(place);
            }
        }
        let place = double(&self.texts, &self.doubles, name)?;
        Some(place)
    }

    /// How many symbols there would be, had the names of a prototype joined them.
    pub(crate) fn len_with(&self, parts: FunctionPrototype) -> usize
        requires few { length (names (prototype_seen parts)) ≤ 100 }
        ensures { result ≡ length (with_names (names (prototype_seen parts.entry)) self.now) }
    {
        let function = if self.has(parts.function) { 0 } else { 1 };
        let formals = self.count_new(parts.function, b"", parts.formals);
        let locals = self.count_new(parts.function, parts.formals, parts.locals);
        self.len() + function + formals + locals
    }

    /// How many names of a list are no symbols, nor the first name, nor in the list before, each counted once.
    fn count_new(&self, first: &[u8], before: &[u8], list: &[u8]) -> usize
        requires few { length (listed list.now) ≤ 100 }
        ensures number { length (with_names (listed list.now) (with_names (first.now ∷ listed before.now) self.now))
            ≡ length (with_names (first.now ∷ listed before.now) self.now) + result }
        ensures few { result ≤ length (listed list.now) }
    {
        if list.is_empty() {
            return 0;
        }
        let mut new = 0;
        let mut place = 0;
        'names: for name in list.split(|byte| *byte == b',') {
            if !self.is_counted(name, first, before, list, place) {
                new += 1;
            }
            place += 1;
        }
        new
    }

    /// Whether a name of a list, behind so many others of it, would be a symbol, had these, a name and those of the
    /// list before joined.
    fn is_counted(
        &self,
        name: &[u8],
        first: &[u8],
        before: &[u8],
        list: &[u8],
        place: usize,
    ) -> bool
        ensures { result ≡ (is_symbol name.now (with_names (first.now ∷ listed before.now) self.now)
            || list_any (bytes_eq name.now) (take place (listed list.now))) }
    {
        self.has_with(name, first, before) || is_among(name, list, place)
    }

    /// Whether a name would be a symbol, had another name and those of a list joined.
    fn has_with(&self, name: &[u8], first: &[u8], list: &[u8]) -> bool
        ensures { result ≡ is_symbol name.now (with_names (first.now ∷ listed list.now) self.now) }
    {
        if self.has(name) {
            return true;
        }
        if name == first {
            return true;
        }
        is_among(name, list, count(list))
    }

    /// Whether a name is a symbol.
    fn has(&self, name: &[u8]) -> bool
        ensures { result ≡ is_symbol name.now self.now }
    {
        self.find(name).is_some()
    }

    /// A text that is no symbol joins them at the end.
    pub(crate) fn push(&mut self, name: &[u8]) -> Result<SymId, AllocError>
        requires new { is_symbol name.now self.old ≡ false }
        requires room { length self.old < 1_000_000 }
        ensures id { IfOk result (λ id. id.0 ≡ length self.old) }
        ensures ok { OnOk result (self.new ≡ self.old ++ name.now ∷ []) }
        ensures err { OnErr result (self.new ≡ self.old) }
    {
        let id = SymId(self.texts.len() as u32);
        let text = Text::from_slice(self.alloc, name)?;
        self.texts.reserve(1)?;
        let hash = text_hash(name);
        settle(&mut self.index, &mut self.doubles, name, hash, id.0)?;
        self.index.push(hash)?;
        self.texts.push(text)?;
        self.keep_key(id, name);
        Ok(id)
    }

    /// Keeps the key of the symbol that joined last, where those of all others are kept.
    fn keep_key(&mut self, symbol: SymId, name: &[u8])
        requires { slice_index_or self.old symbol.0 [] ≡ name.now }
        ensures { self.new ≡ self.old }
    {
        let place = symbol.0 as usize;
        if self.keys.len() == place && place < self.texts.len() && place < MOST_KEYS {
            let _kept = self.keys.push(kept_key(symbol, name));
        }
    }

    /// Whether a symbol is known to be the name with this key.
    #[inline(always)]
    pub(crate) fn has_key(&self, symbol: SymId, key: u64) -> bool
        ensures key { result ≡ true → HasKey symbol.0 key self.now }
        ensures within { result ≡ true → symbol.0 < length self.now }
    {
        match self.keys.get(symbol.0 as usize) {
            Some(kept) => *kept == key,
            None => false,
        }
    }

    /// Only so many symbols stay, the first ones.
    pub(crate) fn truncate(&mut self, count: usize)
        ensures { self.new ≡ take count self.old }
    {
        self.texts.truncate(count);
        self.index.truncate(count);
        self.keys.truncate(count);
    }

    /// The text of a symbol, which is empty where there is none with this number.
    pub(crate) fn text(&self, symbol: SymId) -> &[u8]
        ensures { result.now ≡ slice_index_or self.now symbol.0 [] }
    {
        match self.texts.get(symbol.0 as usize) {
            Some(text) => text.as_slice(),
            None => b"",
        }
    }
}

/// The key that is kept of a symbol. By none is INPUT found, which is read from the reader.
fn kept_key(symbol: SymId, name: &[u8]) -> u64
    ensures some { 1 ≤ result }
    ensures known { 1 ≤ length (name_of result) → (name.now ≡ name_of result) × (symbol.0 ≡ 7 → ⊥) }
{
    let key = name_key(name);
    if key == 0 || symbol.0 == INPUT {
        NO_KEY
    } else {
        key
    }
}

/// The text that joins next is found by the path of its hash, or else among the doubles.
fn settle(
    index: &mut Index,
    doubles: &mut TextDoubles,
    name: &[u8],
    hash: u64,
    place: u32,
) -> Result<(), AllocError>
    requires place { place ≡ length index.old.0 }
    requires few { place < 1_000_000 }
    ensures hashes { index.new.0 ≡ index.old.0 }
    ensures keeps { Keeps index.old.0 index.old.1 index.new.1 }
    ensures others { Stay name.now (text_place doubles.old) (text_place doubles.new) }
    ensures leads { OnOk result (IsOn index.new.1 hash place ⊎ (text_place doubles.new name.now ≡ Some place)) }
{
    if !index.settle(hash)? {
        doubles.insert(name, place)?;
    }
    Ok(())
}

/// The place of a text among the doubles.
fn double(texts: &[Text], doubles: &TextDoubles, name: &[u8]) -> Option<u32>
    ensures some { IfSome result (λ place. IsAt texts.now place name.now) }
    ensures none { IfNone result (IsNoDouble (text_place doubles.now) texts.now name.now) }
{
    if doubles.is_empty() {
        return None;
    }
    let place = doubles.find(name)?;
    if is_at(texts, place, name) {
        return Some(place);
    }
    None
}

/// Whether a text has this place.
fn is_at(texts: &[Text], place: u32, name: &[u8]) -> bool
    ensures { IsAnswer texts.now place name.now result }
{
    match texts.get(place as usize) {
        Some(text) => text.as_slice() == name,
        None => false,
    }
}
