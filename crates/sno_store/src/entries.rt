//! Tables.
ghost use Rattle.std.specs.Prelude.{◌≡◌, ◌<◌, ◌≤◌, ◌↔◌, ◌*◌, [], ◌∷◌, ◌++◌, None, true, length, map, option_copied};
ghost use Rattle.std.specs.Prelude.{slice_get, Some, ◌⊎◌, IfNone, IfOk, IfSome, OnOk, OnErr};
ghost use Rattle.sno_store.specs.Objects.{with_value_at};
ghost use Rattle.sno_store.specs.inner.Doubles.{key_place, Stay};
ghost use Rattle.sno_store.specs.inner.Hashes.{key_hash};
ghost use Rattle.sno_store.specs.inner.Indexed.{IsAnswer, IsAt, IsNoDouble, keys_of};
ghost use Rattle.sno_store.specs.inner.Paths.{IsOn, Keeps};
ghost use Rattle.sno_store.specs.inner.Seen.{IsEntry};
ghost use Rattle.sno_store.specs.Stored.{is_null, is_key, stored_notions};
ghost use Rattle.sno_store.specs.Tables.{entry_place, filled, rows};

use crate::doubles::KeyDoubles;
use crate::error::StoreError;
use crate::hash::key_hash;
use crate::index::Index;
use sno_value::Value;
use std::alloc::{AllocError, Global};
use std::marker::Model;

/// How many entries a table has at most (this profile).
const MOST_ENTRIES: usize = 1_000_000;

/// No entry has this number.
const NOWHERE: u32 = u32::MAX;

/// The entries of a table, in the order in which their keys joined.
#[derive(Drop)]
pub(crate) struct Entries {
    entries: Vec<(Value, Value)>,
    index: Index,
    doubles: KeyDoubles,
    /// The entry that was named last and has got no value since, which is likely to be asked for next, as in
    /// `T<K> = T<K> + 1`.
    named: u32,
}

impl Model for Entries {
    ghost use Rattle.std.specs.Prelude.{List, ◌≡◌, ◌≤◌, length, map};
    ghost use Rattle.sno_value.specs.declared.value.Value.{Value as Stored};
    ghost use Rattle.sno_store.specs.inner.Doubles.{key_place};
    ghost use Rattle.sno_store.specs.inner.Hashes.{key_hash};
    ghost use Rattle.sno_store.specs.inner.Indexed.{AreDistinct, AreFound, keys_of};

    ghost Value = { List (Stored × Stored) };

    ghost view = { λ t. t.entries.items };

    ghost invariant = { λ t. (length t.entries.items ≤ 1_000_000) × (t.index.0 ≡ map key_hash (keys_of t.entries.items))
        × AreDistinct (keys_of t.entries.items)
        × AreFound (key_place t.doubles) key_hash t.index.1 (keys_of t.entries.items) };
}

impl Entries {
    /// No entries.
    pub(crate) fn boxed(alloc: Global) -> Result<Box<Entries>, AllocError>
        ensures { IfOk result (λ entries. entries.value ≡ []) }
    {
        let entries = Entries {
            entries: Vec::new(alloc),
            index: Index::new(alloc),
            doubles: KeyDoubles::new(alloc),
            named: NOWHERE,
        };
        let entries = Box::new(alloc, entries)?;
        Ok(entries)
    }

    /// How many entries there are.
    pub(crate) fn len(&self) -> usize
        ensures number { result ≡ length self.now }
        ensures few { result ≤ 1_000_000 }
    {
        self.entries.len()
    }

    /// The entry with a key.
    #[inline(never)]
    pub(crate) fn find(&self, key: &Value) -> Option<u32>
        requires { is_key key.now ≡ true }
        ensures { result ≡ entry_place stored_notions key.now self.now }
    {
        if is_at(&self.entries, self.named, key) {
            return Some(self.named);
        }
        self.find_by(key, key_hash(key))
    }

    /// The entry with a key, which has this hash.
    #[inline(always)]
    fn find_by(&self, key: &Value, hash: u64) -> Option<u32>
        requires key { is_key key.now ≡ true }
        requires hash { hash ≡ key_hash key.now }
        ensures { result ≡ entry_place stored_notions key.now self.now }
    {
        if let Some(place) = self.index.find(hash) {
            if is_at(&self.entries, place, key) {
                return Some(place);
            }
        }
        let place = double(&self.entries, &self.doubles, key)?;
        Some(place)
    }

    /// A key that has no entry gets one, which is the last. The key has this hash.
    fn push(&mut self, key: Value, hash: u64, value: Value) -> Result<u32, AllocError>
        requires key { is_key key ≡ true }
        requires hash { hash ≡ key_hash key }
        requires new { entry_place stored_notions key self.old ≡ None }
        requires room { length self.old < 1_000_000 }
        ensures place { IfOk result (λ place. place ≡ length self.old) }
        ensures ok { OnOk result (self.new ≡ self.old ++ (key, value) ∷ []) }
        ensures err { OnErr result (self.new ≡ self.old) }
    {
        let place = self.entries.len() as u32;
        self.entries.reserve(1)?;
        settle(&mut self.index, &mut self.doubles, &key, hash, place)?;
        self.index.push(hash)?;
        self.entries.push((key, value))?;
        Ok(place)
    }

    /// The value of an entry, if there is one with this number.
    pub(crate) fn get(&self, entry: u32) -> Option<&Value>
        ensures { option_copied result ≡ slice_get (map (λ e. e.1) self.now) entry }
    {
        let (_key, value) = self.entries.get(entry as usize)?;
        Some(value)
    }

    /// An entry is given a value. Nothing changes where there is none with this number.
    pub(crate) fn set(&mut self, entry: u32, value: Value)
        ensures { self.new ≡ with_value_at entry value self.old }
    {
        let place = entry as usize;
        if place < self.entries.len() {
            self.named = NOWHERE;
            self.entries[place].1 = value;
        }
    }

    /// How many entries have a value that isn't null.
    pub(crate) fn filled(&self) -> usize
        ensures number { result ≡ length (filled stored_notions self.now) }
        ensures few { result ≤ 1_000_000 }
    {
        self.entries
            .iter()
            .filter(|entry| !is_null(&entry.1))
            .count()
    }

    /// The keys and values of the entries whose value isn't null, in turn.
    pub(crate) fn rows(&self, alloc: Global) -> Result<Vec<Value>, AllocError>
        ensures { IfOk result (λ values. values.items ≡ rows (filled stored_notions self.now)) }
    {
        let mut values = Vec::new(alloc);
        'entries: for (key, value) in self.entries.iter() {
            if !is_null(value) {
                values.push(key.copy()?)?;
                values.push(value.copy()?)?;
            }
        }
        Ok(values)
    }
}

/// The key that joins next is found by the path of its hash, or else among the doubles.
fn settle(
    index: &mut Index,
    doubles: &mut KeyDoubles,
    key: &Value,
    hash: u64,
    place: u32,
) -> Result<(), AllocError>
    requires place { place ≡ length index.old.0 }
    requires few { place < 1_000_000 }
    ensures hashes { index.new.0 ≡ index.old.0 }
    ensures keeps { Keeps index.old.0 index.old.1 index.new.1 }
    ensures others { Stay key.now (key_place doubles.old) (key_place doubles.new) }
    ensures leads { OnOk result (IsOn index.new.1 hash place ⊎ (key_place doubles.new key.now ≡ Some place)) }
{
    if !index.settle(hash)? {
        doubles.insert(key, place)?;
    }
    Ok(())
}

/// The place of a key among the doubles.
fn double(entries: &[(Value, Value)], doubles: &KeyDoubles, key: &Value) -> Option<u32>
    requires { is_key key.now ≡ true }
    ensures some { IfSome result (λ place. IsAt (keys_of entries.now) place key.now) }
    ensures none { IfNone result (IsNoDouble (key_place doubles.now) (keys_of entries.now) key.now) }
{
    if doubles.is_empty() {
        return None;
    }
    let place = doubles.find(key)?;
    if is_at(entries, place, key) {
        return Some(place);
    }
    None
}

/// Whether a key has this place.
fn is_at(entries: &[(Value, Value)], place: u32, key: &Value) -> bool
    requires { is_key key.now ≡ true }
    ensures { IsAnswer (keys_of entries.now) place key.now result }
{
    match entries.get(place as usize) {
        Some((own, _value)) => key == own,
        None => false,
    }
}

/// The entry with a key, which goes last with null where there is none.
pub(crate) fn entry_in(entries: &mut Entries, key: Value) -> Result<u32, StoreError>
    requires { is_key key ≡ true }
    ensures { IsEntry key entries.old entries.new result }
{
    let hash = key_hash(&key);
    if let Some(place) = entries.find_by(&key, hash) {
        entries.named = place;
        return Ok(place);
    }
    if entries.len() == MOST_ENTRIES {
        return Err(StoreError::Full);
    }
    let place = entries.push(key, hash, Value::null())?;
    entries.named = place;
    Ok(place)
}

/// Whether a value may be a key: a pattern and an expression may not.
pub(crate) fn is_key(value: &Value) -> bool
    ensures { result ≡ is_key value.now }
{
    !matches!(value, Value::Pat(_) | Value::Expr(_))
}

/// Whether a value is the null string.
fn is_null(value: &Value) -> bool
    ensures { result ≡ is_null value.now }
{
    match value {
        Value::Str(text) => text.as_slice().is_empty(),
        _ => false,
    }
}
