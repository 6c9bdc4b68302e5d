//! The hashes of names and of keys.
ghost use Rattle.std.specs.Prelude.{◌≡◌};
ghost use Rattle.sno_store.specs.inner.Hashes.{key_hash, name_hash, pair_hash, text_hash};

use sno_value::{Name, Value};
use std::hash::{DefaultHasher, Hasher};

/// The hash of a text.
#[inline(always)]
pub(crate) fn text_hash(bytes: &[u8]) -> u64
    ensures { result ≡ text_hash bytes.now }
{
    let mut hasher = DefaultHasher::new();
    hasher.write(bytes);
    hasher.finish()
}

/// The hash of a key. Most keys are texts, so those are looked at first.
#[inline(always)]
pub(crate) fn key_hash(key: &Value) -> u64
    ensures { result ≡ key_hash key.now }
{
    if let Value::Str(text) = key {
        return text_hash(text.as_slice());
    }
    any_hash(key)
}

/// The hash of a key of any type.
#[inline(never)]
fn any_hash(key: &Value) -> u64
    ensures { result ≡ key_hash key.now }
{
    match key {
        Value::Str(text) => text_hash(text.as_slice()),
        Value::Int(n) => pair_hash(n.cast_unsigned(), 5),
        Value::Name(name) => name_hash(name),
        Value::Array(object) => pair_hash(object.0 as u64, 6),
        Value::Table(object) => pair_hash(object.0 as u64, 7),
        Value::Data(object) => pair_hash(object.0 as u64, 8),
        Value::Pat(_) | Value::Expr(_) => 0,
    }
}

/// The hash of a name as a key.
fn name_hash(name: &Name) -> u64
    ensures { result ≡ name_hash name.now }
{
    match name {
        Name::Var(symbol) => pair_hash(symbol.0 as u64, 1),
        Name::Elem(object, place) => pair_hash(object.0 as u64, *place as u64 * 16 + 2),
        Name::Entry(object, place) => pair_hash(object.0 as u64, *place as u64 * 16 + 3),
        Name::Field(object, place) => pair_hash(object.0 as u64, *place as u64 * 16 + 4),
    }
}

/// The hash of two words.
fn pair_hash(first: u64, second: u64) -> u64
    ensures { result ≡ pair_hash first second }
{
    let mut hasher = DefaultHasher::new();
    hasher.write_u64(first);
    hasher.write_u64(second);
    hasher.finish()
}
