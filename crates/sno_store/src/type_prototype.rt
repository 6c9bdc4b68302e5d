//! Prototypes of types: `T(F,G)`.
ghost use Rattle.std.specs.Prelude.{◌≡◌, ◌≤◌, ◌||◌, [], ◌∷◌, length, take};
ghost use Rattle.std.specs.List.{list_any};
ghost use Rattle.std.specs.Str.{bytes_eq};
ghost use Rattle.sno_store.specs.Definitions.{listed};
ghost use Rattle.sno_store.specs.inner.Seen.{prototype_seen};
ghost use Rattle.sno_store.specs.Types.{are_new, is_of_language, makes_type};

use crate::data_type::MOST_FIELDS;
use crate::function_prototype::{FunctionPrototype, are_names, count, is_among, is_name};

/// Whether the parts of a prototype make a type. They have its name, its fields where a function has its formals, and
/// nothing behind them.
pub(crate) fn makes_type(parts: FunctionPrototype) -> bool
    ensures { result ≡ makes_type (prototype_seen parts.entry) }
{
    let fields = count(parts.formals);
    1 <= fields
        && fields <= MOST_FIELDS
        && count(parts.locals) == 0
        && is_name(parts.function)
        && are_names(parts.formals)
        && are_different(parts.function, parts.formals)
        && !is_of_language(parts.function)
}

/// Whether no name of a list is the first name, or stands twice.
fn are_different(first: &[u8], list: &[u8]) -> bool
    requires few { length (listed list.now) ≤ 99 }
    ensures { result ≡ are_new (first.now ∷ []) (listed list.now) }
{
    if list.is_empty() {
        return true;
    }
    let mut place = 0;
    'names: for name in list.split(|byte| *byte == b',') {
        if stands_before(name, first, list, place) {
            return false;
        }
        place += 1;
    }
    true
}

/// Whether a name is the first name, or among the first names of a list, of which so many are looked at.
fn stands_before(name: &[u8], first: &[u8], list: &[u8], names: usize) -> bool
    ensures { result ≡ (bytes_eq name.now first.now || list_any (bytes_eq name.now) (take names (listed list.now))) }
{
    name == first || is_among(name, list, names)
}

/// Whether the language has a type of this name.
fn is_of_language(name: &[u8]) -> bool
    ensures { result ≡ is_of_language name.now }
{
    name == b"STRING".as_slice()
        || name == b"INTEGER".as_slice()
        || name == b"PATTERN".as_slice()
        || name == b"ARRAY".as_slice()
        || name == b"TABLE".as_slice()
        || name == b"NAME".as_slice()
        || name == b"EXPRESSION".as_slice()
}
