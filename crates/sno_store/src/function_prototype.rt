//! Prototypes of functions: `F(A,B)L,M`.
ghost use Rattle.std.specs.Prelude.{◌≡◌, ◌==◌, ◌<◌, ◌&&◌, not, length, option_map, position, take, IfSome};
ghost use Rattle.std.specs.List.{list_all, list_any};
ghost use Rattle.std.specs.Str.{bytes_eq};
ghost use Rattle.sno_store.specs.Definitions.{cut_at, entry_label, is_device, is_letter, is_name, is_name_byte};
ghost use Rattle.sno_store.specs.Definitions.{is_sound, listed, prototype};
ghost use Rattle.sno_store.specs.inner.Seen.{prototype_seen};

/// How many names a prototype has at most (this profile).
pub(crate) const MOST_NAMES: usize = 100;

/// The parts of a prototype: the function's name, and the texts that list its formals and its locals.
#[derive(Clone, Copy)]
pub(crate) struct FunctionPrototype<'a> {
    pub(crate) function: &'a [u8],
    pub(crate) formals: &'a [u8],
    pub(crate) locals: &'a [u8],
}

impl<'a> FunctionPrototype<'a> {
    /// The parts of a text, if it has them.
    pub(crate) fn read(text: &'a [u8]) -> Option<FunctionPrototype<'a>>
        ensures { option_map prototype_seen result ≡ prototype text.now }
    {
        let (function, rest) = cut(text, b'(')?;
        let (formals, locals) = cut(rest, b')')?;
        Some(FunctionPrototype {
            function,
            formals,
            locals,
        })
    }

    /// Whether all names may be: they are names, at most 100 (this
    /// profile), and neither INPUT nor OUTPUT is among them.
    pub(crate) fn is_sound(self) -> bool
        ensures { result ≡ is_sound (prototype_seen self.entry) }
    {
        let others = count(self.formals).saturating_add(count(self.locals));
        others < MOST_NAMES
            && may_be(self.function)
            && all_may_be(self.formals)
            && all_may_be(self.locals)
    }
}

/// The label at which calls of a function begin: the function's name where the label is null.
pub(crate) fn entry_label<'a>(entry: &'a [u8], function: &'a [u8]) -> &'a [u8]
    ensures { result.now ≡ entry_label entry.now function.now }
{
    if entry.is_empty() { function } else { entry }
}

/// A text cut at the first of a byte, into what stands before it and behind it.
fn cut(text: &[u8], byte: u8) -> Option<(&[u8], &[u8])>
    ensures { option_map (λ parts. (parts.0.now, parts.1.now)) result ≡ cut_at byte text.now }
{
    let place = first(text, byte)?;
    Some((&text[..place], &text[place + 1..]))
}

/// The place of the first of a byte, if there is one.
fn first(text: &[u8], byte: u8) -> Option<usize>
    ensures place { result ≡ position (λ b. b == byte) text.now }
    ensures within { IfSome result (λ place. place < length text.now) }
{
    text.iter().position(|b| *b == byte)
}

/// How many names a list has.
pub(crate) fn count(list: &[u8]) -> usize
    ensures { result ≡ length (listed list.now) }
{
    if list.is_empty() {
        return 0;
    }
    list.split(|byte| *byte == b',').count()
}

/// Whether a name is among the first names of a list, of which so many are looked at.
pub(crate) fn is_among(name: &[u8], list: &[u8], names: usize) -> bool
    ensures { result ≡ list_any (bytes_eq name.now) (take names (listed list.now)) }
{
    !list.is_empty()
        && list
            .split(|byte| *byte == b',')
            .take(names)
            .any(|other| name == other)
}

/// Whether each text of a list may be a name of a prototype.
fn all_may_be(list: &[u8]) -> bool
    ensures { result ≡ list_all (λ name. is_name name && not (is_device name)) (listed list.now) }
{
    list.is_empty() || list.split(|byte| *byte == b',').all(may_be)
}

/// Whether a text may be a name of a prototype.
fn may_be(name: &[u8]) -> bool
    ensures { result ≡ (is_name name.now && not (is_device name.now)) }
{
    is_name(name) && name != b"INPUT".as_slice() && name != b"OUTPUT".as_slice()
}

/// Whether each text of a list is a name.
pub(crate) fn are_names(list: &[u8]) -> bool
    ensures { result ≡ list_all is_name (listed list.now) }
{
    list.is_empty() || list.split(|byte| *byte == b',').all(is_name)
}

/// Whether a text is a letter, and then letters, digits, dots and underscores.
pub(crate) fn is_name(name: &[u8]) -> bool
    ensures { result ≡ is_name name.now }
{
    match name {
        [first, rest @ ..] => is_letter(*first) && are_name_bytes(rest),
        [] => false,
    }
}

/// Whether each byte is a letter, a digit, a dot or an underscore.
fn are_name_bytes(bytes: &[u8]) -> bool
    ensures { result ≡ list_all is_name_byte bytes.now }
{
    bytes.iter().all(|byte| is_name_byte(*byte))
}

/// Whether a byte is a letter, from A to Z or from a to z.
fn is_letter(byte: u8) -> bool
    ensures { result ≡ is_letter byte }
{
    (b'A' <= byte && byte <= b'Z') || (b'a' <= byte && byte <= b'z')
}

/// Whether a byte is a letter, a digit, a dot or an underscore.
fn is_name_byte(byte: u8) -> bool
    ensures { result ≡ is_name_byte byte }
{
    is_letter(byte) || (b'0' <= byte && byte <= b'9') || byte == b'.' || byte == b'_'
}
