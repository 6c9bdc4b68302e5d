//! Balanced parts of a subject.
ghost use Rattle.std.specs.Prelude.{◌≡◌, ◌≤◌, ◌<◌, length, slice_get};
ghost use Rattle.sno_pattern.specs.Pattern.{Bal};
ghost use Rattle.sno_pattern.specs.Ends.{ends, open_after};

/// How many brackets are open behind a byte, or None where it closes one that is not open.
fn open_behind_byte(byte: u8, depth: usize) -> Option<usize>
    requires { depth < usize.MAX }
    ensures { result ≡ open_after byte depth }
{
    match byte {
        b'(' => Some(depth + 1),
        b')' => depth.checked_sub(1),
        _ => Some(depth),
    }
}

/// BAL's first end: the least place behind the cursor up to which as many `(` as `)` stand, if no `)` before it closes
/// a bracket that is not open.
pub(crate) fn balanced_end(subject: &[u8], at: usize) -> Option<usize>
    requires { at ≤ length subject.now }
    ensures { result ≡ slice_get (ends Bal subject.now at) 0 }
{
    let mut depth = 0;
    for end in at..subject.len() {
        match open_behind_byte(subject[end], depth) {
            None => return None,
            Some(0) => return Some(end + 1),
            Some(deeper) => depth = deeper,
        }
    }
    None
}

/// BAL's end with the number `i`.
pub(crate) fn balanced_end_at(subject: &[u8], at: usize, i: usize) -> Option<usize>
    requires { at ≤ length subject.now }
    ensures { result ≡ slice_get (ends Bal subject.now at) i }
{
    let mut end = balanced_end(subject, at)?;
    for _more in 0..i {
        end = balanced_end(subject, end)?;
    }
    Some(end)
}
