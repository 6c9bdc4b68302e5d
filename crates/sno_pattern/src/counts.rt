//! The ends of primitives with a count.
ghost use Rattle.std.specs.Prelude.{◌≡◌, ℕ, ◌≤◌, List, length, slice_get};
ghost use Rattle.sno_value.specs.declared.kind.PrimitiveKind.TheVariants.{Len, Pos, Rpos, Tab, Rtab};
ghost use Rattle.sno_pattern.specs.Ends.{count_ends};

use sno_value::Prim;

/// The end of a primitive with its count.
#[inline(always)]
pub(crate) fn count_end(prim: Prim, n: u64, subject: &[u8], at: usize) -> Option<usize>
    requires { at ≤ length subject.now }
    ensures { result ≡ slice_get (count_ends prim n subject.now at) 0 }
{
    match prim {
        Prim::Len => len_end(n, subject, at),
        Prim::Pos => pos_end(n, at),
        Prim::Rpos => rpos_end(n, subject, at),
        Prim::Tab => tab_end(n, subject, at),
        Prim::Rtab => rtab_end(n, subject, at),
        _ => None,
    }
}

/// LEN(n): the place `n` bytes on, if the subject has it.
fn len_end(n: u64, subject: &[u8], at: usize) -> Option<usize>
    requires { at ≤ length subject.now }
    ensures { result ≡ slice_get (count_ends Len n subject.now at) 0 }
{
    if n <= (subject.len() - at) as u64 {
        Some(at + n as usize)
    } else {
        None
    }
}

/// POS(n): the cursor, if it is `n`.
fn pos_end(n: u64, at: usize) -> Option<usize>
    ensures { (s : List ℕ) → result ≡ slice_get (count_ends Pos n s at) 0 }
{
    if n == at as u64 { Some(at) } else { None }
}

/// RPOS(n): the cursor, if `n` bytes are left behind it.
fn rpos_end(n: u64, subject: &[u8], at: usize) -> Option<usize>
    requires { at ≤ length subject.now }
    ensures { result ≡ slice_get (count_ends Rpos n subject.now at) 0 }
{
    if n == (subject.len() - at) as u64 {
        Some(at)
    } else {
        None
    }
}

/// TAB(n): the place `n`, if it is in the subject and not before the cursor.
fn tab_end(n: u64, subject: &[u8], at: usize) -> Option<usize>
    ensures { result ≡ slice_get (count_ends Tab n subject.now at) 0 }
{
    if at as u64 <= n && n <= subject.len() as u64 {
        Some(n as usize)
    } else {
        None
    }
}

/// RTAB(n): the place with `n` bytes behind it, if it is in the subject and not before the cursor.
fn rtab_end(n: u64, subject: &[u8], at: usize) -> Option<usize>
    requires { at ≤ length subject.now }
    ensures { result ≡ slice_get (count_ends Rtab n subject.now at) 0 }
{
    if n <= (subject.len() - at) as u64 {
        Some(subject.len() - n as usize)
    } else {
        None
    }
}
