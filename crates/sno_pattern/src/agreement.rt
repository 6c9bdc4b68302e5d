//! How far two lists of bytes agree.
ghost use Rattle.std.specs.Prelude.{◌<◌, ◌≤◌};
ghost use Rattle.sno_pattern.specs.Agreement.{AreSame, Agree};

/// How many bytes are compared at once as long as they are the same.
const LARGE: usize = 4_096;

/// How many of those that aren't are compared at once.
const SMALL: usize = 64;

/// How many bytes at the beginnings of both lists are the same, of which so many are known. It stops behind `most`.
pub(crate) fn agreement(first: &[u8], second: &[u8], known: usize, most: usize) -> usize
    requires known { AreSame first.now second.now known }
    ensures same { AreSame first.now second.now result }
    ensures apart { result < most → Agree first.now second.now result }
{
    let far = agreement_by(first, second, known, most, LARGE);
    let near = agreement_by(first, second, far, most, SMALL);
    let mut count = near;
    'bytes: while count < most
        && count < first.len()
        && count < second.len()
        && first[count] == second[count]
    {
        count += 1;
    }
    count
}

/// The same as far as blocks of bytes are the same.
fn agreement_by(first: &[u8], second: &[u8], known: usize, most: usize, block: usize) -> usize
    requires known { AreSame first.now second.now known }
    requires block { 0 < block }
    ensures same { AreSame first.now second.now result }
{
    let mut count = known;
    'parts: while count < most
        && first.len() - count >= block
        && second.len() - count >= block
        && first[count..count + block] == second[count..count + block]
    {
        count += block;
    }
    count
}
