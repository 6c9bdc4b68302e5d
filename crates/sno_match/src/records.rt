//! Lists of goals as numbered records.
ghost use Rattle.std.specs.Prelude.{◌≡◌, ◌+◌, ◌≤◌, [], ◌∷◌, length, reverse, take, vec_len, vec_capacity};
ghost use Rattle.std.specs.Prelude.{IfOk, IfNone, IfSome, OnOk, OnErr};
ghost use Rattle.sno_match.specs.Point.{rest_of};
ghost use Rattle.sno_match.specs.inner.Shared.{Falls, Extends, goals_of};

use crate::goal::Goal;
use std::alloc::AllocError;

/// A goal, and the list behind it.
#[derive(Clone, Copy, Drop)]
pub(crate) struct GoalRecord {
    pub goal: Goal,
    /// The number of the record behind, which is a smaller one, or 0 where no goal is left.
    pub behind: u32,
}

/// The same number in 32 bits. A greater one is refused as memory is: what it counts doesn't fit.
pub(crate) fn in_32_bits(n: usize) -> Result<u32, AllocError>
    ensures { IfOk result (λ same. same ≡ n) }
{
    let Ok(same) = u32::try_from(n) else {
        return Err(AllocError);
    };
    Ok(same)
}

/// Makes room in a list for so many in all, which is mostly there.
#[inline(always)]
pub(crate) fn make_room<T: Drop>(list: &mut Vec<T>, count: usize) -> Result<(), AllocError>
    ensures items { list.new.items ≡ list.old.items }
    ensures room { OnOk result (count ≤ vec_capacity list.new) }
{
    if count > list.capacity() {
        list.reserve(count.saturating_sub(list.len()))?;
    }
    Ok(())
}

/// Cuts the records back to the first `keep`, and puts these goals in front of a list of those.
#[inline(always)]
pub(crate) fn put_front(
    records: &mut Vec<GoalRecord>,
    keep: u32,
    behind: u32,
    front: &[Goal],
) -> Result<u32, AllocError>
    requires falls { Falls (reverse records.old.items) }
    requires keep { keep ≤ length records.old.items }
    requires behind { behind ≤ keep }
    ensures ok { IfOk result (λ goals. Extends (take keep records.old.items) behind front.now records.new.items goals) }
    ensures err { OnErr result (records.new.items ≡ records.old.items) }
{
    let keep = keep as usize;
    in_32_bits(keep + front.len())?;
    make_room(records, keep + front.len())?;
    records.truncate(keep);
    let goals = link(records, behind, front);
    Ok(goals)
}

/// Puts these goals in front of a list: the number of the new one.
#[inline(always)]
fn link(records: &mut Vec<GoalRecord>, behind: u32, front: &[Goal]) -> u32
    requires few { length records.old.items + length front.now ≤ 4294967295 }
    requires room { vec_len records.old + length front.now ≤ vec_capacity records.old }
    requires falls { Falls (reverse records.old.items) }
    requires behind { behind ≤ length records.old.items }
    ensures { Extends records.old.items behind front.now records.new.items result }
{
    let mut goals = behind;
    for goal in front.iter().rev() {
        records.push_reserved(GoalRecord {
            goal: *goal,
            behind: goals,
        });
        goals = records.len() as u32;
    }
    goals
}

/// The first goal of a list.
pub(crate) fn first_of(records: &[GoalRecord], goals: u32) -> Option<Goal>
    requires falls { Falls (reverse records.now) }
    requires inside { goals ≤ length records.now }
    ensures none { IfNone result (goals_of records.now goals ≡ []) }
    ensures some { IfSome result (λ goal. goals_of records.now goals ≡ goal ∷ rest_of (goals_of records.now goals)) }
{
    if goals == 0 {
        return None;
    }
    Some(records[goals as usize - 1].goal)
}

/// The list behind the first goal of a list.
pub(crate) fn behind_first(records: &[GoalRecord], goals: u32) -> u32
    requires falls { Falls (reverse records.now) }
    requires inside { goals ≤ length records.now }
    ensures value { goals_of records.now result ≡ rest_of (goals_of records.now goals) }
    ensures smaller { result ≤ goals }
{
    if goals == 0 {
        return 0;
    }
    records[goals as usize - 1].behind
}
