//! The table of patterns and its builders.
ghost use Rattle.std.specs.Prelude.{◌≡◌, ◌<◌, ◌≤◌, ◌↔◌, ◌⊎◌, [], length, Some, None, IfOk, IfErr, OnOk, OnErr};
ghost use Rattle.std.specs.Prelude.{IsErrOf};
ghost use Rattle.sno_pattern.specs.Pattern.{Among, Text, Arb, Bal, Rem, Fail, Leaf, Fence, Cut, Abort, Succeed, Arbno, Alt};
ghost use Rattle.sno_pattern.specs.Pattern.{Cat, Cond, Imm, Place, Defer};
ghost use Rattle.sno_pattern.specs.Table.{tree, tree_over, trees_onto, LeafNode, FenceNode, AbortNode, SucceedNode};
ghost use Rattle.sno_pattern.specs.Table.{CutNode, ArbnoNode, AltNode, CatNode, CondNode, ImmNode, PlaceNode};
ghost use Rattle.sno_pattern.specs.Table.{DeferNode};
ghost use Rattle.sno_pattern.specs.inner.Table.{PartsBelow};
ghost use Rattle.sno_pattern.specs.Arguments.{IsArgOf, IsNullSet, IsBadCount, IsGoodArg, primitive_of};
ghost use Rattle.sno_pattern.specs.Built.{Appends, Builds};
ghost use Rattle.sno_pattern.specs.Sets.{set_of};
ghost use Rattle.sno_pattern.specs.inner.Kinds.{nodes_of, node_of, IsBegun, IsTable};

mod long_texts;
mod lookups;
mod same;

use crate::argument::Arg;
use crate::byte_set::ByteSet;
use crate::first_bytes::first_bytes_of_choice;
use crate::kind::{Entry, Kind, is_quiet_over};
use crate::numbers::Numbers;
use crate::spellings::Spellings;
use sno_value::{ExprId, Name, PatId, Prim};
use std::alloc::Global;
use std::marker::Model;

/// How many nodes a table holds at most (this profile).
pub(crate) const MOST_NODES: usize = 4_000_000;

/// Why a builder refuses. The first that fits is told.
#[derive(Clone, Copy, Debug, Drop, PartialEq, Eq)]
pub enum BuildError {
    /// The set of a primitive is empty.
    NullSet,
    /// The count of a primitive is negative.
    BadCount,
    /// The table holds `MOST_NODES` nodes.
    Full,
    /// Memory was refused.
    NoMemory,
}

/// A table of patterns, which grows and never changes what it holds. Contracts see it as its list of nodes.
///
/// Each builder appends one node and gives its number. It is refused `Full` where the table holds 4,000,000 nodes and
/// `NoMemory` where memory is; `prim` has two refusals more. A refusal leaves the table as it was. What the patterns
/// match is the book's; the limit is this profile's.
#[derive(Drop)]
pub struct Patterns {
    entries: Vec<Entry>,
    numbers: Numbers,
    spellings: Spellings,
    alloc: Global,
}

impl Model for Patterns {
    ghost use Rattle.std.specs.Prelude.{List};
    ghost use Rattle.sno_pattern.specs.Table.{Node};

    ghost Value = { List Node };

    ghost use Rattle.sno_pattern.specs.inner.Kinds.{nodes_of, IsTable};

    ghost view = { λ p. nodes_of p.entries.items };

    ghost invariant = { λ p. IsTable p.entries.items };
}

impl Patterns {
    /// An empty table. It takes no memory.
    pub fn new(alloc: Global) -> Patterns
        ensures { result ≡ [] }
    {
        Patterns {
            entries: Vec::new(alloc),
            numbers: Numbers::new(),
            spellings: Spellings::new(alloc),
            alloc,
        }
    }

    /// How many nodes the table holds.
    pub fn len(&self) -> u32
        ensures { result ≡ length self.now }
    {
        self.entries.len() as u32
    }

    /// A text, which matches itself.
    pub fn text(&mut self, bytes: &[u8]) -> Result<PatId, BuildError>
        requires { length bytes.now ≤ 1000000 }
        ensures built { Builds (LeafNode (Text bytes.now)) (Leaf (Text bytes.now)) self.old self.new result }
    {
        if self.entries.len() == MOST_NODES {
            return Err(BuildError::Full);
        }
        match sno_value::Text::from_slice(self.alloc, bytes) {
            Ok(copy) => append(&mut self.entries, Kind::Text(copy)),
            Err(_refused) => Err(BuildError::NoMemory),
        }
    }

    /// The same of a string, whose block it shares.
    pub fn text_of(&mut self, text: &sno_value::Text) -> Result<PatId, BuildError>
        requires { length text.now ≤ 1000000 }
        ensures built { Builds (LeafNode (Text text.now)) (Leaf (Text text.now)) self.old self.new result }
    {
        if self.entries.len() == MOST_NODES {
            return Err(BuildError::Full);
        }
        let Ok(copy) = text.copy() else {
            return Err(BuildError::NoMemory);
        };
        append(&mut self.entries, Kind::Text(copy))
    }

    /// A primitive with its argument: a count where `prim` takes one, else a set of bytes. An empty set is `NullSet`
    /// and a negative count `BadCount`, also where the table is full.
    pub fn prim(&mut self, prim: Prim, arg: Arg<'_>) -> Result<PatId, BuildError>
        requires { IsArgOf prim arg }
        ensures ok { IfOk result (Appends self.old self.new (LeafNode (primitive_of prim arg.entry))) }
        ensures stands { IfOk result (λ id. tree self.new id.0 ≡ Leaf (primitive_of prim arg.entry)) }
        ensures good { OnOk result (IsGoodArg arg.entry) }
        ensures err { OnErr result (self.new ≡ self.old) }
        ensures null_set { IsErrOf result BuildError.NullSet ↔ IsNullSet arg.entry }
        ensures bad_count { IsErrOf result BuildError.BadCount ↔ IsBadCount arg.entry }
        ensures full { IsErrOf result BuildError.Full ↔ (IsGoodArg arg.entry × (length self.old ≡ 4000000)) }
    {
        match arg {
            Arg::Count(n) => {
                if n < 0 {
                    return Err(BuildError::BadCount);
                }
                append(&mut self.entries, Kind::Counted(prim, n as u64))
            }
            Arg::Set(bytes) => {
                if bytes.is_empty() {
                    return Err(BuildError::NullSet);
                }
                self.among(prim, bytes)
            }
        }
    }

    /// A primitive with a set of bytes. The list that it is made of is kept for the node.
    fn among(&mut self, prim: Prim, bytes: &[u8]) -> Result<PatId, BuildError>
        ensures built { Builds (LeafNode (Among prim (set_of bytes.now))) (Leaf (Among prim (set_of bytes.now)))
            self.old self.new result }
    {
        let set = ByteSet::of(bytes);
        let words = set.words();
        let kind = Kind::Among(prim, set);
        let number = self.numbers.number_behind(&self.entries, &kind);
        let id = append_numbered(&mut self.entries, kind, number)?;
        self.spellings.keep(id, bytes, words);
        Ok(id)
    }

    /// ARB: any part, the shortest first.
    pub fn arb(&mut self) -> Result<PatId, BuildError>
        ensures built { Builds (LeafNode Arb) (Leaf Arb) self.old self.new result }
    {
        append(&mut self.entries, Kind::Arb)
    }

    /// BAL: any part but the null one that is balanced in `(` and `)`, the shortest first.
    pub fn bal(&mut self) -> Result<PatId, BuildError>
        ensures built { Builds (LeafNode Bal) (Leaf Bal) self.old self.new result }
    {
        append(&mut self.entries, Kind::Bal)
    }

    /// REM: the rest of the subject.
    pub fn rem(&mut self) -> Result<PatId, BuildError>
        ensures built { Builds (LeafNode Rem) (Leaf Rem) self.old self.new result }
    {
        append(&mut self.entries, Kind::Rem)
    }

    /// FAIL: nothing.
    pub fn fail(&mut self) -> Result<PatId, BuildError>
        ensures built { Builds (LeafNode Fail) (Leaf Fail) self.old self.new result }
    {
        append(&mut self.entries, Kind::Fail)
    }

    /// FENCE: the null part; when it is backed into, the whole match is over.
    pub fn fence(&mut self) -> Result<PatId, BuildError>
        ensures built { Builds FenceNode Fence self.old self.new result }
    {
        append(&mut self.entries, Kind::Fence)
    }

    /// ABORT: the whole match is over at once.
    pub fn abort(&mut self) -> Result<PatId, BuildError>
        ensures built { Builds AbortNode Abort self.old self.new result }
    {
        append(&mut self.entries, Kind::Abort)
    }

    /// SUCCEED: the null part, and the same again at every retry.
    pub fn succeed(&mut self) -> Result<PatId, BuildError>
        ensures built { Builds SucceedNode Succeed self.old self.new result }
    {
        append(&mut self.entries, Kind::Succeed)
    }

    /// FENCE(P), a cut: the first way of P, and no other.
    pub fn cut(&mut self, body: PatId) -> Result<PatId, BuildError>
        requires body { body.0 < length self.old }
        ensures built { Builds (CutNode body.0) (Cut (tree self.old body.0)) self.old self.new result }
    {
        append(&mut self.entries, Kind::Cut(body))
    }

    /// ARBNO(P): P any number of times, the fewest first.
    pub fn arbno(&mut self, body: PatId) -> Result<PatId, BuildError>
        requires body { body.0 < length self.old }
        ensures built { Builds (ArbnoNode body.0) (Arbno (tree self.old body.0)) self.old self.new result }
    {
        append(&mut self.entries, Kind::Arbno(body))
    }

    /// P | Q: P first, then Q.
    pub fn alt(&mut self, first: PatId, second: PatId) -> Result<PatId, BuildError>
        requires first { first.0 < length self.old }
        requires second { second.0 < length self.old }
        ensures built { Builds (AltNode first.0 second.0) (Alt (tree self.old first.0) (tree self.old second.0))
            self.old self.new result }
    {
        let begins = first_bytes_of_choice(&self.entries, first, second);
        append(&mut self.entries, Kind::Alt(first, second, begins))
    }

    /// P Q: P, and Q behind it.
    pub fn cat(&mut self, first: PatId, second: PatId) -> Result<PatId, BuildError>
        requires first { first.0 < length self.old }
        requires second { second.0 < length self.old }
        ensures built { Builds (CatNode first.0 second.0) (Cat (tree self.old first.0) (tree self.old second.0))
            self.old self.new result }
    {
        append(&mut self.entries, Kind::Cat(first, second))
    }

    /// P . N: P, whose part is assigned to N once the whole match has succeeded.
    pub fn cond(&mut self, body: PatId, target: Name) -> Result<PatId, BuildError>
        requires body { body.0 < length self.old }
        ensures built { Builds (CondNode body.0 target) (Cond (tree self.old body.0) target) self.old self.new result }
    {
        append(&mut self.entries, Kind::Cond(body, target))
    }

    /// P $ N: P, whose part is assigned to N each time that P ends.
    pub fn imm(&mut self, body: PatId, target: Name) -> Result<PatId, BuildError>
        requires body { body.0 < length self.old }
        ensures built { Builds (ImmNode body.0 target) (Imm (tree self.old body.0) target) self.old self.new result }
    {
        append(&mut self.entries, Kind::Imm(body, target))
    }

    /// @N: the null part, where the cursor is assigned to N.
    pub fn cursor(&mut self, target: Name) -> Result<PatId, BuildError>
        ensures built { Builds (PlaceNode target) (Place target) self.old self.new result }
    {
        append(&mut self.entries, Kind::Cursor(target))
    }

    /// *E: the pattern that the expression gives each time that it is reached.
    pub fn defer(&mut self, expression: ExprId) -> Result<PatId, BuildError>
        ensures built { Builds (DeferNode None expression.0) (Defer None expression.0) self.old self.new result }
    {
        append(&mut self.entries, Kind::Defer(expression))
    }

    /// A primitive whose argument is what the expression gives each time that it is reached.
    pub fn defer_prim(&mut self, prim: Prim, expression: ExprId) -> Result<PatId, BuildError>
        ensures built { Builds (DeferNode (Some prim) expression.0) (Defer (Some prim) expression.0)
            self.old self.new result }
    {
        append(&mut self.entries, Kind::DeferPrim(prim, expression))
    }
}

/// Appends a node, if there is room.
fn append(entries: &mut Vec<Entry>, kind: Kind) -> Result<PatId, BuildError>
    requires table { IsTable entries.old.items }
    requires parts { PartsBelow (node_of kind) (length entries.old.items) }
    requires begins { IsBegun kind (tree_over (trees_onto [] (nodes_of entries.old.items)) (node_of kind)) }
    ensures table { IsTable entries.new.items }
    ensures ok { IfOk result (Appends (nodes_of entries.old.items) (nodes_of entries.new.items) (node_of kind)) }
    ensures stands { IfOk result
        (λ id. tree (nodes_of entries.new.items) id.0
        ≡ tree_over (trees_onto [] (nodes_of entries.old.items)) (node_of kind)) }
    ensures err { OnErr result (entries.new.items ≡ entries.old.items) }
    ensures full { IsErrOf result BuildError.Full ↔ (length entries.old.items ≡ 4000000) }
    ensures others { IfErr result (λ e. (e ≡ BuildError.Full) ⊎ (e ≡ BuildError.NoMemory)) }
{
    let id = append_numbered(entries, kind, 0)?;
    Ok(id)
}

/// The same with the number by which what is found out of it is remembered.
#[tactic(auto, using(crate::proofs::TableLaws::appended))]
fn append_numbered(entries: &mut Vec<Entry>, kind: Kind, number: u32) -> Result<PatId, BuildError>
    requires table { IsTable entries.old.items }
    requires parts { PartsBelow (node_of kind) (length entries.old.items) }
    requires begins { IsBegun kind (tree_over (trees_onto [] (nodes_of entries.old.items)) (node_of kind)) }
    ensures table { IsTable entries.new.items }
    ensures ok { IfOk result (Appends (nodes_of entries.old.items) (nodes_of entries.new.items) (node_of kind)) }
    ensures stands { IfOk result
        (λ id. tree (nodes_of entries.new.items) id.0
        ≡ tree_over (trees_onto [] (nodes_of entries.old.items)) (node_of kind)) }
    ensures err { OnErr result (entries.new.items ≡ entries.old.items) }
    ensures full { IsErrOf result BuildError.Full ↔ (length entries.old.items ≡ 4000000) }
    ensures others { IfErr result (λ e. (e ≡ BuildError.Full) ⊎ (e ≡ BuildError.NoMemory)) }
{
    let id = entries.len();
    if id == MOST_NODES {
        return Err(BuildError::Full);
    }
    let quiet = is_quiet_over(entries, &kind);
    if let Err(_refused) = entries.push(Entry {
        kind,
        quiet,
        number,
    }) {
        return Err(BuildError::NoMemory);
    }
    Ok(PatId(id as u32))
}
