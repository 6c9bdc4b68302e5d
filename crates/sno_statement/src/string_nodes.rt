//! The nodes for the long strings that deferred variables hold in a match.
ghost use Rattle.std.specs.Prelude.{◌≡◌, [], false, IfSome};
ghost use Rattle.std.specs.List.{AllByRecursion};
ghost use Rattle.sno_runtime.specs.Runtime.{Runtime};
ghost use Rattle.sno_statement.specs.inner.StringNodes.{AreStringNodes, IsStringNode, may_change, may_set};

use sno_match::Event;
use sno_value::{Name, PatId};
use std::alloc::Global;

/// How many nodes are kept at most.
const MOST: usize = 256;

/// The node for the string that is held under a name.
#[derive(Clone, Copy, Drop)]
pub(crate) struct StringNode {
    pub name: Name,
    pub node: PatId,
}

/// The nodes that a match has made for long strings. As long as a name isn't assigned its node is answered again, so that
/// the match compares one node with its subject, and not a new one at each start.
#[derive(Drop)]
pub(crate) struct StringNodes {
    pub nodes: Vec<StringNode>,
}

impl StringNodes {
    /// No node.
    #[inline(always)]
    pub(crate) fn new(alloc: Global) -> StringNodes
        ensures { result.nodes.items ≡ [] }
    {
        StringNodes {
            nodes: Vec::new(alloc),
        }
    }

    /// The node for what is held under a name.
    pub(crate) fn find(&self, name: Name) -> Option<PatId>
        ensures { (s : Runtime) → AreStringNodes s self.now
            → IfSome result (λ id. IsStringNode s (record { name = name; node = id })) }
    {
        'nodes: for kept in &self.nodes {
            if kept.name == name {
                return Some(kept.node);
            }
        }
        None
    }

    /// Keeps the node for what is held under a name, where there is room.
    pub(crate) fn keep(&mut self, name: Name, node: PatId)
        ensures { (s : Runtime) → AreStringNodes s self.old → IsStringNode s (record { name = name; node = node })
            → AreStringNodes s self.new }
    {
        if self.nodes.len() < MOST {
            let _kept = self.nodes.push(StringNode { name, node });
        }
    }

    /// Keeps none.
    #[inline(always)]
    pub(crate) fn clear(&mut self)
        ensures { self.new.nodes.items ≡ [] }
    {
        if !self.nodes.is_empty() {
            self.nodes.clear();
        }
    }

    /// Keeps none where an event may change what is held under one of the names.
    #[inline(always)]
    pub(crate) fn forget(&mut self, event: Event)
        ensures kept { (s : Runtime) → AreStringNodes s self.old → AreStringNodes s self.new }
        ensures spared { AllByRecursion (λ kept. may_set event kept.name ≡ false) self.new.nodes.items }
    {
        if self.nodes.is_empty() {
            return;
        }
        match event {
            Event::Assign { target, .. } | Event::Cursor { target, .. } => {
                self.forget_target(target);
            }
            _ => {}
        }
    }

    /// The same of an assignment.
    #[inline(never)]
    fn forget_target(&mut self, target: Name)
        ensures kept { (s : Runtime) → AreStringNodes s self.old → AreStringNodes s self.new }
        ensures spared { AllByRecursion (λ kept. may_change target kept.name ≡ false) self.new.nodes.items }
    {
        if self.may_change(target) {
            self.nodes.clear();
        }
    }

    /// Whether an assignment may change what is held under one of the names.
    fn may_change(&self, target: Name) -> bool
        ensures { result ≡ false → AllByRecursion (λ kept. may_change target kept.name ≡ false) self.now.nodes.items }
    {
        'nodes: for kept in &self.nodes {
            if may_change(target, kept.name) {
                return true;
            }
        }
        false
    }
}

/// Whether an assignment to the first name may change what is held under the second.
fn may_change(target: Name, kept: Name) -> bool
    ensures { result ≡ may_change target kept }
{
    match (target, kept) {
        (Name::Var(target), Name::Var(kept)) => target == kept,
        (Name::Var(_), _) | (_, Name::Var(_)) => false,
        _ => true,
    }
}
