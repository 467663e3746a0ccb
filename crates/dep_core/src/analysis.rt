//! The analysis: nodes are marked until no row leads from them to another.
ghost use Rattle.std.specs.Prelude.{◌≡◌, ◌↔◌, ◌+◌, ◌<◌, [], ◌∷◌, All, Contains, length, IfOk, IfErr, OnOk, MatchOption};
ghost use Rattle.std.specs.List.Sorted.{IsPermutation};
ghost use Rattle.dep_core.specs.Kept.{IsClosed, IsDerivable, IsDerivation, row_by};
ghost use Rattle.dep_core.specs.Marks.{nodes_of, AreMarks, IsPassed, NonePassed};
ghost use Rattle.dep_core.specs.UnderWay.{HasNode, IsNamed, IsSound, IsUnderWay};

use crate::giving::{Pending, give};
use crate::mark::{DepFault, Mark, Marked};
use crate::marking::{Limits, Marking, mark_all};
use crate::nodes::{Nodes, marks_in_order};
use crate::pick::Pick;
use crate::rules::Rules;
use crate::telling::tell_roots;
use crate::waiting::Waiting;
use num_core::Memory;
use std::alloc::Global;
use std::collections::BTreeMap;

/// Marks each node that follows from the roots by the rows of the rules, as long as no more than `max_nodes` are marked
/// and none is deeper than `max_depth`.
///
/// The marks are the same nodes whatever `pick` answers; their order, and which of the two faults comes, may differ.
/// `always` and `awaiting` are called once for each marked node, and `meets` once for each two marked nodes of which
/// the first seeks and the second is sought.
pub fn analyze<R: Rules, P: Pick>(
    alloc: Global,
    rules: &R,
    pick: &mut P,
    max_nodes: u32,
    max_depth: u32,
) -> Result<Marked<R::Node>, DepFault<R::Node>>
    // Each mark names its row among the marks before it, and no node is marked twice.
    ensures named { IfOk result (AreMarks (R.is_root rules.now)
        (row_by (R.gives rules.now) (R.awaits rules.now) (R.meets_in rules.now))) }
    ensures derivation { IfOk result (λ marks. IsDerivation (R.is_root rules.now)
        (row_by (R.gives rules.now) (R.awaits rules.now) (R.meets_in rules.now)) (nodes_of marks)) }
    ensures closed { IfOk result (λ marks. IsClosed (R.is_root rules.now)
        (row_by (R.gives rules.now) (R.awaits rules.now) (R.meets_in rules.now)) (nodes_of marks)) }
    ensures kept { IfOk result (λ marks. (n : R.Node) → Contains (nodes_of marks) n ↔ IsDerivable (R.is_root rules.now)
        (row_by (R.gives rules.now) (R.awaits rules.now) (R.meets_in rules.now)) n) }
    ensures own { IfOk result (λ marks. All (R.is_own rules.now) (nodes_of marks)) }
    // A limit is passed exactly where a fault other than want of memory comes.
    ensures none_passed { IfOk result (λ marks. NonePassed (R.is_root rules.now)
        (row_by (R.gives rules.now) (R.awaits rules.now) (R.meets_in rules.now)) (R.depth_of rules.now)
        max_nodes max_depth) }
    ensures passed { IfErr result (IsPassed (R.is_root rules.now)
        (row_by (R.gives rules.now) (R.awaits rules.now) (R.meets_in rules.now)) (R.depth_of rules.now)
        max_nodes max_depth) }
{
    let mut marking = Marking {
        nodes: Nodes::new(alloc),
        places: BTreeMap::new(alloc),
    };
    let limits = Limits {
        nodes: max_nodes,
        depth: max_depth,
    };
    run(alloc, rules, pick, limits, &mut marking)?;
    match marks_in_order(alloc, rules, &marking.nodes) {
        Ok(marks) => Ok(marks),
        Err(_) => Err(DepFault::Memory),
    }
}

/// Marks all that follows from the roots, where nothing is marked.
fn run<R: Rules, P: Pick>(
    alloc: Global,
    rules: &R,
    pick: &mut P,
    limits: Limits,
    marking: &mut Marking<R::Node>,
) -> Result<(), DepFault<R::Node>>
    requires marks { marking.old.nodes.marks ≡ [] }
    requires places { marking.old.places.entries ≡ [] }
    requires work { marking.old.nodes.work ≡ [] }
    ensures sound { OnOk result (IsSound (R.is_root rules.now)
        (row_by (R.gives rules.now) (R.awaits rules.now) (R.meets_in rules.now)) (R.is_own rules.now)
        (R.depth_of rules.now) R.Node.cmp limits.nodes limits.depth marking.new.nodes.marks marking.new.places) }
    ensures closed { OnOk result (IsClosed (R.is_root rules.now)
        (row_by (R.gives rules.now) (R.awaits rules.now) (R.meets_in rules.now)) (nodes_of marking.new.nodes.marks)) }
    ensures fault { IfErr result (IsPassed (R.is_root rules.now)
        (row_by (R.gives rules.now) (R.awaits rules.now) (R.meets_in rules.now)) (R.depth_of rules.now)
        limits.nodes limits.depth) }
{
    let mut pending = Pending {
        waiting: Waiting::new(alloc),
        seeking: Vec::new(alloc),
        sought: Vec::new(alloc),
    };
    let told = match told_roots(alloc, rules) {
        Ok(told) => told,
        Err(_) => return Err(DepFault::Memory),
    };
    mark_all(alloc, rules, limits, marking, told)?;
    settle(alloc, rules, pick, limits, marking, &mut pending)
}

/// A mark for each root.
fn told_roots<R: Rules>(alloc: Global, rules: &R) -> Result<Vec<Mark<R::Node>>, Memory>
    ensures named { IfOk result (λ told. All (IsNamed (R.is_root rules.now)
        (row_by (R.gives rules.now) (R.awaits rules.now) (R.meets_in rules.now)) []) told.items) }
    ensures roots { IfOk result (λ told. (n : R.Node) → R.is_root rules.now n → HasNode told.items n) }
{
    let mut told = Vec::new(alloc);
    let roots = rules.roots(alloc)?;
    tell_roots(&mut told, roots)?;
    Ok(told)
}

/// Works on the places that wait, one after another as they are picked, until none waits.
fn settle<R: Rules, P: Pick>(
    alloc: Global,
    rules: &R,
    pick: &mut P,
    limits: Limits,
    marking: &mut Marking<R::Node>,
    pending: &mut Pending<R::Node>,
) -> Result<(), DepFault<R::Node>>
    requires sound { IsSound (R.is_root rules.now)
        (row_by (R.gives rules.now) (R.awaits rules.now) (R.meets_in rules.now)) (R.is_own rules.now)
        (R.depth_of rules.now) R.Node.cmp limits.nodes limits.depth marking.old.nodes.marks marking.old.places }
    requires under_way { IsUnderWay (R.is_root rules.now) (R.gives rules.now) (R.awaits rules.now)
        (R.meets_in rules.now) (R.can_seek rules.now) (R.can_be_sought rules.now) R.Node.cmp
        (nodes_of marking.old.nodes.marks) marking.old.nodes.work pending.old.waiting pending.old.seeking.items
        pending.old.sought.items }
    ensures sound { OnOk result (IsSound (R.is_root rules.now)
        (row_by (R.gives rules.now) (R.awaits rules.now) (R.meets_in rules.now)) (R.is_own rules.now)
        (R.depth_of rules.now) R.Node.cmp limits.nodes limits.depth marking.new.nodes.marks marking.new.places) }
    ensures closed { OnOk result (IsClosed (R.is_root rules.now)
        (row_by (R.gives rules.now) (R.awaits rules.now) (R.meets_in rules.now)) (nodes_of marking.new.nodes.marks)) }
    ensures fault { IfErr result (IsPassed (R.is_root rules.now)
        (row_by (R.gives rules.now) (R.awaits rules.now) (R.meets_in rules.now)) (R.depth_of rules.now)
        limits.nodes limits.depth) }
{
    while let Some(place) = next(pick, &mut marking.nodes) {
        handle(alloc, rules, limits, marking, pending, place)?;
    }
    Ok(())
}

/// Takes the one of the places that wait which is picked.
fn next<P: Pick, N: Drop>(pick: &mut P, nodes: &mut Nodes<N>) -> Option<u32>
    ensures marks { nodes.new.marks ≡ nodes.old.marks }
    ensures work { MatchOption result (nodes.old.work ≡ [])
        (λ place. IsPermutation nodes.old.work (place ∷ nodes.new.work)) }
{
    let waiting = nodes.waiting();
    if waiting == 0 {
        return None;
    }
    nodes.take_work(picked(pick, waiting))
}

/// The number of one of so many nodes that wait.
fn picked<P: Pick>(pick: &mut P, waiting: usize) -> usize
    requires { 0 < waiting }
    ensures { result < waiting }
{
    pick.pick(waiting) % waiting
}

/// Marks what the node at a place gives, by itself and with others.
fn handle<R: Rules>(
    alloc: Global,
    rules: &R,
    limits: Limits,
    marking: &mut Marking<R::Node>,
    pending: &mut Pending<R::Node>,
    place: u32,
) -> Result<(), DepFault<R::Node>>
    requires sound { IsSound (R.is_root rules.now)
        (row_by (R.gives rules.now) (R.awaits rules.now) (R.meets_in rules.now)) (R.is_own rules.now)
        (R.depth_of rules.now) R.Node.cmp limits.nodes limits.depth marking.old.nodes.marks marking.old.places }
    requires under_way { IsUnderWay (R.is_root rules.now) (R.gives rules.now) (R.awaits rules.now)
        (R.meets_in rules.now) (R.can_seek rules.now) (R.can_be_sought rules.now) R.Node.cmp
        (nodes_of marking.old.nodes.marks) (place ∷ marking.old.nodes.work) pending.old.waiting
        pending.old.seeking.items pending.old.sought.items }
    ensures sound { OnOk result (IsSound (R.is_root rules.now)
        (row_by (R.gives rules.now) (R.awaits rules.now) (R.meets_in rules.now)) (R.is_own rules.now)
        (R.depth_of rules.now) R.Node.cmp limits.nodes limits.depth marking.new.nodes.marks marking.new.places) }
    ensures under_way { OnOk result (IsUnderWay (R.is_root rules.now) (R.gives rules.now) (R.awaits rules.now)
        (R.meets_in rules.now) (R.can_seek rules.now) (R.can_be_sought rules.now) R.Node.cmp
        (nodes_of marking.new.nodes.marks) marking.new.nodes.work pending.new.waiting pending.new.seeking.items
        pending.new.sought.items) }
    // Each node that is marked waits, so one place less is left to be worked on.
    ensures balance { OnOk result (length (nodes_of marking.new.nodes.marks) + length marking.old.nodes.work
        ≡ length (nodes_of marking.old.nodes.marks) + length marking.new.nodes.work) }
    ensures fault { IfErr result (IsPassed (R.is_root rules.now)
        (row_by (R.gives rules.now) (R.awaits rules.now) (R.meets_in rules.now)) (R.depth_of rules.now)
        limits.nodes limits.depth) }
{
    match give(
        alloc,
        rules,
        &marking.nodes,
        &marking.places,
        pending,
        place,
    ) {
        Ok(told) => mark_all(alloc, rules, limits, marking, told),
        Err(_) => Err(DepFault::Memory),
    }
}
