//! What the node at a place gives, by itself and with others.
ghost use Rattle.std.specs.Prelude.{◌≡◌, ℕ, ◌<◌, All, Contains, length, slice_get, Some, None, OnOk, IfOk};
ghost use Rattle.std.specs.declared.cmp.Ordering.TheVariants.{Equal};
ghost use Rattle.std.specs.BTreeMap.{get};
ghost use Rattle.dep_core.specs.Kept.{row_by};
ghost use Rattle.dep_core.specs.Marks.{nodes_of};
ghost use Rattle.dep_core.specs.UnderWay.{AreParted, IsNamed, IsTold, IsWaiter, Joins, MeetAt, Tells, waiters_of};
ghost use Rattle.dep_core.specs.Sides.{can_be_on, MeetOn};
ghost use Rattle.dep_core.specs.declared.waiting.Waiter.{Waiter as WaiterOf};

use crate::mark::Mark;
use crate::nodes::Nodes;
use crate::rules::{Need, Rules};
use crate::telling::tell_needs;
use crate::waiting::{Waiter, Waiting};
use num_core::{List, Memory};
use std::alloc::Global;
use std::collections::BTreeMap;

/// What was worked on: what waits for nodes that aren't marked, and the places of the nodes that may meet others.
#[derive(Drop)]
pub(crate) struct Pending<N: Ord> {
    pub(crate) waiting: Waiting<N>,
    pub(crate) seeking: Vec<u32>,
    pub(crate) sought: Vec<u32>,
}

/// A side of two nodes that meet: the one that seeks, or the one that is sought.
#[derive(Clone, Copy)]
pub(crate) enum Side {
    Seeking,
    Sought,
}

/// Tells what the node at a place gives, by itself and with others that are marked, and lets wait for others what it
/// gives once they are.
pub(crate) fn give<R: Rules>(
    alloc: Global,
    rules: &R,
    nodes: &Nodes<R::Node>,
    places: &BTreeMap<R::Node, u32>,
    pending: &mut Pending<R::Node>,
    place: u32,
) -> Result<Vec<Mark<R::Node>>, Memory>
    requires own { All (R.is_own rules.now) (nodes_of nodes.now.marks) }
    requires place { place < length (nodes_of nodes.now.marks) }
    requires found { (n : R.Node) (p : ℕ) → get R.Node.cmp places.now n ≡ Some p
        → slice_get (nodes_of nodes.now.marks) p ≡ Some n }
    requires missing { (n : R.Node) → get R.Node.cmp places.now n ≡ None → ¬ Contains (nodes_of nodes.now.marks) n }
    requires waiters { (b : R.Node) (w : WaiterOf R.Node) → Contains (waiters_of R.Node.cmp pending.old.waiting b) w
        → IsWaiter (R.awaits rules.now) (nodes_of nodes.now.marks) b w }
    requires seeking { All (λ p. p < length (nodes_of nodes.now.marks)) pending.old.seeking.items }
    requires sought { All (λ p. p < length (nodes_of nodes.now.marks)) pending.old.sought.items }
    ensures { IfOk result (λ told. IsTold (R.gives rules.now) (R.awaits rules.now) (R.meets_in rules.now)
        (R.can_seek rules.now) (R.can_be_sought rules.now) R.Node.cmp
        (IsNamed (R.is_root rules.now) (row_by (R.gives rules.now) (R.awaits rules.now) (R.meets_in rules.now))
        (nodes_of nodes.now.marks)) (nodes_of nodes.now.marks) place told.items pending.old.waiting pending.new.waiting
        pending.old.seeking.items pending.new.seeking.items pending.old.sought.items pending.new.sought.items) }
{
    let node = nodes.node(place);
    let mut told = Vec::new(alloc);
    let needs = rules.always(alloc, node)?;
    tell_needs(&mut told, needs, place, None)?;
    let rows = rules.awaiting(alloc, node)?;
    wait_all(places, place, rows, &mut pending.waiting, &mut told)?;
    pending.waiting.tell(node, place, &mut told)?;
    join(
        alloc,
        rules,
        nodes,
        Side::Seeking,
        place,
        &mut pending.seeking,
        pending.sought.as_slice(),
        &mut told,
    )?;
    join(
        alloc,
        rules,
        nodes,
        Side::Sought,
        place,
        &mut pending.sought,
        pending.seeking.as_slice(),
        &mut told,
    )?;
    Ok(told)
}

/// Tells each of some rows where the awaited node is marked, and lets it wait where it isn't.
fn wait_all<N: Ord + Drop>(
    places: &BTreeMap<N, u32>,
    place: u32,
    rows: List<(N, Need<N>)>,
    waiting: &mut Waiting<N>,
    told: &mut Vec<Mark<N>>,
) -> Result<(), Memory>
    requires { (x y : N) → N.cmp x y ≡ Equal → x ≡ y }
    ensures { OnOk result (AreParted N.cmp places.now place
        (λ b n rule. Contains rows (b, record { node = n; rule = rule })) told.old.items told.new.items
        waiting.old waiting.new) }
{
    let mut left = rows.into_vec();
    while let Some((awaited, need)) = left.pop() {
        wait_one(places, place, awaited, need, waiting, told)?;
    }
    Ok(())
}

/// Tells a row where the awaited node is marked, and lets it wait where it isn't.
fn wait_one<N: Ord + Drop>(
    places: &BTreeMap<N, u32>,
    place: u32,
    awaited: N,
    need: Need<N>,
    waiting: &mut Waiting<N>,
    told: &mut Vec<Mark<N>>,
) -> Result<(), Memory>
    requires { (x y : N) → N.cmp x y ≡ Equal → x ≡ y }
    ensures { OnOk result (AreParted N.cmp places.now place
        (λ b n rule. (awaited ≡ b) × (need.node ≡ n) × (need.rule ≡ rule)) told.old.items told.new.items
        waiting.old waiting.new) }
{
    let Need { node, rule } = need;
    match places.get(&awaited) {
        Some(also) => {
            told.push(Mark {
                node,
                rule,
                from: Some(place),
                also: Some(*also),
            })?;
            Ok(())
        }
        None => {
            let from = place;
            waiting.add(awaited, Waiter { node, rule, from })?;
            Ok(())
        }
    }
}

/// Adds a place to those of a side, where its node can be on that side, and tells what it gives with each of the other.
fn join<R: Rules>(
    alloc: Global,
    rules: &R,
    nodes: &Nodes<R::Node>,
    side: Side,
    place: u32,
    those: &mut Vec<u32>,
    others: &[u32],
    told: &mut Vec<Mark<R::Node>>,
) -> Result<(), Memory>
    requires own { All (R.is_own rules.now) (nodes_of nodes.now.marks) }
    requires place { place < length (nodes_of nodes.now.marks) }
    requires others { All (λ q. q < length (nodes_of nodes.now.marks)) others.now }
    ensures { OnOk result (Joins
        (IsNamed (R.is_root rules.now) (row_by (R.gives rules.now) (R.awaits rules.now) (R.meets_in rules.now))
        (nodes_of nodes.now.marks)) (can_be_on side (R.can_seek rules.now) (R.can_be_sought rules.now))
        (λ n. (q : ℕ) × Contains others.now q
        × MeetOn side (R.meets_in rules.now) (nodes_of nodes.now.marks) place q n)
        (nodes_of nodes.now.marks) place told.old.items told.new.items those.old.items those.new.items) }
{
    if !can_be_on(rules, side, nodes.node(place)) {
        return Ok(());
    }
    meet_all(alloc, rules, nodes, side, place, others, told)?;
    those.push(place)?;
    Ok(())
}

/// Whether a node may be on this side of two that meet.
fn can_be_on<R: Rules>(rules: &R, side: Side, node: &R::Node) -> bool
    requires { R.is_own rules.now node.now }
    ensures { result ≡ can_be_on side (R.can_seek rules.now) (R.can_be_sought rules.now) node.now }
{
    match side {
        Side::Seeking => rules.seeks(node),
        Side::Sought => rules.is_sought(node),
    }
}

/// Tells what the node at a place on this side gives with each on the other.
fn meet_all<R: Rules>(
    alloc: Global,
    rules: &R,
    nodes: &Nodes<R::Node>,
    side: Side,
    place: u32,
    others: &[u32],
    told: &mut Vec<Mark<R::Node>>,
) -> Result<(), Memory>
    requires own { All (R.is_own rules.now) (nodes_of nodes.now.marks) }
    requires place { place < length (nodes_of nodes.now.marks) }
    requires others { All (λ q. q < length (nodes_of nodes.now.marks)) others.now }
    ensures { OnOk result (Tells
        (IsNamed (R.is_root rules.now) (row_by (R.gives rules.now) (R.awaits rules.now) (R.meets_in rules.now))
        (nodes_of nodes.now.marks))
        (λ n. (q : ℕ) × Contains others.now q
        × MeetOn side (R.meets_in rules.now) (nodes_of nodes.now.marks) place q n)
        told.old.items told.new.items) }
{
    for other in others {
        meet_on(alloc, rules, nodes, side, place, *other, told)?;
    }
    Ok(())
}

/// Tells what the node at a place on this side gives with one on the other.
fn meet_on<R: Rules>(
    alloc: Global,
    rules: &R,
    nodes: &Nodes<R::Node>,
    side: Side,
    place: u32,
    other: u32,
    told: &mut Vec<Mark<R::Node>>,
) -> Result<(), Memory>
    requires own { All (R.is_own rules.now) (nodes_of nodes.now.marks) }
    requires place { place < length (nodes_of nodes.now.marks) }
    requires other { other < length (nodes_of nodes.now.marks) }
    ensures { OnOk result (Tells
        (IsNamed (R.is_root rules.now) (row_by (R.gives rules.now) (R.awaits rules.now) (R.meets_in rules.now))
        (nodes_of nodes.now.marks)) (MeetOn side (R.meets_in rules.now) (nodes_of nodes.now.marks) place other)
        told.old.items told.new.items) }
{
    match side {
        Side::Seeking => meet(alloc, rules, nodes, place, other, told),
        Side::Sought => meet(alloc, rules, nodes, other, place, told),
    }
}

/// Tells what the nodes at two places give where they meet.
fn meet<R: Rules>(
    alloc: Global,
    rules: &R,
    nodes: &Nodes<R::Node>,
    from: u32,
    also: u32,
    told: &mut Vec<Mark<R::Node>>,
) -> Result<(), Memory>
    requires own { All (R.is_own rules.now) (nodes_of nodes.now.marks) }
    requires from { from < length (nodes_of nodes.now.marks) }
    requires also { also < length (nodes_of nodes.now.marks) }
    ensures { OnOk result (Tells
        (IsNamed (R.is_root rules.now) (row_by (R.gives rules.now) (R.awaits rules.now) (R.meets_in rules.now))
        (nodes_of nodes.now.marks)) (MeetAt (R.meets_in rules.now) (nodes_of nodes.now.marks) from also)
        told.old.items told.new.items) }
{
    let a = nodes.node(from);
    let b = nodes.node(also);
    let needs = rules.meets(alloc, a, b)?;
    tell_needs(told, needs, from, Some(also))
}
