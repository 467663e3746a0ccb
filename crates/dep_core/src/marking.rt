//! The marks so far.
ghost use Rattle.std.specs.Prelude.{◌≡◌, ◌<◌, ◌^◌, [], ◌∷◌, ◌++◌, All, Contains, length, Some, OnOk, IfErr};
ghost use Rattle.std.specs.BTreeMap.{Updates};
ghost use Rattle.dep_core.specs.Kept.{row_by};
ghost use Rattle.dep_core.specs.Marks.{nodes_of, IsPassed};
ghost use Rattle.dep_core.specs.UnderWay.{AreMarked, IsNamed, IsSound};

use crate::mark::{DepFault, Mark};
use crate::nodes::Nodes;
use crate::rules::Rules;
use num_core::Memory;
use std::alloc::Global;
use std::collections::BTreeMap;

/// How many nodes may be marked, and how deep they may be.
#[derive(Clone, Copy)]
pub(crate) struct Limits {
    pub(crate) nodes: u32,
    pub(crate) depth: u32,
}

/// The marked nodes, and the place of each.
#[derive(Drop)]
pub(crate) struct Marking<N: Ord> {
    pub(crate) nodes: Nodes<N>,
    pub(crate) places: BTreeMap<N, u32>,
}

/// Marks what was told, in some order, where it isn't marked yet.
pub(crate) fn mark_all<R: Rules>(
    alloc: Global,
    rules: &R,
    limits: Limits,
    marking: &mut Marking<R::Node>,
    mut told: Vec<Mark<R::Node>>,
) -> Result<(), DepFault<R::Node>>
    requires sound { IsSound (R.is_root rules.now)
        (row_by (R.gives rules.now) (R.awaits rules.now) (R.meets_in rules.now)) (R.is_own rules.now)
        (R.depth_of rules.now) R.Node.cmp limits.nodes limits.depth marking.old.nodes.marks marking.old.places }
    requires named { All (IsNamed (R.is_root rules.now)
        (row_by (R.gives rules.now) (R.awaits rules.now) (R.meets_in rules.now)) (nodes_of marking.old.nodes.marks))
        told.items }
    ensures marked { OnOk result (AreMarked (R.is_root rules.now)
        (row_by (R.gives rules.now) (R.awaits rules.now) (R.meets_in rules.now)) (R.is_own rules.now)
        (R.depth_of rules.now) R.Node.cmp limits.nodes limits.depth told.items marking.old.nodes.marks
        marking.new.nodes.marks marking.new.places marking.old.nodes.work marking.new.nodes.work) }
    ensures fault { IfErr result (IsPassed (R.is_root rules.now)
        (row_by (R.gives rules.now) (R.awaits rules.now) (R.meets_in rules.now)) (R.depth_of rules.now)
        limits.nodes limits.depth) }
{
    while let Some(mark) = told.pop() {
        mark_one(alloc, rules, limits, marking, mark)?;
    }
    Ok(())
}

/// Marks a node, if it isn't marked yet.
fn mark_one<R: Rules>(
    alloc: Global,
    rules: &R,
    limits: Limits,
    marking: &mut Marking<R::Node>,
    mark: Mark<R::Node>,
) -> Result<(), DepFault<R::Node>>
    requires sound { IsSound (R.is_root rules.now)
        (row_by (R.gives rules.now) (R.awaits rules.now) (R.meets_in rules.now)) (R.is_own rules.now)
        (R.depth_of rules.now) R.Node.cmp limits.nodes limits.depth marking.old.nodes.marks marking.old.places }
    requires named { IsNamed (R.is_root rules.now)
        (row_by (R.gives rules.now) (R.awaits rules.now) (R.meets_in rules.now)) (nodes_of marking.old.nodes.marks)
        mark }
    ensures marked { OnOk result (AreMarked (R.is_root rules.now)
        (row_by (R.gives rules.now) (R.awaits rules.now) (R.meets_in rules.now)) (R.is_own rules.now)
        (R.depth_of rules.now) R.Node.cmp limits.nodes limits.depth (mark ∷ []) marking.old.nodes.marks
        marking.new.nodes.marks marking.new.places marking.old.nodes.work marking.new.nodes.work) }
    ensures fault { IfErr result (IsPassed (R.is_root rules.now)
        (row_by (R.gives rules.now) (R.awaits rules.now) (R.meets_in rules.now)) (R.depth_of rules.now)
        limits.nodes limits.depth) }
{
    if marking.places.contains_key(&mark.node) {
        return Ok(());
    }
    add(alloc, rules, limits, marking, mark)
}

/// Marks a node that isn't marked, unless it passes a limit.
fn add<R: Rules>(
    alloc: Global,
    rules: &R,
    limits: Limits,
    marking: &mut Marking<R::Node>,
    mark: Mark<R::Node>,
) -> Result<(), DepFault<R::Node>>
    requires sound { IsSound (R.is_root rules.now)
        (row_by (R.gives rules.now) (R.awaits rules.now) (R.meets_in rules.now)) (R.is_own rules.now)
        (R.depth_of rules.now) R.Node.cmp limits.nodes limits.depth marking.old.nodes.marks marking.old.places }
    requires named { IsNamed (R.is_root rules.now)
        (row_by (R.gives rules.now) (R.awaits rules.now) (R.meets_in rules.now)) (nodes_of marking.old.nodes.marks)
        mark }
    requires unmarked { ¬ Contains (nodes_of marking.old.nodes.marks) mark.node }
    ensures marked { OnOk result (AreMarked (R.is_root rules.now)
        (row_by (R.gives rules.now) (R.awaits rules.now) (R.meets_in rules.now)) (R.is_own rules.now)
        (R.depth_of rules.now) R.Node.cmp limits.nodes limits.depth (mark ∷ []) marking.old.nodes.marks
        marking.new.nodes.marks marking.new.places marking.old.nodes.work marking.new.nodes.work) }
    ensures fault { IfErr result (IsPassed (R.is_root rules.now)
        (row_by (R.gives rules.now) (R.awaits rules.now) (R.meets_in rules.now)) (R.depth_of rules.now)
        limits.nodes limits.depth) }
{
    if limits.depth < rules.depth(&mark.node) {
        let Mark {
            node,
            rule: _,
            from: _,
            also: _,
        } = mark;
        return Err(DepFault::DepthLimit(node));
    }
    if limits.nodes as usize <= marking.nodes.len() {
        return Err(DepFault::NodeLimit(limits.nodes as u64 + 1));
    }
    match append(alloc, rules, marking, mark) {
        Ok(()) => Ok(()),
        Err(_) => Err(DepFault::Memory),
    }
}

/// Puts a mark behind the others. Its place waits for work.
fn append<R: Rules>(
    alloc: Global,
    rules: &R,
    marking: &mut Marking<R::Node>,
    mark: Mark<R::Node>,
) -> Result<(), Memory>
    requires few { length marking.old.nodes.marks < 2 ^ 32 }
    requires own { R.is_own rules.now mark.node }
    ensures marks { OnOk result (marking.new.nodes.marks ≡ marking.old.nodes.marks ++ mark ∷ []) }
    ensures places { OnOk result (Updates R.Node.cmp marking.old.places marking.new.places mark.node
        (Some (length marking.old.nodes.marks))) }
    ensures work { OnOk result
        (marking.new.nodes.work ≡ marking.old.nodes.work ++ length marking.old.nodes.marks ∷ []) }
{
    let place = marking.nodes.len() as u32;
    let node = rules.copy(alloc, &mark.node)?;
    marking.places.insert(node, place)?;
    marking.nodes.push(mark)
}
