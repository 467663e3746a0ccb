//! The records of the marked nodes, and the chains through them.
ghost use Rattle.std.specs.Prelude.{◌≡◌, ◌<◌, ◌≤◌, ◌^◌, [], ◌∷◌, ◌++◌, All, length, slice_get, Some, IfOk, OnOk};
ghost use Rattle.std.specs.Prelude.{MatchOption};
ghost use Rattle.std.specs.List.Sorted.{IsPermutation};
ghost use Rattle.link_lists.specs.Chains.{places, IsSound};
ghost use Rattle.dep_core.specs.Marks.{nodes_of};
ghost use Rattle.dep_core.specs.Records.{work_links};

use crate::mark::{Mark, Marked};
use crate::rules::Rules;
use link_lists::laws::chains_in_a_growing_pool;
use link_lists::{Chain, Link, Linked};
use num_core::{List, Memory};
use raw_pool::RawPool;
use std::alloc::Global;
use std::marker::Model;

/// The record of a marked node, with its links in the chain of the marked nodes and in the chain of those that wait for
/// work.
#[derive(Drop)]
pub(crate) struct NodeRecord<N> {
    pub(crate) mark: Mark<N>,
    pub(crate) marked: Link,
    pub(crate) work: Link,
}

impl<N> Linked<0> for NodeRecord<N> {
    ghost use Rattle.link_lists.specs.Links.{free};
    ghost use Rattle.std.specs.Prelude.{◌≡◌};

    ghost link_of = { λ r. r.marked };

    ghost rest = { λ r. record r { marked = free } };

    fn link(&self) -> Link {
        self.marked
    }

    fn set_link(&mut self, to: Link) {
        self.marked = to;
    }

    ghost whole = { λ x y link rest i. record { mark = (rest i).mark; marked = link i; work = (rest i).work } };
}

impl<N> Linked<1> for NodeRecord<N> {
    ghost use Rattle.link_lists.specs.Links.{free};
    ghost use Rattle.std.specs.Prelude.{◌≡◌};

    ghost link_of = { λ r. r.work };

    ghost rest = { λ r. record r { work = free } };

    fn link(&self) -> Link {
        self.work
    }

    fn set_link(&mut self, to: Link) {
        self.work = to;
    }

    ghost whole = { λ x y link rest i. record { mark = (rest i).mark; marked = (rest i).marked; work = link i } };
}

/// The marked nodes, each with its record in a pool. Contracts see the marks, in the order in which the nodes were
/// marked, and the places that wait for work.
///
/// The place of a node's record is the number of its mark.
#[derive(Drop)]
pub(crate) struct Nodes<N> {
    records: RawPool<NodeRecord<N>>,
    marked: Chain<0>,
    work: Chain<1>,
    waiting: usize,
}

impl<N> Model for Nodes<N> {
    ghost use Rattle.dep_core.specs.Noted.{Noted};

    ghost Value = { Noted N };

    ghost use Rattle.dep_core.specs.Records.{marks_of, work_links, AreLinked};
    ghost use Rattle.link_lists.specs.Chains.{places};

    ghost view = { λ s. record { marks = marks_of s.records; work = places s.work (work_links s.records) } };

    ghost invariant = { λ s. AreLinked s.records s.marked s.work s.waiting };
}

impl<N: Drop> Nodes<N> {
    /// No nodes.
    pub(crate) fn new(alloc: Global) -> Nodes<N>
        ensures marks { result.marks ≡ [] }
        ensures work { result.work ≡ [] }
    {
        Nodes {
            records: RawPool::new(alloc),
            marked: Chain::new(),
            work: Chain::new(),
            waiting: 0,
        }
    }

    /// How many nodes are marked.
    pub(crate) fn len(&self) -> usize
        ensures { result ≡ length self.now.marks }
    {
        self.records.len()
    }

    /// How many places wait for work.
    pub(crate) fn waiting(&self) -> usize
        ensures { result ≡ length self.now.work }
    {
        self.waiting
    }

    /// The marked node at a place.
    pub(crate) fn node(&self, place: u32) -> &N
        requires { place < length (nodes_of self.now.marks) }
        ensures { slice_get (nodes_of self.now.marks) place ≡ Some result.now }
    {
        &self.records.get(place as usize).mark.node
    }

    /// Puts a mark behind the others. Its place waits for work.
    pub(crate) fn push(&mut self, mark: Mark<N>) -> Result<(), Memory>
        requires few { length self.old.marks < 2 ^ 32 }
        ensures marks { OnOk result (self.new.marks ≡ self.old.marks ++ mark ∷ []) }
        ensures work { OnOk result (self.new.work ≡ self.old.work ++ length self.old.marks ∷ []) }
    {
        chains_in_a_growing_pool();
        let record = NodeRecord {
            mark,
            marked: Link::free(),
            work: Link::free(),
        };
        let Ok(place) = self.records.push(record) else {
            return Err(Memory);
        };
        self.marked.push_back(&mut self.records, place as u32);
        self.work.push_back(&mut self.records, place as u32);
        self.waiting += 1;
        Ok(())
    }

    /// Takes a place out of those that wait for work, which is so many behind the first.
    pub(crate) fn take_work(&mut self, behind: usize) -> Option<u32>
        ensures marks { self.new.marks ≡ self.old.marks }
        ensures work { MatchOption result (length self.old.work ≤ behind)
            (λ place. IsPermutation self.old.work (place ∷ self.new.work)) }
    {
        let place = place_behind(&self.records, &self.work, behind)?;
        self.work.unlink(&mut self.records, place);
        self.waiting -= 1;
        Some(place)
    }
}

/// The place in the chain of those that wait for work which is so many behind the first.
fn place_behind<N>(records: &RawPool<NodeRecord<N>>, work: &Chain<1>, behind: usize) -> Option<u32>
    requires { IsSound work.now (work_links records.now) }
    ensures { result ≡ slice_get (places work.now (work_links records.now)) behind }
{
    work.walk(records).nth(behind)
}

/// The marks, in the order in which the nodes were marked.
pub(crate) fn marks_in_order<R: Rules>(
    alloc: Global,
    rules: &R,
    nodes: &Nodes<R::Node>,
) -> Result<Marked<R::Node>, Memory>
    requires { All (R.is_own rules.now) (nodes_of nodes.now.marks) }
    ensures { IfOk result (λ marks. marks ≡ nodes.now.marks) }
{
    let mut marks = List::new(alloc);
    for place in nodes.marked.walk(&nodes.records) {
        let mark = &nodes.records.get(place as usize).mark;
        let node = rules.copy(alloc, &mark.node)?;
        let copied = Mark {
            node,
            rule: mark.rule,
            from: mark.from,
            also: mark.also,
        };
        let Ok(()) = marks.push(copied) else {
            return Err(Memory);
        };
    }
    Ok(marks)
}
