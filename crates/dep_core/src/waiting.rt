//! What waits for nodes that aren't marked.
ghost use Rattle.std.specs.Prelude.{◌≡◌, ℕ, ◌<◌, false, [], ◌∷◌, ◌++◌, length, slice_set, Some, None, IfOk, OnOk};
ghost use Rattle.std.specs.Prelude.{OnErr, IfSome, MatchOption, get_or, map};
ghost use Rattle.std.specs.Ordering.{is_eq};
ghost use Rattle.std.specs.BTreeMap.{get, Updates};
ghost use Rattle.link_lists.specs.Links.{free};
ghost use Rattle.link_lists.specs.Chains.{IsSound, places};
ghost use Rattle.dep_core.specs.Awaited.{held_in, in_front, waiters_in, waiting_links, IsChainOf, Spares};
ghost use Rattle.dep_core.specs.UnderWay.{AreTold, mark_of, waiters_of};

use crate::mark::Mark;
use link_lists::laws::chains_in_a_growing_pool;
use link_lists::{Chain, Link, Linked};
use num_core::Memory;
use raw_pool::RawPool;
use std::alloc::Global;
use std::collections::BTreeMap;
use std::marker::Model;

/// A node that is needed once another is kept, with its rule and the place of the node that awaits the other.
#[derive(Drop)]
pub(crate) struct Waiter<N> {
    pub(crate) node: N,
    pub(crate) rule: u8,
    pub(crate) from: u32,
}

/// The record of a waiter, with its link in the chain of those that await one node. It has no waiter any more once that
/// node is marked.
#[derive(Drop)]
pub(crate) struct WaiterRecord<N> {
    pub(crate) waiter: Option<Waiter<N>>,
    pub(crate) waiting: Link,
}

impl<N> Linked<2> for WaiterRecord<N> {
    ghost use Rattle.link_lists.specs.Links.{free};
    ghost use Rattle.std.specs.Prelude.{◌≡◌};

    ghost link_of = { λ r. r.waiting };

    ghost rest = { λ r. record r { waiting = free } };

    fn link(&self) -> Link {
        self.waiting
    }

    fn set_link(&mut self, to: Link) {
        self.waiting = to;
    }

    ghost whole = { λ x y link rest i. record { waiter = (rest i).waiter; waiting = link i } };
}

/// The waiters, each with its record in a pool, and for each awaited node the chain of those that await it. Contracts
/// see the awaited nodes, each with what waits for it.
#[derive(Drop)]
pub(crate) struct Waiting<N: Ord> {
    records: RawPool<WaiterRecord<N>>,
    chains: BTreeMap<N, Chain<2>>,
}

impl<N: Ord> Model for Waiting<N> {
    ghost use Rattle.std.specs.Prelude.{List};
    ghost use Rattle.dep_core.specs.declared.waiting.Waiter.{Waiter};

    ghost Value = { List (N × List (Waiter N)) };

    ghost use Rattle.dep_core.specs.Awaited.{awaited, waiting_links, AreChained};

    ghost view = { λ w. awaited w.records w.chains.entries };

    ghost invariant = { λ w. AreChained N.cmp (waiting_links w.records) w.chains };
}

impl<N: Ord + Drop> Waiting<N> {
    /// Nothing waits.
    pub(crate) fn new(alloc: Global) -> Waiting<N>
        ensures { result ≡ [] }
    {
        Waiting {
            records: RawPool::new(alloc),
            chains: BTreeMap::new(alloc),
        }
    }

    /// Adds a waiter for a node.
    pub(crate) fn add(&mut self, node: N, waiter: Waiter<N>) -> Result<(), Memory>
        ensures here { OnOk result
            (waiters_of N.cmp self.new node ≡ waiters_of N.cmp self.old node ++ waiter ∷ []) }
        ensures there { OnOk result ((other : N) → is_eq (N.cmp node other) ≡ false
            → waiters_of N.cmp self.new other ≡ waiters_of N.cmp self.old other) }
    {
        let chain = chain_of(&self.chains, &node);
        let chain = add_record(&mut self.records, chain, waiter)?;
        self.chains.insert(node, chain)?;
        Ok(())
    }

    /// Tells a mark for each of what waited for the node at a place, which nothing waits for any more.
    pub(crate) fn tell(
        &mut self,
        node: &N,
        also: u32,
        told: &mut Vec<Mark<N>>,
    ) -> Result<(), Memory>
        ensures told { OnOk result (AreTold (λ waiter. mark_of waiter.node waiter.rule (Some waiter.from) (Some also))
            (waiters_of N.cmp self.old node.now) told.old.items told.new.items) }
        ensures here { waiters_of N.cmp self.new node.now ≡ [] }
        ensures there { (other : N) → is_eq (N.cmp node.now other) ≡ false
            → waiters_of N.cmp self.new other ≡ waiters_of N.cmp self.old other }
    {
        let chain = take_chain(&mut self.chains, node);
        tell_chain(&mut self.records, chain, also, told)
    }
}

/// The chain of those that await a node, which has no places where none does.
fn chain_of<N: Ord>(chains: &BTreeMap<N, Chain<2>>, node: &N) -> Chain<2>
    ensures { IsChainOf (get N.cmp chains.now node.now) result }
{
    match chains.get(node) {
        Some(chain) => *chain,
        None => Chain::new(),
    }
}

/// Takes the chain of those that await a node, which has no places where none does.
fn take_chain<N: Ord + Drop>(chains: &mut BTreeMap<N, Chain<2>>, node: &N) -> Chain<2>
    ensures chain { IsChainOf (get N.cmp chains.old node.now) result }
    ensures updates { Updates N.cmp chains.old chains.new node.now None }
{
    match chains.remove(node) {
        Some(chain) => chain,
        None => Chain::new(),
    }
}

/// Puts a waiter's record behind the others, and its place behind those of a chain.
fn add_record<N: Drop>(
    records: &mut RawPool<WaiterRecord<N>>,
    chain: Chain<2>,
    waiter: Waiter<N>,
) -> Result<Chain<2>, Memory>
    requires { IsSound chain (waiting_links records.old) }
    ensures sound { IfOk result (λ longer. IsSound longer (waiting_links records.new)) }
    ensures places { IfOk result (λ longer. places longer (waiting_links records.new)
        ≡ places chain (waiting_links records.old) ++ length records.old ∷ []) }
    ensures waiters { IfOk result (λ longer. waiters_in records.new longer
        ≡ waiters_in records.old chain ++ waiter ∷ []) }
    ensures spares { OnOk result (Spares records.old records.new
        (places chain (waiting_links records.old) ++ length records.old ∷ [])) }
    ensures err { OnErr result (records.new ≡ records.old) }
{
    chains_in_a_growing_pool();
    let Ok(place) = u32::try_from(records.len()) else {
        return Err(Memory);
    };
    let record = WaiterRecord {
        waiter: Some(waiter),
        waiting: Link::free(),
    };
    let Ok(_) = records.push(record) else {
        return Err(Memory);
    };
    let mut longer = chain;
    longer.push_back(records, place);
    Ok(longer)
}

/// Tells a mark for each waiter of a chain, whose records have none then.
fn tell_chain<N: Drop>(
    records: &mut RawPool<WaiterRecord<N>>,
    chain: Chain<2>,
    also: u32,
    told: &mut Vec<Mark<N>>,
) -> Result<(), Memory>
    requires { IsSound chain (waiting_links records.old) }
    ensures told { OnOk result (AreTold (λ waiter. mark_of waiter.node waiter.rule (Some waiter.from) (Some also))
        (waiters_in records.old chain) told.old.items told.new.items) }
    ensures spares { Spares records.old records.new (places chain (waiting_links records.old)) }
{
    let mut left = chain;
    while let Some(waiter) = take_first(records, &mut left) {
        tell_waiter(waiter, also, told)?;
    }
    Ok(())
}

/// Takes the first place out of a chain, if there is one, and what its record has.
fn take_first<N: Drop>(
    records: &mut RawPool<WaiterRecord<N>>,
    chain: &mut Chain<2>,
) -> Option<Option<Waiter<N>>>
    requires { IsSound chain.old (waiting_links records.old) }
    ensures sound { IsSound chain.new (waiting_links records.new) }
    ensures places { MatchOption result (places chain.old (waiting_links records.old) ≡ []) (λ _. (at : ℕ)
        × (places chain.old (waiting_links records.old) ≡ at ∷ places chain.new (waiting_links records.new))) }
    ensures waiter { IfSome result (λ waiter. waiters_in records.old chain.old
        ≡ in_front waiter (waiters_in records.new chain.new)) }
    ensures spares { Spares records.old records.new (places chain.old (waiting_links records.old)) }
{
    let at = chain.pop_front(records)?;
    Some(take_waiter(records, at))
}

/// Takes what a record has.
fn take_waiter<N: Drop>(records: &mut RawPool<WaiterRecord<N>>, at: u32) -> Option<Waiter<N>>
    requires { at < length records.old }
    ensures waiter { result ≡ get_or (held_in records.old) at None }
    ensures held { held_in records.new ≡ slice_set (held_in records.old) at None }
    ensures links { waiting_links records.new ≡ waiting_links records.old }
{
    let record = records.get_mut(at as usize);
    record.waiter.take()
}

/// Tells a mark for a waiter, if there is one.
fn tell_waiter<N: Drop>(
    waiter: Option<Waiter<N>>,
    also: u32,
    told: &mut Vec<Mark<N>>,
) -> Result<(), Memory>
    ensures { OnOk result (told.new.items ≡ told.old.items
        ++ map (λ w. mark_of w.node w.rule (Some w.from) (Some also)) (in_front waiter [])) }
{
    let Some(waiter) = waiter else {
        return Ok(());
    };
    let Waiter { node, rule, from } = waiter;
    told.push(Mark {
        node,
        rule,
        from: Some(from),
        also: Some(also),
    })?;
    Ok(())
}
