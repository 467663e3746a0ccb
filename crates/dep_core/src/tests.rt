ghost use Rattle.std.specs.Prelude.{◌≡◌, ◌+◌, ◌*◌, ◌%◌, ◌<◌, ℕ, [], ◌∷◌, IfOk, slice_index};

use crate::{DepFault, Marked, Need, Pick, Rules, analyze};
use num_core::{List, Memory};
use std::alloc::Global;
use std::cell::Cell;
use std::test::Fail;
use std::time::Instant;

#[derive(Drop)]
enum Order {
    First,
    Last,
    Rising(usize),
}

impl Pick for Order {
    fn pick(&mut self, waiting: usize) -> usize {
        match self {
            Order::First => 0,
            Order::Last => waiting.saturating_sub(1),
            Order::Rising(next) => {
                *next = next.wrapping_add(1);
                *next
            }
        }
    }
}

/// How often each call of some rules was made.
#[derive(Drop)]
struct Calls {
    always: Cell<u32>,
    awaiting: Cell<u32>,
    meets: Cell<u32>,
}

fn no_calls() -> Calls {
    Calls {
        always: Cell::new(0),
        awaiting: Cell::new(0),
        meets: Cell::new(0),
    }
}

fn count(calls: &Cell<u32>) {
    calls.set(calls.get().wrapping_add(1));
}

fn no_needs(alloc: Global) -> List<Need<u32>>
    ensures { result ≡ [] }
{
    List::new(alloc)
}

fn one_need(alloc: Global, node: u32, rule: u8) -> Result<List<Need<u32>>, Memory>
    ensures { IfOk result (λ needs. needs ≡ record { node = node; rule = rule } ∷ []) }
{
    let mut needs = List::new(alloc);
    needs.push(Need { node, rule }).map_err(|_| Memory)?;
    Ok(needs)
}

fn one_row(
    alloc: Global,
    awaited: u32,
    node: u32,
    rule: u8,
) -> Result<List<(u32, Need<u32>)>, Memory>
    ensures { IfOk result (λ rows. rows ≡ (awaited, record { node = node; rule = rule }) ∷ []) }
{
    let mut rows = List::new(alloc);
    rows.push((awaited, Need { node, rule }))
        .map_err(|_| Memory)?;
    Ok(rows)
}

/// The root is 1, each number below 100 gives its double, and 2 and 8 together give 3.
#[derive(Drop)]
struct Numbers {
    calls: Calls,
}

impl Rules for Numbers {
    ghost use Rattle.std.specs.Prelude.{◌≡◌, ℕ, ◌==◌, ◌*◌, ◌/◌, [], ◌∷◌, Contains, false, nat_lt, if◌then◌else◌};
    ghost use Rattle.std.proofs.lemmas.Map.Lookups.{exact_unsigned};
    ghost use Rattle.dep_core.specs.declared.rules.Need.{Need as NeedOf};

    type Node = u32;

    ghost is_own = { λ rules n. Unit {0} };

    ghost is_root = { λ rules n. Contains (1 ∷ []) n };

    ghost gives = { λ rules a n rule. Contains {X = NeedOf ℕ}
        (if nat_lt a 100 then record { node = 2 * a; rule = 1 } ∷ [] else []) (record { node = n; rule = rule }) };

    ghost awaits = { λ rules a b n rule. Contains {X = ℕ × NeedOf ℕ}
        (if a == 2 then (8, record { node = 3; rule = 2 }) ∷ [] else []) (b, record { node = n; rule = rule }) };

    ghost meets_in = { λ rules a b n rule. ⊥ };

    ghost can_seek = { λ rules a. false };

    ghost can_be_sought = { λ rules a. false };

    ghost depth_of = { λ rules a. a / 64 };

    fn copy(&self, _alloc: Global, node: &u32) -> Result<u32, Memory> {
        Ok(*node)
    }

    fn roots(&self, alloc: Global) -> Result<List<u32>, Memory> {
        List::from_slice(alloc, &[1])
    }

    fn always(&self, alloc: Global, node: &u32) -> Result<List<Need<u32>>, Memory> {
        count(&self.calls.always);
        let number = *node;
        if number < 100 {
            one_need(alloc, 2 * number, 1)
        } else {
            Ok(no_needs(alloc))
        }
    }

    fn awaiting(&self, alloc: Global, node: &u32) -> Result<List<(u32, Need<u32>)>, Memory> {
        count(&self.calls.awaiting);
        let number = *node;
        if number == 2 {
            one_row(alloc, 8, 3, 2)
        } else {
            Ok(List::new(alloc))
        }
    }

    fn meets(&self, alloc: Global, _a: &u32, _b: &u32) -> Result<List<Need<u32>>, Memory> {
        count(&self.calls.meets);
        Ok(no_needs(alloc))
    }

    fn seeks(&self, _node: &u32) -> bool {
        false
    }

    fn is_sought(&self, _node: &u32) -> bool {
        false
    }

    fn depth(&self, node: &u32) -> u32 {
        *node / 64
    }

    ghost one_node = { exact_unsigned };

    ghost own_roots = { λ rules n h. tt };

    ghost own_gives = { λ rules a n rule h k. tt };

    ghost own_awaits = { λ rules a b n rule h k j. tt };

    ghost own_meets = { λ rules a b n rule h k j. tt };

    ghost sought_meets = { λ rules a b n rule h. absurd h };
}

/// Rules over the numbers below 16, read from a table: each gives one by itself, one once another is kept, and one with
/// each that it meets, which is any.
#[derive(Drop)]
struct Table {
    numbers: [u32; 64],
    calls: Calls,
}

/// The table that follows from a number.
fn table_of(seed: u32) -> Table {
    let mut numbers = [0; 64];
    let mut next = seed;
    for number in numbers.iter_mut() {
        next = next.wrapping_mul(1_103_515_245).wrapping_add(12_345);
        *number = (next >> 16) % 16;
    }
    Table {
        numbers,
        calls: no_calls(),
    }
}

impl Table {
    fn at(&self, part: usize, node: u32) -> u32
        requires { part < 4 }
        ensures { result ≡ slice_index self.now.numbers (part * 16 + node % 16) }
    {
        self.numbers[part * 16 + (node % 16) as usize]
    }
}

impl Rules for Table {
    ghost use Rattle.std.specs.Prelude.{◌≡◌, ℕ, ◌*◌, ◌+◌, ◌%◌, [], ◌∷◌, Contains, true, refl, slice_index};
    ghost use Rattle.std.specs.Prelude.{nat_lt, if◌then◌else◌};
    ghost use Rattle.std.proofs.lemmas.Map.Lookups.{exact_unsigned};
    ghost use Rattle.dep_core.specs.declared.rules.Need.{Need as NeedOf};

    type Node = u32;

    ghost is_own = { λ rules n. Unit {0} };

    ghost is_root = { λ rules n. Contains (0 ∷ []) n };

    ghost gives = { λ rules a n rule. Contains {X = NeedOf ℕ}
        (record { node = slice_index rules.numbers (0 * 16 + a % 16); rule = 1 } ∷ [])
        (record { node = n; rule = rule }) };

    ghost awaits = { λ rules a b n rule. Contains {X = ℕ × NeedOf ℕ}
        ((
          slice_index rules.numbers (1 * 16 + a % 16),
          record { node = slice_index rules.numbers (2 * 16 + a % 16); rule = 2 },
        ) ∷ [])
        (b, record { node = n; rule = rule }) };

    ghost meets_in = { λ rules a b n rule. Contains {X = NeedOf ℕ}
        (if nat_lt (a % 16 + b % 16) 4
        then record { node = slice_index rules.numbers (3 * 16 + a % 16); rule = 3 } ∷ [] else [])
        (record { node = n; rule = rule }) };

    ghost can_seek = { λ rules a. true };

    ghost can_be_sought = { λ rules a. true };

    ghost depth_of = { λ rules a. a };

    fn copy(&self, _alloc: Global, node: &u32) -> Result<u32, Memory> {
        Ok(*node)
    }

    fn roots(&self, alloc: Global) -> Result<List<u32>, Memory> {
        List::from_slice(alloc, &[0])
    }

    fn always(&self, alloc: Global, node: &u32) -> Result<List<Need<u32>>, Memory> {
        one_need(alloc, self.at(0, *node), 1)
    }

    fn awaiting(&self, alloc: Global, node: &u32) -> Result<List<(u32, Need<u32>)>, Memory> {
        one_row(alloc, self.at(1, *node), self.at(2, *node), 2)
    }

    fn meets(&self, alloc: Global, a: &u32, b: &u32) -> Result<List<Need<u32>>, Memory> {
        count(&self.calls.meets);
        if *a % 16 + *b % 16 < 4 {
            one_need(alloc, self.at(3, *a), 3)
        } else {
            Ok(no_needs(alloc))
        }
    }

    fn seeks(&self, _node: &u32) -> bool {
        true
    }

    fn is_sought(&self, _node: &u32) -> bool {
        true
    }

    fn depth(&self, node: &u32) -> u32 {
        *node
    }

    ghost one_node = { exact_unsigned };

    ghost own_roots = { λ rules n h. tt };

    ghost own_gives = { λ rules a n rule h k. tt };

    ghost own_awaits = { λ rules a b n rule h k j. tt };

    ghost own_meets = { λ rules a b n rule h k j. tt };

    ghost sought_meets = { λ rules a b n rule h. (refl, refl) };
}

/// Puts a number into a list that hasn't it.
fn put(list: &mut Vec<u32>, number: u32) -> Result<(), Memory> {
    if !list.as_slice().contains(&number) {
        list.push(number)?;
    }
    Ok(())
}

fn put_all(list: &mut Vec<u32>, needs: &[Need<u32>]) -> Result<(), Memory> {
    for need in needs {
        put(list, need.node)?;
    }
    Ok(())
}

/// What the rules keep, by a plain search over a list: in each round all that the nodes so far give is added.
fn plain<R: Rules<Node = u32>>(alloc: Global, rules: &R, rounds: usize) -> Result<Vec<u32>, Memory>
    requires { (n : ℕ) → R.is_own rules.now n }
{
    let mut kept = Vec::new(alloc);
    let roots = rules.roots(alloc)?;
    for root in roots.as_slice() {
        put(&mut kept, *root)?;
    }
    for _round in 0..rounds {
        let before = Vec::from_slice(alloc, kept.as_slice())?;
        for a in &before {
            let needs = rules.always(alloc, a)?;
            put_all(&mut kept, needs.as_slice())?;
            let rows = rules.awaiting(alloc, a)?;
            for row in rows.as_slice() {
                if before.as_slice().contains(&row.0) {
                    put(&mut kept, row.1.node)?;
                }
            }
            for b in &before {
                let met = rules.meets(alloc, a, b)?;
                put_all(&mut kept, met.as_slice())?;
            }
        }
    }
    kept.sort()?;
    Ok(kept)
}

/// The marked nodes in rising order.
fn sorted(alloc: Global, marks: &Marked<u32>) -> Result<Vec<u32>, Memory> {
    let mut nodes = Vec::new(alloc);
    for mark in marks.as_slice() {
        nodes.push(mark.node)?;
    }
    nodes.sort()?;
    Ok(nodes)
}

/// The nodes that the numbers mark, and how often the two calls were made that are made once for each.
fn number_nodes(alloc: Global, order: Order) -> Result<(Vec<u32>, u32, u32, u32), DepFault<u32>> {
    let mut order = order;
    let numbers = Numbers { calls: no_calls() };
    let marks = analyze(alloc, &numbers, &mut order, 100, 100)?;
    let calls = &numbers.calls;
    match sorted(alloc, &marks) {
        Ok(nodes) => Ok((
            nodes,
            calls.always.get(),
            calls.awaiting.get(),
            calls.meets.get(),
        )),
        Err(_) => Err(DepFault::Memory),
    }
}

#[test]
fn numbers_are_the_same_in_any_order(rt: HostRuntime) -> Result<(), Fail> {
    let expected = [1, 2, 3, 4, 6, 8, 12, 16, 24, 32, 48, 64, 96, 128, 192];
    let (first, always, awaiting, meets) = number_nodes(rt.alloc(), Order::First)?;
    assert_eq!(rt; first.as_slice(), expected.as_slice());
    assert_eq!(rt; (always, awaiting, meets), (15, 15, 0));
    let (last, always, awaiting, meets) = number_nodes(rt.alloc(), Order::Last)?;
    assert_eq!(rt; last.as_slice(), expected.as_slice());
    assert_eq!(rt; (always, awaiting, meets), (15, 15, 0));
    let (rising, always, awaiting, meets) = number_nodes(rt.alloc(), Order::Rising(0))?;
    assert_eq!(rt; rising.as_slice(), expected.as_slice());
    assert_eq!(rt; (always, awaiting, meets), (15, 15, 0));
    Ok(())
}

/// The number and the node that a fault of the numbers under these limits tells, 0 where it tells none.
fn number_fault(alloc: Global, nodes: u32, depth: u32) -> (u64, u32) {
    let numbers = Numbers { calls: no_calls() };
    match analyze(alloc, &numbers, &mut Order::First, nodes, depth) {
        Ok(_) => (0, 0),
        Err(DepFault::NodeLimit(count)) => (count, 0),
        Err(DepFault::DepthLimit(node)) => (0, node),
        Err(DepFault::Memory) => (1, 1),
    }
}

#[test]
fn limits_are_passed_by_one(rt: HostRuntime) {
    assert_eq!(rt; number_fault(rt.alloc(), 15, 3), (0, 0));
    assert_eq!(rt; number_fault(rt.alloc(), 14, 3), (15, 0));
    assert_eq!(rt; number_fault(rt.alloc(), 15, 2), (0, 192));
}

/// Whether the analysis of a table marks what the plain search finds, and asks once of each two nodes.
fn agrees(alloc: Global, seed: u32) -> Result<bool, DepFault<u32>> {
    let rules = table_of(seed);
    let marks = analyze(alloc, &rules, &mut Order::Rising(seed as usize), 16, 16)?;
    let asked = rules.calls.meets.get() as usize;
    match (sorted(alloc, &marks), plain(alloc, &rules, 16)) {
        (Ok(nodes), Ok(kept)) => {
            let once = marks.len().wrapping_mul(marks.len()) == asked;
            Ok(once && nodes.as_slice() == kept.as_slice())
        }
        _ => Err(DepFault::Memory),
    }
}

#[test]
fn small_rules_as_by_a_plain_search(rt: HostRuntime) -> Result<(), Fail> {
    for seed in 0..200 {
        assert!(rt; agrees(rt.alloc(), seed)?);
    }
    Ok(())
}

/// Each number below a limit gives the next, and its half once the number three further is kept.
#[derive(Drop)]
struct Steps {
    below: u32,
}

impl Rules for Steps {
    ghost use Rattle.std.specs.Prelude.{◌≡◌, ℕ, ◌+◌, ◌/◌, [], ◌∷◌, Contains, false, nat_lt, if◌then◌else◌};
    ghost use Rattle.std.proofs.lemmas.Map.Lookups.{exact_unsigned};
    ghost use Rattle.dep_core.specs.declared.rules.Need.{Need as NeedOf};

    type Node = u32;

    ghost is_own = { λ rules n. Unit {0} };

    ghost is_root = { λ rules n. Contains (0 ∷ []) n };

    ghost gives = { λ rules a n rule. Contains {X = NeedOf ℕ}
        (if nat_lt a rules.below then record { node = a + 1; rule = 1 } ∷ [] else [])
        (record { node = n; rule = rule }) };

    ghost awaits = { λ rules a b n rule. Contains {X = ℕ × NeedOf ℕ}
        (if nat_lt a 4294967292 then (a + 3, record { node = a / 2; rule = 2 }) ∷ [] else [])
        (b, record { node = n; rule = rule }) };

    ghost meets_in = { λ rules a b n rule. ⊥ };

    ghost can_seek = { λ rules a. false };

    ghost can_be_sought = { λ rules a. false };

    ghost depth_of = { λ rules a. 0 };

    fn copy(&self, _alloc: Global, node: &u32) -> Result<u32, Memory> {
        Ok(*node)
    }

    fn roots(&self, alloc: Global) -> Result<List<u32>, Memory> {
        List::from_slice(alloc, &[0])
    }

    fn always(&self, alloc: Global, node: &u32) -> Result<List<Need<u32>>, Memory> {
        let number = *node;
        if number < self.below {
            one_need(alloc, number + 1, 1)
        } else {
            Ok(no_needs(alloc))
        }
    }

    fn awaiting(&self, alloc: Global, node: &u32) -> Result<List<(u32, Need<u32>)>, Memory> {
        let number = *node;
        if number < 4_294_967_292 {
            one_row(alloc, number + 3, number / 2, 2)
        } else {
            Ok(List::new(alloc))
        }
    }

    fn meets(&self, alloc: Global, _a: &u32, _b: &u32) -> Result<List<Need<u32>>, Memory> {
        Ok(no_needs(alloc))
    }

    fn seeks(&self, _node: &u32) -> bool {
        false
    }

    fn is_sought(&self, _node: &u32) -> bool {
        false
    }

    fn depth(&self, _node: &u32) -> u32 {
        0
    }

    ghost one_node = { exact_unsigned };

    ghost own_roots = { λ rules n h. tt };

    ghost own_gives = { λ rules a n rule h k. tt };

    ghost own_awaits = { λ rules a b n rule h k j. tt };

    ghost own_meets = { λ rules a b n rule h k j. tt };

    ghost sought_meets = { λ rules a b n rule h. absurd h };
}

#[test]
fn two_hundred_thousand_nodes(rt: HostRuntime) -> Result<(), Fail> {
    let steps = Steps { below: 199_999 };
    let start = Instant::now(&rt)?;
    let marks = analyze(rt.alloc(), &steps, &mut Order::Last, 200_000, 0)?;
    let time = start.elapsed(&rt)?;
    println!(rt; "200000 nodes in {} milliseconds", time.as_millis())?;
    assert_eq!(rt; marks.len(), 200_000);
    Ok(())
}
