//! Places that lie on no cycle, by one walk over the graph.
ghost use Rattle.std.specs.Prelude.{IfOk};
ghost use Rattle.graph_cycles.specs.Marks.{AreOff};

use crate::marks::{are_done, is_done, mark, targets, unmarked};
use num_core::{List, Memory};
use std::alloc::Global;

/// All places of a graph.
fn places(alloc: Global, graph: &[List<usize>]) -> Result<Vec<usize>, Memory> {
    let mut places = Vec::new(alloc);
    for place in 0..graph.len() {
        places.push(place)?;
    }
    Ok(places)
}

/// How many steps the walk takes at most: a place waits from the begin, once more when it is entered, and once for each
/// place that leads to it.
fn step_count(graph: &[List<usize>]) -> usize {
    let mut count = graph.len().saturating_add(graph.len());
    for targets in graph {
        count = count.saturating_add(targets.len());
    }
    count
}

/// Enters a place: it waits, and in front of it those that it leads to and that weren't entered.
fn enter(
    graph: &[List<usize>],
    entered: &mut [bool],
    waiting: &mut Vec<usize>,
    place: usize,
) -> Result<(), Memory> {
    mark(entered, place);
    waiting.push(place)?;
    for target in targets(graph, place) {
        if !is_done(entered, *target) {
            waiting.push(*target)?;
        }
    }
    Ok(())
}

/// Leaves a place, if all that it leads to were left.
fn leave(graph: &[List<usize>], left: &mut [bool], place: usize)
    requires { AreOff graph.now left.old }
    ensures { AreOff graph.now left.new }
{
    if !is_done(left, place) && are_done(left, targets(graph, place)) {
        mark(left, place);
    }
}

/// Marks of places that lie on no cycle: of all of them where there is no cycle, in a time that is linear in the size of
/// the graph.
pub(crate) fn places_off_cycles(alloc: Global, graph: &[List<usize>]) -> Result<Vec<bool>, Memory>
    ensures { IfOk result (λ marks. AreOff graph.now marks.items) }
{
    let mut entered = unmarked(alloc, graph.len())?;
    let mut left = unmarked(alloc, graph.len())?;
    let mut waiting = places(alloc, graph)?;
    for _step in 0..step_count(graph) {
        let Some(place) = waiting.pop() else {
            break;
        };
        if is_done(entered.as_slice(), place) {
            leave(graph, left.as_mut_slice(), place);
        } else {
            enter(graph, entered.as_mut_slice(), &mut waiting, place)?;
        }
    }
    Ok(left)
}
