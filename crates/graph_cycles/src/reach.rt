//! The places to which some way leads from a place.
ghost use Rattle.std.specs.Prelude.{◌≡◌, ◌<◌, false, length, replicate, IfOk, OnOk};
ghost use Rattle.graph_cycles.specs.Marks.{AreReached, Spread};
ghost use Rattle.graph_cycles.specs.Ways.{is_on_cycle as is_on_cycle_in};

use crate::marks::{is_done, is_marked, mark, targets, unmarked};
use num_core::{List, Memory};
use std::alloc::Global;

/// Marks places, and lets those wait that weren't marked.
fn spread(places: &[usize], marks: &mut [bool], waiting: &mut Vec<usize>) -> Result<(), Memory>
    ensures { OnOk result (Spread places.now marks.old marks.new waiting.old.items waiting.new.items) }
{
    for place in places {
        if !is_done(marks, *place) {
            mark(marks, *place);
            waiting.push(*place)?;
        }
    }
    Ok(())
}

/// Marks the places to which some way leads from a place, where none is marked.
fn mark_reached(
    alloc: Global,
    graph: &[List<usize>],
    marks: &mut [bool],
    from: usize,
) -> Result<(), Memory>
    requires { marks.old ≡ replicate (length graph.now) false }
    ensures { OnOk result (AreReached graph.now from marks.new) }
{
    let mut waiting = Vec::new(alloc);
    waiting.push(from)?;
    while let Some(place) = waiting.pop() {
        spread(targets(graph, place), marks, &mut waiting)?;
    }
    Ok(())
}

/// Marks of the places to which some way leads from a place.
fn reached(alloc: Global, graph: &[List<usize>], from: usize) -> Result<Vec<bool>, Memory>
    ensures { IfOk result (λ marks. AreReached graph.now from marks.items) }
{
    let mut marks = unmarked(alloc, graph.len())?;
    mark_reached(alloc, graph, marks.as_mut_slice(), from)?;
    Ok(marks)
}

/// Whether a way leads from a place to itself.
pub(crate) fn is_on_cycle(
    alloc: Global,
    graph: &[List<usize>],
    place: usize,
) -> Result<bool, Memory>
    requires { place < length graph.now }
    ensures { IfOk result (λ found. found ≡ is_on_cycle_in graph.now place) }
{
    let marks = reached(alloc, graph, place)?;
    Ok(is_marked(marks.as_slice(), place))
}
