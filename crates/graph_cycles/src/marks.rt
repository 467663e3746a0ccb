//! Marks of places.
ghost use Rattle.std.specs.Prelude.{◌≡◌, false, true, replicate, slice_set, IfOk};
ghost use Rattle.std.specs.List.{list_all};
ghost use Rattle.graph_cycles.specs.Marks.{is_done as is_done_in, is_marked as is_marked_in};
ghost use Rattle.graph_cycles.specs.Ways.{targets as targets_in};

use num_core::{List, Memory};
use std::alloc::Global;

/// Marks of so many places, none of which is marked.
pub(crate) fn unmarked(alloc: Global, count: usize) -> Result<Vec<bool>, Memory>
    ensures { IfOk result (λ marks. marks.items ≡ replicate count false) }
{
    let mut marks = Vec::new(alloc);
    marks.resize(count, false)?;
    Ok(marks)
}

/// Whether a place is marked or isn't there.
pub(crate) fn is_done(marks: &[bool], place: usize) -> bool
    ensures { result ≡ is_done_in marks.now place }
{
    match marks.get(place) {
        Some(mark) => *mark,
        None => true,
    }
}

/// Whether a place is there and marked.
pub(crate) fn is_marked(marks: &[bool], place: usize) -> bool
    ensures { result ≡ is_marked_in marks.now place }
{
    match marks.get(place) {
        Some(mark) => *mark,
        None => false,
    }
}

/// Whether each of these places is marked or isn't there.
pub(crate) fn are_done(marks: &[bool], places: &[usize]) -> bool
    ensures { result ≡ list_all (is_done_in marks.now) places.now }
{
    for place in places {
        if !is_done(marks, *place) {
            return false;
        }
    }
    true
}

/// Marks a place, if it is there.
pub(crate) fn mark(marks: &mut [bool], place: usize)
    ensures { marks.new ≡ slice_set marks.old place true }
{
    if place < marks.len() {
        marks[place] = true;
    }
}

/// The places that one leads to; a place that isn't there leads nowhere.
pub(crate) fn targets(graph: &[List<usize>], place: usize) -> &[usize]
    ensures { result.now ≡ targets_in graph.now place }
{
    match graph.get(place) {
        Some(targets) => targets.as_slice(),
        None => &[],
    }
}
