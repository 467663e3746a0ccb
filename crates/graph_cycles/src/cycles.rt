//! The first place that lies on a cycle.
ghost use Rattle.std.specs.Prelude.{◌≡◌, IfOk};
ghost use Rattle.graph_cycles.specs.Ways.{first_cyclic};

use crate::marks::is_marked;
use crate::reach::is_on_cycle;
use crate::walk::places_off_cycles;
use num_core::{List, Memory};
use std::alloc::Global;

/// The first place from which a way leads back to it. A graph has for each place those that it leads to, each as often
/// as one likes; what isn't there leads nowhere.
///
/// Where there is no cycle, the time is linear in the size of the graph. Else each place in front of the answer that
/// leads to a cycle costs a search.
pub fn first_on_cycle(alloc: Global, graph: &[List<usize>]) -> Result<Option<usize>, Memory>
    ensures { IfOk result (λ place. place ≡ first_cyclic graph.now) }
{
    let off = places_off_cycles(alloc, graph)?;
    for place in 0..graph.len() {
        if !is_marked(off.as_slice(), place) && is_on_cycle(alloc, graph, place)? {
            return Ok(Some(place));
        }
    }
    Ok(None)
}
