use graph_cycles::first_on_cycle;
use num_core::List;
use std::alloc::Global;
use std::test::Fail;

/// The places to which one leads by some edges.
fn targets(alloc: Global, edges: &[(usize, usize)], place: usize) -> Result<List<usize>, Fail> {
    let mut targets = List::new(alloc);
    for (from, to) in edges {
        if *from == place {
            targets.push(*to).ok().ok_or("memory")?;
        }
    }
    Ok(targets)
}

/// The first place on a cycle, or 9, of a graph of four places with these edges.
fn first(alloc: Global, edges: &[(usize, usize)]) -> Result<usize, Fail> {
    let mut graph = Vec::new(alloc);
    for place in 0..4 {
        graph
            .push(targets(alloc, edges, place)?)
            .ok()
            .ok_or("memory")?;
    }
    Ok(first_on_cycle(alloc, graph.as_slice())?.unwrap_or(9))
}

#[test]
fn first_on_a_cycle(rt: HostRuntime) -> Result<(), Fail> {
    assert_eq!(rt; first(rt.alloc(), &[])?, 9);
    assert_eq!(rt; first(rt.alloc(), &[(0, 1), (1, 2), (2, 3), (0, 3)])?, 9);
    assert_eq!(rt; first(rt.alloc(), &[(0, 1), (1, 2), (2, 1), (2, 3)])?, 1);
    assert_eq!(rt; first(rt.alloc(), &[(3, 3), (0, 3)])?, 3);
    assert_eq!(rt; first(rt.alloc(), &[(0, 3), (3, 2), (2, 0), (1, 1)])?, 0);
    assert_eq!(rt; first(rt.alloc(), &[(0, 7), (7, 0)])?, 9);
    Ok(())
}
