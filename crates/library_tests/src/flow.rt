use least_flow::{Flow, least_solution};
use num_core::Memory;
use std::alloc::Global;
use std::test::Fail;

/// Places in a ring: from each one more than is known there is passed on to the next, up to 5.
#[derive(Drop)]
struct Ring {
    places: usize,
}

impl Flow for Ring {
    ghost use Rattle.std.specs.Prelude.{◌≡◌, ◌+◌, ◌<◌, ◌≤◌, ◌==◌, if◌then◌else◌, min};

    type Fact = u8;

    ghost places = { λ ring. ring.places };

    ghost is_below = { λ a b. a ≤ b };

    ghost starts = { λ ring place fact. (place ≡ 0) × (fact ≡ 1) };

    ghost passes = { λ ring place known to fact.
        (to ≡ (if place + 1 == ring.places then 0 else place + 1)) × (fact ≡ min (known + 1) 5) };

    ghost is_within = { λ ring n a. a < 256 };

    ghost rank = { λ ring a. a };

    ghost most = { λ ring. 255 };

    fn places(&self) -> usize {
        self.places
    }

    fn starts(&self, alloc: Global) -> Result<Vec<(usize, u8)>, Memory> {
        Ok(vec![in alloc; (0, 1)]?)
    }

    fn pass(&self, alloc: Global, place: usize, known: &u8) -> Result<Vec<(usize, u8)>, Memory> {
        let more = if *known < 5 { *known + 1 } else { 5 };
        let places = self.places;
        let next = if place + 1 == places { 0 } else { place + 1 };
        Ok(vec![in alloc; (next, more)]?)
    }

    fn join(&self, _alloc: Global, known: &mut u8, more: u8) -> Result<bool, Memory> {
        if *known < more {
            *known = more;
            Ok(true)
        } else {
            Ok(false)
        }
    }

    ghost use Rattle.std.proofs.Common.{rules};

    ghost reflexive = { Prim.search rules };

    ghost transitive = { Prim.search rules };

    ghost monotone = { Prim.search rules };

    ghost widens = { Prim.search rules };

    ghost bounded = { Prim.search rules };
}

#[test]
fn what_is_known_rises_round_the_ring(rt: HostRuntime) -> Result<(), Fail> {
    let table = least_solution(rt.alloc(), &Ring { places: 4 })?;
    let mut known = Vec::new(rt.alloc());
    for row in &table {
        known.push((*row).unwrap_or(0))?;
    }
    assert_eq!(rt; known.as_slice(), [5, 5, 5, 5].as_slice());
    Ok(())
}
