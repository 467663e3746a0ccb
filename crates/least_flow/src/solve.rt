ghost use Rattle.std.specs.Prelude.{◌≡◌, ◌+◌, ◌≤◌, [], ◌∷◌, ◌++◌, All, length, replicate, IfOk, OnOk};
ghost use Rattle.least_flow.specs.Solution.{IsLeast};
ghost use Rattle.least_flow.specs.Telling.{AreWithin, IfKnown, IsUnderWay, RowRaised, Told, heights, known_places};

use crate::flow::Flow;
use num_core::Memory;
use std::alloc::Global;

/// The least of what is known of each place such that it tells what is told from the start and what is passed on. A
/// place that no fact comes to has none.
///
/// A place is looked at once for each time that what is known of it was raised.
pub fn least_solution<F: Flow>(alloc: Global, flow: &F) -> Result<Vec<Option<F::Fact>>, Memory>
    ensures size { IfOk result (λ table. length table.items ≡ F.places flow.now) }
    ensures least { IfOk result (λ table. IsLeast F.is_below (F.starts flow.now) (F.passes flow.now) table.items) }
{
    let mut table = empty_table::<F>(alloc, flow.places())?;
    fill(flow, alloc, table.as_mut_slice())?;
    Ok(table)
}

/// Makes a table of which nothing is known the least solution.
fn fill<F: Flow>(flow: &F, alloc: Global, table: &mut [Option<F::Fact>]) -> Result<(), Memory>
    requires { table.old ≡ replicate (F.places flow.now) None }
    ensures { OnOk result (IsLeast F.is_below (F.starts flow.now) (F.passes flow.now) table.new) }
{
    let mut waiting = Vec::new(alloc);
    let facts = flow.starts(alloc)?;
    tell(flow, alloc, table, &mut waiting, facts)?;
    settle(flow, alloc, table, &mut waiting)
}

/// A table of places of which nothing is known.
fn empty_table<F: Flow>(alloc: Global, places: usize) -> Result<Vec<Option<F::Fact>>, Memory>
    ensures { IfOk result (λ table. table.items ≡ replicate places None) }
{
    let mut table = Vec::new(alloc);
    for _place in 0..places {
        table.push(None)?;
    }
    Ok(table)
}

/// Passes on what is known of each place that waits, until none waits.
fn settle<F: Flow>(
    flow: &F,
    alloc: Global,
    table: &mut [Option<F::Fact>],
    waiting: &mut Vec<usize>,
) -> Result<(), Memory>
    requires size { length table.old ≡ F.places flow.now }
    requires under_way { IsUnderWay F.is_below (F.starts flow.now) (F.passes flow.now) (F.is_within flow.now)
        table.old waiting.old.items }
    ensures { OnOk result (IsLeast F.is_below (F.starts flow.now) (F.passes flow.now) table.new) }
{
    while let Some(place) = waiting.pop() {
        look(flow, alloc, table, waiting, place)?;
    }
    Ok(())
}

/// Passes on what is known of a place.
fn look<F: Flow>(
    flow: &F,
    alloc: Global,
    table: &mut [Option<F::Fact>],
    waiting: &mut Vec<usize>,
    place: usize,
) -> Result<(), Memory>
    requires size { length table.old ≡ F.places flow.now }
    requires under_way { IsUnderWay F.is_below (F.starts flow.now) (F.passes flow.now) (F.is_within flow.now)
        table.old (waiting.old.items ++ place ∷ []) }
    ensures under_way { OnOk result (IsUnderWay F.is_below (F.starts flow.now) (F.passes flow.now)
        (F.is_within flow.now) table.new waiting.new.items) }
    ensures higher { OnOk result (heights (F.rank flow.now) table.old + length waiting.new.items
        ≤ heights (F.rank flow.now) table.new + length waiting.old.items) }
    ensures longer { OnOk result (length waiting.old.items ≤ length waiting.new.items) }
{
    if place >= table.len() {
        return Ok(());
    }
    let Some(known) = &table[place] else {
        return Ok(());
    };
    let facts = flow.pass(alloc, place, known)?;
    tell(flow, alloc, table, waiting, facts)
}

/// Makes the table tell these facts of these places, and no more than it has to.
fn tell<F: Flow>(
    flow: &F,
    alloc: Global,
    table: &mut [Option<F::Fact>],
    waiting: &mut Vec<usize>,
    mut facts: Vec<(usize, F::Fact)>,
) -> Result<(), Memory>
    requires size { length table.old ≡ F.places flow.now }
    requires within { AreWithin (F.is_within flow.now) table.old }
    requires facts { All (λ fact. F.is_within flow.now (known_places table.old + 1) fact.1) facts.items }
    ensures { OnOk result (Told F.is_below (F.is_within flow.now) (F.rank flow.now) facts.items
        table.old table.new waiting.old.items waiting.new.items) }
{
    while let Some((place, fact)) = facts.pop() {
        tell_one(flow, alloc, table, waiting, place, fact)?;
    }
    Ok(())
}

/// Makes the table tell a fact of a place, and no more than it has to.
fn tell_one<F: Flow>(
    flow: &F,
    alloc: Global,
    table: &mut [Option<F::Fact>],
    waiting: &mut Vec<usize>,
    place: usize,
    fact: F::Fact,
) -> Result<(), Memory>
    requires size { length table.old ≡ F.places flow.now }
    requires within { AreWithin (F.is_within flow.now) table.old }
    requires fact { F.is_within flow.now (known_places table.old + 1) fact }
    ensures { OnOk result (Told F.is_below (F.is_within flow.now) (F.rank flow.now) ((place, fact) ∷ [])
        table.old table.new waiting.old.items waiting.new.items) }
{
    if place >= table.len() {
        return Ok(());
    }
    if raise(flow, alloc, &mut table[place], fact)? {
        waiting.push(place)?;
    }
    Ok(())
}

/// Makes a row tell a fact, and no more than it has to. Whether it told less before.
fn raise<F: Flow>(
    flow: &F,
    alloc: Global,
    known: &mut Option<F::Fact>,
    fact: F::Fact,
) -> Result<bool, Memory>
    requires within { IfKnown (F.is_within flow.now (F.places flow.now)) known.old }
    requires fact { F.is_within flow.now (F.places flow.now + 1) fact }
    ensures { IfOk result (RowRaised F.is_below (F.is_within flow.now) (F.rank flow.now) fact known.old known.new) }
{
    match known {
        Some(known) => flow.join(alloc, known, fact),
        None => {
            *known = Some(fact);
            Ok(true)
        }
    }
}
