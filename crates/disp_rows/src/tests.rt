//! Three small rows, and the figures of a large plan.
use crate::{Placed, Row, have_distinct_columns, plan_rows};
use num_core::List;
use std::alloc::Global;
use std::test::Fail;
use std::time::Instant;

fn add_row(alloc: Global, rows: &mut List<Row>, cells: &[(u32, u32)]) -> Option<()> {
    let cells = List::from_slice(alloc, cells).ok()?;
    rows.push(Row { cells }).ok()
}

fn planned(alloc: Global, rows: &List<Row>) -> Option<Placed> {
    if !have_distinct_columns(rows) {
        return None;
    }
    plan_rows(alloc, rows).ok()
}

#[test]
fn each_row_has_its_cells(rt: HostRuntime) -> Result<(), Fail> {
    let mut rows = List::new(rt.alloc());
    add_row(rt.alloc(), &mut rows, &[(0, 5), (3, 6)]).ok_or("memory")?;
    add_row(rt.alloc(), &mut rows, &[(1, 7)]).ok_or("memory")?;
    add_row(rt.alloc(), &mut rows, &[(0, 8)]).ok_or("memory")?;
    let placed = planned(rt.alloc(), &rows).ok_or("memory")?;
    assert_eq!(rt; placed.find(0, 3), Some(6));
    assert_eq!(rt; placed.find(0, 1), None);
    assert_eq!(rt; placed.find(1, 1), Some(7));
    assert_eq!(rt; placed.find(2, 0), Some(8));
    assert_eq!(rt; placed.find(3, 0), None);
    assert_eq!(rt; placed.cells.len(), 4);
    Ok(())
}

#[test]
fn a_column_that_stands_twice_is_told(rt: HostRuntime) -> Result<(), Fail> {
    let mut rows = List::new(rt.alloc());
    add_row(rt.alloc(), &mut rows, &[(4, 1), (2, 2), (4, 3)]).ok_or("memory")?;
    assert!(rt; !have_distinct_columns(&rows));
    Ok(())
}

fn large_row(alloc: Global, row: u32) -> Option<Row> {
    let mut cells = List::new(alloc);
    for k in 0..40u32 {
        let column = k.wrapping_mul(7 + row % 5).wrapping_add(row) % 61;
        cells.push((column, k)).ok()?;
    }
    Some(Row { cells })
}

fn large_rows(alloc: Global) -> Option<List<Row>> {
    let mut rows = List::new(alloc);
    for row in 0..300u32 {
        rows.push(large_row(alloc, row)?).ok()?;
    }
    Some(rows)
}

#[test]
fn a_large_plan(rt: HostRuntime) -> Result<(), Fail> {
    let rows = large_rows(rt.alloc()).ok_or("memory")?;
    let start = Instant::now(&rt)?;
    let placed = planned(rt.alloc(), &rows).ok_or("memory")?;
    let time = start.elapsed(&rt)?;
    println!(rt;
        "12000 cells in {} places, in {} microseconds",
        placed.cells.len(),
        time.as_micros()
    )?;
    assert!(rt; placed.cells.len() <= 24_000);
    assert_eq!(rt; placed.find(299, 299 % 61), Some(0));
    Ok(())
}
