//! Tables and moats that are brought for the net of the row.

ghost use Rattle.std.specs.Prelude.{◌≡◌, ◌<◌, All, IsTrue, length};
ghost use Rattle.grid_base.specs.Numbers.{IsVertex};
ghost use Rattle.edge_prices.specs.Costings.{costed_size};

use brought_bounds::{Moats, Radii, Rows, Table, moats_hold, table_holds};
use edge_prices::{Costing, are_edge_prices};
use grid_base::{NoMemory, Size, Vertex};
use grid_graph::{Design, Ground};
use shortest_paths::Labels;
use std::alloc::Global;
use std::test::Fail;
use test_rows::{agree, numbers_of, rows_of, two_fields};
use worked_designs::design_of;

fn are_vertices(size: Size, terminals: &[Vertex]) -> bool
    ensures { IsTrue result → All (λ v. IsVertex size v.0) terminals.now }
{
    terminals.iter().all(|v| v.0 < size.vertices())
}

/// Whether a table with one row of these numbers holds, or moats of these radii.
fn holds(
    alloc: Global,
    costing: &Costing<'_>,
    size: Size,
    numbers: Vec<u64>,
) -> Result<bool, NoMemory>
    requires { size ≡ costed_size costing.now }
{
    let terminals = [Vertex(0), Vertex(2)];
    if !are_vertices(size, &terminals) {
        return Ok(false);
    }
    if numbers.len() == 3 {
        let mut rows = Vec::new(alloc);
        rows.push(numbers)?;
        let table = Table {
            rows: Rows::of(rows),
        };
        return Ok(table_holds(costing, size, &terminals, &table));
    }
    let mut labels = Labels::new(alloc, size, 1)?;
    let moats = Moats {
        radii: Radii::of(numbers),
    };
    Ok(moats_hold(costing, size, &terminals, &moats, &mut labels))
}

/// Whether the numbers hold at a price of 1 of both edges. A wire of the first net uses 2 of an edge, so each step costs 2.
fn hold_for_first(alloc: Global, design: &Design, numbers: Vec<u64>) -> Result<bool, Fail>
    requires { 0 < length design.now.nets }
{
    let net = &design.nets.list()[0];
    let prices = [1, 0, 1, 0, 0, 0];
    if !are_edge_prices(&design.grid, prices.as_slice()) {
        return Err(Fail::new("no such prices"));
    }
    let costing = Costing::new(&design.grid, net.width, Ground::Open, prices.as_slice());
    Ok(holds(alloc, &costing, design.grid.size(), numbers)?)
}

/// The three numbers of a table's row or the two radii of moats, where the first and the last tile are to be joined, and whether
/// they hold.
const BROUGHT: &str = "0 2 4|yes
0 2 5|no
0 1 2|yes
1 2 3|no
2 2|yes
3 2|no
4 0|yes
0 5|no";

fn row_agrees(alloc: Global, design: &Design, row: &'static str) -> Result<(), Fail>
    requires { 0 < length design.now.nets }
{
    let (numbers, wanted) = two_fields(row)?;
    let hold = hold_for_first(alloc, design, numbers_of(alloc, numbers)?)?;
    agree(row, if hold { "yes" } else { "no" }, wanted)
}

fn rows_agree(alloc: Global, design: &Design) -> Result<(), Fail> {
    if design.nets.list().is_empty() {
        return Err(Fail::new("no net"));
    }
    for row in rows_of(alloc, BROUGHT)? {
        row_agrees(alloc, design, row)?;
    }
    Ok(())
}

#[test]
fn tables_and_moats_hold_up_to_the_distance(rt: HostRuntime) -> Result<(), Fail> {
    let design = design_of(rt.alloc(), "ROW")?;
    rows_agree(rt.alloc(), &design)
}
