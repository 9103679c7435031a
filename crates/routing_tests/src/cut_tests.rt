//! Hot cuts of small designs, of which is known on paper what price lists can prove.
//!
//! Which prices the lists have is free, so what they prove is compared. Some routing has just this overflow, and some mixture
//! of routings just this peak, so no list proves more.

ghost use Rattle.edge_prices.specs.Weights.{AreEdgePrices};
ghost use Rattle.grid_graph.specs.Grounds.{AreGrounds};

use dual_bound::bound;
use grid_base::Edge;
use grid_graph::{Design, Ground};
use hot_cuts::hot_cuts;
use std::alloc::{AllocError, Global};
use std::test::Fail;
use std::thread::Threads;
use test_rows::{agree, fraction_text, rows_of, three_fields, two_numbers};
use tree_set::Fraction;
use worked_designs::design_of;

/// A design, the loads of routes by their edges, and what price lists can prove of it: a bound, and how much overflow every
/// routing has.
const CUTS: &str =
    "# three nets from the left column to the right one, over two edges with room for one each: three halves, and whichever edge
# the third net takes has an overflow of 2
ROW 0 144 grid 2 2 1;vertical capacity 100;horizontal capacity 2;minimum width 1;minimum spacing 1;via spacing 1;0 0 10 10;num net 3;a 0 2 1;5 5 1;15 5 1;b 1 2 1;5 5 1;15 5 1;c 2 2 1;5 15 1;15 15 1;0;|0 4,4 2|3/2 2
# two nets through a wall, whose one gap has room for one
ROW 0 144 grid 5 3 1;vertical capacity 20;horizontal capacity 20;minimum width 1;minimum spacing 1;via spacing 1;0 0 10 10;num net 2;a 0 2 1;5 5 1;45 5 1;b 1 2 1;5 25 1;45 25 1;3;1 0 1 2 0 1 0;1 1 1 2 1 1 2;1 2 1 2 2 1 0;|1 2,9 2,10 4,11 2,12 4,14 4,16 4,19 2|2/1 2
# five nets out of the tile in the middle, whose four exits have room for one each
ROW 0 144 grid 3 3 1;vertical capacity 20;horizontal capacity 20;minimum width 1;minimum spacing 1;via spacing 1;0 0 10 10;num net 5;a 0 2 1;15 15 1;5 5 1;b 1 2 1;15 15 1;25 5 1;c 2 2 1;15 15 1;5 25 1;d 3 2 1;15 15 1;25 25 1;e 4 2 1;15 15 1;5 15 1;4;1 1 1 2 1 1 2;0 1 1 1 1 1 2;1 1 1 1 2 1 2;1 0 1 1 1 1 2;|1 2,2 2,3 2,6 4,8 2,9 2,11 2,12 2|5/4 2
# the same without routes: the nets leave that tile whatever their routes
ROW 0 144 grid 3 3 1;vertical capacity 20;horizontal capacity 20;minimum width 1;minimum spacing 1;via spacing 1;0 0 10 10;num net 5;a 0 2 1;15 15 1;5 5 1;b 1 2 1;15 15 1;25 5 1;c 2 2 1;15 15 1;5 25 1;d 3 2 1;15 15 1;25 25 1;e 4 2 1;15 15 1;5 15 1;4;1 1 1 2 1 1 2;0 1 1 1 1 1 2;1 1 1 1 2 1 2;1 0 1 1 1 1 2;||5/4 2
# three nets out of such a tile: there is room for all
ROW 0 144 grid 3 3 1;vertical capacity 20;horizontal capacity 20;minimum width 1;minimum spacing 1;via spacing 1;0 0 10 10;num net 3;a 0 2 1;15 15 1;5 15 1;b 1 2 1;15 15 1;25 15 1;c 2 2 1;15 15 1;15 25 1;4;1 1 1 2 1 1 2;0 1 1 1 1 1 2;1 1 1 1 2 1 2;1 0 1 1 1 1 2;|6 2,8 2,9 2|3/4 0
# there is no open edge
STACK||none 0";

/// Puts the load of an edge in its place.
fn put_load(loads: &mut [u64], pair: &'static str) -> Result<(), Fail> {
    let (e, load) = two_numbers::<u64>(pair)?;
    match loads.get_mut(e as usize) {
        Some(place) => {
            *place = load;
            Ok(())
        }
        None => Err(Fail::new("an edge")),
    }
}

/// The loads of all edge numbers, of which a field has those that are not 0, each behind its edge.
fn loads_of(alloc: Global, design: &Design, field: &'static str) -> Result<Vec<u64>, Fail> {
    let mut loads = vec![in alloc; 0; 2 * design.grid.size().vertices() as usize]?;
    if field != "" {
        for pair in field.split(',') {
            put_load(loads.as_mut_slice(), pair)?;
        }
    }
    Ok(loads)
}

/// What all capacities cost.
fn cost_of(design: &Design, prices: &[u32]) -> u128 {
    let mut cost: u128 = 0;
    for e in 0..2 * design.grid.size().vertices() {
        let price = prices.get(e as usize).copied().unwrap_or(0);
        let capacity = design.grid.capacity(Edge(e));
        cost = cost.saturating_add(u128::from(price).saturating_mul(u128::from(capacity)));
    }
    cost
}

/// What the nets cost beyond the capacities, by the greatest price, rounded up.
fn overflow_of(design: &Design, prices: &[u32], bound: Option<Fraction>) -> u128 {
    let Some(Fraction { num, den, .. }) = bound else {
        return 0;
    };
    let cost = cost_of(design, prices);
    let greatest = u128::from(prices.iter().copied().max().unwrap_or(0));
    let times = cost.checked_div(den).unwrap_or(0);
    let beyond = num.saturating_mul(times).saturating_sub(cost);
    let rounding = greatest.saturating_sub(1);
    beyond
        .saturating_add(rounding)
        .checked_div(greatest)
        .unwrap_or(0)
}

/// What a price list shows: the bound, and how much overflow every routing has.
fn evidence_of_prices<R: Threads + Sync>(
    rt: &R,
    alloc: Global,
    design: &Design,
    grounds: &[Ground],
    prices: &[u32],
) -> Result<(Option<Fraction>, u128), Fail>
    requires grounds { AreGrounds design.now.grid design.now.nets grounds.now }
    requires prices { AreEdgePrices design.now.grid prices.now }
{
    let found = bound(rt, alloc, design, grounds, prices, None)?;
    Ok((found, overflow_of(design, prices, found)))
}

/// What the two lists prove: the first one's bound, and the second one's overflow.
fn evidence_of_lists<R: Threads + Sync>(
    rt: &R,
    alloc: Global,
    design: &Design,
    for_bound: &[u32],
    for_overflow: &[u32],
) -> Result<(Option<Fraction>, u128), Fail>
    requires for_bound { AreEdgePrices design.now.grid for_bound.now }
    requires for_overflow { AreEdgePrices design.now.grid for_overflow.now }
{
    let grounds = design.grounds()?;
    let (found, _) = evidence_of_prices(rt, alloc, design, grounds.as_slice(), for_bound)?;
    let (_, overflow) = evidence_of_prices(rt, alloc, design, grounds.as_slice(), for_overflow)?;
    Ok((found, overflow))
}

/// What the cuts of a design with these loads prove.
fn evidence_of<R: Threads + Sync>(
    rt: &R,
    alloc: Global,
    design: &Design,
    loads: &[u64],
) -> Result<(Option<Fraction>, u128), Fail> {
    let cuts = hot_cuts(alloc, design, loads, 20)?;
    evidence_of_lists(
        rt,
        alloc,
        design,
        cuts.for_bound.as_slice(),
        cuts.for_overflow.as_slice(),
    )
}

fn evidence_text(
    alloc: Global,
    found: Option<Fraction>,
    overflow: u128,
) -> Result<String, AllocError> {
    let found = fraction_text(alloc, found)?;
    format!(in alloc; "{found} {overflow}")
}

/// What is proved of the design that a row gives.
fn proved_of<R: Threads + Sync>(
    rt: &R,
    alloc: Global,
    given: &'static str,
    loads: &'static str,
) -> Result<(Option<Fraction>, u128), Fail> {
    let design = design_of(alloc, given)?;
    let loads = loads_of(alloc, &design, loads)?;
    evidence_of(rt, alloc, &design, loads.as_slice())
}

fn row_agrees<R: Threads + Sync>(rt: &R, alloc: Global, row: &'static str) -> Result<(), Fail> {
    let (given, loads, wanted) = three_fields(row)?;
    let (found, overflow) = proved_of(rt, alloc, given, loads)?;
    agree(row, evidence_text(alloc, found, overflow)?.as_str(), wanted)
}

#[test]
fn cuts_prove_what_can_be_proved_on_paper(rt: HostRuntime) -> Result<(), Fail> {
    for row in rows_of(rt.alloc(), CUTS)? {
        row_agrees(&rt, rt.alloc(), row)?;
    }
    Ok(())
}
