//! How much overflow price lists show, worked out on paper.

ghost use Rattle.std.specs.Prelude.{IfOk};
ghost use Rattle.edge_prices.specs.Weights.{AreEdgePrices};
ghost use Rattle.grid_graph.specs.Grounds.{AreGrounds};

use dual_bound::what_prices_show;
use edge_prices::MAX_PRICE;
use grid_graph::{Design, Grid, Ground};
use hot_cuts::price_list;
use overflow_bounds::overflow_shown;
use std::alloc::Global;
use std::test::Fail;
use std::thread::Threads;
use test_rows::{agree, rows_of, three_fields, two_numbers};
use worked_designs::design_of;

/// A design, the prices of tile edges by their numbers, and the overflow that they show: by the net bounds, and by least trees
/// and whole wires. Where all open edges that can be overfull have a price, some routing has just the greater one.
const SHOWN: &str =
    "# three nets of eleven terminals in three parts: left and right of a cut of two edges, and in a tile with one exit, each of
# these edges with room for one net. The five that are spread are left and right. Every routing has two nets too many at the
# exit, and one on the cut
ROW 0 144 grid 17 2 1;vertical capacity 20;horizontal capacity 20;minimum width 1;minimum spacing 1;via spacing 1;0 0 10 10;num net 3;a 0 11 1;5 5 1;35 5 1;45 5 1;85 5 1;95 5 1;105 5 1;65 5 1;125 5 1;135 5 1;165 5 1;165 15 1;b 1 11 1;5 5 1;35 5 1;45 5 1;85 5 1;95 5 1;105 5 1;65 5 1;125 5 1;135 5 1;165 5 1;165 15 1;c 2 11 1;5 5 1;35 5 1;45 5 1;85 5 1;95 5 1;105 5 1;65 5 1;125 5 1;135 5 1;165 5 1;165 15 1;5;5 0 1 6 0 1 0;6 0 1 7 0 1 0;6 0 1 6 1 1 2;10 0 1 11 0 1 2;10 1 1 11 1 1 2;|13 32768,20 32768,54 32768|0 6
# three nets of 2 over two edges with a capacity of 3, which holds one whole net: some edge has two
ROW 0 144 grid 2 2 1;vertical capacity 100;horizontal capacity 3;minimum width 1;minimum spacing 1;via spacing 1;0 0 10 10;num net 3;a 0 2 1;5 5 1;15 5 1;b 1 2 1;5 5 1;15 5 1;c 2 2 1;5 15 1;15 15 1;0;|0 32768,4 32768|0 1
# the same, where a net of 3 goes over them too: all units are 1, and every routing has a load of 9 on a capacity of 6
ROW 0 144 grid 2 2 1;vertical capacity 100;horizontal capacity 3;minimum width 1;minimum spacing 1;via spacing 1;0 0 10 10;num net 4;a 0 2 1;5 5 1;15 5 1;b 1 2 1;5 5 1;15 5 1;c 2 2 1;5 15 1;15 15 1;d 3 2 2;5 15 1;15 15 1;0;|0 32768,4 32768|3 3
# the first edge holds one net of three, at the greatest price; the others hold 3 and have two nets each, and at half of that
# price they count with 2: 4, and 1 for each of them
ROW 0 144 grid 7 1 1;vertical capacity 0;horizontal capacity 4;minimum width 1;minimum spacing 1;via spacing 1;0 0 10 10;num net 7;a 0 2 1;5 5 1;15 5 1;b 1 2 1;5 5 1;15 5 1;c 2 2 1;5 5 1;15 5 1;d 3 2 1;35 5 1;45 5 1;e 4 2 1;35 5 1;45 5 1;f 5 2 1;55 5 1;65 5 1;g 6 2 1;55 5 1;65 5 1;3;0 0 1 1 0 1 2;3 0 1 4 0 1 3;5 0 1 6 0 1 3;|0 32768,6 16384,10 16384|5 6
# the same with a first edge that holds 3: at its price it counts with 3, since with 2 the divisor would be twice as great
ROW 0 144 grid 7 1 1;vertical capacity 0;horizontal capacity 4;minimum width 1;minimum spacing 1;via spacing 1;0 0 10 10;num net 7;a 0 2 1;5 5 1;15 5 1;b 1 2 1;5 5 1;15 5 1;c 2 2 1;5 5 1;15 5 1;d 3 2 1;35 5 1;45 5 1;e 4 2 1;35 5 1;45 5 1;f 5 2 1;55 5 1;65 5 1;g 6 2 1;55 5 1;65 5 1;3;0 0 1 1 0 1 3;3 0 1 4 0 1 3;5 0 1 6 0 1 3;|0 32768,6 16384,10 16384|4 5
# five nets of 2 over four edges on two layers with a capacity of 3, of which each holds one whole net
ROW 0 144 grid 2 2 2;vertical capacity 100 100;horizontal capacity 3 3;minimum width 1 1;minimum spacing 1 1;via spacing 1 1;0 0 10 10;num net 5;a 0 2 1;5 5 1;15 5 1;b 1 2 1;5 5 1;15 5 1;c 2 2 1;5 15 1;15 15 1;d 3 2 1;5 15 1;15 15 1;e 4 2 1;5 15 1;15 15 1;0;|0 32768,4 32768|0 1
# three nets with a terminal in each of nine tiles in a row, of which eight are joined: all three go over all eight edges
ROW 0 144 grid 9 1 1;vertical capacity 0;horizontal capacity 2;minimum width 1;minimum spacing 1;via spacing 1;0 0 10 10;num net 3;a 0 9 1;5 5 1;15 5 1;25 5 1;35 5 1;45 5 1;55 5 1;65 5 1;75 5 1;85 5 1;b 1 9 1;5 5 1;15 5 1;25 5 1;35 5 1;45 5 1;55 5 1;65 5 1;75 5 1;85 5 1;c 2 9 1;5 5 1;15 5 1;25 5 1;35 5 1;45 5 1;55 5 1;65 5 1;75 5 1;85 5 1;0;|0 32768,2 32768,4 32768,6 32768,8 32768,10 32768,12 32768,14 32768|32 32
# two nets from end to end of a way that winds through 21 tiles, three rows of seven
ROW 0 144 grid 7 3 1;vertical capacity 2;horizontal capacity 2;minimum width 1;minimum spacing 1;via spacing 1;0 0 10 10;num net 2;a 0 2 1;5 5 1;65 25 1;b 1 2 1;5 5 1;65 25 1;12;0 0 1 0 1 1 0;1 0 1 1 1 1 0;2 0 1 2 1 1 0;3 0 1 3 1 1 0;4 0 1 4 1 1 0;5 0 1 5 1 1 0;1 1 1 1 2 1 0;2 1 1 2 2 1 0;3 1 1 3 2 1 0;4 1 1 4 2 1 0;5 1 1 5 2 1 0;6 1 1 6 2 1 0;|0 32768,2 32768,4 32768,6 32768,8 32768,10 32768,13 32768,14 32768,15 32768,16 32768,18 32768,20 32768,22 32768,24 32768,28 32768,30 32768,32 32768,34 32768,36 32768,38 32768|40 40
# two nets that a choked edge joins go on over an edge with room for one; what overflows on choked edges has no price
ROW 0 144 grid 3 1 1;vertical capacity 0;horizontal capacity 2;minimum width 1;minimum spacing 1;via spacing 1;0 0 10 10;num net 2;a 0 2 1;5 5 1;25 5 1;b 1 2 1;5 5 1;25 5 1;1;0 0 1 1 0 1 0;|2 32768|2 2
# no edge has a price
CUT||0 0
# there is no open edge
STACK||0 0";

/// Puts the price of a tile edge in its place.
fn put_price(prices: &mut [u32], pair: &'static str) -> Result<(), Fail> {
    let (e, price) = two_numbers::<u32>(pair)?;
    match prices.get_mut(e as usize) {
        Some(place) => {
            *place = price.min(MAX_PRICE);
            Ok(())
        }
        None => Err(Fail::new("a tile edge")),
    }
}

/// The price list of tile edges' prices, each behind its edge's number.
fn prices_of(alloc: Global, grid: &Grid, field: &'static str) -> Result<Vec<u32>, Fail>
    ensures { IfOk result (λ prices. AreEdgePrices grid.now prices.items) }
{
    let mut tile_prices = vec![in alloc; 0u32; 64]?;
    if field != "" {
        for pair in field.split(',') {
            put_price(tile_prices.as_mut_slice(), pair)?;
        }
    }
    Ok(price_list(alloc, grid, tile_prices.as_slice())?)
}

/// What prices show by the net bounds, and by least trees and whole wires.
fn shown_text<R: Threads + Sync>(
    rt: &R,
    alloc: Global,
    design: &Design,
    grounds: &[Ground],
    prices: &[u32],
) -> Result<String, Fail>
    requires grounds { AreGrounds design.now.grid design.now.nets grounds.now }
    requires prices { AreEdgePrices design.now.grid prices.now }
{
    let by_bounds = what_prices_show(rt, alloc, design, grounds, prices)?.overflow;
    let by_trees = overflow_shown(alloc, design, grounds, prices)?;
    Ok(format!(in alloc; "{by_bounds} {by_trees}")?)
}

/// What prices show of the design that a row gives.
fn shown_of<R: Threads + Sync>(
    rt: &R,
    alloc: Global,
    given: &'static str,
    prices: &'static str,
) -> Result<String, Fail> {
    let design = design_of(alloc, given)?;
    let grounds = design.grounds()?;
    let prices = prices_of(alloc, &design.grid, prices)?;
    shown_text(rt, alloc, &design, grounds.as_slice(), prices.as_slice())
}

fn row_agrees<R: Threads + Sync>(rt: &R, alloc: Global, row: &'static str) -> Result<(), Fail> {
    let (given, prices, wanted) = three_fields(row)?;
    agree(row, shown_of(rt, alloc, given, prices)?.as_str(), wanted)
}

#[test]
fn prices_show_what_can_be_shown_on_paper(rt: HostRuntime) -> Result<(), Fail> {
    for row in rows_of(rt.alloc(), SHOWN)? {
        row_agrees(&rt, rt.alloc(), row)?;
    }
    Ok(())
}
