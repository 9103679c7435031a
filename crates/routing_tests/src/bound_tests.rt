//! Bounds of the worked designs at price lists.

ghost use Rattle.std.specs.Prelude.{IsTrue};
ghost use Rattle.edge_prices.specs.Budgets.{IsWithinLimits};

use dual_bound::bound;
use edge_prices::are_edge_prices;
use grid_base::{Edge, Piece, Vertex, Via};
use grid_graph::{Design, Grid, Ground};
use std::alloc::{AllocError, Global};
use std::test::Fail;
use std::thread::Threads;
use test_rows::{agree, four_fields, fraction_text, number_of, rows_of, three_fields, two_fields};
use tree_set::Budget;
use worked_designs::design_of;

fn is_within_limits(budget: Option<Budget>) -> bool
    ensures { IsTrue result → IsWithinLimits budget }
{
    match budget {
        Some(b) => b.most >= 1 && b.most <= 1 << 42 && b.price <= 32768,
        None => true,
    }
}

/// The prices of all edge numbers, where those of the open edges are given in order. The last one is that of all that
/// follow.
fn prices_of(alloc: Global, grid: &Grid, of_open: &'static str) -> Result<Vec<u32>, Fail> {
    let mut prices = Vec::new(alloc);
    let mut given = of_open.split_whitespace();
    let mut price = 0;
    for e in 0..2 * grid.size().vertices() {
        if grid.capacity(Edge(e)) == 0 {
            prices.push(0)?;
            continue;
        }
        if let Some(word) = given.next() {
            price = number_of(word)?;
        }
        prices.push(price)?;
    }
    if given.next().is_some() {
        return Err(Fail::new("more prices than open edges"));
    }
    Ok(prices)
}

/// The budget that a field stands for: a wirelength of 1 at a price, or none.
fn budget_of(field: &'static str) -> Result<Option<Budget>, Fail> {
    if field == "" {
        return Ok(None);
    }
    let price = number_of(field)?;
    Ok(Some(Budget { most: 1, price }))
}

/// The bound of a design at these prices of its open edges.
fn bound_at<R: Threads + Sync>(
    rt: &R,
    alloc: Global,
    design: &Design,
    of_open: &'static str,
    budget: Option<Budget>,
) -> Result<String, Fail> {
    let grounds = design.grounds()?;
    let prices = prices_of(alloc, &design.grid, of_open)?;
    if !are_edge_prices(&design.grid, prices.as_slice()) || !is_within_limits(budget) {
        return Err(Fail::new("no such prices"));
    }
    let found = bound(
        rt,
        alloc,
        design,
        grounds.as_slice(),
        prices.as_slice(),
        budget,
    )?;
    Ok(fraction_text(alloc, found)?)
}

/// A design, the prices of its open edges, the price of the wirelength where there is a budget, and the bound.
const BOUNDS: &str = "ROW|12758||1/2
ROW 119 144 0;0;|12758||0/1
CROWDED_ROW|12758||3/2
# both pins in one tile
ROW 135 141 7 3 1|12758||0/1
SQUARE|12758||1/2
SQUARE|12758 10468 12758 10468||5234/11613
# the net is forced over a choked edge, which costs nothing
ROW 142 144 1;0 0 1 1 0 1 0;|12758||1/2
ROW 142 144 2;0 0 1 1 0 1 0;0 0 1 1 0 1 8;|10468 12758||11613/33694
# the edges of the tree, and the others two indices below
STAR|12142 12142 12142 12142 12142 12758 12142 12142 12142 12142 12142 12142 12142 12142 12758 12142 12142 12142 12758 12142 12758 12142 12758 12758 12758 12142 12142 12142 12142 12142 12142 12142 12758 12142||6071/244072
SIX_IN_A_ROW|12758||1/2
WIDE_WIRES|12142 12142 12142 12758||6379/49800
LAYERED|12758 12758 12446 12446 12446 12446 12446 12446 12758 12446 12446 12758||6223/94125
# there is no open edge, there are two that the net doesn't need, and there are two without a price
STACK|||none
STACK_OF_TWO|12758||0/1
ROW|0||none
# the wirelength counts where there is a budget
ROW|3885|12758|20528/21919
ROW|0|1|2/1
STACK||1|1/1";

/// Five rows and columns, and a net with a pin in each tile, row by row.
const PIN_IN_EACH_TILE: &str =
    "ROW 0 144 grid 5 5 1;vertical capacity 4;horizontal capacity 4;minimum width 1;minimum spacing 1;via spacing 1;0 0 10 10;num net 1;a 0 25 1;5 5 1;15 5 1;25 5 1;35 5 1;45 5 1;5 15 1;15 15 1;25 15 1;35 15 1;45 15 1;5 25 1;15 25 1;25 25 1;35 25 1;45 25 1;5 35 1;15 35 1;25 35 1;35 35 1;45 35 1;5 45 1;15 45 1;25 45 1;35 45 1;45 45 1;0;";

/// The prices of its open edges, no price of the wirelength, and the bound. Halves of 25 terminals are more than what five of them cost. Where the edges
/// out of the tile in the middle alone have a price, the five that are spread have one in the middle, and half of what it
/// costs is less.
const BOUNDS_OF_MANY_PINS: &str = "1||5/32
0 0 0 0 0 0 0 0 0 0 0 0 0 0 1 0 0 0 0 0 1 0 1 1 0||1/8";

/// The same pins on two layers like the fields of a chessboard.
const PIN_IN_EACH_FIELD: &str =
    "ROW 0 144 grid 5 5 2;vertical capacity 4 4;horizontal capacity 4 4;minimum width 1 1;minimum spacing 1 1;via spacing 1 1;0 0 10 10;num net 1;a 0 25 1;5 5 1;15 5 2;25 5 1;35 5 2;45 5 1;5 15 2;15 15 1;25 15 2;35 15 1;45 15 2;5 25 1;15 25 2;25 25 1;35 25 2;45 25 1;5 35 2;15 35 1;25 35 2;35 35 1;45 35 2;5 45 1;15 45 2;25 45 1;35 45 2;45 45 1;0;";

/// The prices of its open edges, the price of the wirelength, and the bound. Each pin is a via and an edge away from another
/// one, and half of that from 25 pins is more than what five of them cost, which are joined by 14 edges and four vias.
const BOUNDS_OF_FIELDS: &str = "0|2|25/1
1|2|75/322";

/// The bound of the design that a row gives.
fn bound_of<R: Threads + Sync>(
    rt: &R,
    alloc: Global,
    given: &'static str,
    of_open: &'static str,
    budget: &'static str,
) -> Result<String, Fail> {
    let budget = budget_of(budget)?;
    let design = design_of(alloc, given)?;
    bound_at(rt, alloc, &design, of_open, budget)
}

fn row_agrees<R: Threads + Sync>(rt: &R, alloc: Global, row: &'static str) -> Result<(), Fail> {
    let (given, of_open, budget, wanted) = four_fields(row)?;
    let found = bound_of(rt, alloc, given, of_open, budget)?;
    agree(row, found.as_str(), wanted)
}

#[test]
fn designs_have_the_bounds_that_were_worked_out(rt: HostRuntime) -> Result<(), Fail> {
    for row in rows_of(rt.alloc(), BOUNDS)? {
        row_agrees(&rt, rt.alloc(), row)?;
    }
    Ok(())
}

/// The same for a row without a design, of the one with so many pins.
fn bound_agrees<R: Threads + Sync>(
    rt: &R,
    alloc: Global,
    pins: &'static str,
    row: &'static str,
) -> Result<(), Fail> {
    let (of_open, budget, wanted) = three_fields(row)?;
    let found = bound_of(rt, alloc, pins, of_open, budget)?;
    agree(row, found.as_str(), wanted)
}

#[test]
fn a_net_of_many_pins_has_the_greater_of_two_bounds(rt: HostRuntime) -> Result<(), Fail> {
    for row in rows_of(rt.alloc(), BOUNDS_OF_MANY_PINS)? {
        bound_agrees(&rt, rt.alloc(), PIN_IN_EACH_TILE, row)?;
    }
    Ok(())
}

#[test]
fn a_net_of_many_pins_has_the_greater_of_two_bounds_with_a_budget(
    rt: HostRuntime,
) -> Result<(), Fail> {
    for row in rows_of(rt.alloc(), BOUNDS_OF_FIELDS)? {
        bound_agrees(&rt, rt.alloc(), PIN_IN_EACH_FIELD, row)?;
    }
    Ok(())
}

/// The ends of a piece as sets of vertices, each a bit by its number, and what it costs a net.
type Link = (u32, u32, u64);

fn bit(v: u32) -> u32 {
    1u32.wrapping_shl(v)
}

/// The pieces that a net may use, where it takes so much of each edge and pays so much for each piece.
fn links_of(
    alloc: Global,
    grid: &Grid,
    over: Ground,
    prices: &[u32],
    demand: u32,
    per_piece: u32,
) -> Result<Vec<Link>, AllocError> {
    let mut links = Vec::new(alloc);
    let size = grid.size();
    for e in 0..2 * size.vertices() {
        let p = Piece::Edge(Edge(e));
        if size.is_piece(p) && grid.allows(over, p) {
            let (a, b) = size.ends_of(p);
            let price = prices.get(e as usize).copied().unwrap_or(0);
            let paid = u64::from(price).wrapping_mul(u64::from(demand));
            links.push((bit(a.0), bit(b.0), paid.wrapping_add(u64::from(per_piece))))?;
        }
    }
    for v in 0..size.vertices() {
        let p = Piece::Via(Via(v));
        if size.is_piece(p) {
            let (a, b) = size.ends_of(p);
            links.push((bit(a.0), bit(b.0), u64::from(per_piece)))?;
        }
    }
    Ok(links)
}

/// What some of the pieces cost together, and the vertices that they join with those of a set.
fn joined(links: &[Link], chosen: u32, from: u32) -> (u64, u32) {
    let mut cost: u64 = 0;
    let mut met = from;
    for round in 0..links.len() {
        let mut here = bit(0);
        for i in 0..links.len() {
            let (a, b, paid) = links[i];
            let is_chosen = chosen & here != 0;
            here = here.wrapping_mul(2);
            if !is_chosen {
                continue;
            }
            if met & (a | b) != 0 {
                met = met | a | b;
            }
            if round == 0 {
                cost = cost.wrapping_add(paid);
            }
        }
    }
    (cost, met)
}

/// The least cost of a net over all sets of pieces that it may use.
fn least_of_all(links: &[Link], terminals: &[Vertex]) -> u64 {
    let mut all = 0;
    for v in terminals {
        all |= bit(v.0);
    }
    let from = terminals.first().map_or(0, |v| bit(v.0));
    let mut least = u64::MAX;
    for chosen in 0..4096 {
        let (cost, met) = joined(links, chosen, from);
        if met & all == all {
            least = least.min(cost);
        }
    }
    least
}

/// Prices that are drawn by a number, and what all capacities cost.
fn drawn_prices(alloc: Global, grid: &Grid, seed: u32) -> Result<(Vec<u32>, u128), AllocError> {
    let mut prices = Vec::new(alloc);
    let mut capacities: u128 = 0;
    let mut drawn = seed;
    for e in 0..2 * grid.size().vertices() {
        drawn = drawn.wrapping_mul(1_664_525).wrapping_add(1_013_904_223);
        let capacity = grid.capacity(Edge(e));
        let price = if capacity > 0 { (drawn >> 16) % 4 } else { 0 };
        prices.push(price)?;
        capacities = capacities.wrapping_add(u128::from(price).wrapping_mul(u128::from(capacity)));
    }
    Ok((prices, capacities))
}

/// What the nets of a design cost at least over all sets, where no layer has a smaller width than this.
fn least_of_design(
    alloc: Global,
    design: &Design,
    prices: &[u32],
    least_width: u32,
    per_piece: u32,
) -> Result<u128, Fail> {
    let grounds = design.grounds()?;
    let mut sum: u128 = 0;
    for (net, over) in design.nets.list().iter().zip(grounds.iter()) {
        let demand = net.width.max(least_width).wrapping_add(1);
        let links = links_of(alloc, &design.grid, *over, prices, demand, per_piece)?;
        let least = least_of_all(links.as_slice(), net.terminals.list());
        sum = sum.wrapping_add(u128::from(least));
    }
    Ok(sum)
}

/// Whether the bound of a design is that over all sets, at prices that are drawn by a number and with a wirelength of 1 at a
/// price.
fn all_sets_agree<R: Threads + Sync>(
    rt: &R,
    alloc: Global,
    design: &Design,
    least_width: u32,
    seed: u32,
    per_piece: u32,
) -> Result<bool, Fail> {
    let grounds = design.grounds()?;
    let (prices, capacities) = drawn_prices(alloc, &design.grid, seed)?;
    let budget = Some(Budget {
        most: 1,
        price: per_piece,
    });
    if !are_edge_prices(&design.grid, prices.as_slice()) || !is_within_limits(budget) {
        return Err(Fail::new("no such prices"));
    }
    let least = least_of_design(alloc, design, prices.as_slice(), least_width, per_piece)?;
    let all = capacities.wrapping_add(u128::from(per_piece));
    let found = bound(
        rt,
        alloc,
        design,
        grounds.as_slice(),
        prices.as_slice(),
        budget,
    )?;
    Ok(match found {
        Some(f) => f.num.wrapping_mul(all) == least.wrapping_mul(f.den),
        None => all == 0,
    })
}

/// Four tiles on two layers and the least width of a layer, with a net: of two pins; of four, with an edge of each layer choked;
/// and of three, of which the first is reached over choked edges alone. Then nets of three widths, of which one is forced;
/// and of widths below and above the least one.
const CUBES: &str =
    "ROW 0 144 grid 2 2 2;vertical capacity 4 4;horizontal capacity 4 4;minimum width 1 1;minimum spacing 1 1;via spacing 1 1;0 0 10 10;num net 1;a 0 2 1;5 5 1;15 15 2;0;|1
ROW 0 144 grid 2 2 2;vertical capacity 4 4;horizontal capacity 4 4;minimum width 1 1;minimum spacing 1 1;via spacing 1 1;0 0 10 10;num net 1;a 0 4 1;5 5 1;15 5 1;5 15 2;15 15 1;2;0 0 1 1 0 1 0;0 0 2 0 1 2 0;|1
ROW 0 144 grid 2 2 2;vertical capacity 4 4;horizontal capacity 4 4;minimum width 1 1;minimum spacing 1 1;via spacing 1 1;0 0 10 10;num net 1;a 0 3 1;5 5 2;15 5 1;15 15 1;4;0 0 1 1 0 1 0;0 0 1 0 1 1 0;0 0 2 1 0 2 0;0 0 2 0 1 2 0;|1
ROW 0 144 grid 2 2 2;vertical capacity 4 4;horizontal capacity 4 4;minimum width 1 1;minimum spacing 1 1;via spacing 1 1;0 0 10 10;num net 4;a 0 2 3;15 5 1;5 15 2;b 1 2 1;5 5 1;15 15 2;c 2 3 2;15 5 2;15 15 1;5 15 1;d 3 2 3;15 15 1;15 5 1;4;0 0 1 1 0 1 0;0 0 1 0 1 1 0;0 0 2 1 0 2 0;0 0 2 0 1 2 0;|1
ROW 0 144 grid 2 2 2;vertical capacity 4 4;horizontal capacity 4 4;minimum width 4 4;minimum spacing 1 1;via spacing 1 1;0 0 10 10;num net 3;a 0 2 1;5 5 1;15 15 2;b 1 5 6;15 5 1;5 15 2;5 5 2;15 15 1;15 5 2;c 2 3 3;15 5 2;15 15 1;5 5 1;0;|4";

/// Fails where the bound of a design is another one at some of nine prices.
fn all_prices_agree<R: Threads + Sync>(
    rt: &R,
    alloc: Global,
    design: &Design,
    least_width: u32,
    row: &str,
) -> Result<(), Fail> {
    for draw in 0..9 {
        if !all_sets_agree(rt, alloc, design, least_width, draw / 3, draw % 3)? {
            return Err(Fail::new(format_args!("seed and price {draw} of {row}")));
        }
    }
    Ok(())
}

fn cube_agrees<R: Threads + Sync>(rt: &R, alloc: Global, row: &'static str) -> Result<(), Fail> {
    let (given, least_width) = two_fields(row)?;
    let least_width = number_of(least_width)?;
    let design = design_of(alloc, given)?;
    all_prices_agree(rt, alloc, &design, least_width, row)
}

#[test]
fn bounds_are_those_over_all_sets_of_pieces(rt: HostRuntime) -> Result<(), Fail> {
    for row in rows_of(rt.alloc(), CUBES)? {
        cube_agrees(&rt, rt.alloc(), row)?;
    }
    Ok(())
}
