//! Prices of `edge_prices` on a worked grid, worked out by hand.

ghost use Rattle.std.specs.Prelude.{◌≡◌, ◌≤◌, IsTrue, IfOk, IfSome};
ghost use Rattle.grid_graph.specs.Flat.{tiles};
ghost use Rattle.grid_graph.specs.Grids.{size_of, IsNetWidth};
ghost use Rattle.grid_graph.specs.Limits.{max_capacity};
ghost use Rattle.edge_prices.specs.KeptLists.{grid_of, IsRenewed};
ghost use Rattle.edge_prices.specs.Limits.{IsBudget};
ghost use Rattle.edge_prices.specs.Vectors.{IsLoadList};

use edge_prices::{
    Costing, KeptPrices, LAST_INDEX, MAX_LOAD, MAX_SCALE, Weighing, are_edge_prices, index_at,
    price_at, price_from, prices,
};
use grid_base::{Edge, NoMemory, Piece, Size};
use grid_graph::{FlooredWeights, Floors, Grid, GridParts, Ground, MAX_DEMAND, Weights};
use std::alloc::{AllocError, Global};
use std::test::Fail;
use test_rows::{
    Answers, check_rows, number_of, numbers_text, piece_of, three_numbers, two_numbers,
};

/// What is asked for, and what is found: the price at a place of the table, the index of a capacity, a load and a scale, the
/// price of an index where another one is the greatest, or something of the grid of `three_edges`.
///
/// Of the grid it is what a piece costs where edges 0 and 8 have the prices 5 and 7, the prices where edges 0, 2 and 4 and the
/// wirelength have loads, or what is kept after so many changes of loads that are 0 at first. The prices are those of the open
/// edges 0, 2 and 8, of the choked one and of the wirelength. Kept are the prices, lists of these lengths, the floors along x,
/// along y and of a via, and what pieces weigh: an edge four times its price for each unit that a wire of width 2 uses, and 1.
const ASKED: &str = "# some places in the table of prices
place 0|1
place 39|40
place 59|80
place 73|122
place 83|162
place 98|244
place 117|402
place 135|640
place 155|1063
place 170|1548
place 180|1986
place 190|2548
place 200|3266
place 220|5363
place 240|8802
place 247|10468
place 253|12142
place 255|12758
# an index counts eighths, and a price falls with the distance to the top
index 4 8 1|16
index 3 1 1|2
from 8 16|10468
from 0 300|1
# prices follow the greatest index of all resources, without a budget and with one of 1
loaded free| 12758 10468 8587 0 0
loaded bound| 3885 3186 2612 0 12758
# the greatest index rises to 16, an entry rises below it, and the greatest index falls to 8
kept 0 prices| 12758 12758 12758 0 0
kept 1 prices| 12758 8587 8587 0 0
kept 2 prices| 12758 10468 8587 0 0
kept 3 prices| 10468 12758 10468 0 0
kept 3 lengths| 17 17
# edge 4 is choked, edge 10 is a wall, and there is no via 4
kept 1 floors| 103045 393217 1
kept 1 open e2|103045
kept 1 open e4|none
kept 1 open e10|none
kept 1 open v3|1
kept 1 open v4|none
kept 1 forced e0|153097
kept 1 forced e2|103045
kept 1 forced e8|137393
kept 1 forced e4|274877906944
kept 1 forced e10|none
kept 1 forced v0|1
kept 1 forced v3|1
kept 1 forced v4|none
# only open edges cost
cost e0|15
cost e8|28
cost e4|0
cost v0|0";

struct Prices;

impl Answers for Prices {
    fn answer(&self, alloc: Global, given: &'static str) -> Result<String, Fail> {
        let (kind, asked) = given.split_once(' ').ok_or("what is asked")?;
        match kind {
            "place" => at_place(alloc, number_of(asked)?),
            "index" => index_of(alloc, asked),
            "from" => from_index(alloc, asked),
            _ => of_three_edges(alloc, kind, asked),
        }
    }
}

#[test]
fn prices_and_weights_are_those_that_were_worked_out(rt: HostRuntime) -> Result<(), Fail> {
    check_rows(rt.alloc(), ASKED, &Prices)
}

fn at_place(alloc: Global, place: u32) -> Result<String, Fail> {
    if place > LAST_INDEX {
        return Err(Fail::new("no place"));
    }
    Ok(price_at(place).to_string(alloc)?)
}

fn index_of(alloc: Global, numbers: &'static str) -> Result<String, Fail> {
    let (capacity, load, scale) = three_numbers::<u32>(numbers)?;
    let load = u64::from(load);
    if capacity == 0 || load > MAX_LOAD || scale == 0 || scale > MAX_SCALE {
        return Err(Fail::new("no index"));
    }
    Ok(index_at(u64::from(capacity), load, scale).to_string(alloc)?)
}

fn from_index(alloc: Global, numbers: &'static str) -> Result<String, Fail> {
    let (index, top) = two_numbers::<u128>(numbers)?;
    if index > top {
        return Err(Fail::new("no greatest index"));
    }
    Ok(price_from(index, top).to_string(alloc)?)
}

/// Makes the capacity of an edge another one.
fn set_level(grid: &mut Grid, e: u32, level: u32)
    requires { level ≤ max_capacity }
{
    if grid.size().is_piece(Piece::Edge(Edge(e))) {
        grid.adjust(Edge(e), level);
    }
}

/// Four tiles in a row on two layers. Edges 0, 2 and 8 are open, with capacities 4, 8 and 4. Edge 4 is choked, and edges 10
/// and 12 are walls. A wire of a net of width 2 uses 3 of an edge of the lower layer, and 4 of the upper one.
fn three_edges(alloc: Global) -> Result<Grid, Fail> {
    let parts = GridParts {
        size: Size::new(4, 1, 2).ok_or("size")?,
        vertical: [0, 0].to_vec(alloc)?,
        horizontal: [4, 0].to_vec(alloc)?,
        widths: [1, 3].to_vec(alloc)?,
        spacings: [1, 1].to_vec(alloc)?,
        origin: (0, 0),
        tile: (10, 10),
    };
    let mut grid = Grid::new(alloc, parts)?;
    set_level(&mut grid, 2, 8);
    set_level(&mut grid, 4, 0);
    set_level(&mut grid, 8, 4);
    Ok(grid)
}

fn of_three_edges(alloc: Global, kind: &str, asked: &'static str) -> Result<String, Fail> {
    let grid = three_edges(alloc)?;
    of_grid(alloc, &grid, kind, asked)
}

fn of_grid(alloc: Global, grid: &Grid, kind: &str, asked: &'static str) -> Result<String, Fail> {
    match kind {
        "loaded" => loaded_text(alloc, grid, asked),
        "kept" => kept_text(alloc, grid, asked),
        "cost" => cost_text(alloc, grid, piece_of(asked)?),
        _ => Err(Fail::new("nothing that can be asked")),
    }
}

/// The price at a place of a list, 0 behind its end.
fn price_in(prices: &[u32], place: usize) -> u32 {
    prices.get(place).copied().unwrap_or(0)
}

/// The prices of the open edges, of the choked one and of the wirelength.
fn at_places(prices: &[u32]) -> [u32; 5] {
    [
        price_in(prices, 0),
        price_in(prices, 2),
        price_in(prices, 8),
        price_in(prices, 4),
        price_in(prices, 16),
    ]
}

fn are_loads(grid: &Grid, loads: &[u64]) -> bool
    ensures { IsTrue result → IsLoadList grid.now loads.now }
{
    loads.len() == 2 * grid.size().vertices() as usize + 1
        && loads.iter().all(|load| *load <= MAX_LOAD)
}

fn priced(grid: &Grid, budget: Option<u64>) -> [u32; 5]
    requires { IsBudget budget }
{
    let loads = [8, 0, 8, 0, 100, 0, 0, 0, 0, 0, 0, 0, 0, 0, 0, 0, 8];
    let mut out = [7; 17];
    if are_loads(grid, loads.as_slice()) {
        prices(grid, loads.as_slice(), 1, budget, &mut out);
    }
    at_places(out.as_slice())
}

fn loaded_text(alloc: Global, grid: &Grid, budget: &str) -> Result<String, Fail> {
    let found = match budget {
        "free" => priced(grid, None),
        "bound" => priced(grid, Some(1)),
        _ => return Err(Fail::new("no budget")),
    };
    Ok(numbers_text(alloc, &found)?)
}

/// Whether a layer has four vertices.
fn has_four_tiles(grid: &Grid) -> bool
    ensures { IsTrue result → tiles (size_of grid.now) ≡ 4 }
{
    let size = grid.size();
    size.cols() * size.rows() == 4
}

/// A keeper of prices for loads of 0.
fn kept_at_zero(alloc: Global, grid: &Grid) -> Result<Option<KeptPrices<'_>>, NoMemory>
    ensures grid { IfOk result (λ found. IfSome found (λ kept. grid_of kept ≡ grid.now)) }
    ensures renewed { IfOk result (λ found. IfSome found (λ kept. IsRenewed kept)) }
{
    let loads = [0; 17].to_vec(alloc)?;
    let prices = [7; 17].to_vec(alloc)?;
    let tile_prices = [7; 8].to_vec(alloc)?;
    if !are_loads(grid, loads.as_slice()) || !has_four_tiles(grid) {
        return Ok(None);
    }
    Ok(Some(KeptPrices::new(grid, loads, 1, None, prices, tile_prices)))
}

/// The keeper after one load changed.
fn changed<'a>(grid: &'a Grid, mut kept: KeptPrices<'a>, entry: u32, load: u64) -> KeptPrices<'a>
    requires { grid_of kept ≡ grid.now }
    ensures grid { grid_of result ≡ grid.entry.now }
    ensures renewed { IsRenewed result }
{
    if entry <= 2 * grid.size().vertices() && load <= MAX_LOAD {
        kept.set_load(entry, load);
    }
    kept.renew();
    kept
}

/// The keeper after so many of three changes.
fn changed_often<'a>(grid: &'a Grid, kept: KeptPrices<'a>, count: u32) -> KeptPrices<'a>
    requires grid { grid_of kept ≡ grid.now }
    requires renewed { IsRenewed kept }
    ensures grid { grid_of result ≡ grid.entry.now }
    ensures renewed { IsRenewed result }
{
    if count == 0 {
        return kept;
    }
    let risen = changed(grid, kept, 0, 8);
    if count == 1 {
        return risen;
    }
    let below = changed(grid, risen, 2, 8);
    if count == 2 {
        return below;
    }
    changed(grid, below, 0, 0)
}

fn kept_text(alloc: Global, grid: &Grid, asked: &'static str) -> Result<String, Fail> {
    let (count, what) = asked.split_once(' ').ok_or("a count")?;
    let count = number_of(count)?;
    let first = kept_at_zero(alloc, grid)?.ok_or("size")?;
    let kept = changed_often(grid, first, count);
    match what {
        "lengths" => lengths_text(alloc, kept),
        _ => kept_part(alloc, grid, &kept, what),
    }
}

fn lengths_text(alloc: Global, kept: KeptPrices<'_>) -> Result<String, Fail> {
    let (loads, prices) = kept.into_lists();
    Ok(numbers_text(alloc, &[loads.len(), prices.len()])?)
}

/// The prices, the floors, or what a piece weighs.
fn kept_part(
    alloc: Global,
    grid: &Grid,
    kept: &KeptPrices<'_>,
    what: &'static str,
) -> Result<String, Fail>
    requires grid { grid_of kept.now ≡ grid.now }
    requires renewed { IsRenewed kept.now }
{
    if !fits_width(grid, 2) {
        return Err(Fail::new("width"));
    }
    match what {
        "prices" => Ok(numbers_text(alloc, &at_places(kept.prices()))?),
        "floors" => floors_text(alloc, kept.weighing(2, Ground::Open).floors()),
        _ => piece_weight(alloc, grid, kept, what),
    }
}

fn floors_text(alloc: Global, floors: Floors) -> Result<String, Fail> {
    let numbers = [floors.along_x, floors.along_y, floors.via];
    Ok(numbers_text(alloc, &numbers)?)
}

/// What a piece weighs for a net that keeps to open edges, or one that is forced.
fn piece_weight(
    alloc: Global,
    grid: &Grid,
    kept: &KeptPrices<'_>,
    what: &'static str,
) -> Result<String, Fail>
    requires grid { grid_of kept.now ≡ grid.now }
    requires renewed { IsRenewed kept.now }
    requires width { IsNetWidth grid.now 2 }
{
    let (ground, piece) = what.split_once(' ').ok_or("a ground")?;
    let piece = piece_of(piece)?;
    Ok(match ground {
        "open" => weight_text(alloc, &kept.weighing(2, Ground::Open), piece)?,
        "forced" => {
            let forced = Weighing::new(grid, 2, Ground::WithChoked, kept.prices());
            weight_text(alloc, &forced, piece)?
        }
        _ => return Err(Fail::new("no ground")),
    })
}

/// The weight of a piece, or that it isn't allowed.
fn weight_text<W: Weights>(alloc: Global, w: &W, piece: Piece) -> Result<String, AllocError> {
    if w.allows(piece) {
        w.weight(piece).to_string(alloc)
    } else {
        String::from_str(alloc, "none")
    }
}

fn fits_width(grid: &Grid, width: u32) -> bool
    requires { width ≤ MAX_DEMAND }
    ensures { IsTrue result → IsNetWidth grid.now width }
{
    for layer in 0..grid.size().layers() {
        if width + grid.spacing(layer) > MAX_DEMAND {
            return false;
        }
    }
    true
}

fn cost_text(alloc: Global, grid: &Grid, piece: Piece) -> Result<String, Fail> {
    let prices = [5, 0, 0, 0, 0, 0, 0, 0, 7, 0, 0, 0, 0, 0, 0, 0];
    if !are_edge_prices(grid, prices.as_slice()) || !fits_width(grid, 2) {
        return Err(Fail::new("prices or width"));
    }
    let costing = Costing::new(grid, 2, Ground::WithChoked, prices.as_slice());
    Ok(weight_text(alloc, &costing, piece)?)
}
