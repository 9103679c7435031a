//! How full tile edges are.

ghost use Rattle.std.specs.Prelude.{◌≡◌, ◌*◌, ◌<◌, ◌↔◌, IfOk, IsPermutation, IsTrue, SomeIff, false, fold, length, map, replicate, take};
ghost use Rattle.std.specs.List.{enumerate_from, flat_map};
ghost use Rattle.std.specs.List.Sorted.{IsSorted};
ghost use Rattle.grid_graph.specs.Flat.{tiles};
ghost use Rattle.grid_graph.specs.Grids as grids;
ghost use Rattle.tile_graphs.specs.Totals.{totals_of, with_edge};
ghost use Rattle.tile_graphs.specs.Fullness.{excess_of, fuller_of, fullness_of, is_above, is_filled_to, with_more};
ghost use Rattle.tile_graphs.specs.Uses.{in_turn, most_tile_edges, use_of, with_mark};

use crate::numbers::tile_edges;
use grid_base::{Edge, NoMemory};
use grid_graph::Grid;
use std::alloc::Global;
use std::cmp::Reverse;

/// So much stands for a tile edge whose capacity is just in use.
pub const FULL: u64 = 1 << 20;

/// What some edges carry together, and what they can carry.
#[derive(Debug, Drop, Clone, Copy, PartialEq, Eq)]
pub struct TileTotal {
    pub load: u64,
    pub capacity: u64,
}

impl TileTotal {
    /// No edges.
    pub const NONE: TileTotal = TileTotal {
        load: 0,
        capacity: 0,
    };

    /// With so much more.
    pub fn with(self, load: u64, capacity: u64) -> TileTotal
        ensures { result ≡ with_more self load capacity }
    {
        TileTotal {
            load: self.load.saturating_add(load),
            capacity: self.capacity.saturating_add(capacity),
        }
    }

    /// Whether there is any capacity.
    pub fn is_open(self) -> bool
        ensures { IsTrue result ↔ 0 < self.capacity }
    {
        self.capacity > 0
    }

    /// What is carried beyond the capacity.
    pub fn excess(self) -> u64
        ensures { result ≡ excess_of self }
    {
        self.load.saturating_sub(self.capacity)
    }

    /// Whether more is carried than at a level, in parts of `FULL`.
    pub fn is_fuller(self, level: u64) -> bool
        ensures { result ≡ is_above level self }
    {
        let held = u128::from(self.capacity) * u128::from(level);
        u128::from(self.load) * u128::from(FULL) > held
    }

    /// The load in parts of `FULL`, as a number of 64 bits, by the capacity, where there is capacity.
    fn fullness(self) -> Option<u64>
        ensures { SomeIff result (0 < self.capacity) (fullness_of self) }
    {
        self.load.saturating_mul(FULL).checked_div(self.capacity)
    }

    /// The fuller one of two.
    pub fn fuller(self, other: TileTotal) -> TileTotal
        ensures { result ≡ fuller_of self other }
    {
        if other.fullness() > self.fullness() {
            other
        } else {
            self
        }
    }
}

/// An open tile edge with how full it is. The fuller one comes first, and of equally full ones that of the lower number.
#[derive(Debug, Drop, Clone, Copy, PartialEq, Eq, PartialOrd, Ord)]
pub struct TileUse {
    fullness: Reverse<u64>,
    tile_edge: u32,
}

/// What the open edges over each tile edge carry and can carry, by its number on layer 0. What closed ones carry counts for none.
pub(crate) fn tile_totals(
    alloc: Global,
    grid: &Grid,
    loads: &[u64],
) -> Result<Vec<TileTotal>, NoMemory>
    ensures long { IfOk result (λ totals. length totals.items ≡ 2 * tiles (grids.size_of grid.now)) }
    ensures all { IfOk result (λ totals. totals.items ≡ totals_of grid.now loads.now) }
{
    let mut totals = vec![in alloc; TileTotal::NONE; tile_edges(grid) as usize]?;
    for e in 0..2 * grid.size().vertices() {
        add_edge(&mut totals, grid, loads, e);
    }
    Ok(totals)
}

/// Adds what an edge carries and can carry to the total of its tile edge, if it is open.
fn add_edge(totals: &mut Vec<TileTotal>, grid: &Grid, loads: &[u64], e: u32)
    requires { grids.IsEdgeNumber grid.now e }
    ensures added { totals.new.items ≡ with_edge grid.now loads.now totals.old.items e }
    ensures long { length totals.new.items ≡ length totals.old.items }
{
    let capacity = grid.capacity(Edge(e));
    if capacity == 0 {
        return;
    }
    let load = loads.get(e as usize).copied().unwrap_or(0);
    if let Some(total) = totals.get_mut((e % tile_edges(grid)) as usize) {
        *total = total.with(load, u64::from(capacity));
    }
}

/// Marks the tile edges that are filled to a level at least, in parts of `FULL`.
pub fn marks_by_level(
    alloc: Global,
    totals: &[TileTotal],
    level: u64,
) -> Result<Vec<bool>, NoMemory>
    ensures { IfOk result (λ marks. marks.items ≡ map (is_filled_to level) totals.now) }
{
    let mut marks = Vec::new(alloc);
    for total in totals {
        marks.push(total.fullness() >= Some(level))?;
    }
    Ok(marks)
}

/// Marks so many of the tile edges that come first.
pub fn marks_by_count(
    alloc: Global,
    uses: &[TileUse],
    count: usize,
    tile_edges: usize,
) -> Result<Vec<bool>, NoMemory>
    ensures { IfOk result (λ marks. marks.items ≡ fold with_mark (replicate tile_edges false) (take count uses.now)) }
{
    let mut marks = vec![in alloc; false; tile_edges]?;
    for used in uses.iter().take(count) {
        if let Some(mark) = marks.get_mut(used.tile_edge as usize) {
            *mark = true;
        }
    }
    Ok(marks)
}

/// The open tile edges by what counts for each of them, the fullest first.
pub fn fullest_first(alloc: Global, totals: &[TileTotal]) -> Result<Vec<TileUse>, NoMemory>
    ensures all { IfOk result (λ uses. IsPermutation (flat_map use_of (enumerate_from 0 (take most_tile_edges totals.now))) uses.items) }
    ensures sorted { IfOk result (λ uses. IsSorted in_turn uses.items) }
{
    let mut uses = Vec::new(alloc);
    for (tile_edge, total) in (0..u32::MAX).zip(totals) {
        if let Some(fullness) = total.fullness() {
            uses.push(TileUse {
                fullness: Reverse(fullness),
                tile_edge,
            })?;
        }
    }
    uses.sort_unstable();
    Ok(uses)
}
