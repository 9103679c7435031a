//! The resources of a grid.

ghost use Rattle.edge_prices.specs.Limits.{IsScale, IsBudget};

use crate::index::index_at;
use crate::price::price_from;
use crate::top_index::TopIndex;
use grid_base::Edge;
use grid_graph::Grid;

/// What has a price: the open edges of a grid and, where there is a budget, the wirelength.
///
/// Lists of loads and of prices have an entry for each edge number, and then one for the wirelength.
#[derive(Drop)]
pub struct Resources<'a> {
    pub grid: &'a Grid,
    pub scale: u32,
    pub budget: Option<u64>,
    ghost scaled: { IsScale scale },
    ghost budgeted: { IsBudget budget },
}

impl Resources<'_> {
    ghost use Rattle.std.specs.Prelude.{◌≡◌, ◌≤◌, ◌<◌, length, slice_index};
    ghost use Rattle.grid_graph.specs.Limits.{max_load};
    ghost use Rattle.edge_prices.specs.Prices.{index_or_zero, price_or_zero};
    ghost use Rattle.grid_graph.specs.Grids.{edge_numbers, entries};
    ghost use Rattle.edge_prices.specs.TopIndices.{IsTopIndex};
    ghost use Rattle.edge_prices.specs.Vectors.{capacity_of, index_of, top_of, price_of, price_vector, IsLoadList};

    /// The number of edge numbers, which is the place of the wirelength's entry.
    pub fn edges(&self) -> u32
        ensures { result ≡ edge_numbers self.now.grid.now }
    {
        2 * self.grid.size().vertices()
    }

    /// The number of entries.
    fn entries(&self) -> u32
        ensures { result ≡ entries self.now.grid.now }
    {
        self.edges() + 1
    }

    /// How much the entry's resource can carry: 0 where the entry is no resource.
    fn capacity(&self, entry: u32) -> u64
        requires { entry < entries self.now.grid.now }
        ensures value { result ≡ capacity_of self.now.grid.now self.now.budget entry }
    {
        if entry == self.edges() {
            self.budget.unwrap_or(0)
        } else {
            u64::from(self.grid.capacity(Edge(entry)))
        }
    }

    /// The index of the entry's resource under this load: 0 where the entry is no resource.
    pub fn index(&self, entry: u32, load: u64) -> u128
        requires entry { entry < entries self.now.grid.now }
        requires load { load ≤ max_load }
        ensures { result ≡ index_or_zero (capacity_of self.now.grid.now self.now.budget entry) load self.now.scale }
    {
        match self.capacity(entry) {
            0 => 0,
            capacity => index_at(capacity, load, self.scale),
        }
    }

    /// The price of the entry's resource by its index; 0 where the entry is no resource.
    pub fn price(&self, entry: u32, index: u128, top: u128) -> u32
        requires entry { entry < entries self.now.grid.now }
        requires top { index ≤ top }
        ensures { result ≡ price_or_zero (capacity_of self.now.grid.now self.now.budget entry) top index }
    {
        if self.capacity(entry) == 0 {
            return 0;
        }
        price_from(index, top)
    }

    /// The greatest index over all resources, and how many entries have it.
    pub fn top(&self, loads: &[u64]) -> TopIndex
        requires { IsLoadList self.now.grid.now loads.now }
        ensures { IsTopIndex (index_of self.now.grid.now loads.now self.now.scale self.now.budget) (entries self.now.grid.now) result }
    {
        let mut top = TopIndex::NONE;
        for entry in 0..self.entries() {
            top = top.with(self.index(entry, loads[entry as usize]));
        }
        top
    }

    /// Writes the price of each entry, given the greatest index.
    pub fn write_prices(&self, loads: &[u64], top: u128, out: &mut [u32])
        requires loads { IsLoadList self.now.grid.now loads.now }
        requires top { top ≡ top_of self.now.grid.now loads.now self.now.scale self.now.budget }
        requires out { length out.old ≡ entries self.now.grid.now }
        ensures { out.new ≡ price_vector self.now.grid.now loads.now self.now.scale self.now.budget }
    {
        for entry in 0..self.entries() {
            let index = self.index(entry, loads[entry as usize]);
            out[entry as usize] = self.price(entry, index, top);
        }
    }
}
