//! A price list that follows the loads, apart from its grid.

use crate::kept_prices::KeptPrices;
use crate::least_prices::LeastPrices;
use crate::resources::Resources;
use crate::top_index::TopIndex;
use grid_graph::Grid;
use std::alloc::Global;

/// What a [`KeptPrices`] keeps, apart from its grid. So a struct can own both: it wakes the prices where it needs them, and
/// lays them to rest again. Neither takes more than a few moves.
#[derive(Drop)]
pub struct RestingPrices {
    scale: u32,
    budget: Option<u64>,
    loads: Vec<u64>,
    prices: Vec<u32>,
    top: TopIndex,
    least: LeastPrices,
    tile_prices: Vec<u32>,
    stale: bool,
}

impl RestingPrices {
    ghost use Rattle.std.specs.Prelude.{◌≡◌};
    ghost use Rattle.edge_prices.specs.KeptLists.{grid_of, scale_of, budget_of, loads_of};
    ghost use Rattle.edge_prices.specs.Resting.{RestOn, resting_scale, resting_budget, resting_loads};

    /// Nothing, which stands in the place of prices that are awake.
    pub fn nothing(alloc: Global) -> RestingPrices {
        RestingPrices {
            scale: 1,
            budget: None,
            loads: Vec::new(alloc),
            prices: Vec::new(alloc),
            top: TopIndex::NONE,
            least: LeastPrices::NONE,
            tile_prices: Vec::new(alloc),
            stale: true,
        }
    }

    /// Lays prices to rest.
    pub fn of(kept: KeptPrices<'_>) -> RestingPrices
        ensures grid { RestOn (grid_of kept.entry) result }
        ensures scale { resting_scale result ≡ scale_of kept.entry }
        ensures budget { resting_budget result ≡ budget_of kept.entry }
        ensures loads { resting_loads result ≡ loads_of kept.entry }
    {
        RestingPrices {
            scale: kept.resources.scale,
            budget: kept.resources.budget,
            loads: kept.loads,
            prices: kept.prices,
            top: kept.top,
            least: kept.least,
            tile_prices: kept.tile_prices,
            stale: kept.stale,
        }
    }

    /// Wakes them, on the grid that they were on.
    pub fn awake<'a>(self, grid: &'a Grid) -> KeptPrices<'a>
        requires { RestOn grid.now self }
        ensures grid { grid_of result ≡ grid.now }
        ensures scale { scale_of result ≡ resting_scale self }
        ensures budget { budget_of result ≡ resting_budget self }
        ensures loads { loads_of result ≡ resting_loads self }
    {
        KeptPrices {
            resources: Resources {
                grid,
                scale: self.scale,
                budget: self.budget,
            },
            loads: self.loads,
            prices: self.prices,
            top: self.top,
            least: self.least,
            tile_prices: self.tile_prices,
            stale: self.stale,
        }
    }

    /// The loads: of each edge by its number, and behind the edges of the wirelength.
    pub fn loads(&self) -> &[u64]
        ensures { result.now ≡ resting_loads self.now }
    {
        self.loads.as_slice()
    }
}
