//! A price list that follows the loads.

ghost use Rattle.edge_prices.specs.Kept.{IsKept};
ghost use Rattle.edge_prices.specs.Limits.{IsScale, IsBudget};

use crate::least_of::least_prices_of;
use crate::least_prices::LeastPrices;
use crate::net_prices::NetPrices;
use crate::resources::Resources;
use crate::tile_prices::{write_tile_price, write_tile_prices};
use crate::top_index::TopIndex;
use crate::weighing::Weighing;
use grid_graph::{Grid, Ground};

/// The loads of a grid's resources, and the price list that follows them.
///
/// A change of one load changes one price, unless the greatest index changes: it is exceeded, or the last entry that had it
/// falls. Then all prices are stale until `renew`.
#[derive(Drop)]
pub struct KeptPrices<'a> {
    pub(crate) resources: Resources<'a>,
    pub(crate) loads: Vec<u64>,
    pub(crate) prices: Vec<u32>,
    pub(crate) top: TopIndex,
    pub(crate) least: LeastPrices,
    pub(crate) tile_prices: Vec<u32>,
    pub(crate) stale: bool,
    pub ghost kept: { IsKept resources.grid.now loads.items resources.scale resources.budget prices.items top least tile_prices.items stale },
}

impl<'a> KeptPrices<'a> {
    ghost use Rattle.std.specs.Prelude.{◌≡◌, ◌≤◌, ◌<◌, ◌*◌, length, slice_set, slice_index};
    ghost use Rattle.grid_graph.specs.Flat.{tiles};
    ghost use Rattle.grid_graph.specs.Grids.{size_of, IsNetWidth, entries};
    ghost use Rattle.edge_prices.specs.KeptLists.{grid_of, scale_of, budget_of, loads_of, vector_of, IsRenewed, KeepsSetting};
    ghost use Rattle.grid_graph.specs.Limits.{max_load};
    ghost use Rattle.edge_prices.specs.PieceLists.{AreGroundPieces};
    ghost use Rattle.edge_prices.specs.Vectors.{IsLoadList};
    ghost use Rattle.edge_prices.specs.Weighings.{weighed_size, weighed_pieces};
    ghost use Rattle.edge_prices.specs.Weights.{IsPriceList, piece_weight};

    /// The prices of these loads. They are written over `prices`, and the least over each tile edge, by its number on layer
    /// 0, over `tile_prices`, whatever the two hold.
    pub fn new(
        grid: &'a Grid,
        loads: Vec<u64>,
        scale: u32,
        budget: Option<u64>,
        prices: Vec<u32>,
        tile_prices: Vec<u32>,
    ) -> KeptPrices<'a>
        requires loads { IsLoadList grid.now loads.items }
        requires scale { IsScale scale }
        requires budget { IsBudget budget }
        requires prices { length prices.items ≡ entries grid.now }
        requires tile_prices { length tile_prices.items ≡ 2 * tiles (size_of grid.now) }
        ensures grid { grid_of result ≡ grid.now }
        ensures scale { scale_of result ≡ scale }
        ensures budget { budget_of result ≡ budget }
        ensures loads { loads_of result ≡ loads.items }
        ensures renewed { IsRenewed result }
    {
        let mut kept = KeptPrices {
            resources: Resources {
                grid,
                scale,
                budget,
            },
            loads,
            prices,
            top: TopIndex::NONE,
            least: LeastPrices::NONE,
            tile_prices,
            stale: true,
        };
        kept.renew();
        kept
    }

    /// The load of an entry: of an edge by its number, and behind the edges of the wirelength.
    pub fn load(&self, entry: u32) -> u64
        requires { entry < entries (grid_of self.now) }
        ensures value { result ≡ slice_index (loads_of self.now) entry }
        ensures limit { result ≤ max_load }
    {
        self.loads[entry as usize]
    }

    /// Changes the load of one entry, and renews its price unless all prices are stale then.
    pub fn set_load(&mut self, entry: u32, load: u64)
        requires entry { entry < entries (grid_of self.old) }
        requires load { load ≤ max_load }
        ensures loads { loads_of self.new ≡ slice_set (loads_of self.old) entry load }
        ensures setting { KeepsSetting self.old self.new }
    {
        let old = self.loads[entry as usize];
        self.loads[entry as usize] = load;
        if self.stale {
            return;
        }
        let before = self.resources.index(entry, old);
        let after = self.resources.index(entry, load);
        let Some(top) = self.top.after_change(before, after) else {
            self.stale = true;
            return;
        };
        self.top = top;
        let price = self.resources.price(entry, after, top.index);
        self.prices[entry as usize] = price;
        self.least = self.least.with_entry(self.resources.edges(), entry, price);
        write_tile_price(
            self.resources.grid,
            self.prices.as_slice(),
            entry,
            self.tile_prices.as_mut_slice(),
        );
    }

    /// Renews all prices where they are stale.
    pub fn renew(&mut self)
        ensures renewed { IsRenewed self.new }
        ensures loads { loads_of self.new ≡ loads_of self.old }
        ensures setting { KeepsSetting self.old self.new }
    {
        if !self.stale {
            return;
        }
        self.top = self.resources.top(self.loads.as_slice());
        self.resources.write_prices(
            self.loads.as_slice(),
            self.top.index,
            self.prices.as_mut_slice(),
        );
        self.least = least_prices_of(self.resources.grid, self.prices.as_slice());
        write_tile_prices(
            self.resources.grid,
            self.prices.as_slice(),
            self.tile_prices.as_mut_slice(),
        );
        self.stale = false;
    }

    /// The price vector of the loads as they now stand.
    pub fn prices(&self) -> &[u32]
        requires { IsRenewed self.now }
        ensures vector { result.now ≡ vector_of self.now }
        ensures list { IsPriceList (grid_of self.now) result.now }
    {
        self.prices.as_slice()
    }

    /// The pieces of the ground with their weights for a net of this width, at the prices of the loads as they now stand.
    pub fn weighing(&self, width: u32, ground: Ground) -> Weighing<'_>
        requires renewed { IsRenewed self.now }
        requires width { IsNetWidth (grid_of self.now) width }
        ensures size { weighed_size result ≡ size_of (grid_of self.now) }
        ensures pieces { AreGroundPieces (grid_of self.now) ground (piece_weight (grid_of self.now) width (vector_of self.now)) (weighed_pieces result) }
    {
        let net = NetPrices::new(
            self.resources.grid,
            width,
            ground,
            self.prices.as_slice(),
            true,
        );
        Weighing::at(net, self.least, Some(self.tile_prices.as_slice()))
    }

    /// The loads and the prices, taken out.
    pub fn into_lists(self) -> (Vec<u64>, Vec<u32>)
        ensures loads { result.0.items ≡ loads_of self.entry }
        ensures prices { IsRenewed self.entry → result.1.items ≡ vector_of self.entry }
        ensures long { length result.1.items ≡ entries (grid_of self.entry) }
    {
        (self.loads, self.prices)
    }
}
