//! Weights for a search.

ghost use Rattle.std.specs.Prelude.{◌≡◌};
ghost use Rattle.std.specs.Option.{ForSome};
ghost use Rattle.grid_graph.specs.Flat.{AreLeastOver};
ghost use Rattle.grid_graph.specs.Grids.{size_of};
ghost use Rattle.edge_prices.specs.Floors.{AreLeast};
ghost use Rattle.edge_prices.specs.PieceLists.{pieces_with, IsWeightList};
ghost use Rattle.edge_prices.specs.TilePrices.{AreTilePrices, IsLeastDemand, least_weight_over};
ghost use Rattle.edge_prices.specs.Weights as weights;

use crate::least_prices::LeastPrices;
use crate::limits::MAX_PRICE;
use crate::net_prices::NetPrices;
use crate::tile_prices::least_price_over;
use grid_base::{Edge, Piece};
use grid_graph::{FlooredWeights, Floors, Grid, Ground, MAX_WEIGHT, Weights};

/// The pieces that a net may use with their weights, at a list of prices that ends with the wirelength's.
#[derive(Drop)]
pub struct Weighing<'a> {
    net: NetPrices<'a>,
    wirelength_price: u32,
    demand: u32,
    least: LeastPrices,
    tile_prices: Option<&'a [u32]>,
    ghost wirelength: { wirelength_price ≡ weights.wirelength_price net.grid.now net.prices.now },
    ghost used: { IsLeastDemand net.grid.now net.width demand },
    ghost tiled: { ForSome tile_prices (λ over. AreTilePrices net.grid.now net.prices.now over.now) },
    ghost low: { AreLeast net.grid.now net.prices.now least },
    ghost listed: { IsWeightList (size_of net.grid.now) (pieces_with net.grid.now net.ground (weights.piece_weight net.grid.now net.width net.prices.now)) },
    ghost under: { AreLeastOver (size_of net.grid.now) (pieces_with net.grid.now net.ground (weights.piece_weight net.grid.now net.width net.prices.now)) (least_weight_over net.grid.now net.prices.now demand) },
}

impl<'a> Weighing<'a> {
    ghost use Rattle.std.specs.Prelude.{◌≡◌, ◌+◌, ◌*◌, ◌≤◌, ◌<◌, None, IfSome};
    ghost use Rattle.std.specs.Option.{ForSome};
    ghost use Rattle.grid_graph.specs.Flat.{tiles};
    ghost use Rattle.grid_graph.specs.Grids.{size_of, IsNetWidth, edge_numbers};
    ghost use Rattle.grid_graph.specs.Limits.{max_weight};
    ghost use Rattle.edge_prices.specs.Floors.{AreLeast};
    ghost use Rattle.edge_prices.specs.Limits.{max_cost};
    ghost use Rattle.edge_prices.specs.PieceLists.{AreGroundPieces};
    ghost use Rattle.edge_prices.specs.TilePrices.{AreTilePrices, least_price_over, weight_at};
    ghost use Rattle.edge_prices.specs.Weighings.{weighed_size, weighed_pieces, weight_by};
    ghost use Rattle.edge_prices.specs.Weights.{IsPriceList, piece_weight, wirelength_price};

    /// The pieces of the ground with their weights for a net of this width, at a price list.
    pub fn new(grid: &'a Grid, width: u32, ground: Ground, prices: &'a [u32]) -> Weighing<'a>
        requires width { IsNetWidth grid.now width }
        requires prices { IsPriceList grid.now prices.now }
        ensures size { weighed_size result ≡ size_of grid.now }
        ensures pieces { AreGroundPieces grid.now ground (piece_weight grid.now width prices.now) (weighed_pieces result) }
    {
        let net = NetPrices::new(grid, width, ground, prices, false);
        Weighing::at(net, LeastPrices::NONE, None)
    }

    /// The weights of what a net pays, where no open edge has a lower price than the least one along its axis, and where
    /// the least price over each tile edge may be known.
    pub(crate) fn at(
        net: NetPrices<'a>,
        least: LeastPrices,
        tile_prices: Option<&'a [u32]>,
    ) -> Weighing<'a>
        requires prices { IsPriceList net.grid.now net.prices.now }
        requires least { AreLeast net.grid.now net.prices.now least }
        requires tile_prices { ForSome tile_prices (λ over. AreTilePrices net.grid.now net.prices.now over.now) }
        ensures size { weighed_size result ≡ size_of net.entry.grid.now }
        ensures pieces { AreGroundPieces net.entry.grid.now net.entry.ground (piece_weight net.entry.grid.now net.entry.width net.entry.prices.now) (weighed_pieces result) }
    {
        let wirelength_price = net.prices[2 * net.grid.size().vertices() as usize];
        let demand = net.least_demand();
        Weighing {
            net,
            wirelength_price,
            demand,
            least,
            tile_prices,
        }
    }

    /// The weight of an edge.
    fn edge_weight(&self, e: Edge) -> u64
        ensures value { e.0 < edge_numbers self.now.net.grid.now → result ≡ weight_by self.now (Piece.Edge e) }
        ensures limit { result ≤ max_weight }
    {
        self.weight_of(self.net.cost(e))
    }

    /// The least price of the open edges over a tile edge.
    fn price_over(&self, e: Edge) -> u32
        requires { e.0 < 2 * tiles (size_of self.now.net.grid.now) }
        ensures { result ≡ least_price_over self.now.net.grid.now self.now.net.prices.now e.0 }
    {
        match self.tile_prices {
            Some(over) => over[e.0 as usize],
            None => least_price_over(self.net.grid, self.net.prices, e.0),
        }
    }

    /// What an edge of this price weighs at least.
    fn weight_at(&self, price: u32) -> u64
        ensures { result ≡ weight_at price self.now.demand (wirelength_price self.now.net.grid.now self.now.net.prices.now) }
    {
        if price > MAX_PRICE {
            return MAX_WEIGHT;
        }
        self.open_weight(u64::from(price) * u64::from(self.demand))
    }

    /// The weight of an edge that costs this much, or of a choked one.
    fn weight_of(&self, cost: Option<u64>) -> u64
        requires { IfSome cost (λ x. x ≤ max_cost) }
        ensures some { IfSome cost (λ x. result ≡ 4 * (x + wirelength_price self.now.net.grid.now self.now.net.prices.now) + 1) }
        ensures none { cost ≡ None → result ≡ max_weight }
        ensures limit { result ≤ max_weight }
    {
        match cost {
            Some(cost) => self.open_weight(cost),
            None => MAX_WEIGHT,
        }
    }

    /// The weight of an open edge that costs this much. A via weighs as much as one that costs nothing.
    fn open_weight(&self, cost: u64) -> u64
        requires { cost ≤ max_cost }
        ensures value { result ≡ 4 * (cost + wirelength_price self.now.net.grid.now self.now.net.prices.now) + 1 }
        ensures limit { result ≤ max_weight }
    {
        4 * (cost + u64::from(self.wirelength_price)) + 1
    }
}

impl<'a> Weights for Weighing<'a> {
    ghost use Rattle.edge_prices.specs.Weighings.{weighed_size, weighed_pieces};

    ghost size = { weighed_size };

    ghost pieces = { weighed_pieces };

    ghost once = { λ x. x.listed.once };

    ghost inside = { λ x. x.listed.inside };

    ghost small = { λ x. x.listed.within };

    fn allows(&self, p: Piece) -> bool {
        self.net.allows(p)
    }

    fn weight(&self, p: Piece) -> u64 {
        match p {
            Piece::Edge(e) => self.edge_weight(e),
            Piece::Via(_) => self.open_weight(0),
        }
    }
}

impl<'a> FlooredWeights for Weighing<'a> {
    ghost use Rattle.edge_prices.specs.Weighings.{weight_over};

    ghost over = { weight_over };

    ghost under = { λ x. x.under };

    fn floors(&self) -> Floors {
        let demand = u64::from(self.demand);
        Floors {
            along_x: self.open_weight(u64::from(self.least.along_x) * demand),
            along_y: self.open_weight(u64::from(self.least.along_y) * demand),
            via: self.open_weight(0),
        }
    }

    fn least_over(&self, e: Edge) -> u64 {
        self.weight_at(self.price_over(e))
    }
}
