//! Costs for a bound.

ghost use Rattle.grid_graph.specs.Grids.{size_of};
ghost use Rattle.edge_prices.specs.PieceLists.{pieces_with, IsWeightList};
ghost use Rattle.edge_prices.specs.Weights.{cost};

use crate::net_prices::NetPrices;
use grid_base::Piece;
use grid_graph::{Grid, Ground, Weights};

/// The pieces that a net may use with their costs, at the prices of the edges alone.
#[derive(Drop)]
pub struct Costing<'a> {
    net: NetPrices<'a>,
    ghost listed: { IsWeightList (size_of net.grid.now) (pieces_with net.grid.now net.ground (cost net.grid.now net.width net.prices.now)) },
}

impl<'a> Costing<'a> {
    ghost use Rattle.std.specs.Prelude.{◌≡◌, ◌≤◌, ◌*◌, ℕ};
    ghost use Rattle.grid_base.specs.declared.piece.Piece.{Piece};
    ghost use Rattle.grid_graph.specs.Grids.{size_of, IsNetWidth};
    ghost use Rattle.grid_graph.specs.Limits.{max_demand};
    ghost use Rattle.grid_graph.specs.Weighed.{Weighs};
    ghost use Rattle.edge_prices.specs.Costings.{costed_size, costed_pieces};
    ghost use Rattle.edge_prices.specs.Limits.{max_price};
    ghost use Rattle.edge_prices.specs.PieceLists.{AreGroundPieces, pieces_with};
    ghost use Rattle.edge_prices.specs.Weights.{AreEdgePrices, cost};

    /// The pieces of the ground with their costs for a net of this width, at one price per edge number.
    pub fn new(grid: &'a Grid, width: u32, ground: Ground, prices: &'a [u32]) -> Costing<'a>
        requires width { IsNetWidth grid.now width }
        requires prices { AreEdgePrices grid.now prices.now }
        ensures size { costed_size result ≡ size_of grid.now }
        ensures pieces { AreGroundPieces grid.now ground (cost grid.now width prices.now) (costed_pieces result) }
        ensures list { costed_pieces result ≡ pieces_with grid.now ground (cost grid.now width prices.now) }
        ensures small { (p : Piece) (k : ℕ) → Weighs (costed_pieces result) p k → k ≤ max_price * max_demand }
    {
        Costing {
            net: NetPrices::new(grid, width, ground, prices, false),
        }
    }
}

impl<'a> Weights for Costing<'a> {
    ghost use Rattle.edge_prices.specs.Costings.{costed_size, costed_pieces};

    ghost size = { costed_size };

    ghost pieces = { costed_pieces };

    ghost once = { λ x. x.listed.once };

    ghost inside = { λ x. x.listed.inside };

    ghost small = { λ x. x.listed.within };

    fn allows(&self, p: Piece) -> bool {
        self.net.allows(p)
    }

    fn weight(&self, p: Piece) -> u64 {
        match p {
            Piece::Edge(e) => self.net.cost(e).unwrap_or(0),
            Piece::Via(_) => 0,
        }
    }
}
