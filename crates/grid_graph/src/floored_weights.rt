//! Weights that know how little pieces weigh.

use crate::floors::Floors;
use crate::weights::Weights;
use grid_base::Edge;

/// Weights with lower bounds of themselves, which lead a search.
pub trait FlooredWeights: Weights {
    ghost use Rattle.std.specs.Prelude.{◌≡◌, ◌<◌, ◌*◌, ℕ};
    ghost use Rattle.grid_graph.specs.Flat.{tiles, AreLeastOver};
    ghost use Rattle.grid_graph.specs.Floors.{AreFloors, AreTileFloors, AreWithin};

    ghost over: { Self → ℕ → ℕ };

    /// What the pieces of each direction weigh at least.
    fn floors(&self) -> Floors
        ensures below { AreFloors result (Self.pieces self.now) }
        ensures tiles { AreTileFloors (Self.size self.now) result (over self.now) }
        ensures limits { AreWithin result };

    /// What the edges over a tile edge weigh at least, on whatever layer they are: `e` is the number of the one on layer
    /// 0, up to `MAX_WEIGHT`.
    fn least_over(&self, e: Edge) -> u64
        requires { e.0 < 2 * tiles (Self.size self.now) }
        ensures { result ≡ over self.now e.0 };

    ghost under: { (x : Self) → AreLeastOver (Self.size x) (Self.pieces x) (over x) };
}
