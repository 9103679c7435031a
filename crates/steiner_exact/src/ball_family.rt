//! Lower bounds by a table of the flat grid and by balls around terminals.

ghost use Rattle.std.specs.Prelude.{◌≡◌};
ghost use Rattle.shortest_paths.specs.LabelWords.{label_of};
ghost use Rattle.steiner_tables.specs.Tables.{IsFamily};
ghost use Rattle.terminal_balls.specs.Balls.{AreInGrid, balls_of};
ghost use Rattle.steiner_exact.specs.RowLows.{ball_low};

use crate::limits::MOST_LOW;
use crate::row_family::RowFamily;
use grid_base::{Place, Vertex};
use grid_graph::FlooredWeights;
use shortest_paths::Family;
use terminal_balls::TerminalBalls;

/// The numbers of a row, each with what its layers to go or the balls of its terminals weigh, whichever is more.
#[derive(Drop)]
pub struct BallFamily<'a, W: FlooredWeights, B: Family> {
    row: &'a RowFamily<'a, W, B>,
    balls: &'a TerminalBalls,
    ghost grid: { AreInGrid row.now.size balls.now },
    ghost holds: { IsFamily row.now.size (W.pieces row.now.weights.now) row.now.terminals.now (ball_low row.now.size row.now.terminals.now row.now.via (B.low row.now.bounds.now) row.now.limit (label_of row.now.labels.now) (balls_of balls.now)) },
}

impl<'a, W: FlooredWeights, B: Family> BallFamily<'a, W, B> {
    ghost use Rattle.std.specs.Prelude.{◌≡◌};
    ghost use Rattle.terminal_balls.specs.Balls.{AreBalls, AreInGrid, balls_of};

    /// The bounds by a row and by balls around its terminals.
    pub fn new(row: &'a RowFamily<'a, W, B>, balls: &'a TerminalBalls) -> BallFamily<'a, W, B>
        requires grid { AreInGrid row.now.size balls.now }
        requires balls { AreBalls row.now.size (W.pieces row.now.weights.now) (W.over row.now.weights.now) row.now.terminals.now (balls_of balls.now) }
        ensures row { result.row.now ≡ row.now }
    {
        BallFamily { row, balls }
    }
}

impl<'a, W: FlooredWeights, B: Family> Family for BallFamily<'a, W, B> {
    ghost use Rattle.shortest_paths.specs.LabelWords.{label_of};
    ghost use Rattle.terminal_balls.specs.Balls.{balls_of};
    ghost use Rattle.steiner_exact.specs.RowLows.{ball_low};

    ghost size = { λ x. x.row.now.size };

    ghost pieces = { λ x. W.pieces x.row.now.weights.now };

    ghost terminals = { λ x. x.row.now.terminals.now };

    ghost low = { λ x. ball_low x.row.now.size x.row.now.terminals.now x.row.now.via (B.low x.row.now.bounds.now) x.row.now.limit (label_of x.row.now.labels.now) (balls_of x.balls.now) };

    ghost holds = { λ x. x.holds };

    fn low(&self, mask: u32, v: Vertex, place: Place) -> u64 {
        let (across, layers) = self.row.parts(mask, v, place);
        let shares = self.balls.shares(mask, v);
        across.saturating_add(layers.max(shares)).min(MOST_LOW)
    }
}
