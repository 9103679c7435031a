//! Lower bounds by boxes.

ghost use Rattle.std.specs.Prelude.{◌≡◌, ◌≤◌, All, length};
ghost use Rattle.grid_base.specs.Numbers.{IsVertex};
ghost use Rattle.grid_graph.specs.Floors.{AreWithin};
ghost use Rattle.steiner_tables.specs.Masks.{few_terminals};
ghost use Rattle.steiner_tables.specs.Tables.{IsFamily};
ghost use Rattle.steiner_exact.specs.Boxes.{AreBoxes, box_low};

use crate::boxes::{MASKS, boxes_of};
use crate::terminal_box::TerminalBox;
use grid_base::{Place, Size, Vertex};
use grid_graph::{FlooredWeights, Floors};
use shortest_paths::Family;

/// How far the box of a mask's terminals and a vertex reaches, each step at its floor.
#[derive(Drop)]
pub struct BoxFamily<'a, W: FlooredWeights> {
    weights: &'a W,
    size: Size,
    terminals: &'a [Vertex],
    floors: Floors,
    boxes: [TerminalBox; MASKS],
    ghost vertices: { All (λ v. IsVertex size v.0) terminals.now },
    ghost few: { length terminals.now ≤ few_terminals },
    ghost within: { AreWithin floors },
    ghost boxed: { AreBoxes size terminals.now boxes },
    ghost holds: { IsFamily size (W.pieces weights.now) terminals.now (box_low size floors terminals.now) },
}

impl<'a, W: FlooredWeights> BoxFamily<'a, W> {
    ghost use Rattle.std.specs.Prelude.{◌≡◌, ◌≤◌, All, length};
    ghost use Rattle.grid_base.specs.Numbers.{IsVertex};
    ghost use Rattle.steiner_tables.specs.Masks.{few_terminals};

    /// The boxes of at most five terminals, which are vertices of this size.
    pub fn new(weights: &'a W, size: Size, terminals: &'a [Vertex]) -> BoxFamily<'a, W>
        requires size { size ≡ W.size weights.now }
        requires terminals { All (λ v. IsVertex size v.0) terminals.now }
        requires few { length terminals.now ≤ few_terminals }
        ensures size { result.size ≡ size }
        ensures weights { result.weights.now ≡ weights.now }
        ensures terminals { result.terminals.now ≡ terminals.now }
    {
        BoxFamily {
            weights,
            size,
            terminals,
            floors: weights.floors(),
            boxes: boxes_of(size, terminals),
        }
    }
}

impl<'a, W: FlooredWeights> Family for BoxFamily<'a, W> {
    ghost use Rattle.steiner_exact.specs.Boxes.{box_low};

    ghost size = { λ x. x.size };

    ghost pieces = { λ x. W.pieces x.weights.now };

    ghost terminals = { λ x. x.terminals.now };

    ghost low = { λ x. box_low x.size x.floors x.terminals.now };

    ghost holds = { λ x. x.holds };

    fn low(&self, mask: u32, v: Vertex, place: Place) -> u64 {
        self.boxes[mask as usize].distance(self.size, self.floors, place)
    }
}
