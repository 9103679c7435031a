//! Weights by a list, for tests.

ghost use Rattle.grid_graph.specs.Flat.{AreLeastOver};
ghost use Rattle.grid_graph.specs.Weighed.{NoPieceTwice, WeighsOnlyPieces, AreWithinLimit};
ghost use Rattle.reference_programs.specs.LeastOver.{least_over};

use crate::listing::{
    are_different, are_light_pieces, are_positive, least_over, least_weight, weight_in,
};
use grid_base::{Edge, Piece, Size};
use grid_graph::{FlooredWeights, Floors, Weights};

/// Pieces with their weights, each once.
#[derive(Drop)]
pub(crate) struct Listed {
    size: Size,
    pieces: Vec<(Piece, u64)>,
    pub ghost different: { NoPieceTwice pieces.items },
    pub ghost inside: { WeighsOnlyPieces size pieces.items },
    pub ghost light: { AreWithinLimit pieces.items },
    pub ghost under: { AreLeastOver size pieces.items (least_over size pieces.items) },
}

impl Listed {
    ghost use Rattle.std.specs.Prelude.{◌≡◌, IfSome, IsTrue};
    ghost use Rattle.grid_graph.specs.Weighed.{WeighsOnlyPieces, AreWithinLimit};
    ghost use Rattle.label_search.specs.Paths.{NoneWeighsNothing};

    /// These pieces, if they are different pieces of that size and none is too heavy.
    pub(crate) fn of(size: Size, pieces: Vec<(Piece, u64)>) -> Option<Listed>
        ensures size { IfSome result (λ x. x.size ≡ size) }
        ensures pieces { IfSome result (λ x. x.pieces.items ≡ pieces.items) }
    {
        if are_different(pieces.as_slice()) && are_light_pieces(size, pieces.as_slice()) {
            Some(Listed { size, pieces })
        } else {
            None
        }
    }

    /// The pieces with their weights.
    pub(crate) fn pieces(&self) -> &[(Piece, u64)]
        ensures pieces { result.now ≡ self.now.pieces.items }
        ensures inside { WeighsOnlyPieces self.now.size result.now }
        ensures light { AreWithinLimit result.now }
    {
        self.pieces.as_slice()
    }

    /// Whether no piece weighs nothing.
    pub(crate) fn is_positive(&self) -> bool
        ensures { IsTrue result → NoneWeighsNothing self.now.pieces.items }
    {
        are_positive(self.pieces.as_slice())
    }

    /// What these pieces weigh together, where all of them are in the list.
    pub(crate) fn weight_of(&self, pieces: &[Piece]) -> Option<u64> {
        let mut total: u64 = 0;
        for p in pieces {
            total = total.wrapping_add(weight_in(self.pieces.as_slice(), *p)?);
        }
        Some(total)
    }
}

impl Weights for Listed {
    ghost size = { λ x. x.size };

    ghost pieces = { λ x. x.pieces.items };

    ghost once = { λ x. x.different };

    ghost inside = { λ x. x.inside };

    ghost small = { λ x. x.light };

    fn allows(&self, p: Piece) -> bool {
        match weight_in(self.pieces.as_slice(), p) {
            Some(_) => true,
            None => false,
        }
    }

    fn weight(&self, p: Piece) -> u64 {
        match weight_in(self.pieces.as_slice(), p) {
            Some(weight) => weight,
            None => 0,
        }
    }
}

impl FlooredWeights for Listed {
    ghost use Rattle.reference_programs.specs.LeastOver.{least_over};

    ghost over = { λ x. least_over x.size x.pieces.items };

    ghost under = { λ x. x.under };

    fn floors(&self) -> Floors {
        let least = least_weight(self.pieces.as_slice());
        Floors {
            along_x: least,
            along_y: least,
            via: least,
        }
    }

    fn least_over(&self, e: Edge) -> u64 {
        least_over(self.size, self.pieces.as_slice(), e)
    }
}
