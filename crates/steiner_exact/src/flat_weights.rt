//! Weights of a flat grid.

ghost use Rattle.std.specs.Prelude.{◌≡◌};
ghost use Rattle.grid_graph.specs.Flat.{IsFlatOf, AreLeastOver};
ghost use Rattle.grid_graph.specs.Weighed.{NoPieceTwice, WeighsOnlyPieces, AreWithinLimit};
ghost use Rattle.steiner_exact.specs.FlatPieces.{edge_flags, edges_with};

use grid_base::{Edge, Piece, Size};
use grid_graph::{FlooredWeights, Floors, MAX_WEIGHT, Weights};

/// The edges between tiles, each with the least that edges over it weigh.
#[derive(Drop)]
pub struct FlatWeights<'a, W: FlooredWeights> {
    weights: &'a W,
    size: Size,
    edges: &'a [bool],
    ghost listed: { edges.now ≡ edge_flags size },
    ghost flat: { IsFlatOf size (W.size weights.now) },
    ghost once: { NoPieceTwice (edges_with size (W.over weights.now)) },
    ghost inside: { WeighsOnlyPieces size (edges_with size (W.over weights.now)) },
    ghost small: { AreWithinLimit (edges_with size (W.over weights.now)) },
    ghost under: { AreLeastOver size (edges_with size (W.over weights.now)) (W.over weights.now) },
}

impl<'a, W: FlooredWeights> FlatWeights<'a, W> {
    ghost use Rattle.std.specs.Prelude.{◌≡◌};
    ghost use Rattle.grid_graph.specs.Flat.{IsFlatOf};
    ghost use Rattle.steiner_exact.specs.FlatPieces.{edge_flags};

    /// The weights between tiles under these, where `size` is that of the flat grid and `edges` tells which edges it has.
    pub fn new(weights: &'a W, size: Size, edges: &'a [bool]) -> FlatWeights<'a, W>
        requires edges { edges.now ≡ edge_flags size }
        requires flat { IsFlatOf size (W.size weights.now) }
        ensures weights { result.weights.now ≡ weights.now }
        ensures size { result.size ≡ size }
    {
        FlatWeights {
            weights,
            size,
            edges,
        }
    }
}

impl<'a, W: FlooredWeights> Weights for FlatWeights<'a, W> {
    ghost use Rattle.steiner_exact.specs.FlatPieces.{edges_with};

    ghost size = { λ x. x.size };

    ghost pieces = { λ x. edges_with x.size (W.over x.weights.now) };

    ghost once = { λ x. x.once };

    ghost inside = { λ x. x.inside };

    ghost small = { λ x. x.small };

    fn allows(&self, p: Piece) -> bool {
        match p {
            Piece::Edge(e) => self.has_edge(e),
            Piece::Via(_) => false,
        }
    }

    fn weight(&self, p: Piece) -> u64 {
        match p {
            Piece::Edge(e) => self.edge_weight(e),
            Piece::Via(_) => MAX_WEIGHT,
        }
    }
}

impl<'a, W: FlooredWeights> FlatWeights<'a, W> {
    ghost use Rattle.std.specs.Prelude.{◌≡◌, ◌≤◌, ◌<◌, ◌*◌, ◌↔◌, IsTrue};
    ghost use Rattle.grid_base.specs.Numbers.{vertices, IsPiece};
    ghost use Rattle.grid_graph.specs.Limits.{max_weight};

    /// Whether the grid has this edge.
    fn has_edge(&self, e: Edge) -> bool
        ensures { IsTrue result ↔ IsPiece self.now.size (Piece.Edge e) }
    {
        (e.0 as usize) < self.edges.len() && self.edges[e.0 as usize]
    }

    /// The weight of an edge.
    fn edge_weight(&self, e: Edge) -> u64
        ensures value { e.0 < 2 * vertices self.now.size → result ≡ W.over self.now.weights.now e.0 }
        ensures limit { result ≤ max_weight }
    {
        if e.0 >= 2 * self.size.vertices() {
            return MAX_WEIGHT;
        }
        self.weights.least_over(e)
    }
}

impl<'a, W: FlooredWeights> FlooredWeights for FlatWeights<'a, W> {
    ghost over = { λ x. W.over x.weights.now };

    ghost under = { λ x. x.under };

    fn floors(&self) -> Floors {
        self.weights.floors()
    }

    fn least_over(&self, e: Edge) -> u64 {
        self.weights.least_over(e)
    }
}
