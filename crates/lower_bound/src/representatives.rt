//! Tiles that stand for others.

ghost use Rattle.std.specs.Prelude.{◌≡◌};
ghost use Rattle.lower_bound.specs.Representatives.{AreRepresentatives};

use grid_base::{Edge, NoMemory, Piece, Size, Vertex};
use grid_graph::Weights;
use groups::Groups;
use std::alloc::Global;

/// For each vertex one that pieces without weight join with it, and that stands for it: mostly that of the least number.
#[derive(Drop)]
pub(crate) struct Representatives {
    of: Groups,
}

impl Representatives {
    ghost use Rattle.std.specs.Prelude.{◌≡◌, ◌<◌, IfOk, length, slice_index};
    ghost use Rattle.grid_base.specs.Numbers.{vertices};
    ghost use Rattle.lower_bound.specs.Representatives.{AreRepresentatives};

    /// Each vertex of a grid of this size stands for itself.
    pub(crate) fn new(alloc: Global, size: Size) -> Result<Representatives, NoMemory>
        ensures { IfOk result (λ r. length r.of.parents.items ≡ vertices size) }
    {
        let of = Groups::single(alloc, size.vertices() as usize)?;
        Ok(Representatives { of })
    }

    /// Takes those that stand for others from weights of a grid of this size.
    pub(crate) fn renew<W: Weights>(&mut self, weights: &W, size: Size)
        requires size { size ≡ W.size weights.now }
        requires long { length self.old.of.parents.items ≡ vertices size }
        ensures long { length self.new.of.parents.items ≡ length self.old.of.parents.items }
        ensures leads { AreRepresentatives size (W.pieces weights.now) self.new.of.parents.items }
    {
        self.of.reset();
        join_free(&mut self.of, weights, size);
        self.of.flatten();
    }

    /// The one that stands for a vertex.
    pub(crate) fn of(&self, v: Vertex) -> Vertex
        requires { v.0 < length self.now.of.parents.items }
        ensures { result.0 ≡ slice_index self.now.of.parents.items v.0 }
    {
        Vertex(self.of.parents[v.0 as usize])
    }
}

/// Joins the ends of an edge that weighs nothing.
fn join_along<W: Weights>(groups: &mut Groups, weights: &W, size: Size, e: Edge)
    requires size { size ≡ W.size weights.now }
    requires leads { AreRepresentatives size (W.pieces weights.now) groups.old.parents.items }
    ensures { AreRepresentatives size (W.pieces weights.now) groups.new.parents.items }
{
    let p = Piece::Edge(e);
    if weights.allows(p) && weights.weight(p) == 0 {
        let (start, end) = size.ends_of(p);
        groups.unite(start.0 as usize, end.0 as usize);
    }
}

/// Joins the ends of all edges that weigh nothing.
fn join_free<W: Weights>(groups: &mut Groups, weights: &W, size: Size)
    requires size { size ≡ W.size weights.now }
    requires leads { AreRepresentatives size (W.pieces weights.now) groups.old.parents.items }
    ensures { AreRepresentatives size (W.pieces weights.now) groups.new.parents.items }
{
    for e in 0..2 * size.vertices() {
        join_along(groups, weights, size, Edge(e));
    }
}
