//! A vertex with its place.

use crate::side::Side;
use grid_base::{Edge, Piece, Place, Size, Vertex, Via};

/// A vertex and its place.
#[derive(Clone, Copy)]
pub struct Site {
    pub(crate) vertex: u32,
    pub(crate) col: u32,
    pub(crate) row: u32,
    pub(crate) layer: u32,
}

impl Site {
    ghost use Rattle.std.specs.Prelude.{◌≡◌, ◌<◌, ◌^◌};
    ghost use Rattle.grid_base.specs.Numbers.{IsVertex, edge_along};
    ghost use Rattle.grid_base.specs.declared.axis.Axis.TheVariants.{X, Y};
    ghost use Rattle.net_search.specs.Sites.{site_at, neighbour, piece_to, tiles_between};

    /// The site of a vertex.
    pub fn of(size: Size, v: Vertex) -> Site
        requires { IsVertex size v.0 }
        ensures { result ≡ site_at size v.0 }
    {
        let Place { col, row, layer } = size.place_of(v);
        Site {
            vertex: v.0,
            col,
            row,
            layer,
        }
    }

    /// Its vertex.
    pub fn vertex(self) -> Vertex
        ensures { result.0 ≡ self.vertex }
    {
        Vertex(self.vertex)
    }

    /// The neighbour on this side. It need not be in the grid.
    #[inline(always)]
    pub(crate) fn beside(self, size: Size, side: Side) -> Site
        ensures { result ≡ neighbour size self side }
    {
        let Site {
            vertex,
            col,
            row,
            layer,
        } = self;
        let by_layer = size.cols().wrapping_mul(size.rows());
        match side {
            Side::West => Site {
                vertex: vertex.wrapping_sub(1),
                col: col.wrapping_sub(1),
                ..self
            },
            Side::East => Site {
                vertex: vertex.wrapping_add(1),
                col: col.wrapping_add(1),
                ..self
            },
            Side::South => Site {
                vertex: vertex.wrapping_sub(size.cols()),
                row: row.wrapping_sub(1),
                ..self
            },
            Side::North => Site {
                vertex: vertex.wrapping_add(size.cols()),
                row: row.wrapping_add(1),
                ..self
            },
            Side::Down => Site {
                vertex: vertex.wrapping_sub(by_layer),
                layer: layer.wrapping_sub(1),
                ..self
            },
            Side::Up => Site {
                vertex: vertex.wrapping_add(by_layer),
                layer: layer.wrapping_add(1),
                ..self
            },
        }
    }

    /// The edge to the next column.
    #[inline(always)]
    pub(crate) fn east(self) -> Edge
        ensures { self.vertex < 2 ^ 31 → result ≡ edge_along X self.vertex }
    {
        Edge(self.vertex.wrapping_mul(2))
    }

    /// The edge to the next row.
    #[inline(always)]
    pub(crate) fn north(self) -> Edge
        ensures { self.vertex < 2 ^ 31 → result ≡ edge_along Y self.vertex }
    {
        Edge(self.vertex.wrapping_mul(2).wrapping_add(1))
    }

    /// The piece between this vertex and its neighbour on this side.
    pub(crate) fn piece(self, size: Size, side: Side) -> Piece
        ensures { self.vertex < 2 ^ 31 → (neighbour size self side).vertex < 2 ^ 31 → result ≡ piece_to size self side }
    {
        match side {
            Side::West => Piece::Edge(self.beside(size, side).east()),
            Side::East => Piece::Edge(self.east()),
            Side::South => Piece::Edge(self.beside(size, side).north()),
            Side::North => Piece::Edge(self.north()),
            Side::Down => Piece::Via(Via(self.beside(size, side).vertex)),
            Side::Up => Piece::Via(Via(self.vertex)),
        }
    }

    /// How many tile steps lead from its tile to that of another one.
    pub fn tiles_to(self, other: Site) -> u32
        ensures { result ≡ tiles_between self other }
    {
        self.col
            .abs_diff(other.col)
            .saturating_add(self.row.abs_diff(other.row))
    }
}
