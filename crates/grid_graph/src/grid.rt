//! The routing grid.

ghost use Rattle.grid_graph.specs.Capacities.{IsCapacities};
ghost use Rattle.grid_graph.specs.Layouts.{IsGridParts};

use crate::first_capacity::{first_capacities, first_capacity};
use crate::grid_parts::GridParts;
use crate::grid_refusal::GridRefusal;
use crate::ground::Ground;
use crate::kind::Kind;
use crate::tiles::{fitting_position, tile_index};
use grid_base::{Edge, Piece, Size, Vertex, nth_step, steps};
use std::alloc::Global;

/// The routing grid: the parts that it was made of, and the capacity of each edge number. Definitions read the parts by
/// `layout_of` and `size_of`, and the capacities by `capacity`.
#[derive(Drop)]
pub struct Grid {
    parts: GridParts,
    capacities: Vec<u32>,
    pub ghost limits: { IsGridParts parts },
    pub ghost table: { IsCapacities parts.size capacities.items },
}

impl Grid {
    ghost use Rattle.std.specs.Prelude.{◌≡◌, ◌≢◌, ◌≤◌, ◌<◌, ◌↔◌, ℕ, Some, All, Contains, IfOk, IfSome, IsTrue, slice_get, pos, ◌<ℤ◌, ◌^◌};
    ghost use Rattle.grid_base.specs.Numbers.{layers, IsVertex, IsPiece, Connects};
    ghost use Rattle.grid_graph.specs.Grids as grids;
    ghost use Rattle.grid_graph.specs.Grids.{layout_of, size_of};
    ghost use Rattle.grid_graph.specs.Layouts.{layout_of_parts, IsPosition};
    ghost use Rattle.grid_graph.specs.Limits.{max_capacity, max_demand};
    ghost use Rattle.grid_base.specs.Neighbours.{LeadsFrom, steps, neighbours};

    /// A grid in which each edge has its layer's capacity in its direction.
    pub fn new(alloc: Global, parts: GridParts) -> Result<Grid, GridRefusal>
        requires { IsGridParts parts }
        ensures layout { IfOk result (λ g. layout_of g ≡ layout_of_parts parts) }
        ensures capacities { IfOk result (λ g. (e : ℕ) → grids.capacity g e ≡ grids.first_capacity g e) }
    {
        let capacities = first_capacities(alloc, &parts)?;
        Ok(Grid { parts, capacities })
    }

    /// Sets the capacity of one edge, and with it its kind. A later adjustment of the edge replaces it.
    pub fn adjust(&mut self, e: Edge, level: u32)
        requires edge { IsPiece (size_of self.old) (Piece.Edge e) }
        requires limit { level ≤ max_capacity }
        ensures level { grids.capacity self.new e.0 ≡ level }
        ensures others { (other : ℕ) → other ≢ e.0 → grids.capacity self.new other ≡ grids.capacity self.old other }
        ensures layout { layout_of self.new ≡ layout_of self.old }
    {
        self.capacities[e.0 as usize] = level;
    }

    /// The number of columns, rows and layers.
    pub fn size(&self) -> Size
        ensures { result ≡ size_of self.now }
    {
        self.parts.size
    }

    /// The final capacity of the edge number: 0 where it belongs to no edge.
    pub fn capacity(&self, e: Edge) -> u32
        requires { grids.IsEdgeNumber self.now e.0 }
        ensures value { result ≡ grids.capacity self.now e.0 }
        ensures limit { result ≤ max_capacity }
    {
        self.capacities[e.0 as usize]
    }

    /// The kind of the edge number: a wall where it belongs to no edge.
    pub fn kind(&self, e: Edge) -> Kind
        requires { grids.IsEdgeNumber self.now e.0 }
        ensures { result ≡ grids.kind self.now e.0 }
    {
        if self.capacities[e.0 as usize] > 0 {
            return Kind::Open;
        }
        let first = first_capacity(&self.parts, e);
        if first > 0 { Kind::Choked } else { Kind::Wall }
    }

    /// What a net of this width uses of the edge.
    pub fn demand(&self, width: u32, e: Edge) -> u32
        requires edge { grids.IsEdgeNumber self.now e.0 }
        requires width { grids.IsNetWidth self.now width }
        ensures value { result ≡ grids.demand_on self.now width e.0 }
        ensures positive { 0 < result }
        ensures limit { result ≤ max_demand }
    {
        let layer = self.parts.size.layer_of(e.start()) as usize;
        width.max(self.parts.widths[layer]) + self.parts.spacings[layer]
    }

    /// The column and the row of the tile that holds a position. `None` is outside the grid's closed rectangle.
    pub fn tile_of(&self, x: i64, y: i64) -> Option<(u32, u32)>
        requires x { IsPosition x }
        requires y { IsPosition y }
        ensures { result ≡ grids.tile_of_position self.now x y }
    {
        let parts = &self.parts;
        let col = tile_index(parts.origin.0, parts.tile.0, parts.size.cols(), x)?;
        let row = tile_index(parts.origin.1, parts.tile.1, parts.size.rows(), y)?;
        Some((col, row))
    }

    /// The position written for a vertex: x, then y.
    pub fn position_of(&self, v: Vertex) -> (i64, i64)
        requires vertex { IsVertex (size_of self.now) v.0 }
        requires x_fits { (grids.position_of self.now v.0).0 <ℤ pos (2 ^ 63) }
        requires y_fits { (grids.position_of self.now v.0).1 <ℤ pos (2 ^ 63) }
        ensures { result ≡ grids.position_of self.now v.0 }
    {
        let parts = &self.parts;
        let place = parts.size.place_of(v);
        (
            fitting_position(parts.origin.0, parts.tile.0, place.col),
            fitting_position(parts.origin.1, parts.tile.1, place.row),
        )
    }

    /// The lower-left corner: x, then y.
    pub fn origin(&self) -> (i64, i64)
        ensures { result ≡ (layout_of self.now).origin }
    {
        self.parts.origin
    }

    /// The width and the height of a tile.
    pub fn tile(&self) -> (i64, i64)
        ensures { result ≡ (layout_of self.now).tile }
    {
        self.parts.tile
    }

    /// The minimum spacing of a layer. Layers count from 0.
    pub fn spacing(&self, layer: u32) -> u32
        requires { layer < layers (size_of self.now) }
        ensures { result ≡ grids.spacing_of_layer self.now layer }
    {
        self.parts.spacings[layer as usize]
    }

    /// The six steps from a vertex, each to a neighbour by the piece that leads there, walls included. The order is
    /// west, east, south, north, down, up; `None` is a step that leaves the grid.
    pub fn neighbours(&self, v: Vertex) -> [Option<(Vertex, Piece)>; 6]
        requires { IsVertex (size_of self.now) v.0 }
        ensures value { result ≡ steps (size_of self.now) v.0 }
        ensures connects { All (LeadsFrom (size_of self.now) v.0) result }
        ensures every { (w : Vertex) (p : Piece) → Connects (size_of self.now) p v.0 w.0 → Contains result (Some (w, p)) }
    {
        steps(self.parts.size, v)
    }

    /// The i-th neighbour of a vertex with the piece that leads there, walls included. The order is west, east,
    /// south, north, down, up, of those inside the grid. `None` is past the last.
    pub fn near(&self, v: Vertex, i: u32) -> Option<(Vertex, Piece)>
        requires { IsVertex (size_of self.now) v.0 }
        ensures value { result ≡ slice_get (neighbours (size_of self.now) v.0) i }
        ensures connects { IfSome result (λ x. Connects (size_of self.now) x.1 v.0 x.0.0) }
        ensures every { (w : Vertex) (p : Piece) → Connects (size_of self.now) p v.0 w.0 → Contains (neighbours (size_of self.now) v.0) (w, p) }
    {
        nth_step(self.parts.size, v, i)
    }

    /// Whether a net of this ground may use the piece. No number that belongs to no piece is allowed.
    pub fn allows(&self, over: Ground, p: Piece) -> bool
        ensures { IsTrue result ↔ grids.Allows self.now over p }
    {
        match p {
            Piece::Edge(e) => e.start().0 < self.parts.size.vertices() && self.allows_edge(over, e),
            Piece::Via(_) => self.parts.size.is_piece(p),
        }
    }

    /// The allocator of the grid's table.
    pub(crate) fn allocator(&self) -> Global {
        *self.capacities.allocator()
    }

    fn allows_edge(&self, over: Ground, e: Edge) -> bool
        requires { grids.IsEdgeNumber self.now e.0 }
        ensures { IsTrue result ↔ grids.Allows self.now over (Piece.Edge e) }
    {
        match (over, self.kind(e)) {
            (Ground::Open, Kind::Open) => true,
            (Ground::WithChoked, Kind::Open | Kind::Choked) => true,
            _ => false,
        }
    }
}
