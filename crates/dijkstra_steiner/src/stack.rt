//! A flat grid on top of itself.

ghost use Rattle.dijkstra_steiner.specs.Stacks.{IsStackOf};

use grid_base::{Place, Size, Spot, Vertex};
use steiner_tables::ROOTED_MASKS;

/// A grid with the tiles of a flat grid and a layer for each mask of up to four terminals, those of a net but its root: a layered
/// graph, whose layers no piece joins.
#[derive(Clone, Copy)]
pub(crate) struct Stack {
    flat: Size,
    size: Size,
    pub ghost is: { IsStackOf size flat },
}

impl Stack {
    ghost use Rattle.std.specs.Prelude.{◌≡◌, ◌<◌, ◌≤◌, ◌↔◌, IfSome, IsSome};
    ghost use Rattle.grid_base.specs.Spots.{IsSpot};
    ghost use Rattle.grid_graph.specs.Flat.{tile_of};
    ghost use Rattle.steiner_tables.specs.Masks.{rooted_masks};
    ghost use Rattle.dijkstra_steiner.specs.Stacks.{HasStack, on_stack, mask_of};

    /// The stack of a flat grid; `None` where that has several layers, or where no grid has so many vertices.
    pub(crate) fn of(flat: Size) -> Option<Stack>
        ensures flat { IfSome result (λ x. x.flat ≡ flat) }
        ensures some { IsSome result ↔ HasStack flat }
    {
        if flat.layers() != 1 {
            return None;
        }
        let size = Size::new(flat.cols(), flat.rows(), ROOTED_MASKS)?;
        Some(Stack { flat, size })
    }

    /// The flat grid.
    pub(crate) fn flat(self) -> Size
        ensures { result ≡ self.flat }
    {
        self.flat
    }

    /// The size of the stack.
    pub(crate) fn size(self) -> Size
        ensures { result ≡ self.size }
    {
        self.size
    }

    /// Where a mask stands at a vertex of the flat grid.
    pub(crate) fn spot(self, mask: u32, at: Spot) -> Spot
        requires some { 0 < mask }
        requires room { mask ≤ rooted_masks }
        requires at { IsSpot self.flat at }
        ensures spot { IsSpot self.size result }
        ensures vertex { result.vertex.0 ≡ on_stack self.flat mask at.vertex.0 }
    {
        let Place { col, row, .. } = at.place;
        let layer = mask - 1;
        Spot {
            vertex: Vertex(layer * self.flat.vertices() + at.vertex.0),
            place: Place { col, row, layer },
        }
    }

    /// The mask of a vertex of the stack.
    pub(crate) fn mask(self, at: Spot) -> u32
        requires { IsSpot self.size at }
        ensures mask { result ≡ mask_of self.size at.vertex.0 }
        ensures some { 0 < result }
        ensures room { result ≤ rooted_masks }
    {
        at.place.layer + 1
    }

    /// The vertex of the flat grid under one of the stack.
    pub(crate) fn under(self, at: Spot) -> Spot
        requires { IsSpot self.size at }
        ensures spot { IsSpot self.flat result }
        ensures vertex { result.vertex.0 ≡ tile_of self.size at.vertex.0 }
    {
        let Place { col, row, layer } = at.place;
        Spot {
            vertex: Vertex(at.vertex.0 - layer * self.flat.vertices()),
            place: Place { col, row, layer: 0 },
        }
    }
}
