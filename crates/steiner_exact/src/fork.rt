//! Where the way to a terminal should fork.

ghost use Rattle.std.specs.Prelude.{◌≡◌, ◌≤◌, All, length};
ghost use Rattle.grid_base.specs.Numbers.{IsVertex};
ghost use Rattle.steiner_tables.specs.Masks.{few_terminals};

use crate::nearness::{grid_distance, next_nearest};
use grid_base::{Place, Size, Vertex};
use steiner_tables::all_of;

/// A vertex through which the way from a tree to the next terminal should lead, so that it comes near the one after that: the
/// median of a nearest vertex of the tree and the two, by columns, rows and layers. Three terminals that are joined there
/// have a tree of least length by grid distance (Hanan, "On Steiner's problem with rectilinear distance", 1966). It is the next
/// terminal itself where none comes after it.
pub(crate) fn fork_of(
    size: Size,
    terminals: &[Vertex],
    joined: u32,
    next: Vertex,
    tree: &[Vertex],
) -> Vertex
    requires terminals { All (λ v. IsVertex size v.0) terminals.now }
    requires some { 1 ≤ length terminals.now }
    requires few { length terminals.now ≤ few_terminals }
    requires next { IsVertex size next.0 }
    requires tree { All (λ v. IsVertex size v.0) tree.now }
    ensures { IsVertex size result.0 }
{
    if joined == all_of(terminals.len()) {
        return next;
    }
    let here = size.place_of(next);
    let near = nearest_in(size, tree, here);
    let after = size.place_of(terminals[next_nearest(size, terminals, joined)]);
    let fork = Place {
        col: median(near.col, here.col, after.col),
        row: median(near.row, here.row, after.row),
        layer: median(near.layer, here.layer, after.layer),
    };
    size.vertex_of(fork).unwrap_or(next)
}

/// The place of a vertex of a tree that is nearest to a place by grid distance; that place itself where the tree has none.
fn nearest_in(size: Size, tree: &[Vertex], here: Place) -> Place
    requires tree { All (λ v. IsVertex size v.0) tree.now }
{
    let mut near = here;
    let mut least = u64::MAX;
    for i in 0..tree.len() {
        let place = size.place_of(tree[i]);
        let far = grid_distance(here, place);
        if far < least {
            near = place;
            least = far;
        }
    }
    near
}

/// The one of three numbers that lies between the two others.
fn median(one: u32, other: u32, third: u32) -> u32 {
    one.max(other).min(one.min(other).max(third))
}
