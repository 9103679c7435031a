//! The text of one net.

ghost use Rattle.std.specs.Prelude.{◌≡◌, ◌<◌, All, filter, flat_map, length, slice_index_or};
ghost use Rattle.grid_base.specs.declared.piece.Piece.{Piece};
ghost use Rattle.grid_base.specs.Lines.{is_along};
ghost use Rattle.grid_base.specs.Numbers.{IsPiece};
ghost use Rattle.grid_graph.specs.Grids.{size_of};
ghost use Rattle.tree_set.specs.Order.{IsRising};
ghost use Rattle.tree_set.specs.Runs.{runs, vias};
ghost use Rattle.gr_desk.specs.Pens.{Puts, pen_told, HasSameDesk};
ghost use Rattle.route_text.specs.RouteText.{segment_text, net_text};
ghost use Rattle.route_text.specs.Pieces.{run_text, via_text};

use crate::points::put_segment;
use crate::runs::{begins_run, is_along, run_end};
use gr_desk::{Desk, Pen};
use grid_base::{Axis, Piece};
use grid_graph::{Grid, NetSpec};
use tree_set::Tree;

/// Puts the block of one net.
pub(crate) fn put_net<D: Desk>(pen: &mut Pen<'_, D>, grid: &Grid, net: &NetSpec, tree: &Tree)
    requires { All (IsPiece (size_of grid.now)) tree.now }
    ensures same_desk { HasSameDesk pen.old pen.new }
    ensures puts { Puts (pen_told D.told pen.old) (pen_told D.told pen.new) (net_text grid.now net.now tree.now) }
{
    pen.put(net.name.list());
    pen.put(b" ");
    pen.put_number(net.id);
    pen.put(b"\n");
    put_runs(pen, grid, tree, Axis::X);
    put_runs(pen, grid, tree, Axis::Y);
    put_vias(pen, grid, tree);
    pen.put(b"!\n");
}

/// Puts the runs of edges along one axis.
fn put_runs<D: Desk>(pen: &mut Pen<'_, D>, grid: &Grid, tree: &Tree, axis: Axis)
    requires { All (IsPiece (size_of grid.now)) tree.now }
    ensures same_desk { HasSameDesk pen.old pen.new }
    ensures puts { Puts (pen_told D.told pen.old) (pen_told D.told pen.new) (flat_map (segment_text grid.now) (runs (size_of grid.now) (filter (is_along axis) tree.now))) }
{
    let pieces = tree.pieces();
    for at in 0..pieces.len() {
        let piece = pieces[at];
        put_run(pen, grid, tree, axis, at, piece);
    }
}

/// Puts the run along the axis that begins with the piece at this place of the set, if one does.
fn put_run<D: Desk>(
    pen: &mut Pen<'_, D>,
    grid: &Grid,
    tree: &Tree,
    axis: Axis,
    at: usize,
    piece: Piece,
)
    requires pieces { All (IsPiece (size_of grid.now)) tree.now }
    requires rising { IsRising tree.now }
    requires within { at < length tree.now }
    requires here { (other : Piece) → slice_index_or tree.now at other ≡ piece }
    requires piece { IsPiece (size_of grid.now) piece }
    ensures same_desk { HasSameDesk pen.old pen.new }
    ensures puts { Puts (pen_told D.told pen.old) (pen_told D.told pen.new) (run_text grid.now (filter (is_along axis) tree.now) (is_along axis piece) piece) }
{
    if !is_along(piece, axis) {
        return;
    }
    let size = grid.size();
    let (start, _) = size.ends_of(piece);
    if begins_run(&size, tree, axis, at, start) {
        put_segment(pen, grid, start, run_end(&size, tree, axis, at, start));
    }
}

/// Puts the vias.
fn put_vias<D: Desk>(pen: &mut Pen<'_, D>, grid: &Grid, tree: &Tree)
    requires { All (IsPiece (size_of grid.now)) tree.now }
    ensures same_desk { HasSameDesk pen.old pen.new }
    ensures puts { Puts (pen_told D.told pen.old) (pen_told D.told pen.new) (flat_map (segment_text grid.now) (vias (size_of grid.now) tree.now)) }
{
    for piece in tree.pieces() {
        put_via(pen, grid, *piece);
    }
}

/// Puts the piece, if it is a via.
fn put_via<D: Desk>(pen: &mut Pen<'_, D>, grid: &Grid, piece: Piece)
    requires { IsPiece (size_of grid.now) piece }
    ensures same_desk { HasSameDesk pen.old pen.new }
    ensures puts { Puts (pen_told D.told pen.old) (pen_told D.told pen.new) (via_text grid.now piece) }
{
    if let Piece::Via(_) = piece {
        let (lower, upper) = grid.size().ends_of(piece);
        put_segment(pen, grid, lower, upper);
    }
}
