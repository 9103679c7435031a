//! A table of congestion.

ghost use Rattle.std.specs.Prelude.{◌≡◌, ◌<◌, ◌+◌, ◌*◌, ◌^◌, flat_map, length, slice_index};
ghost use Rattle.std.specs.List.{range_with_len};
ghost use Rattle.gr_desk.specs.Pens.{Puts, pen_told, HasSameDesk};
ghost use Rattle.grid_base.specs.Numbers.{edge_axis, edge_start};
ghost use Rattle.grid_graph.specs.Capacities.{has_next};
ghost use Rattle.grid_graph.specs.Flat.{tiles};
ghost use Rattle.grid_graph.specs.Grids.{edge_numbers, size_of};
ghost use Rattle.congestion_cells.specs.TileUses.{AreLayersOf};
ghost use Rattle.congestion_picture.specs.Tables.{columns_of_layer, edge_line, layer_name, line_of_number, place_fields, table_text, use_fields};

use congestion_cells::{ShownLayers, TileUse, tile_edges, tile_use};
use gr_desk::{Desk, Pen};
use grid_base::{Axis, Edge, Size};
use grid_graph::Grid;

/// Whether an edge leads to a tile of the grid.
fn leads_on(size: Size, edge: Edge) -> bool
    requires { edge.0 < 2 * tiles size }
    ensures { result ≡ has_next size (edge_axis edge.0) (edge_start edge.0) }
{
    let place = size.place_of(edge.start());
    match edge.axis() {
        Axis::X => place.col + 1 < size.cols(),
        Axis::Y => place.row + 1 < size.rows(),
    }
}

/// Puts a load and a capacity, each behind a comma.
fn put_use<D: Desk>(pen: &mut Pen<'_, D>, found: TileUse)
    ensures same_desk { HasSameDesk pen.old pen.new }
    ensures puts { Puts (pen_told D.told pen.old) (pen_told D.told pen.new) (use_fields found) }
{
    pen.put(b",");
    pen.put_number(found.load);
    pen.put(b",");
    pen.put_number(found.capacity);
}

/// Puts the loads and capacities of single layers.
fn put_layers<D: Desk>(
    pen: &mut Pen<'_, D>,
    grid: &Grid,
    loads: &[u64],
    each: ShownLayers,
    tile_edge: u32,
)
    requires layers { AreLayersOf (size_of grid.now) each }
    requires edge { tile_edge < 2 * tiles (size_of grid.now) }
    requires loads { length loads.now ≡ edge_numbers grid.now }
    ensures same_desk { HasSameDesk pen.old pen.new }
    ensures puts { Puts (pen_told D.told pen.old) (pen_told D.told pen.new)
        (flat_map (columns_of_layer grid.now (slice_index loads.now) each tile_edge) (range_with_len 0 each.count)) }
{
    for i in 0..each.count {
        let layer = ShownLayers {
            first: each.first + i,
            count: 1,
        };
        put_use(pen, tile_use(grid, loads, layer, tile_edge));
    }
}

/// Puts where a tile edge begins, and its direction.
fn put_place<D: Desk>(pen: &mut Pen<'_, D>, size: Size, edge: Edge)
    requires { edge.0 < 2 * tiles size }
    ensures same_desk { HasSameDesk pen.old pen.new }
    ensures puts { Puts (pen_told D.told pen.old) (pen_told D.told pen.new) (place_fields size edge.0) }
{
    let place = size.place_of(edge.start());
    pen.put_number(place.col);
    pen.put(b",");
    pen.put_number(place.row);
    pen.put(b",");
    match edge.axis() {
        Axis::X => pen.put(b"x"),
        Axis::Y => pen.put(b"y"),
    }
}

/// Puts the line of a tile edge.
fn put_edge_line<D: Desk>(
    pen: &mut Pen<'_, D>,
    grid: &Grid,
    loads: &[u64],
    shown: ShownLayers,
    each: ShownLayers,
    tile_edge: u32,
)
    requires shown { AreLayersOf (size_of grid.now) shown }
    requires each { AreLayersOf (size_of grid.now) each }
    requires edge { tile_edge < 2 * tiles (size_of grid.now) }
    requires loads { length loads.now ≡ edge_numbers grid.now }
    ensures same_desk { HasSameDesk pen.old pen.new }
    ensures puts { Puts (pen_told D.told pen.old) (pen_told D.told pen.new) (edge_line grid.now (slice_index loads.now) shown each tile_edge) }
{
    put_place(pen, grid.size(), Edge(tile_edge));
    put_use(pen, tile_use(grid, loads, shown, tile_edge));
    put_layers(pen, grid, loads, each, tile_edge);
    pen.put(b"\n");
}

/// Puts the line of a number, if it is that of a tile edge.
fn put_number_line<D: Desk>(
    pen: &mut Pen<'_, D>,
    grid: &Grid,
    loads: &[u64],
    shown: ShownLayers,
    each: ShownLayers,
    number: u32,
)
    requires shown { AreLayersOf (size_of grid.now) shown }
    requires each { AreLayersOf (size_of grid.now) each }
    requires edge { number < 2 * tiles (size_of grid.now) }
    requires loads { length loads.now ≡ edge_numbers grid.now }
    ensures same_desk { HasSameDesk pen.old pen.new }
    ensures puts { Puts (pen_told D.told pen.old) (pen_told D.told pen.new) (line_of_number grid.now (slice_index loads.now) shown each number) }
{
    if leads_on(grid.size(), Edge(number)) {
        put_edge_line(pen, grid, loads, shown, each, number);
    }
}

/// Puts the names of a layer's columns. Layers are named from 1.
fn put_layer_name<D: Desk>(pen: &mut Pen<'_, D>, layer: u32)
    requires { layer + 1 < 2 ^ 32 }
    ensures same_desk { HasSameDesk pen.old pen.new }
    ensures puts { Puts (pen_told D.told pen.old) (pen_told D.told pen.new) (layer_name layer) }
{
    pen.put(b",load_");
    pen.put_number(layer + 1);
    pen.put(b",capacity_");
    pen.put_number(layer + 1);
}

/// Puts the names of the columns of single layers.
fn put_layer_names<D: Desk>(pen: &mut Pen<'_, D>, each: ShownLayers)
    requires { each.first + each.count < 2 ^ 32 }
    ensures same_desk { HasSameDesk pen.old pen.new }
    ensures puts { Puts (pen_told D.told pen.old) (pen_told D.told pen.new)
        (flat_map (λ i. layer_name (each.first + i)) (range_with_len 0 each.count)) }
{
    for i in 0..each.count {
        put_layer_name(pen, each.first + i);
    }
}

/// Puts the lines of all tile edges.
fn put_lines<D: Desk>(
    pen: &mut Pen<'_, D>,
    grid: &Grid,
    loads: &[u64],
    shown: ShownLayers,
    each: ShownLayers,
)
    requires shown { AreLayersOf (size_of grid.now) shown }
    requires each { AreLayersOf (size_of grid.now) each }
    requires loads { length loads.now ≡ edge_numbers grid.now }
    ensures same_desk { HasSameDesk pen.old pen.new }
    ensures puts { Puts (pen_told D.told pen.old) (pen_told D.told pen.new)
        (flat_map (line_of_number grid.now (slice_index loads.now) shown each) (range_with_len 0 (2 * tiles (size_of grid.now)))) }
{
    for number in 0..tile_edges(grid.size()) {
        put_number_line(pen, grid, loads, shown, each, number);
    }
}

/// Puts a table of tile edges, with what those of some layers carry together, and columns of their own for others. Tile edges come
/// row by row from the lowest row on, and at each tile that along x before that along y.
pub fn put_table<D: Desk>(
    pen: &mut Pen<'_, D>,
    grid: &Grid,
    loads: &[u64],
    shown: ShownLayers,
    each: ShownLayers,
)
    requires shown { AreLayersOf (size_of grid.now) shown }
    requires each { AreLayersOf (size_of grid.now) each }
    requires loads { length loads.now ≡ edge_numbers grid.now }
    ensures same_desk { HasSameDesk pen.old pen.new }
    ensures puts { Puts (pen_told D.told pen.old) (pen_told D.told pen.new) (table_text grid.now (slice_index loads.now) shown each) }
{
    pen.put(b"column,row,direction,load,capacity");
    put_layer_names(pen, each);
    pen.put(b"\n");
    put_lines(pen, grid, loads, shown, each);
}
