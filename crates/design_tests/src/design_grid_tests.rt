//! Grids and the nets' grounds, as their texts say them.

ghost use Rattle.std.specs.Prelude.{◌≡◌};

use grid_base::{Edge, Vertex};
use grid_graph::{Design, Grid, Ground, GroundError, NetSpec, UnreachableNet};
use std::alloc::{AllocError, Global};
use std::test::Fail;
use test_rows::{Answers, check_rows, number_of, piece_text, two_fields, two_numbers};
use worked_designs::design_of;

/// An edge's capacity, its kind, and what the first net needs of it: nothing where there is no net.
fn edge_text(alloc: Global, design: &Design, e: u32) -> Result<String, Fail> {
    let grid = &design.grid;
    if e / 2 >= grid.size().vertices() {
        return Err(Fail::new("no edge"));
    }
    let (capacity, kind) = (grid.capacity(Edge(e)), grid.kind(Edge(e)));
    let demand = match design.nets.list().first() {
        Some(net) => grid.demand(net.width, Edge(e)),
        None => 0,
    };
    Ok(format!(in alloc; "{capacity} {kind:?} {demand}")?)
}

/// The size of a grid, its corner and the sides of its tiles.
pub fn places_text(alloc: Global, grid: &Grid) -> Result<String, AllocError> {
    let (size, origin, tile) = (grid.size(), grid.origin(), grid.tile());
    format!(in alloc; "{size:?} {origin:?} {tile:?}")
}

/// The tile of a position, as column and row, or `-`.
fn tile_text(alloc: Global, grid: &Grid, place: (i32, i32)) -> Result<String, AllocError> {
    match grid.tile_of(i64::from(place.0), i64::from(place.1)) {
        Some((column, row)) => format!(in alloc; "{column} {row}"),
        None => String::from_str(alloc, "-"),
    }
}

/// The neighbour of a vertex that has this number among its own, and the piece between them, or `-`.
fn near_text(alloc: Global, grid: &Grid, of: (u32, u32)) -> Result<String, Fail> {
    if of.0 >= grid.size().vertices() {
        return Err(Fail::new("no vertex"));
    }
    let Some((Vertex(w), piece)) = grid.near(Vertex(of.0), of.1) else {
        return Ok(String::from_str(alloc, "-")?);
    };
    let piece = piece_text(alloc, piece)?;
    Ok(format!(in alloc; "{w} {piece}")?)
}

/// What `grounds` answers for the first net.
fn first_ground(design: &Design) -> Result<Option<Ground>, GroundError> {
    let grounds = design.grounds()?;
    Ok(grounds.first().copied())
}

/// What `ground` answers for the first net, which is what `grounds` answers too.
fn ground_text(alloc: Global, design: &Design) -> Result<String, Fail> {
    if design.nets.list().is_empty() {
        return Err(Fail::new("no net"));
    }
    let one = design.ground(0);
    if first_ground(design) != one.map(Some) {
        return Err(Fail::new("two grounds"));
    }
    Ok(match one {
        Ok(ground) => format!(in alloc; "{ground:?}")?,
        Err(GroundError::Unreachable(UnreachableNet { id, terminal })) => {
            format!(in alloc; "unreachable {id} {terminal}")?
        }
        Err(GroundError::NoMemory) => return Err(Fail::new("no memory")),
    })
}

/// What is told of a design at the numbers behind a word.
fn told_at(alloc: Global, design: &Design, question: &'static str) -> Result<String, Fail> {
    let (word, numbers) = question.split_once(' ').ok_or("a question")?;
    match word {
        "edge" => edge_text(alloc, design, number_of(numbers)?),
        "tile" => Ok(tile_text(alloc, &design.grid, two_numbers(numbers)?)?),
        "near" => near_text(alloc, &design.grid, two_numbers(numbers)?),
        _ => Err(Fail::new("no such question")),
    }
}

fn told(alloc: Global, design: &Design, question: &'static str) -> Result<String, Fail> {
    match question {
        "places" => Ok(places_text(alloc, &design.grid)?),
        "ground" => ground_text(alloc, design),
        _ => told_at(alloc, design, question),
    }
}

/// A row is a design, a question and the answer.
struct Designs;

impl Answers for Designs {
    fn answer(&self, alloc: Global, given: &'static str) -> Result<String, Fail> {
        let (name, question) = two_fields(given)?;
        let design = design_of(alloc, name)?;
        told(alloc, &design, question)
    }
}

/// Edges by their numbers: the capacity and the kind of each, and the demand of the first net. In the block vertex 6 is column
/// 0, row 1 of the upper layer, and vertex 5 is column 1, row 0 there; its last adjustment lies between two layers. The wires of
/// the last two rows are as wide as the layer and as the net.
const EDGES: &str = "ROW|edge 0|4 Open 2
ROW|edge 1|0 Wall 2
ROW|edge 2|4 Open 2
ROW|edge 4|0 Wall 2
ROW 142 144 1;0 0 1 1 0 1 0;|edge 0|0 Choked 2
ROW 142 144 1;0 0 1 1 0 1 0;|edge 2|4 Open 2
ROW 142 144 1;0 0 1 1 0 1 0;|edge 1|0 Wall 2
ROW 142 144 2;0 0 1 1 0 1 0;0 0 1 1 0 1 8;|edge 0|8 Open 2
ROW 142 144 2;0 0 1 1 0 1 0;0 0 1 1 0 1 8;|edge 2|4 Open 2
ROW 142 144 2;0 0 1 1 0 1 0;0 0 1 1 0 1 8;|edge 1|0 Wall 2
ROW 51 144 0 minimum width 1 minimum spacing 1 via spacing 1 0 0 10 10 num net 0 1 0 0 1 1 0 1 5|edge 0|5 Open 0
ROW 51 144 0 minimum width 1 minimum spacing 1 via spacing 1 0 0 10 10 num net 0 1 0 0 1 1 0 1 5|edge 2|0 Wall 0
LAYERED|edge 0|10 Open 2
LAYERED|edge 1|0 Wall 2
LAYERED|edge 18|0 Wall 2
LAYERED|edge 19|10 Open 2
BRIDGE|edge 0|0 Choked 2
BRIDGE|edge 4|4 Open 2
BLOCK 131 131 3 1 1 2 0 1 2 7 1 1 2 1 0 2 9 0 0 1 0 0 2 5|edge 12|7 Open 0
BLOCK 131 131 3 1 1 2 0 1 2 7 1 1 2 1 0 2 9 0 0 1 0 0 2 5|edge 11|9 Open 0
BLOCK 131 131 3 1 1 2 0 1 2 7 1 1 2 1 0 2 9 0 0 1 0 0 2 5|edge 0|3 Open 0
BLOCK 131 131 3 1 1 2 0 1 2 7 1 1 2 1 0 2 9 0 0 1 0 0 2 5|edge 1|1 Open 0
BLOCK 131 131 3 1 1 2 0 1 2 7 1 1 2 1 0 2 9 0 0 1 0 0 2 5|edge 8|4 Open 0
BLOCK 131 131 3 1 1 2 0 1 2 7 1 1 2 1 0 2 9 0 0 1 0 0 2 5|edge 9|2 Open 0
WIDE_WIRES|edge 0|12 Open 4
WIDE_WIRES|edge 8|12 Open 3";

#[test]
fn an_edge_has_the_level_of_its_last_adjustment(rt: HostRuntime) -> Result<(), Fail> {
    check_rows(rt.alloc(), EDGES, &Designs)
}

/// The places of the row, and of the same where its corner is at (-10,-10); positions, and their tiles in both. A position on the
/// border is in the last tile.
const TILES: &str = "ROW|places|Size { cols: 3, rows: 1, layers: 1 } (0, 0) (10, 10)
CRLF|places|Size { cols: 3, rows: 1, layers: 1 } (-10, -10) (10, 10)
ROW|tile 25 5|2 0
CRLF|tile 25 5|-
ROW|tile 30 10|2 0
CRLF|tile 30 10|-
ROW|tile 31 5|-
CRLF|tile 31 5|-
ROW|tile 0 -1|-
CRLF|tile 0 -1|1 0
ROW|tile -5 -5|-
CRLF|tile -5 -5|0 0
ROW|tile -1 -1|-
CRLF|tile -1 -1|0 0
ROW|tile 15 -5|-
CRLF|tile 15 -5|2 0";

#[test]
fn each_position_has_its_tile(rt: HostRuntime) -> Result<(), Fail> {
    check_rows(rt.alloc(), TILES, &Designs)
}

/// Vertices of the star's grid, which of its neighbours, and this one with the piece between them: west, east, south, north,
/// down and up, as far as they are in the grid. Vertex 37 is in the middle of the upper layer.
const NEIGHBOURS: &str = "STAR|near 0 0|1 e0
STAR|near 0 1|5 e1
STAR|near 0 2|25 v0
STAR|near 0 3|-
STAR|near 37 0|36 e72
STAR|near 37 1|38 e74
STAR|near 37 2|32 e65
STAR|near 37 3|42 e75
STAR|near 37 4|12 v12
STAR|near 37 5|-
STAR|near 49 0|48 e96
STAR|near 49 1|44 e89";

#[test]
fn neighbours_come_in_order(rt: HostRuntime) -> Result<(), Fail> {
    check_rows(rt.alloc(), NEIGHBOURS, &Designs)
}

/// Designs of one net, and its ground. A way over the next layer keeps a net open.
const GROUNDS: &str = "ROW|ground|Open
ROW 142 144 1;0 0 1 1 0 1 0;|ground|WithChoked
ROW 51 52 0|ground|unreachable 0 1
BRIDGE|ground|Open
LAYERED|ground|Open";

#[test]
fn a_net_is_open_or_forced_or_unreachable(rt: HostRuntime) -> Result<(), Fail> {
    check_rows(rt.alloc(), GROUNDS, &Designs)
}

/// Whether a net gives back this name and these terminals.
fn gives_back(net: NetSpec, name: &[u8], terminals: &[Vertex]) -> bool {
    net.name.into_list().as_slice() == name && net.terminals.into_list().as_slice() == terminals
}

#[test]
fn the_lists_of_a_design_are_given_back(rt: HostRuntime) -> Result<(), Fail> {
    let design = design_of(rt.alloc(), "ROW")?;
    let mut nets = design.nets.into_list();
    let net = nets.pop().ok_or("a net")?;
    if nets.is_empty() && gives_back(net, b"a", &[Vertex(0), Vertex(2)]) {
        Ok(())
    } else {
        Err(Fail::new("other lists"))
    }
}
