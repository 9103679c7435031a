//! Routes of worked designs, and what the judge answers of them.

ghost use Rattle.grid_graph.specs.Grounds.{AreGrounds};
ghost use Rattle.route_judge.specs.Limits.{AreBlocks};

use crate::answers::checked_text;
use crate::reading::blocks_of;
use grid_graph::{Design, Ground};
use ispd_reader::read_design;
use route_judge::{Checked, judge_routes, trees_of};
use route_text::Block;
use std::alloc::{AllocError, Global};
use std::test::Fail;
use test_rows::{agree, rows_of, sets_text, three_fields, two_fields};
use tree_set::Tree;
use worked_designs::{design_of, vast};

/// What follows the first net's block in each of these texts: a block of the third net.
const LAST_BLOCK: &str = "\nc 9 (15,25,1)-(15,25,2) (15,25,2)-(15,35,2) !\n";

/// A block of the first net of the design with walls, and the answer.
const FIRST_BLOCKS: &str = "a 7 (15,25,1)-(35,25,1) !|yes 0 4 1/2 0
# the borders of the grid belong to its outer tiles
a 7 (10,20,1)-(40,20,1) !|yes 0 4 1/2 0
a 7 (9,20,1)-(40,20,1) !|no 44 0 0
a 7 (10,20,1)-(41,20,1) !|no 44 0 0
a 7 (10,19,1)-(40,20,1) !|no 44 0 0
a 7 (15,25,1)-(35,25,1) (15,35,1)-(15,40,1) !|yes 0 4 1/2 0
a 7 (15,25,1)-(35,25,1) (15,35,1)-(15,41,1) !|no 44 0 1
a 7 (15,25,1)-(1099511627776,25,1) !|no 44 0 0
a 7 (15,-1099511627776,1)-(35,25,1) !|no 44 0 0
# layers count from 1
a 7 (15,25,1)-(35,25,1) (35,25,1)-(35,25,2) !|yes 0 5 1/2 0
a 7 (15,25,1)-(35,25,1) (35,25,0)-(35,25,1) !|no 44 0 1
a 7 (15,25,1)-(35,25,1) (35,25,2)-(35,25,3) !|no 44 0 1
a 7 (15,25,-1)-(35,25,1) !|no 44 0 0
a 7 (15,25,1)-(35,25,1099511627776) !|no 44 0 0
# ends in one tile name no piece, and any place in a tile is as good as another
a 7 (15,25,1)-(35,25,1) (11,21,1)-(19,29,1) !|yes 0 4 1/2 0
a 7 (15,25,1)-(35,25,1) (15,25,1)-(15,25,1) !|yes 0 4 1/2 0
a 7 (11,21,1)-(39,29,1) !|yes 0 4 1/2 0
# the ends' tiles differ in two of column, row and layer
a 7 (15,25,1)-(35,30,1) !|no 45 0 0
a 7 (15,25,1)-(20,25,2) !|no 45 0 0
a 7 (15,25,1)-(19,25,2) (15,25,1)-(35,25,1) !|yes 0 5 1/2 0
a 7 (15,25,1)-(15,30,2) !|no 45 0 0
a 7 (15,25,1)-(25,35,2) !|no 45 0 0
# a point outside comes before a slant
a 7 (15,25,1)-(41,35,2) !|no 44 0 0
# walls, and segments that end before them
a 7 (15,25,1)-(35,25,1) (15,25,2)-(25,25,2) !|yes 0 5 1/2 0
a 7 (15,25,1)-(35,25,1) (15,25,2)-(35,25,2) !|no 46 0 1
a 7 (15,25,1)-(35,25,1) (35,25,2)-(15,25,2) !|no 46 0 1
a 7 (15,25,1)-(35,25,1) (25,25,2)-(35,25,2) !|no 46 0 1
a 7 (15,35,2)-(25,35,2) (15,25,1)-(35,25,1) !|no 46 0 0
a 7 (15,25,1)-(15,35,1) (15,25,1)-(35,25,1) !|no 46 0 0
a 7 (35,35,1)-(35,25,1) (15,25,1)-(35,25,1) !|no 46 0 0
# a choked edge is none
a 7 (15,25,1)-(35,25,1) (35,35,1)-(15,35,1) !|yes 2 6 1/2 1
a 7 (15,25,1)-(15,25,2) (15,25,2)-(15,35,2) (15,35,2)-(15,35,1) (15,35,1)-(35,35,1) (35,35,1)-(35,35,2) (35,35,2)-(35,25,2) (35,25,2)-(35,25,1) !|yes 2 10 1/1 1
# pieces that leave the terminals apart
a 7 !|no 47 7
a 7 (15,25,1)-(25,25,1) !|no 47 7
a 7 (25,25,1)-(35,25,1) !|no 47 7
a 7 (15,25,1)-(25,25,1) (15,35,1)-(35,35,1) (35,25,1)-(35,25,2) !|no 47 7
a 7 (25,25,1)-(15,25,1) (35,25,1)-(25,25,1) !|yes 0 4 1/2 0
# a piece counts once
a 7 (15,25,1)-(35,25,1) (15,25,1)-(35,25,1) !|yes 0 4 1/2 0
a 7 (15,25,1)-(35,25,1) (35,25,1)-(25,25,1) !|yes 0 4 1/2 0
a 7 (15,25,1)-(25,25,1) (15,25,1)-(35,25,1) !|yes 0 4 1/2 0
a 7 (15,25,1)-(35,25,1) (15,25,2)-(25,25,2) (15,25,2)-(35,25,2) !|no 46 0 2
# a further number says nothing, nor does a name
a 7 9 (15,25,1)-(35,25,1) !|yes 0 4 1/2 0
c 7 -5 (15,25,1)-(35,25,1) !|yes 0 4 1/2 0
# of two segments the first
a 7 (15,25,1)-(15,35,1) (15,25,1)-(41,25,1) !|no 46 0 0
a 7 (15,25,1)-(41,25,1) (15,25,1)-(15,35,1) !|no 44 0 0
a 7 (15,25,1)-(25,25,1) (15,25,1)-(25,35,1) !|no 45 0 1
a 7 (15,25,1)-(25,35,1) (15,25,1)-(15,35,1) !|no 45 0 0";

/// Fails where the judge answers something else of the routes.
fn is_answered(alloc: Global, design: &Design, routes: &str, answer: &str) -> Result<(), Fail> {
    let grounds = design.grounds()?;
    let blocks = blocks_of(alloc, routes.as_bytes())?;
    let checked = judge_routes(alloc, design, grounds.as_slice(), blocks.as_slice())?;
    agree(routes, checked_text(alloc, checked)?.as_str(), answer)
}

#[test]
fn segments_have_the_answers_that_were_worked_out(rt: HostRuntime) -> Result<(), Fail> {
    let alloc = rt.alloc();
    let design = design_of(alloc, "LAYERED_WALLS")?;
    for row in rows_of(alloc, FIRST_BLOCKS)? {
        let (block, answer) = two_fields(row)?;
        let routes = format!(in alloc; "{block}{LAST_BLOCK}")?;
        is_answered(alloc, &design, routes.as_str(), answer)?;
    }
    Ok(())
}

/// A design, routes, and the answer.
const TEXTS: &str = "# nets with two terminals and no block, in the order of the design
LAYERED_WALLS||no 43 7
LAYERED_WALLS|a 7 (15,25,1)-(35,25,1) !|no 43 9
LAYERED_WALLS|c 9 (15,25,1)-(15,25,2) (15,25,2)-(15,35,2) !|no 43 7
# blocks in any order, and of nets with one terminal
LAYERED_WALLS|c 9 (15,25,1)-(15,25,2) (15,25,2)-(15,35,2) ! a 7 (15,25,1)-(35,25,1) !|yes 0 4 1/2 0
LAYERED_WALLS|d 4 ! c 9 (15,25,1)-(15,25,2) (15,25,2)-(15,35,2) ! b 3 ! a 7 (15,25,1)-(35,25,1) !|yes 0 4 1/2 0
LAYERED_WALLS|b 3 (15,35,1)-(35,35,1) ! a 7 (15,25,1)-(35,25,1) ! c 9 (15,25,1)-(15,25,2) (15,25,2)-(15,35,2) !|yes 2 6 1/2 1
# a block of no net
LAYERED_WALLS|e 5 !|no 41 0
LAYERED_WALLS|a 6 (15,25,1)-(41,25,1) !|no 41 0
LAYERED_WALLS|a 4294967295 !|no 41 0
LAYERED_WALLS|a 7 (15,25,1)-(35,25,1) ! a 0 !|no 41 1
# a net's second block
LAYERED_WALLS|a 7 (15,25,1)-(35,25,1) ! a 7 (15,25,1)-(35,25,1) !|no 42 7
LAYERED_WALLS|a 7 (15,25,1)-(35,25,1) ! a 7 (15,25,1)-(41,25,1) !|no 42 7
LAYERED_WALLS|b 3 ! a 7 (15,25,1)-(35,25,1) ! b 3 !|no 42 3
LAYERED_WALLS|a 7 (15,25,1)-(35,25,1) ! c 9 (15,25,1)-(15,25,2) (15,25,2)-(15,35,2) ! a 7 !|no 42 7
# of two blocks the first, and all of them before a net without a block
LAYERED_WALLS|a 7 ! a 7 (15,25,1)-(35,25,1) !|no 47 7
LAYERED_WALLS|a 7 ! e 5 !|no 47 7
LAYERED_WALLS|a 7 (15,25,1)-(15,35,1) ! e 5 !|no 46 0 0
LAYERED_WALLS|e 5 ! a 7 (15,25,1)-(15,35,1) !|no 41 0
LAYERED_WALLS|c 9 (15,25,1)-(15,25,2) !|no 47 9
LAYERED_WALLS|b 3 ! d 4 ! c 9 (15,25,1)-(15,25,2) (15,25,2)-(35,25,2) !|no 46 2 1
LAYERED_WALLS|d 4 ! b 3 (15,35,1)-(25,35,1) (25,35,1)-(25,45,1) !|no 44 1 1
# the routes of worked designs
STAR|a 0 (5,25,1)-(45,25,1) (25,5,1)-(25,45,1) (25,25,1)-(25,25,2) !|yes 0 9 1/4 0
STAR|a 0 (5,25,1)-(45,25,1) (25,5,1)-(25,45,1) !|no 47 0
WIDE_WIRES|a 0 (5,5,2)-(35,5,2) (5,5,1)-(5,5,2) (35,5,1)-(35,5,2) !|yes 0 5 1/4 0
WIDE_WIRES|a 0 (5,5,2)-(35,5,2) (5,5,1)-(5,5,2) !|no 47 0
WIDE_WIRES|a 0 (5,5,1)-(35,5,1) !|yes 0 3 1/3 0
SQUARE|a 0 9 (5,5,1)-(15,5,1) (15,5,1)-(15,15,1) (5,5,1)-(5,15,1) (5,15,1)-(15,15,1) (5,5,1)-(15,5,1) !|yes 0 4 1/1 0
STACK|a 0 (5,5,2)-(5,5,1) !|yes 0 1 none 0
STACK|a 0 !|no 47 0
# what one block joins, the next one has to join again
SHARED_ROW|a 0 (5,5,1)-(25,5,1) ! b 1 ! c 2 (5,5,1)-(25,5,1) !|no 47 1
SHARED_ROW|a 0 (5,5,1)-(25,5,1) ! b 1 (5,5,1)-(25,5,1) ! c 2 (15,5,1)-(25,5,1) (5,15,1)-(25,15,1) !|no 47 2
SHARED_ROW|a 0 (5,5,1)-(25,5,1) ! b 1 (5,5,1)-(25,5,1) ! c 2 (25,15,1)-(25,5,1) (5,15,1)-(25,15,1) (5,5,1)-(5,15,1) !|yes 52 8 8/1 0
# two nets are forced over the choked edges, and the one between them is not
FORCED|a 0 (5,5,1)-(25,5,1) ! b 1 (5,15,1)-(15,15,1) (15,15,1)-(15,5,1) ! c 2 (5,15,1)-(5,5,1) !|yes 4 5 1/2 0
FORCED|a 0 (5,5,1)-(25,5,1) ! b 1 (5,15,1)-(5,5,1) (5,5,1)-(15,5,1) ! c 2 (5,15,1)-(5,5,1) !|yes 8 5 1/2 1
FORCED|a 0 (5,5,1)-(5,15,1) (5,15,1)-(5,25,1) ! b 1 (5,15,1)-(15,15,1) (15,15,1)-(15,5,1) ! c 2 (5,15,1)-(5,5,1) !|no 47 0
FORCED|b 1 (5,15,1)-(15,15,1) (15,15,1)-(15,5,1) ! c 2 (5,15,1)-(5,5,1) !|no 43 0";

#[test]
fn routes_have_the_answers_that_were_worked_out(rt: HostRuntime) -> Result<(), Fail> {
    let alloc = rt.alloc();
    for row in rows_of(alloc, TEXTS)? {
        let (given, routes, answer) = three_fields(row)?;
        is_answered(alloc, &design_of(alloc, given)?, routes, answer)?;
    }
    Ok(())
}

/// The sets that the blocks give the nets, where the blocks are routes.
fn sets_of(
    alloc: Global,
    design: &Design,
    grounds: &[Ground],
    blocks: &[Block],
) -> Result<Vec<Tree>, Fail>
    requires grounds { AreGrounds design.now.grid design.now.nets grounds.now }
    requires blocks { AreBlocks blocks.now }
{
    match judge_routes(alloc, design, grounds, blocks)? {
        Checked::Yes { .. } => Ok(trees_of(alloc, design, blocks)?),
        Checked::No(_) => Err(Fail::new("no routes")),
    }
}

/// A design, routes, and the set of each net: its edges and vias by their numbers, and a semicolon behind them.
const SETS: &str =
    "LAYERED_WALLS|c 9 (15,25,1)-(15,25,2) (15,25,2)-(15,35,2) ! b 3 (25,35,1)-(15,35,1) ! a 7 (25,25,1)-(15,25,1) (15,25,1)-(35,25,1) !| e0 e2; e6; e13 v0;;
STAR|a 0 (25,25,2)-(25,25,1) (45,25,1)-(5,25,1) (25,45,1)-(25,5,1) !| e5 e15 e20 e22 e24 e25 e26 e35 v12;
WIDE_WIRES|a 0 (5,5,1)-(5,5,2) (35,5,2)-(5,5,2) (35,5,1)-(35,5,2) !| e8 e10 e12 v0 v3;
STACK|a 0 (5,5,1)-(5,5,2) !| v0;
SIX_IN_A_ROW|a 0 (25,5,1)-(35,5,1) (15,5,1)-(45,5,1) (25,5,1)-(5,5,1) (5,5,1)-(35,5,1) (5,5,1)-(55,5,1) !| e0 e2 e4 e6 e8;";

#[test]
fn each_net_has_the_set_of_its_block(rt: HostRuntime) -> Result<(), Fail> {
    let alloc = rt.alloc();
    for row in rows_of(alloc, SETS)? {
        let (given, routes, sets) = three_fields(row)?;
        let design = design_of(alloc, given)?;
        let grounds = design.grounds()?;
        let blocks = blocks_of(alloc, routes.as_bytes())?;
        let trees = sets_of(alloc, &design, grounds.as_slice(), blocks.as_slice())?;
        agree(routes, sets_text(alloc, trees.as_slice())?.as_str(), sets)?;
    }
    Ok(())
}

/// The block of a net of the vast design: along the first row, up to the second layer, and along a column.
const VAST_BLOCK: &str = "n K (5,5,1)-(X,5,1) (X,5,1)-(X,5,2) (X,5,2)-(X,Y,2) !\n";

/// The blocks of so many nets of the vast design.
fn vast_routes(alloc: Global, nets: u32) -> Result<String, AllocError> {
    let mut text = String::new(alloc);
    for k in 0..nets {
        let (x, y) = (k % 100 * 10 + 5, k / 100 % 100 * 10 + 5);
        let block = VAST_BLOCK.replace(alloc, 'K', k.to_string(alloc)?.as_str())?;
        let block = block.replace(alloc, 'X', x.to_string(alloc)?.as_str())?;
        text.push_str(
            block
                .replace(alloc, 'Y', y.to_string(alloc)?.as_str())?
                .as_str(),
        )?;
    }
    Ok(text)
}

/// Of 2,000 nets 20 go to each column, and 100 along it to each of 20 rows: 99,000 and 19,000 edges, and 2,000 vias. An edge of
/// the row with m columns behind it has a load of 40 m, and one of a column with m rows behind it a load of 2 m, each of a
/// capacity of 8.
#[test]
fn thousands_of_blocks_are_judged(rt: HostRuntime) -> Result<(), Fail> {
    let alloc = rt.alloc();
    let design = read_design(alloc, vast(alloc, 2000)?.as_slice())?;
    let routes = vast_routes(alloc, 2000)?;
    is_answered(alloc, &design, routes.as_str(), "yes 221208 120000 495/1 0")?;
    let grounds = design.grounds()?;
    let blocks = blocks_of(alloc, routes.as_bytes())?;
    let trees = sets_of(alloc, &design, grounds.as_slice(), blocks.as_slice())?;
    assert!(rt; trees.len() == 2000);
    assert!(rt; trees[1999].pieces().len() == 119);
    Ok(())
}
