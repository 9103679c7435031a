//! The programs that are used beside reference programs: all sets of pieces of small grids, and draws on them.

ghost use Rattle.std.specs.Prelude.{◌≡◌};
ghost use Rattle.steiner_exact.specs.TreeLabelWords.{AreTreeLabels};

use crate::comparing_tests::merging_agrees;
use crate::covering_tests::covering_agrees;
use crate::distance_tests::{distances_agree, drawn, path_agrees};
use crate::listed::Listed;
use crate::size_tests::row_agrees;
use crate::span_tests::is_light;
use crate::tree_tests::{drawn_terminals, tree_agrees};
use crate::weight_tests::{grid_of, weights_agree};
use grid_base::Size;
use std::alloc::Global;
use std::test::Fail;
use steiner_exact::TreeLabels;
use test_rows::{Answers, check_rows, number_of, three_fields};

/// What is compared, and behind it the design where there is one; columns, rows and layers; how many sets of pieces or draws there are; and the first of them for which the
/// programs don't agree, if any.
const DRAWS: &str = "# merging and the flood that is used join the same, for every set of pieces
merging|1 1 1|1|none
merging|5 1 1|16|none
merging|1 4 2|1024|none
merging|2 2 1|16|none
merging|3 3 1|4096|none
merging|2 2 2|4096|none
merging|1 1 4|8|none
# marking and the plain way find the same routes covered, for every set of pieces of the row with a second row, of the stack
# with four tiles a layer, and of the square
covering ROW 7 8 2|3 2 1|128|none
covering STACK 5 8 2 2|2 2 2|4096|none
covering SQUARE|2 2 1|16|none
# thousands of pieces are joined and copied
row|9000 1 1|1|none
# a path weighs as much as the distance
path|5 4 2|6|none
# distances are those of a reference program
distances|6 5 1|4|none
distances|4 3 3|4|none
distances|1 1 5|4|none
distances|9 1 2|4|none
# least weights between two vertices are distances
weights|2 2 2|4|none
weights|3 2 1|4|none
weights|1 1 5|4|none
# least trees weigh what a full table says, and in the first five grids what the lightest of all sets does; on flat grids one search
# over the sets of the terminals finds that too
tree|3 2 1|16|none
tree|3 3 1|16|none
tree|2 2 2|16|none
tree|2 1 3|16|none
tree|1 1 5|16|none
tree|3 2 2|16|none
tree|6 5 1|32|none
tree|4 3 3|16|none
tree|5 4 2|16|none
tree|9 1 2|16|none
# the same where vias weigh so much that balls grow around terminals, and limits are learned
heavy tree|2 2 2|16|none
heavy tree|2 1 3|16|none
heavy tree|1 1 5|16|none
heavy tree|3 2 2|16|none
heavy tree|4 3 3|16|none
heavy tree|5 4 2|16|none
heavy tree|9 1 2|16|none
# the same where pieces weigh so much more than the least of them that distances often lead the table
dear tree|2 2 2|16|none
dear tree|2 1 3|16|none
dear tree|3 2 2|16|none
dear tree|4 3 3|32|none
dear tree|5 4 2|32|none
dear tree|9 1 2|16|none
# no spanning tree by distances is lighter
span|3 2 1|21|none
span|2 2 2|21|none
span|6 5 1|21|none
span|4 3 3|21|none
span|5 4 2|21|none";

/// Whether the programs agree at these weights and terminals that are drawn by a number.
fn joined_agree(
    alloc: Global,
    what: &str,
    weights: &Listed,
    size: Size,
    seed: u32,
    labels: &mut TreeLabels,
) -> Result<bool, Fail>
    requires size { weights.now.size ≡ size }
    requires labels { AreTreeLabels size labels.old }
    ensures labels { AreTreeLabels size labels.new }
{
    let more = if what == "span" { seed % 7 } else { seed % 4 };
    let terminals = drawn_terminals(alloc, size, seed.wrapping_add(99), 2 + more)?;
    if what == "span" {
        is_light(alloc, weights, size, terminals.as_slice(), &mut labels.grid)
    } else {
        tree_agrees(alloc, weights, size, terminals.as_slice(), labels)
    }
}

/// Whether they agree at these weights.
fn weighed_agree(
    alloc: Global,
    what: &'static str,
    weights: &Listed,
    size: Size,
    seed: u32,
    labels: &mut TreeLabels,
) -> Result<bool, Fail>
    requires size { weights.now.size ≡ size }
    requires labels { AreTreeLabels size labels.old }
    ensures labels { AreTreeLabels size labels.new }
{
    match what {
        "path" => path_agrees(alloc, weights, size),
        "distances" => Ok(distances_agree(alloc, weights, size)?),
        "weights" => weights_agree(alloc, weights, size),
        "tree" | "heavy tree" | "dear tree" | "span" => joined_agree(
            alloc, what, weights, size, seed, labels,
        ),
        _ => Err(Fail::new(what)),
    }
}

/// Whether they agree for the set of pieces of a number, or at the weights of a number. Only distances and least weights are
/// compared where pieces may weigh nothing.
fn agree(
    alloc: Global,
    what: &'static str,
    size: Size,
    number: u32,
    labels: &mut TreeLabels,
) -> Result<bool, Fail>
    requires labels { AreTreeLabels size labels.old }
    ensures labels { AreTreeLabels size labels.new }
{
    if let Some(design) = what.strip_prefix("covering ") {
        return covering_agrees(alloc, design, size, number);
    }
    let (least, step) = match what {
        "merging" => return merging_agrees(alloc, size, number),
        "row" => return row_agrees(alloc, size),
        "distances" | "weights" => (0, 1),
        "heavy tree" => (6, 1),
        "dear tree" => (1, 100),
        _ => (1, 1),
    };
    let weights = drawn(alloc, size, number, least, step)?.ok_or("pieces")?;
    weighed_agree(alloc, what, &weights, size, number, labels)
}

/// The first number for which they don't agree, with labels that all draws use one after another.
fn first_apart(
    alloc: Global,
    what: &'static str,
    size: Size,
    count: u32,
    labels: &mut TreeLabels,
) -> Result<String, Fail>
    requires labels { AreTreeLabels size labels.old }
{
    for number in 0..count {
        if !agree(alloc, what, size, number, labels)? {
            return Ok(number.to_string(alloc)?);
        }
    }
    Ok(String::from_str(alloc, "none")?)
}

struct Draws;

impl Answers for Draws {
    fn answer(&self, alloc: Global, given: &'static str) -> Result<String, Fail> {
        let (what, grid, count) = three_fields(given)?;
        let (size, count) = (grid_of(grid)?, number_of(count)?);
        let mut labels = TreeLabels::new(alloc, size)?;
        first_apart(alloc, what, size, count, &mut labels)
    }
}

#[test]
fn programs_agree_with_reference_programs(rt: HostRuntime) -> Result<(), Fail> {
    check_rows(rt.alloc(), DRAWS, &Draws)
}
