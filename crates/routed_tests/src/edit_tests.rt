//! Edits of worked designs that are routed, one after another, and what comes of them.

ghost use Rattle.std.specs.Prelude.{◌↔◌, All, IsTrue};
ghost use Rattle.tree_set.specs.Routings.{ArePieces};
ghost use Rattle.eco_route.specs.EcoStates.{AreSetsOf};

use eco_route::{Eco, EditFault, EditRefusal, read_edits};
use grid_base::Size;
use grid_graph::Design;
use std::alloc::Global;
use std::rt::HostRuntime;
use std::test::Fail;
use test_rows::{Answers, check_rows, numbers_text, sets_of, sets_text, three_fields};
use tree_set::Tree;
use worked_designs::design_of;

fn are_pieces(size: Size, tree: &Tree) -> bool
    ensures { IsTrue result ↔ ArePieces size tree.now }
{
    tree.pieces().iter().all(|p| size.is_piece(*p))
}

fn all_are_pieces(size: Size, trees: &[Tree]) -> bool
    ensures { IsTrue result → All (ArePieces size) trees.now }
{
    trees.iter().all(|tree| are_pieces(size, tree))
}

/// Whether these are sets for the nets of a design, one for each.
fn are_sets_of(design: &Design, trees: &[Tree]) -> bool
    ensures { IsTrue result → AreSetsOf design.now.grid design.now.nets trees.now }
{
    trees.len() == design.nets.list().len() && all_are_pieces(design.grid.size(), trees)
}

/// An eco of a design and its sets, one for each net.
fn opened(alloc: Global, design: Design, trees: Vec<Tree>) -> Result<Eco, Fail> {
    if !are_sets_of(&design, trees.as_slice()) {
        return Err(Fail::new("no such sets"));
    }
    match Eco::open(alloc, design, trees) {
        Ok(eco) => Ok(eco),
        Err(_) => Err(Fail::new("no memory")),
    }
}

/// The ids of the nets, each behind a blank.
fn ids_text(alloc: Global, eco: &Eco) -> Result<String, Fail> {
    let mut ids = Vec::new(alloc);
    for net in eco.design().nets.list() {
        ids.push(net.id)?;
    }
    Ok(numbers_text(alloc, ids.as_slice())?)
}

/// What an edit was refused for: its number, its place among the edits, and its field where it has one.
fn fault_text(alloc: Global, fault: EditFault, index: usize) -> Result<String, Fail> {
    let number = fault.number();
    Ok(match fault.field() {
        Some(field) => format!(in alloc; "{number} {index} {field}")?,
        None => format!(in alloc; "{number} {index}")?,
    })
}

fn refusal_text(alloc: Global, refusal: EditRefusal, index: usize) -> Result<String, Fail> {
    match refusal {
        EditRefusal::NoMemory => Err(Fail::new("no memory")),
        EditRefusal::Fault(fault) => fault_text(alloc, fault, index),
    }
}

/// Makes the edits up to the first that is refused.
fn refused_of(alloc: Global, eco: &mut Eco, text: &str) -> Result<String, Fail> {
    let Ok(edits) = read_edits(alloc, text.as_bytes()) else {
        return Err(Fail::new("no edits"));
    };
    for (index, edit) in edits.iter().enumerate() {
        if let Err(refusal) = eco.apply(edit) {
            return refusal_text(alloc, refusal, index);
        }
    }
    Ok(String::from_str(alloc, "done")?)
}

/// The ids, the sets and the loads, with a slash between two.
fn state_text(alloc: Global, eco: &Eco) -> Result<String, Fail> {
    let mut text = ids_text(alloc, eco)?;
    text.push_str("/")?;
    text.push_str(sets_text(alloc, eco.trees())?.as_str())?;
    text.push_str("/")?;
    text.push_str(numbers_text(alloc, eco.loads())?.as_str())?;
    Ok(text)
}

/// A design, the sets of its nets, edits, and what the first refused one is refused for, with ids, sets and loads in the end.
const EDITS: &str = "# three nets in a row of three tiles
CROWDED_ROW|e0 e2;e0 e2;e0 e2;|edits 0|done/ 0 1 2/ e0 e2; e0 e2; e0 e2;/ 6 0 6 0 0 0
CROWDED_ROW|e0 e2;e0 e2;e0 e2;|edits 1 drop 1|done/ 0 2/ e0 e2; e0 e2;/ 4 0 4 0 0 0
CROWDED_ROW|e0 e2;e0 e2;e0 e2;|edits 2 drop 1 add d 1 2 1 5 5 1 25 5 1|done/ 0 2 1/ e0 e2; e0 e2; e0 e2;/ 6 0 6 0 0 0
CROWDED_ROW|e0 e2;e0 e2;e0 e2;|edits 1 change 1 2 3 5 5 1 15 5 1|done/ 0 1 2/ e0 e2; e0; e0 e2;/ 8 0 4 0 0 0
CROWDED_ROW|e0 e2;e0 e2;e0 e2;|edits 1 change 0 0 1|done/ 0 1 2/; e0 e2; e0 e2;/ 4 0 4 0 0 0
# an unknown id, one that is there, the first pin outside, below the first layer and above the last, and too wide
CROWDED_ROW|e0 e2;e0 e2;e0 e2;|edits 1 drop 9|62 0 9/ 0 1 2/ e0 e2; e0 e2; e0 e2;/ 6 0 6 0 0 0
CROWDED_ROW|e0 e2;e0 e2;e0 e2;|edits 2 drop 1 change 1 0 1|62 1 1/ 0 2/ e0 e2; e0 e2;/ 4 0 4 0 0 0
CROWDED_ROW|e0 e2;e0 e2;e0 e2;|edits 1 add d 2 0 1|63 0 2/ 0 1 2/ e0 e2; e0 e2; e0 e2;/ 6 0 6 0 0 0
CROWDED_ROW|e0 e2;e0 e2;e0 e2;|edits 2 drop 0 add d 1 0 1|63 1 1/ 1 2/ e0 e2; e0 e2;/ 4 0 4 0 0 0
CROWDED_ROW|e0 e2;e0 e2;e0 e2;|edits 1 add d 3 3 1 5 5 9 30 10 1 31 5 1|64 0 2/ 0 1 2/ e0 e2; e0 e2; e0 e2;/ 6 0 6 0 0 0
CROWDED_ROW|e0 e2;e0 e2;e0 e2;|edits 2 drop 2 change 1 2 1 5 5 1 -1 5 1|64 1 1/ 0 1/ e0 e2; e0 e2;/ 4 0 4 0 0 0
CROWDED_ROW|e0 e2;e0 e2;e0 e2;|edits 1 add d 3 2 1023 5 5 1 5 5 0|65 0 1/ 0 1 2/ e0 e2; e0 e2; e0 e2;/ 6 0 6 0 0 0
CROWDED_ROW|e0 e2;e0 e2;e0 e2;|edits 2 drop 2 change 1 2 1 5 5 2 5 5 0|65 1 0/ 0 1/ e0 e2; e0 e2;/ 4 0 4 0 0 0
CROWDED_ROW|e0 e2;e0 e2;e0 e2;|edits 1 add d 3 1 1023 5 5 1|67 0/ 0 1 2/ e0 e2; e0 e2; e0 e2;/ 6 0 6 0 0 0
CROWDED_ROW|e0 e2;e0 e2;e0 e2;|edits 2 drop 2 change 1 1 1023 5 5 1|67 1/ 0 1/ e0 e2; e0 e2;/ 4 0 4 0 0 0
# a pin in a second row, to which no edge leads
CROWDED_ROW 7 8 2|e0 e2;e0 e2;e0 e2;|edits 1 add d 3 3 1 5 5 1 15 5 1 5 15 1|68 0 2/ 0 1 2/ e0 e2; e0 e2; e0 e2;/ 6 0 6 0 0 0 0 0 0 0 0 0
CROWDED_ROW 7 8 2|e0 e2;e0 e2;e0 e2;|edits 2 drop 2 change 1 2 1 5 5 1 5 15 1|68 1 1/ 0 1/ e0 e2; e0 e2;/ 4 0 4 0 0 0 0 0 0 0 0 0
CROWDED_ROW|e0 e2;e0 e2;e0 e2;|edits 1 add d 3 2 1022 5 5 1 15 5 1|done/ 0 1 2 3/ e0 e2; e0 e2; e0 e2; e0;/ 1029 0 6 0 0 0";

/// What the first refused edit is refused for, and the state in the end.
fn outcome_text(alloc: Global, eco: &mut Eco, edits: &str) -> Result<String, Fail> {
    let mut text = refused_of(alloc, eco, edits)?;
    text.push_str("/")?;
    text.push_str(state_text(alloc, eco)?.as_str())?;
    Ok(text)
}

/// What comes of the edits of a design and sets.
struct Edits;

impl Answers for Edits {
    fn answer(&self, alloc: Global, given: &'static str) -> Result<String, Fail> {
        let (name, sets, edits) = three_fields(given)?;
        let sets = sets_of(alloc, sets)?;
        let mut eco = opened(alloc, design_of(alloc, name)?, sets)?;
        outcome_text(alloc, &mut eco, edits)
    }
}

#[test]
fn each_edit_is_made_or_refused(rt: HostRuntime) -> Result<(), Fail> {
    check_rows(rt.alloc(), EDITS, &Edits)
}
