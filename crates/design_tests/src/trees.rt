//! Sets of pieces for the nets of a design, and what is told of them.

ghost use Rattle.std.specs.Prelude.{◌≡◌, ◌↔◌, All, IsTrue, length};
ghost use Rattle.tree_set.specs.Routings.{ArePieces};

use gr_desk::{Fail as FailedCall, MemDesk, Port};
use grid_base::{Edge, Piece, Size};
use grid_graph::{Design, Ground, Name};
use guide_text::{Guide, Rect, Rects, covers, guides_of, is_near, read_guides, write_guides};
use route_text::write_routes;
use std::alloc::{AllocError, Global};
use std::test::Fail;
use test_rows::{
    Answers, fraction_text, number_of, numbers_of, numbers_text, set_of, sets_of, three_fields,
};
use tree_set::{Tree, add_load, inside, measure_of};
use worked_designs::design_of;

// ---- the sets

/// So many edges, each with a number that is greater by the same step, from 0 on.
fn edges_by(alloc: Global, count: u32, step: u32) -> Result<Tree, AllocError> {
    let mut pieces = Vec::new(alloc);
    for k in 0..count {
        pieces.push(Piece::Edge(Edge(k.wrapping_mul(step))))?;
    }
    Ok(Tree::of(pieces))
}

/// The set that a field lists. `3 by 2` stands for `e0 e2 e4`.
fn set_from(alloc: Global, field: &'static str) -> Result<Tree, Fail> {
    match field.split_once(" by ") {
        Some((count, step)) => Ok(edges_by(alloc, number_of(count)?, number_of(step)?)?),
        None => Ok(set_of(alloc, field)?),
    }
}

/// The same set for each net of a design.
fn alike(alloc: Global, design: &Design, set: &'static str) -> Result<Vec<Tree>, Fail> {
    let mut trees = Vec::new(alloc);
    for _ in design.nets.list() {
        trees.push(set_from(alloc, set)?)?;
    }
    Ok(trees)
}

/// The sets that a field lists, with a semicolon behind each, or else the one that it lists for each net.
pub fn trees_of(alloc: Global, design: &Design, field: &'static str) -> Result<Vec<Tree>, Fail> {
    if field.ends_with(';') {
        Ok(sets_of(alloc, field)?)
    } else {
        alike(alloc, design, field)
    }
}

fn are_pieces(size: Size, tree: &Tree) -> bool
    ensures { IsTrue result ↔ ArePieces size tree.now }
{
    tree.pieces().iter().all(|p| size.is_piece(*p))
}

fn all_are_pieces(size: Size, trees: &[Tree]) -> bool
    ensures { IsTrue result → All (ArePieces size) trees.now }
{
    trees.iter().all(|tree| are_pieces(size, tree))
}

// ---- measures and loads

/// What is measured of the sets, one for each net: the overflow, the wirelength and the peak.
pub fn measured(alloc: Global, design: &Design, trees: &[Tree]) -> Result<String, Fail> {
    if trees.len() != design.nets.list().len() || !all_are_pieces(design.grid.size(), trees) {
        return Err(Fail::new("no such sets"));
    }
    let measure = measure_of(alloc, design, trees)?;
    let (overflow, wirelength) = (measure.overflow, measure.wirelength);
    let peak = fraction_text(alloc, measure.peak)?;
    Ok(format!(in alloc; "{overflow} {wirelength} {peak}")?)
}

/// What `add_load` adds to a table of zeros, for the first net.
fn load_text(alloc: Global, design: &Design, tree: &Tree) -> Result<String, Fail> {
    let net = design.nets.list().first().ok_or("net")?;
    let mut loads = vec![in alloc; 0; 2 * design.grid.size().vertices() as usize]?;
    if !are_pieces(design.grid.size(), tree) {
        return Err(Fail::new("no piece"));
    }
    add_load(&design.grid, net.width, tree, loads.as_mut_slice());
    Ok(numbers_text(alloc, loads.as_slice())?)
}

/// Whether the set is inside of the open edges, and of these and the choked ones.
fn inside_of(design: &Design, tree: &Tree) -> &'static str {
    let open = inside(&design.grid, Ground::Open, tree);
    match (open, inside(&design.grid, Ground::WithChoked, tree)) {
        (true, true) => "open choked",
        (true, false) => "open",
        (false, true) => "choked",
        (false, false) => "",
    }
}

// ---- routes and guides

/// A text as a field, in which each line end is a `;`.
fn field_of(alloc: Global, text: &[u8]) -> Result<String, Fail> {
    let text = str::from_utf8(text)?;
    if text.contains(';') {
        return Err(Fail::new("a semicolon"));
    }
    Ok(text.replace(alloc, '\n', ";")?)
}

/// What is written of the sets, one for each net, and whether all of it was.
pub fn written(
    alloc: Global,
    design: &Design,
    trees: &[Tree],
    failing: Vec<FailedCall>,
) -> Result<(Vec<u8>, bool), Fail> {
    if trees.len() != design.nets.list().len() || !all_are_pieces(design.grid.size(), trees) {
        return Err(Fail::new("no such sets"));
    }
    let mut desk = MemDesk::new(alloc, Vec::new(alloc), failing);
    let whole = write_routes(&mut desk, Port::Report, design, trees).is_ok();
    Ok((Vec::from_slice(alloc, desk.written(Port::Report))?, whole))
}

/// Whether this text is written of the sets, one for each net, and all of it.
pub fn is_whole(alloc: Global, design: &Design, trees: &[Tree], text: &[u8]) -> Result<bool, Fail> {
    let (found, whole) = written(alloc, design, trees, Vec::new(alloc))?;
    Ok(whole && found.as_slice() == text)
}

/// The text of the routes, where all of it is written.
fn routes_text(alloc: Global, design: &Design, trees: &[Tree]) -> Result<String, Fail> {
    let (text, whole) = written(alloc, design, trees, Vec::new(alloc))?;
    if whole {
        field_of(alloc, text.as_slice())
    } else {
        Err(Fail::new("a part"))
    }
}

/// The text of guides, as it is written to a desk.
fn guides_written(alloc: Global, guides: &[Guide]) -> Result<Vec<u8>, Fail> {
    let mut desk = MemDesk::new(alloc, Vec::new(alloc), Vec::new(alloc));
    write_guides(&mut desk, Port::GuideOut, guides)?;
    Ok(Vec::from_slice(alloc, desk.written(Port::GuideOut))?)
}

/// A text of guides, where the guides that are read of it have the same text.
fn read_back(alloc: Global, text: &[u8]) -> Result<String, Fail> {
    let guides = read_guides(alloc, text)?;
    if guides_written(alloc, guides.as_slice())?.as_slice() == text {
        field_of(alloc, text)
    } else {
        Err(Fail::new("other guides"))
    }
}

/// The text of the guides of the sets, one for each net.
fn guides_text(alloc: Global, design: &Design, trees: &[Tree]) -> Result<String, Fail> {
    if !is_near(&design.grid)
        || trees.len() != design.nets.list().len()
        || !all_are_pieces(design.grid.size(), trees)
    {
        return Err(Fail::new("no such sets"));
    }
    let guides = guides_of(alloc, design, trees)?;
    let text = guides_written(alloc, guides.as_slice())?;
    read_back(alloc, text.as_slice())
}

/// Rectangles from their numbers, five each.
fn rects_of(alloc: Global, numbers: &[i64]) -> Result<Rects, Fail> {
    let mut rects = Vec::new(alloc);
    for five in numbers.chunks(5) {
        match five {
            [x1, y1, x2, y2, layer] => rects.push(Rect {
                x1: *x1,
                y1: *y1,
                x2: *x2,
                y2: *y2,
                layer: *layer,
            })?,
            _ => return Err(Fail::new("five numbers a rectangle")),
        }
    }
    Ok(Rects::of(rects))
}

/// A guide of the rectangles that a field lists. Its name and its id are no net's.
fn guide_from(alloc: Global, field: &'static str) -> Result<Guide, Fail> {
    let numbers = numbers_of::<i64>(alloc, field)?;
    Ok(Guide {
        rects: rects_of(alloc, numbers.as_slice())?,
        name: Name::of(Vec::from_slice(alloc, b"other")?),
        id: 7,
    })
}

/// Whether a guide covers the route of the first net.
fn is_covered(alloc: Global, design: &Design, tree: &Tree, guide: &Guide) -> Result<bool, Fail> {
    if design.nets.list().is_empty() || !are_pieces(design.grid.size(), tree) {
        return Err(Fail::new("no such set"));
    }
    Ok(covers(alloc, design, 0, tree, guide)?)
}

fn covered_text(
    alloc: Global,
    design: &Design,
    tree: &Tree,
    rects: &'static str,
) -> Result<String, Fail> {
    let guide = guide_from(alloc, rects)?;
    Ok(is_covered(alloc, design, tree, &guide)?.to_string(alloc)?)
}

// ---- the answers

/// What is told of the first set. A question that is no word is a guide's rectangles.
fn told_of(
    alloc: Global,
    design: &Design,
    tree: &Tree,
    question: &'static str,
) -> Result<String, Fail> {
    match question {
        "load" => load_text(alloc, design, tree),
        "inside" => Ok(String::from_str(alloc, inside_of(design, tree))?),
        rects => covered_text(alloc, design, tree, rects),
    }
}

fn told(
    alloc: Global,
    design: &Design,
    trees: &[Tree],
    question: &'static str,
) -> Result<String, Fail> {
    match question {
        "measure" => measured(alloc, design, trees),
        "routes" => routes_text(alloc, design, trees),
        "guides" => guides_text(alloc, design, trees),
        _ => told_of(alloc, design, trees.first().ok_or("a set")?, question),
    }
}

fn told_of_sets(
    alloc: Global,
    design: &Design,
    sets: &'static str,
    question: &'static str,
) -> Result<String, Fail> {
    let trees = trees_of(alloc, design, sets)?;
    told(alloc, design, trees.as_slice(), question)
}

/// A row is a design, the sets of its nets, a question and the answer.
pub struct Sets;

impl Answers for Sets {
    fn answer(&self, alloc: Global, given: &'static str) -> Result<String, Fail> {
        let (name, sets, question) = three_fields(given)?;
        let design = design_of(alloc, name)?;
        told_of_sets(alloc, &design, sets, question)
    }
}
