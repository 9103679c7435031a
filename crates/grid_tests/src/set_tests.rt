//! Sets of `tree_set`, its fractions, and vertices that a set joins.

ghost use Rattle.std.specs.Prelude.{◌↔◌, All, IsTrue};
ghost use Rattle.grid_base.specs.Numbers.{IsVertex};
ghost use Rattle.tree_set.specs.Routings.{ArePieces};

use grid_base::{Edge, Piece, Size, Vertex, Via};
use std::alloc::Global;
use std::test::Fail;
use test_rows::{
    Answers, check_rows, fraction_text, set_of, set_text, two_fields, two_numbers, vertices_of,
};
use tree_set::{Fraction, Tree, joins};

/// What is asked for, and what is found: a set of these pieces or the empty one, with its copy and whether via 0 and edge 0
/// are in it; two numbers as a fraction; whether one fraction is no more than another one; or whether pieces join vertices of
/// a grid of four columns, one row and two layers.
const ASKED: &str = "# a list with repeats is a rising set
set|v3 e9 e4 v3 v0| e4 e9 v0 v3 and e4 e9 v0 v3 true false
empty|| and false false
# fractions are reduced, and compared by both numbers
fraction|6379 12758|1/2
fraction|0 4|0/1
order|5234 11613 at most 6379 12758|true
order|6379 12758 at most 5234 11613|false
order|0 4 at most 5234 11613|true
order|6379 12758 at most 6379 12758|true
order|6379 12758 at most 1180591620717411303423 144115188075855872|true
order|1180591620717411303423 144115188075855872 at most 6379 12758|false
# up at one end, along the upper layer, down at the other; a set without one edge or one via joins no more
joined|e8 e10 e12 v0 v3 between 0 3|true
joined|e8 e10 e12 v0 between 0 3|false
joined|e10 e12 v0 v3 between 0 3|false
# fewer than two are joined by nothing
joined| between 0|true
joined| between |true";

struct Found;

impl Answers for Found {
    fn answer(&self, alloc: Global, given: &'static str) -> Result<String, Fail> {
        let (kind, asked) = two_fields(given)?;
        match kind {
            "set" => set_answer(alloc, &set_of(alloc, asked)?),
            "empty" => set_answer(alloc, &Tree::empty(alloc)),
            "fraction" => Ok(fraction_text(alloc, Some(fraction_of(asked)?))?),
            "order" => order_text(alloc, asked),
            "joined" => joined_text(alloc, asked),
            _ => Err(Fail::new("nothing that can be asked")),
        }
    }
}

#[test]
fn sets_and_fractions_are_those_that_were_worked_out(rt: HostRuntime) -> Result<(), Fail> {
    check_rows(rt.alloc(), ASKED, &Found)
}

/// The set and its copy, and whether via 0 and edge 0 are in it.
fn set_answer(alloc: Global, tree: &Tree) -> Result<String, Fail> {
    let pieces = set_text(alloc, tree)?;
    let copied = copy_text(alloc, tree)?;
    let has_via = tree.contains(Piece::Via(Via(0)));
    let has_edge = tree.contains(Piece::Edge(Edge(0)));
    Ok(format!(in alloc; "{pieces} and{copied} {has_via} {has_edge}")?)
}

fn copy_text(alloc: Global, tree: &Tree) -> Result<String, Fail> {
    let again = tree.copy()?;
    Ok(set_text(alloc, &again)?)
}

fn fraction_of(numbers: &'static str) -> Result<Fraction, Fail> {
    let (num, den) = two_numbers::<u128>(numbers)?;
    if num >= 1 << 70 || den == 0 || den > 1 << 58 {
        return Err(Fail::new("no fraction"));
    }
    Ok(Fraction::of(num, den))
}

fn order_text(alloc: Global, asked: &'static str) -> Result<String, Fail> {
    let (first, second) = asked.split_once(" at most ").ok_or("two fractions")?;
    let is_at_most = fraction_of(first)?.less_or_equal(&fraction_of(second)?);
    Ok(is_at_most.to_string(alloc)?)
}

fn are_pieces(size: Size, tree: &Tree) -> bool
    ensures { IsTrue result ↔ ArePieces size tree.now }
{
    tree.pieces().iter().all(|p| size.is_piece(*p))
}

fn are_vertices(size: Size, terminals: &[Vertex]) -> bool
    ensures { IsTrue result ↔ All (λ t. IsVertex size t.0) terminals.now }
{
    terminals.iter().all(|t| t.0 < size.vertices())
}

/// What `joins` answers, where all are pieces and vertices of the size.
fn are_joined(alloc: Global, size: Size, tree: &Tree, terminals: &[Vertex]) -> Result<bool, Fail> {
    if !are_pieces(size, tree) || !are_vertices(size, terminals) {
        return Err(Fail::new("no piece or no vertex"));
    }
    Ok(joins(alloc, size, tree, terminals)?)
}

fn joined_text(alloc: Global, asked: &'static str) -> Result<String, Fail> {
    let (pieces, ends) = asked.split_once(" between ").ok_or("ends")?;
    let size = Size::new(4, 1, 2).ok_or("size")?;
    let ends = vertices_of(alloc, ends)?;
    let tree = set_of(alloc, pieces)?;
    Ok(are_joined(alloc, size, &tree, &ends)?.to_string(alloc)?)
}
