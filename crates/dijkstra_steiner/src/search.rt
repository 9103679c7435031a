//! The search for the least weight that joins a few terminals.

ghost use Rattle.std.specs.Prelude.{◌≡◌, ◌<◌, ◌≤◌, ℕ, List, All, IfSome, None, length};
ghost use Rattle.grid_base.specs.Numbers.{IsVertex};
ghost use Rattle.grid_base.specs.Walks.{Joins, InVertices};
ghost use Rattle.grid_graph.specs.Weighed.{IsAllowed};
ghost use Rattle.label_search.specs.Rows.{size_in, number_in, IsWaiting, Waits};
ghost use Rattle.label_search.specs.Sets.{IsLeastWeight};
ghost use Rattle.label_search.specs.Stamped.{far};
ghost use Rattle.steiner_tables.specs.Masks.{few_terminals, all_of, all_but_root};
ghost use Rattle.steiner_tables.specs.Tables.{IsFamily};
ghost use Rattle.dijkstra_steiner.specs.LabelWords.{mask_labels_size};
ghost use Rattle.dijkstra_steiner.specs.MaskSearches.{IsMaskSearch, AreStarted, AreMasksSettled};
ghost use Rattle.grid_base.specs.declared.piece.Piece.{Piece};

use crate::limits::NO_LIMIT;
use crate::mask_labels::MaskLabels;
use crate::merging::merge;
use crate::relaxing::relax;
use crate::rest_on_stack::RestOnStack;
use grid_base::{Spot, Vertex};
use grid_graph::Weights;
use label_search::{Row, offer};
use steiner_tables::{Family, all_but_root_of, all_of, single_of};

/// The least weight of a set of allowed pieces that joins two to five terminals.
pub fn least_over_masks<W: Weights, F: Family>(
    weights: &W,
    family: &F,
    terminals: &[Vertex],
    labels: &mut MaskLabels,
) -> u64
    requires labels { mask_labels_size labels.old ≡ W.size weights.now }
    requires family_size { F.size family.now ≡ W.size weights.now }
    requires family { F.pieces family.now ≡ W.pieces weights.now }
    requires family_terminals { F.terminals family.now ≡ terminals.now }
    requires two { 2 ≤ length terminals.now }
    requires few { length terminals.now ≤ few_terminals }
    requires vertices { All (λ v. IsVertex (W.size weights.now) v.0) terminals.now }
    requires joined { Joins (W.size weights.now) (IsAllowed (W.pieces weights.now)) (InVertices terminals.now) }
    ensures least { IsLeastWeight (W.size weights.now) (W.pieces weights.now) (InVertices terminals.now) result }
    ensures labels { mask_labels_size labels.new ≡ mask_labels_size labels.old }
{
    let rest = RestOnStack {
        family,
        stack: labels.stack,
        all: all_of(terminals.len()),
    };
    labels.row.forget();
    start(&mut labels.row, &rest, terminals);
    settle_root(&mut labels.row, weights, &rest, terminals).unwrap()
}

/// Offers 0 to each terminal but the root, for its own mask.
fn start<F: Family>(row: &mut Row, rest: &RestOnStack<'_, F>, terminals: &[Vertex])
    requires size { size_in row.old ≡ rest.now.stack.size }
    requires terminals { F.terminals rest.now.family.now ≡ terminals.now }
    requires two { 2 ≤ length terminals.now }
    requires few { length terminals.now ≤ few_terminals }
    requires vertices { All (λ v. IsVertex rest.now.stack.flat v.0) terminals.now }
    requires none { (w : ℕ) → number_in row.old w ≡ far }
    requires idle { (w key : ℕ) → ¬ IsWaiting row.old w key }
    ensures size { size_in row.new ≡ size_in row.old }
    ensures masks { (pieces : List (Piece × ℕ)) (goal : ℕ)
        → IsMaskSearch rest.now.stack.flat pieces terminals.now (F.low rest.now.family.now) (all_but_root terminals.now) goal row.new }
    ensures started { AreStarted rest.now.stack.flat terminals.now (all_but_root terminals.now) row.new }
    ensures waits { (w : ℕ) → number_in row.new w < far → Waits row.new w }
{
    for place in 0..terminals.len() - 1 {
        let at = Spot::of(rest.stack.flat(), terminals[place]);
        let to = rest.stack.spot(single_of(place as u32), at);
        offer(row, rest, NO_LIMIT, to, 0);
    }
}

/// Runs a search that has just begun, in which all that has a number waits, until all terminals but the root are taken out at the
/// root, and answers their number there: `None` where nothing waits any more.
fn settle_root<W: Weights, F: Family>(
    row: &mut Row,
    weights: &W,
    rest: &RestOnStack<'_, F>,
    terminals: &[Vertex],
) -> Option<u64>
    requires size { size_in row.old ≡ rest.now.stack.size }
    requires flat { rest.now.stack.flat ≡ W.size weights.now }
    requires family { IsFamily (W.size weights.now) (W.pieces weights.now) terminals.now (F.low rest.now.family.now) }
    requires terminals { F.terminals rest.now.family.now ≡ terminals.now }
    requires two { 2 ≤ length terminals.now }
    requires few { length terminals.now ≤ few_terminals }
    requires vertices { All (λ v. IsVertex (W.size weights.now) v.0) terminals.now }
    requires masks { (goal : ℕ) → IsMaskSearch (W.size weights.now) (W.pieces weights.now) terminals.now (F.low rest.now.family.now)
        (all_but_root terminals.now) goal row.old }
    requires started { AreStarted (W.size weights.now) terminals.now (all_but_root terminals.now) row.old }
    requires settled { AreMasksSettled (W.size weights.now) (W.pieces weights.now) (all_but_root terminals.now) row.old }
    ensures size { size_in row.new ≡ size_in row.old }
    ensures least { IfSome result (λ x. IsLeastWeight (W.size weights.now) (W.pieces weights.now) (InVertices terminals.now) x) }
    ensures none { result ≡ None → ¬ Joins (W.size weights.now) (IsAllowed (W.pieces weights.now)) (InVertices terminals.now) }
{
    let last = all_but_root_of(terminals.len());
    let root = Spot::of(rest.stack.flat(), terminals[terminals.len() - 1]);
    let goal = rest.stack.spot(last, root).vertex;
    while row.is_waiting() {
        let from = row.take();
        if from.vertex == goal {
            return Some(row.number(goal));
        }
        let (mask, at) = (rest.stack.mask(from), rest.stack.under(from));
        merge(row, rest, last, mask, at);
        relax(row, weights, rest, last, mask, at);
    }
    None
}
