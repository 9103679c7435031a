//! Steps from a mask at a vertex to its neighbours.

ghost use Rattle.std.specs.Prelude.{◌≡◌, ◌<◌, ◌≤◌, ◌+◌, ℕ};
ghost use Rattle.grid_base.specs.declared.piece.Piece.{Piece};
ghost use Rattle.grid_base.specs.Numbers.{Connects};
ghost use Rattle.grid_base.specs.Spots.{IsSpot};
ghost use Rattle.grid_graph.specs.Weighed.{Weighs};
ghost use Rattle.label_search.specs.Rows.{size_in};
ghost use Rattle.label_search.specs.Runs.{IsSearch};
ghost use Rattle.label_search.specs.Stamped.{far, max_key};
ghost use Rattle.steiner_tables.specs.Masks.{rooted_masks};
ghost use Rattle.dijkstra_steiner.specs.Stacks.{rest_on};
ghost use Rattle.dijkstra_steiner.specs.MaskSearches.{IsMaskSearch, Proceeds, mask_number};

use crate::limits::NO_LIMIT;
use crate::rest_on_stack::RestOnStack;
use grid_base::{Spot, spot_steps};
use grid_graph::Weights;
use label_search::{Row, offer};
use steiner_tables::Family;

/// Offers each neighbour of a vertex the number that a mask gets from there.
pub(crate) fn relax<W: Weights, F: Family>(
    row: &mut Row,
    weights: &W,
    rest: &RestOnStack<'_, F>,
    last: u32,
    mask: u32,
    at: Spot,
)
    requires size { size_in row.old ≡ rest.now.stack.size }
    requires flat { rest.now.stack.flat ≡ W.size weights.now }
    requires some { 0 < mask }
    requires mask { mask ≤ last }
    requires last { last ≤ rooted_masks }
    requires at { IsSpot rest.now.stack.flat at }
    requires here { mask_number rest.now.stack.flat row.old mask at.vertex.0 < far }
    requires search { IsSearch (rest_on rest.now.stack.size (F.terminals rest.now.family.now) (F.low rest.now.family.now)) max_key row.old }
    ensures search { IsSearch (rest_on rest.now.stack.size (F.terminals rest.now.family.now) (F.low rest.now.family.now)) max_key row.new }
    ensures masks { (goal : ℕ)
        → IsMaskSearch rest.now.stack.flat (W.pieces weights.now) (F.terminals rest.now.family.now) (F.low rest.now.family.now) last goal row.old
        → IsMaskSearch rest.now.stack.flat (W.pieces weights.now) (F.terminals rest.now.family.now) (F.low rest.now.family.now) last goal row.new }
    ensures proceeds { Proceeds row.old row.new }
    ensures relaxed { (p : Piece) (k u : ℕ) → Weighs (W.pieces weights.now) p k → Connects (W.size weights.now) p at.vertex.0 u
        → mask_number rest.now.stack.flat row.new mask u ≤ mask_number rest.now.stack.flat row.old mask at.vertex.0 + k }
{
    let stack = rest.stack;
    let number = row.number(stack.spot(mask, at).vertex);
    for step in &spot_steps(stack.flat(), at) {
        if let Some((to, by)) = *step {
            if weights.allows(by) {
                offer(
                    row,
                    rest,
                    NO_LIMIT,
                    stack.spot(mask, to),
                    number + weights.weight(by),
                );
            }
        }
    }
}
