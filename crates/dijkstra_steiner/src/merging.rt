//! Sums of two masks at a vertex.

ghost use Rattle.std.specs.Prelude.{◌≡◌, ◌<◌, ◌≤◌, ◌+◌, ℕ, List};
ghost use Rattle.grid_base.specs.declared.piece.Piece.{Piece};
ghost use Rattle.grid_base.specs.Spots.{IsSpot};
ghost use Rattle.label_search.specs.Rows.{size_in, Waits};
ghost use Rattle.label_search.specs.Runs.{IsSearch};
ghost use Rattle.label_search.specs.Stamped.{far, max_key};
ghost use Rattle.steiner_tables.specs.Masks.{rooted_masks, AreParts};
ghost use Rattle.dijkstra_steiner.specs.Stacks.{on_stack, rest_on};
ghost use Rattle.dijkstra_steiner.specs.MaskSearches.{IsMaskSearch, Proceeds, mask_number};

use crate::limits::NO_LIMIT;
use crate::rest_on_stack::RestOnStack;
use grid_base::Spot;
use label_search::{FAR, Row, offer};
use steiner_tables::{Family, is_part};

/// Offers each mask up to the last one that has this one as a part the sum of the numbers of its two parts at the vertex.
pub(crate) fn merge<F: Family>(
    row: &mut Row,
    rest: &RestOnStack<'_, F>,
    last: u32,
    mask: u32,
    at: Spot,
)
    requires size { size_in row.old ≡ rest.now.stack.size }
    requires some { 0 < mask }
    requires mask { mask ≤ last }
    requires last { last ≤ rooted_masks }
    requires at { IsSpot rest.now.stack.flat at }
    requires here { mask_number rest.now.stack.flat row.old mask at.vertex.0 < far }
    requires search { IsSearch (rest_on rest.now.stack.size (F.terminals rest.now.family.now) (F.low rest.now.family.now)) max_key row.old }
    ensures search { IsSearch (rest_on rest.now.stack.size (F.terminals rest.now.family.now) (F.low rest.now.family.now)) max_key row.new }
    ensures masks { (pieces : List (Piece × ℕ)) (goal : ℕ)
        → IsMaskSearch rest.now.stack.flat pieces (F.terminals rest.now.family.now) (F.low rest.now.family.now) last goal row.old
        → IsMaskSearch rest.now.stack.flat pieces (F.terminals rest.now.family.now) (F.low rest.now.family.now) last goal row.new }
    ensures proceeds { Proceeds row.old row.new }
    ensures merged { (other both : ℕ) → AreParts mask other both → both ≤ last
        → ¬ Waits row.new (on_stack rest.now.stack.flat other at.vertex.0)
        → mask_number rest.now.stack.flat row.new both at.vertex.0
        ≤ mask_number rest.now.stack.flat row.old mask at.vertex.0 + mask_number rest.now.stack.flat row.new other at.vertex.0 }
{
    let stack = rest.stack;
    let number = row.number(stack.spot(mask, at).vertex);
    for both in mask + 1..last + 1 {
        if is_part(mask, both) {
            let beside = row.number(stack.spot(both - mask, at).vertex);
            if beside < FAR {
                offer(row, rest, NO_LIMIT, stack.spot(both, at), number + beside);
            }
        }
    }
}
