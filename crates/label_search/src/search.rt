//! One search for all: vertices are taken out in the order of their keys, and offer numbers to their neighbours.

ghost use Rattle.std.specs.Prelude.{◌≡◌, ◌<◌, ◌≤◌, ◌+◌, ℕ, true, false, All};
ghost use Rattle.grid_base.specs.Numbers.{IsVertex};
ghost use Rattle.grid_base.specs.Spots.{IsSpot};
ghost use Rattle.label_search.specs.Founds.{FindsMore};
ghost use Rattle.label_search.specs.Rows.{size_in, number_in, IsWaiting, work_left};
ghost use Rattle.label_search.specs.Runs.{IsSearch, IsSettled, IsRelaxedWithin, IsAnswered, TakesOffer, FallsFrom, Advances};
ghost use Rattle.label_search.specs.Searches.{IsLow, known};
ghost use Rattle.label_search.specs.Sets.{RisesSlowly};
ghost use Rattle.label_search.specs.Starts.{IsStarted};
ghost use Rattle.label_search.specs.Stamped.{far, max_key};

use crate::bound::Bound;
use crate::row::Row;
use grid_base::{Spot, Vertex, spot_steps};
use grid_graph::Weights;

/// Offers a vertex a number. It is refused where the vertex has no greater one, or where it and what is still to go are
/// above the limit.
#[inline(always)]
pub fn offer<B: Bound>(row: &mut Row, bound: &B, limit: u64, to: Spot, offered: u64)
    requires size { B.size bound.now ≡ size_in row.old }
    requires search { IsSearch (B.rest bound.now) limit row.old }
    requires to { IsSpot (size_in row.old) to }
    requires small { offered ≤ max_key }
    ensures search { IsSearch (B.rest bound.now) limit row.new }
    ensures taken { TakesOffer row.old row.new to.vertex.0 offered }
    ensures answered { IsAnswered (number_in row.new) (B.rest bound.now) limit to.vertex.0 offered }
    ensures free { offered + far ≤ limit → number_in row.new to.vertex.0 ≤ offered }
{
    if offered < row.number(to.vertex) {
        let key = offered + bound.rest(to.vertex, to.place);
        if key <= limit {
            row.lower(to, offered, key);
        }
    }
}

/// Offers 0 to each source of a search that nothing has a number in.
pub fn start_each<B: Bound>(row: &mut Row, bound: &B, limit: u64, sources: &[Vertex])
    requires size { B.size bound.now ≡ size_in row.old }
    requires limit { max_key ≤ limit }
    requires sources { All (λ v. IsVertex (size_in row.old) v.0) sources.now }
    requires none { (v : ℕ) → number_in row.old v ≡ far }
    requires idle { (v key : ℕ) → ¬ IsWaiting row.old v key }
    ensures size { size_in row.new ≡ size_in row.old }
    ensures found { FindsMore row.old.found row.new.found }
    ensures search { IsSearch (B.rest bound.now) limit row.new }
    ensures started { IsStarted sources.now row.new }
    ensures zero { All (λ v. number_in row.new v.0 ≡ 0) sources.now }
{
    for source in sources {
        let from = Spot::of(row.size(), *source);
        offer(row, bound, limit, from, 0);
    }
}

/// Offers each neighbour of a vertex the number that it gets from there.
pub fn relax<W: Weights, B: Bound>(row: &mut Row, weights: &W, bound: &B, limit: u64, from: Spot)
    requires size { size_in row.old ≡ W.size weights.now }
    requires bound_size { B.size bound.now ≡ W.size weights.now }
    requires search { IsSearch (B.rest bound.now) limit row.old }
    requires from { IsSpot (W.size weights.now) from }
    requires number { number_in row.old from.vertex.0 < far }
    ensures search { IsSearch (B.rest bound.now) limit row.new }
    ensures goes_on { Advances (W.size weights.now) (W.pieces weights.now) row.old row.new }
    ensures relaxed { IsRelaxedWithin (W.size weights.now) (W.pieces weights.now) (B.rest bound.now) limit (number_in row.new) from.vertex.0 }
{
    let reached = row.number(from.vertex);
    for step in &spot_steps(row.size(), from) {
        if let Some((to, by)) = *step {
            if weights.allows(by) {
                offer(row, bound, limit, to, reached + weights.weight(by));
            }
        }
    }
}

/// Takes out the vertex of least key, and relaxes its pieces.
fn advance<W: Weights, B: Bound>(row: &mut Row, weights: &W, bound: &B, limit: u64)
    requires size { size_in row.old ≡ W.size weights.now }
    requires bound_size { B.size bound.now ≡ W.size weights.now }
    requires search { IsSearch (B.rest bound.now) limit row.old }
    requires settled { IsSettled (W.size weights.now) (W.pieces weights.now) (B.rest bound.now) limit row.old }
    requires waiting { 0 < row.old.heap.len }
    ensures search { IsSearch (B.rest bound.now) limit row.new }
    ensures settled { IsSettled (W.size weights.now) (W.pieces weights.now) (B.rest bound.now) limit row.new }
    ensures fell { FallsFrom (W.size weights.now) (W.pieces weights.now) row.old row.new }
    ensures less { work_left row.new < work_left row.old }
{
    let from = row.take();
    relax(row, weights, bound, limit, from);
}

/// Goes on with a search until no vertex waits.
pub fn exhaust<W: Weights, B: Bound>(row: &mut Row, weights: &W, bound: &B, limit: u64)
    requires size { size_in row.old ≡ W.size weights.now }
    requires bound_size { B.size bound.now ≡ W.size weights.now }
    requires search { IsSearch (B.rest bound.now) limit row.old }
    requires settled { IsSettled (W.size weights.now) (W.pieces weights.now) (B.rest bound.now) limit row.old }
    ensures search { IsSearch (B.rest bound.now) limit row.new }
    ensures fell { FallsFrom (W.size weights.now) (W.pieces weights.now) row.old row.new }
    ensures idle { (v key : ℕ) → ¬ IsWaiting row.new v key }
    ensures relaxed { (v : ℕ) → IsRelaxedWithin (W.size weights.now) (W.pieces weights.now) (B.rest bound.now) limit (number_in row.new) v }
{
    while row.is_waiting() {
        advance(row, weights, bound, limit);
    }
}

/// Whether a vertex waits whose key is below the goal's number and this much more.
fn is_open(row: &Row, goal: Vertex, more: u64) -> bool
    requires goal { IsVertex (size_in row.now) goal.0 }
    requires more { more ≤ far + far }
    ensures open { result ≡ true → 0 < row.now.heap.len }
    ensures closed { result ≡ false → (v key : ℕ) → IsWaiting row.now v key → number_in row.now goal.0 + more ≤ key }
{
    match row.least() {
        Some(least) => least < row.number(goal) + more,
        None => false,
    }
}

/// Goes on with a search until the number of the goal can't fall any more, and until no waiting key is below the sum of that
/// number, what is still to go from the goal, and the slack.
pub fn settle<W: Weights, B: Bound>(
    row: &mut Row,
    weights: &W,
    bound: &B,
    limit: u64,
    goal: Vertex,
    slack: u64,
)
    requires size { size_in row.old ≡ W.size weights.now }
    requires bound_size { B.size bound.now ≡ W.size weights.now }
    requires search { IsSearch (B.rest bound.now) limit row.old }
    requires settled { IsSettled (W.size weights.now) (W.pieces weights.now) (B.rest bound.now) limit row.old }
    requires bound { B.pieces bound.now ≡ W.pieces weights.now }
    requires limit { max_key ≤ limit }
    requires goal { IsVertex (W.size weights.now) goal.0 }
    requires slack { slack ≤ far }
    ensures search { IsSearch (B.rest bound.now) limit row.new }
    ensures settled { IsSettled (W.size weights.now) (W.pieces weights.now) (B.rest bound.now) limit row.new }
    ensures fell { FallsFrom (W.size weights.now) (W.pieces weights.now) row.old row.new }
    ensures low { (source : ℕ) → number_in row.old source ≡ 0 → IsLow (W.size weights.now) (W.pieces weights.now) source (number_in row.new) goal.0 }
    ensures known { (x : ℕ) → x ≤ number_in row.new goal.0 + slack → x ≤ limit
        → RisesSlowly (W.size weights.now) (W.pieces weights.now) (known (number_in row.new) (B.rest bound.now) x) }
{
    let place = row.size().place_of(goal);
    let rest = bound.rest(goal, place);
    while is_open(row, goal, rest + slack) {
        advance(row, weights, bound, limit);
    }
}

/// Goes on with a search until the numbers of all these vertices can't fall any more.
pub fn settle_each<W: Weights, B: Bound>(
    row: &mut Row,
    weights: &W,
    bound: &B,
    limit: u64,
    goals: &[Vertex],
)
    requires size { size_in row.old ≡ W.size weights.now }
    requires bound_size { B.size bound.now ≡ W.size weights.now }
    requires search { IsSearch (B.rest bound.now) limit row.old }
    requires settled { IsSettled (W.size weights.now) (W.pieces weights.now) (B.rest bound.now) limit row.old }
    requires bound { B.pieces bound.now ≡ W.pieces weights.now }
    requires limit { max_key ≤ limit }
    requires goals { All (λ v. IsVertex (W.size weights.now) v.0) goals.now }
    ensures fell { FallsFrom (W.size weights.now) (W.pieces weights.now) row.old row.new }
    ensures low { (source : ℕ) → number_in row.old source ≡ 0 → All (λ v. IsLow (W.size weights.now) (W.pieces weights.now) source (number_in row.new) v.0) goals.now }
{
    for goal in goals {
        settle(row, weights, bound, limit, *goal, 0);
    }
}
