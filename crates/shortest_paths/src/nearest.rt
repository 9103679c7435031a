//! The nearest of some vertices.

ghost use Rattle.std.specs.Prelude.{◌≡◌, ◌<◌, ◌≤◌, ◌↔◌, ℕ, None, IfSome, IsTrue};
ghost use Rattle.grid_base.specs.Numbers.{IsVertex};
ghost use Rattle.shortest_paths.specs.Nearest.{NoneIsNearer, IsFoundGoal, DoGoalsWait};
ghost use Rattle.label_search.specs.Rows.{size_in, number_in};
ghost use Rattle.label_search.specs.Runs.{IsSearch, IsSettled, FallsFrom};
ghost use Rattle.label_search.specs.Stamped.{far};

use crate::labels::{Labels, NO_LIMIT};
use grid_base::Vertex;
use grid_graph::Weights;
use label_search::{NoBound, Row, relax, start_each};

impl Labels {
    ghost use Rattle.std.specs.Prelude.{◌≡◌, All};
    ghost use Rattle.grid_base.specs.Numbers.{IsVertex};
    ghost use Rattle.shortest_paths.specs.LabelWords.{labels_size, masks_of};
    ghost use Rattle.shortest_paths.specs.Nearest.{IsNearestDistance};

    /// The distance of a vertex to the nearest of these, but for itself. The search ends with the first of them that it
    /// takes out; `None` stands where no set of allowed pieces leads to any.
    pub fn distance_to_nearest<W: Weights>(
        &mut self,
        weights: &W,
        source: Vertex,
        goals: &[Vertex],
    ) -> Option<u64>
        requires size { labels_size self.old ≡ W.size weights.now }
        requires source { IsVertex (W.size weights.now) source.0 }
        requires goals { All (λ v. IsVertex (W.size weights.now) v.0) goals.now }
        ensures nearest { IsNearestDistance (W.size weights.now) (W.pieces weights.now) goals.now source.0 result }
        ensures size { labels_size self.new ≡ labels_size self.old }
        ensures masks { masks_of self.new ≡ masks_of self.old }
    {
        let count = self.begin(goals);
        let bound = NoBound { weights };
        start_each(&mut self.row, &bound, NO_LIMIT, &[source]);
        let goal = next_goal(&mut self.row, weights, count, source)?;
        Some(self.row.number(goal))
    }
}

/// Goes on with a search until a goal is taken out: one of the first so many vertices that were found, and not the source.
fn next_goal<W: Weights>(row: &mut Row, weights: &W, count: u32, source: Vertex) -> Option<Vertex>
    requires size { size_in row.old ≡ W.size weights.now }
    requires search { IsSearch (λ _. 0) NO_LIMIT row.old }
    requires settled { IsSettled (W.size weights.now) (W.pieces weights.now) (λ _. 0) NO_LIMIT row.old }
    requires count { count ≤ row.old.found.len }
    requires waits { DoGoalsWait row.old count source.0 }
    requires source { number_in row.old source.0 ≡ 0 }
    ensures fell { FallsFrom (W.size weights.now) (W.pieces weights.now) row.old row.new }
    ensures goal { IfSome result (λ v. IsFoundGoal row.new count source.0 v.0) }
    ensures number { IfSome result (λ v. number_in row.new v.0 < far) }
    ensures nearest { IfSome result (λ v. NoneIsNearer (W.size weights.now) (W.pieces weights.now) source.0
        (IsFoundGoal row.new count source.0) (number_in row.new v.0)) }
    ensures none { result ≡ None → NoneIsNearer (W.size weights.now) (W.pieces weights.now) source.0
        (IsFoundGoal row.new count source.0) far }
{
    let bound = NoBound { weights };
    while row.is_waiting() {
        let at = row.take();
        if is_goal(row, count, source, at.vertex) {
            return Some(at.vertex);
        }
        relax(row, weights, &bound, NO_LIMIT, at);
    }
    None
}

/// Whether a vertex is one of the first so many that were found, and not the source.
fn is_goal(row: &Row, count: u32, source: Vertex, v: Vertex) -> bool
    requires vertex { IsVertex (size_in row.now) v.0 }
    requires count { count ≤ row.now.found.len }
    ensures { IsTrue result ↔ IsFoundGoal row.now count source.0 v.0 }
{
    match row.index_of(v) {
        Some(index) => index < count && v != source,
        None => false,
    }
}
