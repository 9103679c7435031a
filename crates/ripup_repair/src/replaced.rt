//! The sets that a round replaced.

ghost use Rattle.std.specs.Prelude.{◌≡◌, ◌<◌, false, true, length, All, AllPairs};
ghost use Rattle.ripup_repair.specs.Exchanged.{with_elements};

use crate::exchange::exchange;
use crate::routing::Routing;
use tree_set::Tree;

/// The positions of the nets that a round replaced the sets of, in rising order, and the sets that they had.
#[derive(Drop)]
pub(crate) struct Replaced {
    pub positions: Vec<u32>,
    pub sets: Vec<Tree>,
}

impl Replaced {
    /// The nets get back the sets that they had, unless a later routing is better.
    pub(crate) fn put_back_unless(mut self, is_better: bool, routing: Routing) -> Routing
        requires positions { All (λ position. position < length routing.trees.items) self.positions.items }
        requires rising { AllPairs (λ position later. position < later) self.positions.items }
        requires long { length self.sets.items ≡ length self.positions.items }
        ensures back { is_better ≡ false → result.trees.items ≡ with_elements routing.trees.items self.positions.items self.sets.items }
        ensures better { is_better ≡ true → result.trees.items ≡ routing.trees.items }
        ensures long { length result.trees.items ≡ length routing.trees.items }
        ensures others { result ≡ record routing { trees = result.trees } }
    {
        if is_better {
            return routing;
        }
        let Routing {
            table,
            share,
            mut trees,
            loads,
        } = routing;
        exchange(&mut trees, &self.positions, &mut self.sets);
        Routing {
            table,
            share,
            trees,
            loads,
        }
    }
}
