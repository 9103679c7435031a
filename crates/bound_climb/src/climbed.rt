//! What a climb finds.

ghost use Rattle.std.specs.Prelude.{◌↔◌, IsTrue};
ghost use Rattle.bound_climb.specs.Climbs.{IsGreaterBound};

use tree_set::{Budget, Fraction, Tree};

/// The best price list of a climb: the prices of the edges and the budget with the wirelength's, the bound of the design at
/// them, and the number of the turn that came to them, which is 0 for the given ones. `steps` has the sets of all turns.
#[derive(Drop)]
pub struct Climbed {
    pub prices: Vec<u32>,
    pub budget: Option<Budget>,
    pub bound: Option<Fraction>,
    pub turn: u32,
    pub steps: Vec<Vec<Tree>>,
}

impl Climbed {
    ghost use Rattle.std.specs.Prelude.{◌≡◌, length};
    ghost use Rattle.bound_climb.specs.Climbs.{IsGreaterBound};
    ghost use Rattle.bound_climb.specs.ClimbTurns.{HasAsBest};

    /// Takes the price list of a turn in place of the best one so far, if its bound is greater.
    pub(crate) fn offer(
        &mut self,
        prices: &[u32],
        budget: Option<Budget>,
        bound: Option<Fraction>,
        turn: u32,
    )
        requires long { length prices.now ≡ length self.old.prices.items }
        ensures taken { IsGreaterBound bound self.old.bound → HasAsBest prices.now budget bound turn self.new }
        ensures left { ¬ IsGreaterBound bound self.old.bound → self.new ≡ self.old }
        ensures steps { self.new.steps ≡ self.old.steps }
    {
        if !is_greater(bound, self.bound) {
            return;
        }
        self.prices.copy_from_slice(prices);
        self.budget = budget;
        self.bound = bound;
        self.turn = turn;
    }
}

/// Whether a bound is greater than another; `None` is below every bound.
fn is_greater(bound: Option<Fraction>, other: Option<Fraction>) -> bool
    ensures { IsTrue result ↔ IsGreaterBound bound other }
{
    match (bound, other) {
        (None, _) => false,
        (Some(_), None) => true,
        (Some(f), Some(other)) => !f.less_or_equal(&other),
    }
}
