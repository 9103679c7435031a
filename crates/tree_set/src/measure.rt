//! The measures of a routing.

ghost use Rattle.edge_prices.specs.Limits.{MayBeBudget};
ghost use Rattle.fractions.specs.Fractions.{IsGreaterOf};

use fractions::Fraction;

/// What is measured of a routing.
#[derive(Debug, Drop, Clone, Copy, PartialEq, Eq)]
pub struct Measure {
    /// How much more than the capacities the loads are, over all open and choked edges.
    pub overflow: u64,
    /// How many pieces the nets' sets have: edges and vias.
    pub wirelength: u64,
    /// The greatest load/capacity of an open edge, or with a budget of a resource. `None` is a grid without open edges.
    pub peak: Option<Fraction>,
}

impl Measure {
    ghost use Rattle.std.specs.Prelude.{ℕ, ◌≡◌, Option, Some, None, IsSomeAnd};
    ghost use Rattle.grid_graph.specs.declared.grid.Grid.{Grid};
    ghost use Rattle.tree_set.specs.Measures.{IsPeak, IsPeakWith};

    /// The measure with a wirelength that is to be kept: the peak is the greater of the one before and wirelength/budget.
    pub fn with_budget(&self, most: u64) -> Measure
        requires budget { MayBeBudget most }
        ensures overflow { result.overflow ≡ self.now.overflow }
        ensures wirelength { result.wirelength ≡ self.now.wirelength }
        ensures peak { IsSomeAnd result.peak (IsGreaterOf self.now.peak self.now.wirelength most) }
        ensures greatest { (g : Grid) (load : ℕ → ℕ) → IsPeak g load self.now.peak → IsPeakWith g load self.now.wirelength (Some most) result.peak }
    {
        Measure {
            overflow: self.overflow,
            wirelength: self.wirelength,
            peak: Some(greater_of(self.peak, self.wirelength, most)),
        }
    }
}

/// The greater of a fraction and num/den; the latter where there is no fraction.
fn greater_of(other: Option<Fraction>, num: u64, den: u64) -> Fraction
    requires { MayBeBudget den }
    ensures { IsGreaterOf other num den result }
{
    match other {
        Some(f) if u128::from(num) * f.den <= f.num * u128::from(den) => f,
        _ => Fraction::of(u128::from(num), u128::from(den)),
    }
}
