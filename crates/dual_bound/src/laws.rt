//! Weak duality, and what it says of overflow: the contracts of calls that do nothing.

ghost use Rattle.std.specs.Prelude.{ℕ, ◌*◌, ◌<◌, ◌≤◌, List, Option, None};
ghost use Rattle.std.specs.List.{AllZip, sum};
ghost use Rattle.grid_base.specs.declared.piece.Piece.{Piece};
ghost use Rattle.grid_graph.specs.declared.design.Design.{Design};
ghost use Rattle.edge_prices.specs.Weights.{AreEdgePrices};
ghost use Rattle.edge_prices.specs.declared.budget.Budget.{Budget};
ghost use Rattle.edge_prices.specs.Budgets.{most_of};
ghost use Rattle.tree_set.specs.Loads.{load};
ghost use Rattle.tree_set.specs.Measures.{overflow};
ghost use Rattle.tree_set.specs.Routings.{IsRouting};
ghost use Rattle.dual_bound.specs.Bounds.{IsResource, BoundsDesign};
ghost use Rattle.dual_bound.specs.DesignBounds.{IsAtMostEachRoute, IsSumOfBounds};
ghost use Rattle.dual_bound.specs.LeastOverflow.{IsMostOfPrices, least_overflow};
ghost use Rattle.dual_bound.specs.Prices.{ArePricesWith, capacity_cost};
ghost use Rattle.dual_bound.specs.WholeWires.{AreUnits, IsMostOfUnits, whole_cost};

/// Weak duality. At any price list at which the capacities cost something, the sum of what the nets' routes cost at least
/// bounds the design when it is divided by what the capacities cost, and so does each smaller ratio. Net bounds are such
/// numbers. Where there is a resource, 0 bounds the design too.
pub fn weak_duality()
    ensures low { (d : Design) (prices : List ℕ) (budget : Option Budget) (lows : List ℕ) (a b : ℕ)
        → ArePricesWith d.grid prices budget → 0 < capacity_cost d.grid prices budget
        → AllZip (IsAtMostEachRoute d.grid prices budget) d.nets lows
        → 1 ≤ b → a * capacity_cost d.grid prices budget ≤ sum lows * b → BoundsDesign d (most_of budget) a b }
    ensures net_bounds { (d : Design) (prices : List ℕ) (budget : Option Budget) (total a b : ℕ)
        → ArePricesWith d.grid prices budget → 0 < capacity_cost d.grid prices budget
        → IsSumOfBounds d.grid prices budget d.nets total
        → 1 ≤ b → a * capacity_cost d.grid prices budget ≤ total * b → BoundsDesign d (most_of budget) a b }
    ensures zero { (d : Design) (budget : Option ℕ) (r b : ℕ) → IsResource d.grid budget r → 1 ≤ b → BoundsDesign d budget 0 b }
{}

/// Prices show overflow. What the nets' routes cost at least beyond what all capacities cost has to be paid on edges that have
/// more load than capacity, and each unit of such an excess pays the greatest price at most. So every routing, of whole
/// routes, has at least so much overflow.
pub fn prices_show_overflow()
    ensures { (d : Design) (prices : List ℕ) (price total : ℕ) (trees : List (List Piece))
        → AreEdgePrices d.grid prices → IsMostOfPrices prices price
        → IsSumOfBounds d.grid prices None d.nets total → IsRouting d.grid d.nets trees
        → least_overflow total (capacity_cost d.grid prices None) price ≤ overflow d.grid (load d.grid d.nets trees) }
{}

/// The same of whole wires, and of any numbers that are at most what the nets' routes cost. Where nets use whole units of an
/// edge, a load beyond its capacity is beyond it by what is missing to one unit more, at least; so the greatest price is that
/// of a unit by this part of it, and the capacities count by their whole units.
pub fn whole_wires_show_overflow()
    ensures { (d : Design) (prices : List ℕ) (units : ℕ → ℕ) (most : ℕ) (lows : List ℕ) (trees : List (List Piece))
        → AreEdgePrices d.grid prices → AreUnits d units → IsMostOfUnits d.grid prices units most
        → AllZip (IsAtMostEachRoute d.grid prices None) d.nets lows → IsRouting d.grid d.nets trees
        → least_overflow (sum lows) (whole_cost d.grid prices units) most ≤ overflow d.grid (load d.grid d.nets trees) }
{}
