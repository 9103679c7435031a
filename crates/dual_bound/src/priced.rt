//! A design at a price list.

ghost use Rattle.dual_bound.specs.Prices.{ArePricesWith};

use grid_base::Edge;
use grid_graph::{Design, Ground};
use tree_set::Budget;

/// A design with the grounds of its nets, at a price list.
#[derive(Clone, Copy, Drop)]
pub(crate) struct Priced<'a> {
    pub design: &'a Design,
    pub grounds: &'a [Ground],
    pub prices: &'a [u32],
    pub budget: Option<Budget>,
    pub ghost priced: { ArePricesWith design.now.grid prices.now budget },
}

impl Priced<'_> {
    ghost use Rattle.std.specs.Prelude.{◌≡◌, ◌*◌, ◌≤◌, slice_index, unwrap_or};
    ghost use Rattle.grid_graph.specs.Grids as grids;
    ghost use Rattle.grid_graph.specs.Grids.{IsEdgeNumber};
    ghost use Rattle.edge_prices.specs.Limits.{max_price};
    ghost use Rattle.edge_prices.specs.Budgets.{price_per_piece, most_of};
    ghost use Rattle.fractions.specs.Limits.{max_denominator};
    ghost use Rattle.dual_bound.specs.Limits.{max_edge_cost, max_wirelength_cost};
    ghost use Rattle.dual_bound.specs.Parts.{priced_grid};
    ghost use Rattle.dual_bound.specs.Prices as words;

    /// The price of each piece.
    pub fn per_piece(&self) -> u32
        ensures value { result ≡ price_per_piece self.now.budget }
        ensures limit { result ≤ max_price }
    {
        match self.budget {
            Some(budget) => budget.price,
            None => 0,
        }
    }

    /// What the capacity of the wirelength costs; 0 where there is no budget.
    fn wirelength_cost(&self) -> u64
        ensures value { result ≡ price_per_piece self.now.budget * unwrap_or (most_of self.now.budget) 0 }
        ensures limit { result ≤ max_wirelength_cost }
    {
        match self.budget {
            Some(budget) => u64::from(budget.price) * budget.most,
            None => 0,
        }
    }

    /// What the capacity of an edge costs.
    fn edge_cost(&self, e: Edge) -> u64
        requires { IsEdgeNumber (priced_grid self.now) e.0 }
        ensures value { result ≡ slice_index self.now.prices.now e.0 * grids.capacity (priced_grid self.now) e.0 }
        ensures limit { result ≤ max_edge_cost }
    {
        u64::from(self.prices[e.0 as usize]) * u64::from(self.design.grid.capacity(e))
    }

    /// What all capacities cost.
    pub fn capacity_cost(&self) -> u64
        ensures value { result ≡ words.capacity_cost (priced_grid self.now) self.now.prices.now self.now.budget }
        ensures limit { result ≤ max_denominator }
    {
        let mut total = self.wirelength_cost();
        for e in 0..2 * self.design.grid.size().vertices() {
            total += self.edge_cost(Edge(e));
        }
        total
    }
}
