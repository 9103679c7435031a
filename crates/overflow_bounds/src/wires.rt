//! What whole wires show.

ghost use Rattle.grid_graph.specs.Limits.{max_demand};
ghost use Rattle.std.specs.Prelude.{◌≤◌, ℕ};
ghost use Rattle.edge_prices.specs.Weights.{AreEdgePrices};
ghost use Rattle.overflow_bounds.specs.Units.{layer_unit};

use grid_base::Edge;
use grid_graph::Grid;

/// A grid at a price list, with a unit for each layer.
#[derive(Clone, Copy, Drop)]
pub(crate) struct Wires<'a> {
    pub grid: &'a Grid,
    pub prices: &'a [u32],
    pub units: &'a [u32],
    pub ghost priced: { AreEdgePrices grid.now prices.now },
    pub ghost small: { (e : ℕ) → layer_unit grid.now units.now e ≤ max_demand },
}

impl Wires<'_> {
    ghost use Rattle.std.specs.Prelude.{◌≡◌, ◌+◌, ◌-◌, ◌*◌, ◌^◌, ◌%◌, ◌<◌, ◌≤◌, ℕ, slice_index};
    ghost use Rattle.edge_prices.specs.Limits.{max_price};
    ghost use Rattle.grid_graph.specs.Grids as grids;
    ghost use Rattle.grid_graph.specs.Grids.{IsEdgeNumber};
    ghost use Rattle.grid_graph.specs.Limits.{max_demand};
    ghost use Rattle.overflow_bounds.specs.Units as words;
    ghost use Rattle.dual_bound.specs.WholeWires as whole;

    /// The price of an edge.
    fn price(&self, e: Edge) -> u64
        requires { IsEdgeNumber self.now.grid.now e.0 }
        ensures value { result ≡ slice_index self.now.prices.now e.0 }
        ensures limit { result ≤ max_price }
    {
        u64::from(self.prices[e.0 as usize])
    }

    /// The unit of an edge's layer.
    fn layer_unit(&self, e: Edge) -> u64
        requires { IsEdgeNumber self.now.grid.now e.0 }
        ensures value { result ≡ words.layer_unit self.now.grid.now self.now.units.now e.0 }
        ensures some { 1 ≤ result }
        ensures limit { result ≤ max_demand }
    {
        let layer = self.grid.size().layer_of(e.start());
        let unit = self.units.get(layer as usize).copied().unwrap_or(0);
        u64::from(unit.max(1))
    }

    /// How much is missing to a unit more than the whole ones of an edge's capacity.
    fn missing(&self, e: Edge) -> u64
        requires { IsEdgeNumber self.now.grid.now e.0 }
        ensures value { result ≡ words.missing self.now.grid.now self.now.units.now e.0 }
        ensures some { 1 ≤ result }
        ensures limit { result ≤ max_demand }
    {
        let unit = self.layer_unit(e);
        unit - u64::from(self.grid.capacity(e)) % unit
    }

    /// The unit by which an edge counts at a divisor.
    fn unit_at(&self, e: Edge, most: u64) -> u64
        requires edge { IsEdgeNumber self.now.grid.now e.0 }
        requires most { most ≤ max_price * max_demand }
        ensures value { result ≡ words.unit_at self.now.grid.now self.now.prices.now self.now.units.now most e.0 }
        ensures some { 1 ≤ result }
    {
        let unit = self.layer_unit(e);
        if most * self.missing(e) < self.price(e) * unit {
            return 1;
        }
        unit
    }

    /// What the whole units of an edge's capacity cost.
    fn cost_at(&self, e: Edge, most: u64) -> u64
        requires edge { IsEdgeNumber self.now.grid.now e.0 }
        requires most { most ≤ max_price * max_demand }
        ensures value { result ≡ slice_index self.now.prices.now e.0
            * whole.whole_capacity self.now.grid.now (words.unit_at self.now.grid.now self.now.prices.now self.now.units.now most) e.0 }
        ensures limit { result < 2 ^ 48 }
    {
        let capacity = u64::from(self.grid.capacity(e));
        self.price(e) * (capacity - capacity % self.unit_at(e, most))
    }

    /// What the whole units of all capacities cost, at a divisor.
    pub fn whole_cost(&self, most: u64) -> u128
        requires { most ≤ max_price * max_demand }
        ensures { result ≡ whole.whole_cost self.now.grid.now self.now.prices.now
            (words.unit_at self.now.grid.now self.now.prices.now self.now.units.now most) }
    {
        let mut total: u128 = 0;
        for e in 0..2 * self.grid.size().vertices() {
            total += u128::from(self.cost_at(Edge(e), most));
        }
        total
    }

    /// The least divisor by which an edge counts by its layer's unit.
    fn most_of(&self, e: Edge) -> u64
        requires { IsEdgeNumber self.now.grid.now e.0 }
        ensures price { slice_index self.now.prices.now e.0 ≤ result }
        ensures limit { result ≤ max_price * max_demand }
    {
        (self.price(e) * self.layer_unit(e)).div_ceil(self.missing(e))
    }

    /// The least divisor by which all edges count by their layers' units.
    pub fn whole_price(&self) -> u64
        ensures prices { (e : ℕ) → IsEdgeNumber self.now.grid.now e → slice_index self.now.prices.now e ≤ result }
        ensures limit { result ≤ max_price * max_demand }
    {
        let mut most = 0;
        for e in 0..2 * self.grid.size().vertices() {
            most = self.most_of(Edge(e)).max(most);
        }
        most
    }
}
