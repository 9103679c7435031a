//! Costs between tiles.

ghost use Rattle.std.specs.Prelude.{◌≡◌, ◌*◌, ◌^◌, ◌<◌, ◌≤◌, ℕ, length, slice_index};
ghost use Rattle.grid_base.specs.declared.axis.Axis.{Axis as Along};
ghost use Rattle.grid_base.specs.Numbers.{layers, edge_axis};
ghost use Rattle.grid_graph.specs.Flat.{tiles, AreLeastOver};
ghost use Rattle.grid_graph.specs.Floors.{floor_along, AreWithin};
ghost use Rattle.edge_prices.specs.PieceLists.{IsWeightList};
ghost use Rattle.lower_bound.specs.TileCosts.{IsLeastOn, AreLeastOnAll, AreTileCosts, costs_between, cost_over};

use grid_base::{Axis, Edge, NoMemory, Piece, Size};
use grid_graph::{FlooredWeights, Floors, MAX_WEIGHT, Weights};
use std::alloc::Global;
use steiner_exact::flat_of;

/// Above all costs, for a tile edge over which nothing may be used.
const NO_COST: u64 = MAX_WEIGHT + 1;

/// The edges between tiles that stand under edges of other weights, each with the least weight of these: what it costs to
/// get from tile to tile where vias cost nothing.
#[derive(Drop)]
pub struct TileCosts {
    size: Size,
    costs: Vec<u64>,
    floors: Floors,
    ghost known: { AreTileCosts size costs.items floors },
    ghost listed: { IsWeightList size (costs_between costs.items) },
    ghost under: { AreLeastOver size (costs_between costs.items) (cost_over costs.items) },
}

impl TileCosts {
    ghost use Rattle.std.specs.Prelude.{◌≡◌, IfOk};
    ghost use Rattle.grid_graph.specs.Flat.{IsFlatOf};
    ghost use Rattle.grid_graph.specs.TilePieces.{AreLeastBetweenTiles};
    ghost use Rattle.lower_bound.specs.TileCosts.{costs_between};

    /// Room for the costs between the tiles of a grid of this size.
    pub fn new(alloc: Global, size: Size) -> Result<TileCosts, NoMemory>
        ensures { IfOk result (λ t. IsFlatOf t.size size) }
    {
        let flat = flat_of(size);
        let costs = vec![in alloc; NO_COST; 2 * (flat.cols() * flat.rows()) as usize]?;
        Ok(TileCosts {
            size: flat,
            costs,
            floors: HIGHEST,
        })
    }

    /// The size of the flat grid.
    pub fn size(&self) -> Size
        ensures { result ≡ self.now.size }
    {
        self.size
    }

    /// Takes the costs from weights of a grid of this size.
    pub fn renew<W: Weights>(&mut self, weights: &W, size: Size)
        requires size { size ≡ W.size weights.now }
        requires flat { IsFlatOf self.old.size size }
        ensures between { AreLeastBetweenTiles size (W.pieces weights.now) (costs_between self.new.costs.items) }
        ensures size { self.new.size ≡ self.old.size }
    {
        write_costs(weights, size, self.costs.as_mut_slice());
        self.floors = floors_of(self.costs.as_slice());
    }
}

/// The greatest floors.
const HIGHEST: Floors = Floors {
    along_x: MAX_WEIGHT,
    along_y: MAX_WEIGHT,
    via: 0,
};

/// Writes the least weight over each tile edge.
fn write_costs<W: Weights>(weights: &W, size: Size, costs: &mut [u64])
    requires size { size ≡ W.size weights.now }
    requires long { length costs.old ≡ 2 * tiles size }
    ensures { AreLeastOnAll size (W.pieces weights.now) costs.new }
{
    let per_layer = 2 * (size.cols() * size.rows());
    for e in 0..per_layer {
        costs[e as usize] = least_over(weights, size, per_layer, e);
    }
}

/// The least weight over a tile edge, or `NO_COST`.
fn least_over<W: Weights>(weights: &W, size: Size, per_layer: u32, e: u32) -> u64
    requires size { size ≡ W.size weights.now }
    requires per_layer { per_layer ≡ 2 * tiles size }
    requires edge { e < per_layer }
    ensures { IsLeastOn size (W.pieces weights.now) e (layers size) result }
{
    let mut least = NO_COST;
    for layer in 0..size.layers() {
        let edge = Piece::Edge(Edge(layer * per_layer + e));
        if weights.allows(edge) {
            least = least.min(weights.weight(edge));
        }
    }
    least
}

/// Floors of these costs.
fn floors_of(costs: &[u64]) -> Floors
    requires { length costs.now < 2 ^ 32 }
    ensures floored { (e : ℕ) → e < length costs.now → floor_along result (edge_axis e) ≤ slice_index costs.now e }
    ensures within { AreWithin result }
{
    let mut floors = HIGHEST;
    for e in 0..costs.len() {
        floors = lowered(floors, Edge(e as u32).axis(), costs[e]);
    }
    floors
}

/// Floors with one more edge along this axis.
fn lowered(floors: Floors, axis: Axis, cost: u64) -> Floors
    requires { AreWithin floors }
    ensures here { floor_along result axis ≤ cost }
    ensures others { (other : Along) → floor_along result other ≤ floor_along floors other }
    ensures within { AreWithin result }
{
    match axis {
        Axis::X => Floors {
            along_x: floors.along_x.min(cost),
            along_y: floors.along_y,
            via: floors.via,
        },
        Axis::Y => Floors {
            along_x: floors.along_x,
            along_y: floors.along_y.min(cost),
            via: floors.via,
        },
    }
}

impl Weights for TileCosts {
    ghost use Rattle.lower_bound.specs.TileCosts.{costs_between};

    ghost size = { λ x. x.size };

    ghost pieces = { λ x. costs_between x.costs.items };

    ghost once = { λ x. x.listed.once };

    ghost inside = { λ x. x.listed.inside };

    ghost small = { λ x. x.listed.within };

    fn allows(&self, p: Piece) -> bool {
        match p {
            Piece::Edge(e) => self.has_cost(e),
            Piece::Via(_) => false,
        }
    }

    fn weight(&self, p: Piece) -> u64 {
        match p {
            Piece::Edge(e) => self.cost(e),
            Piece::Via(_) => MAX_WEIGHT,
        }
    }
}

impl TileCosts {
    ghost use Rattle.std.specs.Prelude.{◌≤◌, ◌<◌, ◌↔◌, IsTrue, length, slice_index};
    ghost use Rattle.grid_graph.specs.Limits.{max_weight};
    ghost use Rattle.lower_bound.specs.TileCosts.{no_cost, cost_over};

    /// Whether a tile edge has a cost.
    fn has_cost(&self, e: Edge) -> bool
        ensures { IsTrue result ↔ ((e.0 < length self.now.costs.items) × (slice_index self.now.costs.items e.0 < no_cost)) }
    {
        (e.0 as usize) < self.costs.len() && self.costs[e.0 as usize] < NO_COST
    }

    /// What a tile edge costs at least.
    fn cost(&self, e: Edge) -> u64
        ensures value { e.0 < length self.now.costs.items → result ≡ cost_over self.now.costs.items e.0 }
        ensures limit { result ≤ max_weight }
    {
        if (e.0 as usize) < self.costs.len() {
            self.costs[e.0 as usize].min(MAX_WEIGHT)
        } else {
            MAX_WEIGHT
        }
    }
}

impl FlooredWeights for TileCosts {
    ghost use Rattle.lower_bound.specs.TileCosts.{cost_over};

    ghost over = { λ x. cost_over x.costs.items };

    ghost under = { λ x. x.under };

    fn floors(&self) -> Floors {
        self.floors
    }

    fn least_over(&self, e: Edge) -> u64 {
        self.cost(e)
    }
}
