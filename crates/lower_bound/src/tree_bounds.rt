//! Net bounds by searches that are led, where a piece alone costs something.

ghost use Rattle.std.specs.Prelude.{◌<◌, IfOk, All, length};
ghost use Rattle.grid_base.specs.Numbers.{IsVertex};
ghost use Rattle.grid_base.specs.Walks.{Joins, InVertices};
ghost use Rattle.grid_graph.specs.Weighed.{IsAllowed};
ghost use Rattle.steiner_exact.specs.TreeLabelWords.{AreTreeLabels};
ghost use Rattle.steiner_tables.specs.Masks.{few_terminals};
ghost use Rattle.lower_bound.specs.NetBounds.{IsBoundOfMany, IsNetBound};

use crate::class_costs::ClassCosts;
use crate::led::Led;
use crate::led_halves::sum_of_led_halves;
use crate::spread::choose;
use edge_prices::Costing;
use grid_base::{NoMemory, Vertex};
use grid_graph::{FlooredWeights, NetSpec};
use least_weights::led_least;
use std::alloc::Global;
use steiner_exact::TreeLabels;
use steiner_tables::FEW_TERMINALS;

/// The bound of more than five terminals.
fn bound_of_many<W: FlooredWeights>(
    alloc: Global,
    weights: &W,
    terminals: &[Vertex],
    labels: &mut TreeLabels,
) -> Result<u64, NoMemory>
    requires labels { AreTreeLabels (W.size weights.now) labels.old }
    requires many { few_terminals < length terminals.now }
    requires vertices { All (λ v. IsVertex (W.size weights.now) v.0) terminals.now }
    requires joined { Joins (W.size weights.now) (IsAllowed (W.pieces weights.now)) (InVertices terminals.now) }
    ensures bound { IfOk result (IsBoundOfMany (W.size weights.now) (W.pieces weights.now) terminals.now) }
    ensures labels { AreTreeLabels (W.size weights.now) labels.new }
{
    let chosen = choose(labels.grid.size(), terminals);
    let of_chosen = led_least(alloc, weights, &chosen, labels)?;
    let halves = sum_of_led_halves(alloc, weights, terminals, labels)?;
    Ok(of_chosen.max(halves))
}

/// The net bound at these weights of the pieces that the net may use.
fn bound_at<W: FlooredWeights>(
    alloc: Global,
    weights: &W,
    terminals: &[Vertex],
    labels: &mut TreeLabels,
) -> Result<u64, NoMemory>
    requires labels { AreTreeLabels (W.size weights.now) labels.old }
    requires vertices { All (λ v. IsVertex (W.size weights.now) v.0) terminals.now }
    requires joined { Joins (W.size weights.now) (IsAllowed (W.pieces weights.now)) (InVertices terminals.now) }
    ensures bound { IfOk result (IsNetBound (W.size weights.now) (W.pieces weights.now) terminals.now) }
    ensures labels { AreTreeLabels (W.size weights.now) labels.new }
{
    if terminals.len() > FEW_TERMINALS {
        return bound_of_many(alloc, weights, terminals, labels);
    }
    led_least(alloc, weights, terminals, labels)
}

impl ClassCosts<'_> {
    ghost use Rattle.std.specs.Prelude.{◌<◌, ◌≤◌, All, IfOk};
    ghost use Rattle.grid_base.specs.Numbers.{IsVertex};
    ghost use Rattle.grid_graph.specs.Grids.{size_of};
    ghost use Rattle.grid_graph.specs.Grounds.{JoinsTerminals};
    ghost use Rattle.edge_prices.specs.Limits.{max_price};
    ghost use Rattle.steiner_exact.specs.TreeLabelWords.{AreTreeLabels};
    ghost use Rattle.lower_bound.specs.ClassWords.{IsCurrentClass};
    ghost use Rattle.lower_bound.specs.Costs.{costed};
    ghost use Rattle.lower_bound.specs.NetBounds.{IsNetBound};

    /// The net bound of a net of the class, where each piece costs this much beside what its edge does. The searches are
    /// led by the costs between tiles.
    pub fn net_bound_with(
        &self,
        alloc: Global,
        net: &NetSpec,
        piece: u32,
        labels: &mut TreeLabels,
    ) -> Result<u64, NoMemory>
        requires current { IsCurrentClass self.now }
        requires some { 0 < piece }
        requires piece { piece ≤ max_price }
        requires vertices { All (λ v. IsVertex (size_of self.now.grid.now) v.0) net.now.terminals }
        requires ground { JoinsTerminals self.now.grid.now self.now.ground net.now.terminals }
        requires labels { AreTreeLabels (size_of self.now.grid.now) labels.old }
        ensures bound { IfOk result (IsNetBound (size_of self.now.grid.now)
            (costed self.now.grid.now self.now.width self.now.ground self.now.prices.now piece) net.now.terminals) }
        ensures labels { AreTreeLabels (size_of self.now.grid.now) labels.new }
    {
        let costing = Costing::new(self.grid, self.width, self.ground, self.prices);
        let weights = Led::new(costing, piece, &self.costs);
        bound_at(alloc, &weights, net.terminals.list(), labels)
    }
}
