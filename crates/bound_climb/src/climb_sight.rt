//! What the nets of a turn see.

ghost use Rattle.std.specs.Prelude.{IfOk};
ghost use Rattle.edge_prices.specs.KeptLists.{grid_of, scale_of, budget_of, loads_of, IsRenewed};
ghost use Rattle.grid_graph.specs.Grids.{size_of, IsNetWidth};
ghost use Rattle.grid_graph.specs.Grounds.{IsGround};
ghost use Rattle.sharing_runs.specs.NetSteps.{IsStep};
ghost use Rattle.steiner_exact.specs.TreeLabelWords.{AreTreeLabels};

use crate::climb_loads::{notice_sets, prices_of_loads};
use edge_prices::KeptPrices;
use grid_base::NoMemory;
use grid_graph::{Design, Ground, NetSpec};
use std::alloc::Global;
use steiner_exact::{TreeLabels, least_tree};
use steiner_span::spanning_tree;
use steiner_tables::FEW_TERMINALS;
use tree_set::Tree;

/// What all nets of a turn see: the nets with their grounds, and the prices of the loads before the turn.
#[derive(Drop)]
pub(crate) struct ClimbSight<'d, 'g> {
    pub design: &'d Design,
    pub grounds: &'g [Ground],
    pub kept: KeptPrices<'d>,
}

impl<'d, 'g> ClimbSight<'d, 'g> {
    ghost use Rattle.std.specs.Prelude.{◌≡◌, ◌<◌, IfOk, length};
    ghost use Rattle.grid_base.specs.Lists.{At};
    ghost use Rattle.grid_graph.specs.declared.net_spec.NetSpec.{NetSpec};
    ghost use Rattle.grid_graph.specs.Grids.{size_of};
    ghost use Rattle.grid_graph.specs.Grounds.{AreGrounds};
    ghost use Rattle.edge_prices.specs.KeptLists.{scale_of, budget_of, loads_of};
    ghost use Rattle.edge_prices.specs.Limits.{IsBudget};
    ghost use Rattle.edge_prices.specs.Vectors.{IsLoadList};
    ghost use Rattle.steiner_exact.specs.TreeLabelWords.{AreTreeLabels};
    ghost use Rattle.bound_climb.specs.ClimbTurns.{AreSetsFor, GainsSets, HaveRoomFor, IsClimbSight, IsStepSeen, SeesSame, seen_nets};

    /// What is seen before the first turn: the prices of these loads at scale 1, with a wirelength that is to be kept, or none.
    pub fn new(
        alloc: Global,
        design: &'d Design,
        grounds: &'g [Ground],
        loads: &[u64],
        most: Option<u64>,
    ) -> Result<ClimbSight<'d, 'g>, NoMemory>
        requires grounds { AreGrounds design.now.grid design.now.nets grounds.now }
        requires loads { IsLoadList design.now.grid loads.now }
        requires most { IsBudget most }
        ensures sight { IfOk result IsClimbSight }
        ensures design { IfOk result (λ s. s.design.now ≡ design.now) }
        ensures scale { IfOk result (λ s. scale_of s.kept ≡ 1) }
        ensures budget { IfOk result (λ s. budget_of s.kept ≡ most) }
        ensures loads { IfOk result (λ s. loads_of s.kept ≡ loads.now) }
    {
        let kept = prices_of_loads(alloc, &design.grid, loads, most)?;
        Ok(ClimbSight {
            design,
            grounds,
            kept,
        })
    }

    /// A step for the net at this place.
    pub fn step(&self, alloc: Global, net: usize, labels: &mut TreeLabels) -> Result<Tree, NoMemory>
        requires sight { IsClimbSight self.now }
        requires net { net < length (seen_nets self.now) }
        requires labels { AreTreeLabels (size_of self.now.design.now.grid) labels.old }
        ensures step { IfOk result (λ tree. (n : NetSpec) → At (seen_nets self.now) net n → IsStepSeen self.now n tree) }
        ensures labels { AreTreeLabels (size_of self.now.design.now.grid) labels.new }
    {
        let spec = &self.design.nets.list()[net];
        step_at(alloc, &self.kept, spec, self.grounds[net], labels)
    }

    /// Puts the loads of a turn's sets on the loads, and renews the prices.
    pub fn notice(&mut self, trees: &[Tree])
        requires sight { IsClimbSight self.old }
        requires sets { AreSetsFor self.old.design.now trees.now }
        requires room { HaveRoomFor (length trees.now) (loads_of self.old.kept) }
        ensures loads { GainsSets self.old.design.now.grid self.old.design.now.nets trees.now (loads_of self.old.kept) (loads_of self.new.kept) }
        ensures same { SeesSame self.old self.new }
        ensures sight { IsClimbSight self.new }
    {
        notice_sets(&mut self.kept, self.design, trees);
        self.kept.renew();
    }
}

/// A step for a net at prices that are renewed: a tree of least weight, or for many terminals one that is no heavier than any
/// spanning tree of them by distances.
fn step_at(
    alloc: Global,
    kept: &KeptPrices<'_>,
    net: &NetSpec,
    over: Ground,
    labels: &mut TreeLabels,
) -> Result<Tree, NoMemory>
    requires renewed { IsRenewed kept.now }
    requires labels { AreTreeLabels (size_of (grid_of kept.now)) labels.old }
    requires width { IsNetWidth (grid_of kept.now) net.now.width }
    requires ground { IsGround (grid_of kept.now) net.now.terminals over }
    ensures step { IfOk result (λ tree. IsStep (grid_of kept.now) net.now (loads_of kept.now) (scale_of kept.now) (budget_of kept.now) tree) }
    ensures labels { AreTreeLabels (size_of (grid_of kept.now)) labels.new }
{
    let weighing = kept.weighing(net.width, over);
    let terminals = net.terminals.list();
    if terminals.len() > FEW_TERMINALS {
        let found = spanning_tree(&weighing, terminals, &mut labels.grid)?;
        return Ok(found.0);
    }
    let found = least_tree(alloc, &weighing, terminals, labels)?;
    Ok(found.0)
}
