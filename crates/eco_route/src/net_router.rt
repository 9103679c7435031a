//! What routes single nets at the prices of the loads.

ghost use Rattle.std.specs.Prelude.{◌≡◌};
ghost use Rattle.edge_prices.specs.KeptLists.{grid_of, scale_of, budget_of, loads_of};
ghost use Rattle.edge_prices.specs.Resting.{RestOn, resting_scale, resting_budget, resting_loads};

use edge_prices::{KeptPrices, RestingPrices};
use grid_base::NoMemory;
use grid_graph::{Grid, Ground, GroundComponents, NetSpec, UnreachableNet};
use price_workers::{forget_tree, notice_tree, prices_without_loads, route_net};
use std::alloc::Global;
use std::mem::replace;
use steiner_exact::TreeLabels;
use tree_set::Tree;

/// How many parts of its capacity an edge's price tells apart: as in repair.
const SCALE: u32 = 16;

/// The grounds of a grid, and the loads of some nets with the prices that follow them. Every call that takes a grid takes
/// the one that it was made for.
#[derive(Drop)]
pub(crate) struct NetRouter {
    components: GroundComponents,
    prices: RestingPrices,
    labels: TreeLabels,
}

impl NetRouter {
    ghost use Rattle.std.specs.Prelude.{◌≡◌, ◌+◌, ◌≤◌, ◌<◌, ℕ, [], None, IfOk, IfErr, OnErr, length, slice_index};
    ghost use Rattle.grid_base.specs.declared.vertex.Vertex.{Vertex};
    ghost use Rattle.grid_base.specs.Lists.{At};
    ghost use Rattle.grid_graph.specs.Grids.{size_of, IsNetWidth};
    ghost use Rattle.grid_graph.specs.Grounds.{IsGround, IsCutOff};
    ghost use Rattle.grid_graph.specs.Limits.{max_load, max_pins};
    ghost use Rattle.grid_graph.specs.Nets.{IsNet};
    ghost use Rattle.price_workers.specs.TreeLoads.{GainsTree, without_tree};
    ghost use Rattle.sharing_runs.specs.NetSteps.{IsStep};
    ghost use Rattle.tree_set.specs.Loads.{tree_load, max_tree_load};
    ghost use Rattle.tree_set.specs.Routings.{ArePieces};
    ghost use Rattle.eco_route.specs.Routers.{IsRouterOn, router_loads};
    ghost use Rattle.eco_route.specs.Scales.{eco_scale};

    /// A router for a grid that nothing is routed on.
    pub fn of(alloc: Global, grid: &Grid) -> Result<NetRouter, NoMemory>
        ensures router { IfOk result (IsRouterOn grid.now) }
        ensures loads { IfOk result (λ made. (r : ℕ) → slice_index (router_loads made) r ≡ 0) }
    {
        let components = GroundComponents::of(alloc, grid)?;
        let labels = TreeLabels::new(alloc, grid.size())?;
        let kept = prices_without_loads(alloc, grid, SCALE, None)?;
        Ok(NetRouter {
            components,
            prices: RestingPrices::of(kept),
            labels,
        })
    }

    /// The ground of a net that fits the grid. The error is a net that no ground joins.
    pub fn ground_of(&self, grid: &Grid, net: &NetSpec) -> Result<Ground, UnreachableNet>
        requires router { IsRouterOn grid.now self.now }
        requires net { IsNet grid.now net.now }
        requires few { length net.now.terminals ≤ max_pins }
        ensures found { IfOk result (IsGround grid.now net.now.terminals) }
        ensures cause { IfErr result (λ e. IsCutOff grid.now net.now e.id e.terminal) }
    {
        self.components.ground_of(net)
    }

    /// A step for a net at the prices of the loads so far. Want of memory is the only error.
    pub fn route(
        &mut self,
        alloc: Global,
        grid: &Grid,
        net: &NetSpec,
        over: Ground,
    ) -> Result<Tree, NoMemory>
        requires router { IsRouterOn grid.now self.old }
        requires width { IsNetWidth grid.now net.now.width }
        requires ground { IsGround grid.now net.now.terminals over }
        ensures step { IfOk result (IsStep grid.now net.now (router_loads self.old) eco_scale None) }
        ensures loads { router_loads self.new ≡ router_loads self.old }
        ensures router { IsRouterOn grid.now self.new }
    {
        let mut kept = awake(alloc, &mut self.prices, grid);
        let found = route_net(alloc, &mut kept, net, over, &mut self.labels);
        self.prices = RestingPrices::of(kept);
        found
    }

    /// Puts the load of a net of this width by its set on the loads.
    pub fn notice(&mut self, alloc: Global, grid: &Grid, width: u32, tree: &Tree)
        requires router { IsRouterOn grid.now self.old }
        requires width { IsNetWidth grid.now width }
        requires pieces { ArePieces (size_of grid.now) tree.now }
        requires room { (r : ℕ) → slice_index (router_loads self.old) r + max_tree_load ≤ max_load }
        ensures loads { GainsTree grid.now width tree.now (router_loads self.old) (router_loads self.new) }
        ensures router { IsRouterOn grid.now self.new }
    {
        let mut kept = awake(alloc, &mut self.prices, grid);
        notice_tree(&mut kept, grid, width, tree);
        self.prices = RestingPrices::of(kept);
    }

    /// Takes the load of a net of this width by its set off the loads.
    pub fn forget(&mut self, alloc: Global, grid: &Grid, width: u32, tree: &Tree)
        requires router { IsRouterOn grid.now self.old }
        requires width { IsNetWidth grid.now width }
        requires pieces { ArePieces (size_of grid.now) tree.now }
        requires had { (r : ℕ) → tree_load grid.now width tree.now r ≤ slice_index (router_loads self.old) r }
        ensures loads { router_loads self.new ≡ without_tree grid.now width tree.now (router_loads self.old) }
        ensures router { IsRouterOn grid.now self.new }
    {
        let mut kept = awake(alloc, &mut self.prices, grid);
        forget_tree(&mut kept, grid, width, tree);
        self.prices = RestingPrices::of(kept);
    }

    /// Takes the load of a net's set off, and puts that of a step for the net that comes in its place on. Want of memory is the
    /// only error, and leaves the loads as they were.
    pub fn reroute(
        &mut self,
        alloc: Global,
        grid: &Grid,
        old_width: u32,
        old_tree: &Tree,
        net: &NetSpec,
        over: Ground,
    ) -> Result<Tree, NoMemory>
        requires router { IsRouterOn grid.now self.old }
        requires old_width { IsNetWidth grid.now old_width }
        requires old_pieces { ArePieces (size_of grid.now) old_tree.now }
        requires had { (r : ℕ) → tree_load grid.now old_width old_tree.now r ≤ slice_index (router_loads self.old) r }
        requires room { (r : ℕ) → slice_index (router_loads self.old) r + max_tree_load ≤ max_load }
        requires width { IsNetWidth grid.now net.now.width }
        requires ground { IsGround grid.now net.now.terminals over }
        ensures step { IfOk result (IsStep grid.now net.now (without_tree grid.now old_width old_tree.now (router_loads self.old)) eco_scale None) }
        ensures gained { IfOk result (λ tree. GainsTree grid.now net.now.width tree (without_tree grid.now old_width old_tree.now (router_loads self.old)) (router_loads self.new)) }
        ensures as_before { OnErr result ((r : ℕ) → slice_index (router_loads self.new) r ≡ slice_index (router_loads self.old) r) }
        ensures router { IsRouterOn grid.now self.new }
    {
        self.forget(alloc, grid, old_width, old_tree);
        match self.route(alloc, grid, net, over) {
            Ok(tree) => {
                self.notice(alloc, grid, net.width, &tree);
                Ok(tree)
            }
            Err(no_memory) => {
                self.notice(alloc, grid, old_width, old_tree);
                Err(no_memory)
            }
        }
    }

    /// The loads: of each edge by its number, and behind the edges of the wirelength.
    pub fn loads(&self) -> &[u64]
        ensures { result.now ≡ router_loads self.now }
    {
        self.prices.loads()
    }
}

/// Wakes the prices, in whose place nothing is left.
fn awake<'a>(alloc: Global, prices: &mut RestingPrices, grid: &'a Grid) -> KeptPrices<'a>
    requires { RestOn grid.now prices.old }
    ensures grid { grid_of result ≡ grid.now }
    ensures scale { scale_of result ≡ resting_scale prices.old }
    ensures budget { budget_of result ≡ resting_budget prices.old }
    ensures loads { loads_of result ≡ resting_loads prices.old }
{
    replace(prices, RestingPrices::nothing(alloc)).awake(grid)
}
