//! Graphs of what nets of one class pay.

ghost use Rattle.std.specs.Prelude.{◌≡◌, IfOk};
ghost use Rattle.grid_graph.specs.Flat.{IsFlatOf};
ghost use Rattle.grid_graph.specs.Grids.{size_of, IsNetWidth};
ghost use Rattle.edge_prices.specs.Weights.{AreEdgePrices};
ghost use Rattle.overflow_bounds.specs.ClassGraphs.{IsGraphOfClass};

use crate::merged_graph::MergedGraph;
use edge_prices::Costing;
use grid_base::NoMemory;
use grid_graph::{Grid, Ground};
use lower_bound::TileCosts;
use std::alloc::Global;

/// What the nets of one width and one ground pay between tiles, at a price for each edge, with the graph of few nodes that is
/// made of it.
#[derive(Drop)]
pub(crate) struct ClassGraph<'a> {
    pub grid: &'a Grid,
    pub prices: &'a [u32],
    pub width: u32,
    pub ground: Ground,
    pub costs: TileCosts,
    pub graph: MergedGraph,
}

impl<'a> ClassGraph<'a> {
    ghost use Rattle.std.specs.Prelude.{◌≡◌, IfOk, OnOk};
    ghost use Rattle.grid_graph.specs.Grids.{IsNetWidth};
    ghost use Rattle.edge_prices.specs.Weights.{AreEdgePrices};
    ghost use Rattle.overflow_bounds.specs.ClassGraphs.{IsCurrentGraph};

    /// The graph of nets of this width and ground.
    pub fn new(
        alloc: Global,
        grid: &'a Grid,
        width: u32,
        ground: Ground,
        prices: &'a [u32],
    ) -> Result<ClassGraph<'a>, NoMemory>
        requires width { IsNetWidth grid.now width }
        requires prices { AreEdgePrices grid.now prices.now }
        ensures grid { IfOk result (λ c. c.grid.now ≡ grid.now) }
        ensures prices { IfOk result (λ c. c.prices.now ≡ prices.now) }
        ensures current { IfOk result IsCurrentGraph }
    {
        let mut costs = TileCosts::new(alloc, grid.size())?;
        let graph = graph_of(alloc, &mut costs, grid, width, ground, prices)?;
        Ok(ClassGraph {
            grid,
            prices,
            width,
            ground,
            costs,
            graph,
        })
    }

    /// Turns to nets of another width or ground. Nothing is made anew where both are the same. After a want of memory the graph
    /// is that of the nets before; no clause says so.
    pub fn renew(&mut self, alloc: Global, width: u32, ground: Ground) -> Result<(), NoMemory>
        requires width { IsNetWidth self.old.grid.now width }
        requires current { IsCurrentGraph self.old }
        ensures grid { self.new.grid.now ≡ self.old.grid.now }
        ensures prices { self.new.prices.now ≡ self.old.prices.now }
        ensures width { OnOk result (self.new.width ≡ width) }
        ensures ground { OnOk result (self.new.ground ≡ ground) }
        ensures current { OnOk result (IsCurrentGraph self.new) }
    {
        if self.width == width && self.ground == ground {
            return Ok(());
        }
        self.graph = graph_of(
            alloc,
            &mut self.costs,
            self.grid,
            width,
            ground,
            self.prices,
        )?;
        self.width = width;
        self.ground = ground;
        Ok(())
    }
}

/// The graph of nets of this width and ground, whose costs between tiles are written over others.
fn graph_of(
    alloc: Global,
    costs: &mut TileCosts,
    grid: &Grid,
    width: u32,
    ground: Ground,
    prices: &[u32],
) -> Result<MergedGraph, NoMemory>
    requires flat { IsFlatOf costs.old.size (size_of grid.now) }
    requires width { IsNetWidth grid.now width }
    requires prices { AreEdgePrices grid.now prices.now }
    ensures graph { IfOk result (IsGraphOfClass grid.now width ground prices.now) }
    ensures size { costs.new.size ≡ costs.old.size }
{
    let costing = Costing::new(grid, width, ground, prices);
    costs.renew(&costing, grid.size());
    MergedGraph::of(alloc, &*costs, costs.size())
}
