//! What nets of one class pay between tiles.

ghost use Rattle.std.specs.Prelude.{IsTrue};
ghost use Rattle.grid_graph.specs.Grids.{IsNetWidth};
ghost use Rattle.lower_bound.specs.ClassWords.{UseAsMuch};

use crate::representatives::Representatives;
use crate::tile_costs::TileCosts;
use edge_prices::Costing;
use grid_base::{Axis, Edge, NoMemory, Size, Vertex};
use grid_graph::{Grid, Ground};
use landmarks::Landmarks;
use least_weights::KeptCosts;
use std::alloc::Global;

/// What the nets of one width and one ground pay between tiles, at a price for each edge.
///
/// Vias cost nothing, so the least costs of a net are those of its tiles: searches go over the flat grid, whose edges cost
/// the least of all layers.
#[derive(Drop)]
pub struct ClassCosts<'a> {
    pub grid: &'a Grid,
    pub prices: &'a [u32],
    pub width: u32,
    pub ground: Ground,
    pub(crate) costs: TileCosts,
    pub(crate) representatives: Representatives,
    pub(crate) kept: KeptCosts,
    pub(crate) landmarks: Landmarks,
    pub(crate) is_led: bool,
}

impl<'a> ClassCosts<'a> {
    ghost use Rattle.std.specs.Prelude.{◌≡◌, IfOk};
    ghost use Rattle.grid_graph.specs.Grids.{IsNetWidth};
    ghost use Rattle.edge_prices.specs.Weights.{AreEdgePrices};
    ghost use Rattle.lower_bound.specs.ClassWords.{tiles_size, IsCurrentClass};

    /// What nets of this width and ground pay.
    pub fn new(
        alloc: Global,
        grid: &'a Grid,
        width: u32,
        ground: Ground,
        prices: &'a [u32],
    ) -> Result<ClassCosts<'a>, NoMemory>
        requires width { IsNetWidth grid.now width }
        requires prices { AreEdgePrices grid.now prices.now }
        ensures grid { IfOk result (λ c. c.grid.now ≡ grid.now) }
        ensures prices { IfOk result (λ c. c.prices.now ≡ prices.now) }
        ensures width { IfOk result (λ c. c.width ≡ width) }
        ensures ground { IfOk result (λ c. c.ground ≡ ground) }
        ensures current { IfOk result IsCurrentClass }
    {
        let mut costs = TileCosts::new(alloc, grid.size())?;
        let mut representatives = Representatives::new(alloc, costs.size())?;
        let mut kept = KeptCosts::new(alloc)?;
        let mut landmarks = Landmarks::new(alloc, costs.size())?;
        let costing = Costing::new(grid, width, ground, prices);
        costs.renew(&costing, grid.size());
        representatives.renew(&costs, costs.size());
        kept.forget();
        landmarks.reset(&costs);
        Ok(ClassCosts {
            grid,
            prices,
            width,
            ground,
            costs,
            representatives,
            kept,
            landmarks,
            is_led: false,
        })
    }

    /// The size of the flat grid.
    pub fn size(&self) -> Size
        ensures { result ≡ tiles_size self.now }
    {
        self.costs.size()
    }

    /// Turns to nets of another width or ground. Widths that use as much of each layer's edges are one class: so are all that
    /// are below the layers' least widths.
    pub fn renew(&mut self, width: u32, ground: Ground)
        requires width { IsNetWidth self.old.grid.now width }
        requires current { IsCurrentClass self.old }
        ensures grid { self.new.grid.now ≡ self.old.grid.now }
        ensures prices { self.new.prices.now ≡ self.old.prices.now }
        ensures width { self.new.width ≡ width }
        ensures ground { self.new.ground ≡ ground }
        ensures size { tiles_size self.new ≡ tiles_size self.old }
        ensures current { IsCurrentClass self.new }
    {
        if self.ground == ground && use_as_much(self.grid, self.width, width) {
            self.width = width;
            return;
        }
        let costing = Costing::new(self.grid, width, ground, self.prices);
        self.costs.renew(&costing, self.grid.size());
        self.representatives.renew(&self.costs, self.costs.size());
        self.kept.forget();
        self.landmarks.reset(&self.costs);
        self.is_led = false;
        self.width = width;
        self.ground = ground;
    }
}

/// Whether nets of two widths use as much of each edge.
fn use_as_much(grid: &Grid, one: u32, other: u32) -> bool
    requires one { IsNetWidth grid.now one }
    requires other { IsNetWidth grid.now other }
    ensures { IsTrue result → UseAsMuch grid.now one other }
{
    if one == other {
        return true;
    }
    let size = grid.size();
    let per_layer = size.cols() * size.rows();
    for layer in 0..size.layers() {
        let edge = Edge::along(Vertex(layer * per_layer), Axis::X);
        if grid.demand(one, edge) != grid.demand(other, edge) {
            return false;
        }
    }
    true
}
