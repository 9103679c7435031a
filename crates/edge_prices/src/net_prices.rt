//! What a net pays for the edges that it may use.

ghost use Rattle.edge_prices.specs.Demands.{IsNetPrices};

use crate::layer_demands::demands_by_layer;
use crate::limits::LAYERS;
use grid_base::{Edge, Piece, Vertex};
use grid_graph::{Grid, Ground, MAX_DEMAND};

/// What a net of some width and ground pays for the edges that it may use, at a list of prices.
///
/// Nothing is divided where a price is asked for: demands are kept by layer, and counts of the grid as numbers.
#[derive(Drop)]
pub struct NetPrices<'a> {
    pub grid: &'a Grid,
    pub width: u32,
    pub ground: Ground,
    pub prices: &'a [u32],
    demands: [u32; LAYERS],
    edges: u32,
    vias: u32,
    per_layer: u32,
    all_priced: bool,
    pub ghost known: { IsNetPrices grid.now width prices.now demands edges vias per_layer all_priced },
}

impl<'a> NetPrices<'a> {
    ghost use Rattle.std.specs.Prelude.{ℕ, ◌≡◌, ◌≤◌, ◌<◌, ◌↔◌, IsTrue, IfSome, Some, None, cond, slice_index};
    ghost use Rattle.grid_base.specs.Numbers.{layer_of, edge_start, IsVertex};
    ghost use Rattle.grid_graph.specs.Grids.{size_of, demand_on, Allows, IsNetWidth, edge_numbers};
    ghost use Rattle.grid_graph.specs.Limits.{max_demand};
    ghost use Rattle.edge_prices.specs.Demands.{AreAllPriced, AreDemands};
    ghost use Rattle.edge_prices.specs.Limits.{max_cost};
    ghost use Rattle.edge_prices.specs.Weights.{ArePrices, is_open, edge_cost};

    /// What a net of this width and ground pays at these prices. `all_priced` says that each open edge has a price.
    pub fn new(
        grid: &'a Grid,
        width: u32,
        ground: Ground,
        prices: &'a [u32],
        all_priced: bool,
    ) -> NetPrices<'a>
        requires width { IsNetWidth grid.now width }
        requires prices { ArePrices grid.now prices.now }
        requires all_priced { IsTrue all_priced → AreAllPriced grid.now prices.now }
        ensures grid { result.grid.now ≡ grid.now }
        ensures width { result.width ≡ width }
        ensures ground { result.ground ≡ ground }
        ensures prices { result.prices.now ≡ prices.now }
    {
        let size = grid.size();
        let per_layer = size.cols() * size.rows();
        NetPrices {
            grid,
            width,
            ground,
            prices,
            demands: demands_by_layer(grid, width),
            edges: 2 * size.vertices(),
            vias: size.vertices() - per_layer,
            per_layer,
            all_priced,
        }
    }

    /// Whether the net may use the piece.
    pub fn allows(&self, p: Piece) -> bool
        ensures { IsTrue result ↔ Allows self.now.grid.now self.now.ground p }
    {
        match p {
            Piece::Edge(e) => e.0 < self.edges && self.allows_edge(e),
            Piece::Via(v) => v.0 < self.vias,
        }
    }

    /// What the net pays for the edge: its price for each unit that a wire uses of it. `None` is an edge that isn't open.
    pub fn cost(&self, e: Edge) -> Option<u64>
        ensures value { e.0 < edge_numbers self.now.grid.now → result ≡ cond (is_open self.now.grid.now e.0) (Some (edge_cost self.now.grid.now self.now.width self.now.prices.now e.0)) None }
        ensures limit { IfSome result (λ cost. cost ≤ max_cost) }
    {
        if e.0 >= self.edges {
            return None;
        }
        self.cost_on(e, self.layer_of(e.start()))
    }

    /// The same of an edge on this layer.
    fn cost_on(&self, e: Edge, layer: usize) -> Option<u64>
        requires edge { e.0 < edge_numbers self.now.grid.now }
        requires layer { layer ≡ layer_of (size_of self.now.grid.now) (edge_start e.0) }
        ensures value { result ≡ cond (is_open self.now.grid.now e.0) (Some (edge_cost self.now.grid.now self.now.width self.now.prices.now e.0)) None }
        ensures limit { IfSome result (λ cost. cost ≤ max_cost) }
    {
        if !self.is_open(e) {
            return None;
        }
        let price = u64::from(self.prices[e.0 as usize]);
        let demand = u64::from(self.demands[layer]);
        Some(price * demand)
    }

    /// No wire of the net uses less of any edge.
    pub fn least_demand(&self) -> u32
        ensures below { (e : ℕ) → e < edge_numbers self.now.grid.now → result ≤ demand_on self.now.grid.now self.now.width e }
        ensures limit { result ≤ max_demand }
    {
        let mut least = MAX_DEMAND;
        for layer in 0..self.grid.size().layers() {
            least = least.min(self.demands[layer as usize]);
        }
        least
    }

    fn allows_edge(&self, e: Edge) -> bool
        requires { e.0 < edge_numbers self.now.grid.now }
        ensures { IsTrue result ↔ Allows self.now.grid.now self.now.ground (Piece.Edge e) }
    {
        match self.ground {
            Ground::Open => self.is_open(e),
            Ground::WithChoked => {
                self.is_open(e) || self.grid.allows(self.ground, Piece::Edge(e))
            }
        }
    }

    /// Whether the edge is open. Its price alone tells that where each open edge has one.
    fn is_open(&self, e: Edge) -> bool
        requires { e.0 < edge_numbers self.now.grid.now }
        ensures { result ≡ is_open self.now.grid.now e.0 }
    {
        self.prices[e.0 as usize] > 0 || (!self.all_priced && self.grid.capacity(e) > 0)
    }

    /// The layer of a vertex.
    fn layer_of(&self, v: Vertex) -> usize
        requires { IsVertex (size_of self.now.grid.now) v.0 }
        ensures { result ≡ layer_of (size_of self.now.grid.now) v.0 }
    {
        let mut layer = 0;
        let mut end = self.per_layer;
        while end <= v.0 {
            layer += 1;
            end += self.per_layer;
        }
        layer
    }
}
