//! Lower bounds of what a net costs at a price list.
//!
//! The net bound is what `dual_bound` sums over the nets:
//!
//! ```text
//! let least = net_bound(&grid, &net, ground, &prices, 0, &mut labels);
//! ```
//!
//! Where a piece alone costs nothing, vias do not, and the bound is that of the net's tiles. `ClassCosts` keeps what nets of
//! one width and ground pay between tiles, with labels of the flat grid:
//!
//! ```text
//! let mut costs = ClassCosts::new(alloc, &grid, net.width, ground, &prices)?;
//! let mut labels = Labels::new(alloc, costs.size(), 15)?;
//! let least = costs.net_bound(alloc, &net, &mut labels)?;
//! ```
//!
//! Tiles that edges without cost join have one of them to stand for all, and least costs of a few tiles are kept: so a price
//! list that is 0 nearly everywhere took no longer than another where it was measured. Of time no clause speaks.
//!
//! It stands on `least_weights` for least weights and nearest terminals, on `landmarks`, which lead the searches of a class, on
//! `shortest_paths` and `steiner_exact` for labels, on `edge_prices` for costs, and on `groups`, `grid_graph` and `grid_base`.
//! Tables and moats that others bring are tested by `brought_bounds`.
//!
//! Promised: the net bound is exactly that of its definition, which ranges over all subsets of the net's ground, and no subset
//! that joins the terminals costs less. Want of memory alone is a free answer.
#![tactic(auto)]

mod bounds;
mod class_bounds;
mod class_costs;
mod extra;
mod halves;
mod kept_halves;
mod laws;
mod led;
mod led_halves;
mod representatives;
mod spread;
mod tile_costs;
mod tree_bounds;

pub use bounds::net_bound;
pub use class_costs::ClassCosts;
pub use extra::Extra;
pub use laws::{moats_bound_sets, net_bounds_are_low};
pub use spread::spread_five;
pub use tile_costs::TileCosts;
