//! Least weights of joining a few vertices.
//!
//! At most five of them, over any weights, with labels of the grid or with those that trees are searched with:
//!
//! ```text
//! let weight = least_weight(&weights, &terminals, &mut labels);
//! let weight = led_least(alloc, &weights, &terminals, &mut tree_labels)?;
//! ```
//!
//! The second is led by a table of the terminals' tiles, and so is the distance of one terminal to the nearest other one
//! (`led_nearest`) by a search of the flat grid: both are for weights where each piece costs something, and vias may cost
//! little or much. Where many searches are made at the same weights, landmarks lead them and least weights are kept
//! (`kept_least`).
//!
//! It stands on `steiner_exact` for tables under bounds, on `landmarks` for bounds of these, and on `shortest_paths` for
//! searches.
//!
//! Promised: each number is exactly the least weight of a set of allowed pieces that joins the vertices, or the distance to the
//! nearest one, whatever led the search. Want of memory alone is a free answer.
#![tactic(auto)]

mod by_tiles;
mod keeping;
mod kept_costs;
mod least;
mod nearest;

pub use by_tiles::led_least;
pub use keeping::kept_least;
pub use kept_costs::KeptCosts;
pub use least::least_weight;
pub use nearest::led_nearest;
