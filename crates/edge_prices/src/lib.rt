//! Prices of a grid's resources, and what the pieces that a net may use weigh and cost at them.
//!
//! A resource is an open edge or, where there is a budget, the wirelength. The more of it is in use beside the others, the
//! higher its price. A search takes a `Weighing`, a bound takes a `Costing`:
//!
//! ```text
//! let mut kept = KeptPrices::new(&grid, loads, 1, None, prices, tile_prices);
//! kept.set_load(edge, load);
//! kept.renew();
//! let weighing = kept.weighing(width, Ground::Open);
//! ```
//!
//! It stands on `grid_graph` and `grid_base`. No call takes memory, and no weight takes a division. It promises that
//! prices, weights and costs are exactly those of its definitions, that kept prices are those of the loads as they now
//! stand, that no allowed piece weighs less than its floor, and no edge less than the least over its tile edge.
#![tactic(auto)]

mod budget;
mod costing;
mod index;
mod kept_prices;
mod layer_demands;
mod least_of;
mod least_prices;
mod limits;
mod net_prices;
mod price;
mod price_lists;
mod price_table;
mod price_vector;
mod resources;
mod resting_prices;
mod tile_prices;
mod top_index;
mod weighing;

pub use budget::Budget;
pub use costing::Costing;
pub use index::index_at;
pub use kept_prices::KeptPrices;
pub use limits::{LAST_INDEX, MAX_BUDGET, MAX_LOAD, MAX_PRICE, MAX_SCALE};
pub use price::{price_at, price_from};
pub use price_lists::are_edge_prices;
pub use price_vector::prices;
pub use resting_prices::RestingPrices;
pub use weighing::Weighing;
