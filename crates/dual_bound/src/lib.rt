//! The bound of a design: how full its fullest resource is at least, in every mixture of routings.
//!
//! Any price list gives such a bound, by weak duality: what the nets cost at least at these prices, by what all capacities
//! cost. The prices of the loads of good routings give a bound near what those routings reach.
//!
//! ```text
//! let grounds = design.grounds()?;
//! let found = bound(&rt, alloc, &design, grounds.as_slice(), prices.as_slice(), None)?;
//! // Some(1/2): in every mixture of routings some open edge has a load of half its capacity or more
//! let shown = what_prices_show(&rt, alloc, design, grounds.as_slice(), cuts.for_overflow.as_slice())?;
//! // shown.overflow is 103: every routing of whole routes has an overflow of 103 or more
//! ```
//!
//! `what_prices_show` finds the bound and the overflow in one pass over the nets, at edge prices alone: the bound then serves
//! each budget whose wirelength costs nothing. `whole_wires_show_overflow` is the law for whoever bounds the nets otherwise.
//!
//! It stands on `lower_bound` for the bounds of the nets, on `tree_set` for fractions, budgets and routings, on `edge_prices`,
//! `grid_graph` and `grid_base` for prices and designs, and on `rayon` for threads.
//!
//! Promised: the answer is exactly the bound at these prices, in lowest terms, and none where the capacities cost nothing; and
//! no mixture of routings uses every resource less. The overflow is exactly what the prices show, and no routing has less.

#![tactic(auto)]

mod bound_labels;
mod class_order;
mod design_bound;
mod laws;
mod net_bounds;
mod numerator;
mod priced;
mod shown;

pub use class_order::{ClassedNet, nets_by_class};
pub use design_bound::bound;
pub use laws::{prices_show_overflow, weak_duality, whole_wires_show_overflow};
pub use net_bounds::total_of;
pub use shown::{Shown, greatest_price, what_prices_show};
