//! A pass: some nets get new sets, one after another, by workers that run side by side and share their loads.
//!
//! ```text
//! a phase    a pass over all nets, whose old sets are empty
//! a round    a pass over the nets whose sets hold overfull edges
//! ```
//!
//! The positions of the nets are divided among the workers. A share of the loads is split for them, each worker routes its nets
//! in turn, and the shares are joined:
//!
//! ```text
//! let (share, sets) = route_parts(&rt, &design, &grounds, &table, earlier, before, &plan, &OpenGate, share, 0, workers)?;
//! ```
//!
//! It stands on `price_workers` for a worker, on `routing_stages` for sets and gates, on `load_table` and `load_core` for the
//! shared loads, on `sharing_runs` for what a step and a part are, and on `edge_prices`, `tree_set`, `grid_graph` and
//! `grid_base`.
//!
//! Promised: each new set is a step from loads that its worker really read, with that worker's own changes since and without the
//! net's old set; the share's history goes on with these readings, in order of part and stretch; and the share has the load of
//! the new sets in place of that of the old ones. That the workers run at once no clause says.
#![tactic(auto)]

mod loads;
mod old_sets;
mod part;
mod pass_input;
mod plan;
mod workers;

pub use plan::Plan;
pub use workers::route_parts;
