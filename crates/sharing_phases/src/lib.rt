//! All nets are routed once in each of several phases, by workers that run side by side and share their loads.
//!
//! ```text
//! let shared = share(&rt, alloc, &design, &grounds, &settings, &OpenGate)?;
//! ```
//!
//! A phase is a pass over all nets, whose old sets are empty. It stands on `routing_passes` for passes, on `routing_stages` for
//! what the stages of a run hand on, on `load_table` and `load_core` for the shared loads, on `sharing_runs` for what a sharing
//! run is, and on `price_workers`, `edge_prices`, `tree_set`, `grid_graph` and `grid_base`.
//!
//! Promised: the sets of all phases are a sharing run of the workers in use, whose readings are those that the share's history
//! has, in order of phase, part and stretch; so each set is a step from loads that its worker really read, with that worker's
//! own changes since. The loads are those of all sets, the prices follow them, and the one share has just these loads. That
//! the workers of a phase run at once no clause says.
#![tactic(auto)]

mod sharing;

pub use sharing::share;
