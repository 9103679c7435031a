//! Nets whose sets hold overfull edges are routed once more, round after round.
//!
//! ```text
//! let routed = repair(&rt, alloc, &design, &grounds, chosen, &settings, &OpenGate)?;
//! ```
//!
//! A round is a pass over the nets whose sets hold overfull edges. It stands on `routing_passes` for passes, on `routing_stages`
//! for what the stages of a run hand on, on `load_table` and `load_core` for the shared loads, on `sharing_runs` for what a
//! repair run is, and on `price_workers`, `edge_prices`, `tree_set`, `grid_graph` and `grid_base`.
//!
//! Promised: the answer is the result of a repair run of the workers in use that starts with the chosen sets, which is its
//! first routing of least overflow. The loads are those of the result, the share has those of the last routing, and its
//! history goes on with the readings of this run. That the workers of a round run at once no clause says.
#![tactic(auto)]

mod exchange;
mod left;
mod overflow;
mod overfull;
mod repaired;
mod repairing;
mod replaced;
mod rounds;
mod routing;

pub use repairing::repair;
