//! The state of a rerouting: one set of pieces for each net, with the room that they leave on each edge and with their
//! overflow and wirelength, kept step by step; and the best sets so far, with the way back to them.
//!
//! ```text
//! let state = RoutingState::of(alloc, &design, trees)?;             // one set per net, without walls
//! let mut rerouting = Rerouting::of(alloc, state)?;                 // the best are these
//! rerouting.exchange(&design, net, tree);                           // whatever it costs
//! let is_better = rerouting.keep_if_better();
//! let mut state = rerouting.back(&design);                          // the best again
//! let is_kept = state.exchange_unless_worse(&design, net, tree);    // and never worse from now on
//! ```
//!
//! It stands on `grid_base` and `grid_graph` for the design, and on `tree_set` for sets, loads and measures.
//!
//! Promised: at every moment rooms, overflow and wirelength are those of the sets; an exchange changes the set of one net
//! and no other; the best is never worse than it was, and going back gives its sets.

#![tactic(auto)]

mod overfull;
mod rerouting;
mod rooms;
mod state;
mod taking;
mod totals;

pub use rerouting::Rerouting;
pub use state::RoutingState;
pub use totals::Totals;
