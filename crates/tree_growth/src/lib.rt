//! The search of rerouting: a cheap set for one net, grown from terminal to terminal at the loads of all others.
//!
//! ```text
//! let mut growth = Growth::new(alloc, &grid)?;
//! let field = Field { rooms: &rooms, prices: &prices, landmark: &landmark, stage: Stage::Negotiation };
//! let found = growth.tree(&grid, field, &net, over, &own, turn, margin)?;
//! ```
//!
//! It stands on `net_search` for the way to the next terminal, on `bucket_queue` for what waits, on `grid_graph` for grids and
//! nets, on `tree_set` for sets, and on `grid_base` for vertices and pieces.
//!
//! Promised: what is found keeps to the ground and joins the net's terminals. That it is cheap is measured, not promised.
#![tactic(auto)]

mod growing;
mod grown;
mod growth;
mod landmark;
mod targets;

pub use growth::Growth;
pub use landmark::landmark_distances;
