//! Workers that route nets at prices of loads which they share.
//!
//! A [`Worker`] has a share of a `LoadTable` and sets for nets. It reads all loads now and then, and between two readings it
//! knows of its own changes alone:
//!
//! ```text
//! let mut worker = Worker::new(alloc, &design, share, trees, 1, None)?;
//! worker.refresh(&design, &table);
//! worker.price_net(&design, &table, 0, grounds[0])?;
//! let (share, trees) = worker.finish();
//! ```
//!
//! What the stages of a run hand on is that of `routing_stages`, and named here once more.
//!
//! It stands on `load_table` for the shared loads, on `edge_prices` for the prices that follow them, on `steiner_exact`,
//! `steiner_span` and `shortest_paths` for the sets, on `sharing_runs` for what a step is, and on `tree_set`, `load_core`,
//! `grid_graph` and `grid_base`.
//!
//! Promised: a reading loads every word once, in rising order; what a worker sees is close to its share; and the turn
//! of a net gives it a step from the seen loads, and adds the load of just this set to what is seen and to the share.
//! The load of a set is taken off a share at one place, [`take_load`], for a worker as for whoever gives a set up.
#![tactic(auto)]

mod changes;
mod loads;
mod net_route;
mod reading;
mod taking;
mod worker;

pub use loads::{forget_tree, notice_tree};
pub use net_route::{prices_without_loads, route_net};
pub use routing_stages::{Chosen, Gate, OpenGate, Routed, Settings, Shared};
pub use taking::take_load;
pub use worker::Worker;
