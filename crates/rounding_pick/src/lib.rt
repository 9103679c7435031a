//! One set for each net out of those that it got in several phases.
//!
//! ```text
//! let phase = pick(7, 0, 4);                 // of four phases, the one for the first net under seed 7
//! let chosen = round(&design, shared, 7);    // each net with its set of the phase that is picked for it
//! ```
//!
//! It stands on `seed_streams`, on `routing_stages` for what the stages of a run hand on, on `price_workers` for taking the load of
//! a set off a share, on `load_table` and `load_core` for the shared loads, and on `sharing_runs`, `tree_set`, `grid_graph` and
//! `grid_base`.
//!
//! Promised: the pick is the first word of the net's own ChaCha8 stream under the seed, modulo the number of phases.
//! Each net keeps its set of the picked phase; loads and share are those of the kept sets; prices and the share's
//! history stay. No call takes memory.
#![tactic(auto)]

mod picks;
mod rounding;
mod taking;

pub use picks::pick;
pub use rounding::round;
