//! How much overflow a price list shows: by least trees of more terminals than a net bound looks at, and by whole wires.
//!
//! ```text
//! let least = overflow_shown(alloc, &design, grounds.as_slice(), cuts.for_overflow.as_slice())?;
//! // 4486: every routing of whole routes has an overflow of 4,486 or more
//! ```
//!
//! Where all but some edges cost nothing, tiles that the others join are one node. On the graph that is left, of some hundred
//! nodes, tables over the sets of up to eight ends are small, where on the grid five are many. What an edge can carry counts by
//! whole units of what nets use of it.
//!
//! It stands on `dual_bound` for the laws that bounds of nets show overflow, on `lower_bound` for what tile edges cost, on
//! `steiner_tables` for the law of tables, on `groups`, and on `label_search`, `edge_prices`, `tree_set`, `grid_graph` and
//! `grid_base`.
//!
//! Promised: no routing of whole routes has less overflow than the answer, and numbers that are at most what the routes of each
//! net cost show it, or it is 0. How much it is no clause says.

#![tactic(auto)]

mod class_graph;
mod layer_units;
mod link;
mod lows;
mod merged_graph;
mod net_ends;
mod node_row;
mod node_tables;
mod settling;
mod shown;
mod starting;
mod wires;

pub use shown::overflow_shown;
