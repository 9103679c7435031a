//! Price lists that show where a design is too full: prices on a few cuts of the hottest tile edges, and 0 elsewhere.
//!
//! Whoever makes a price list, the bound at it is true. The prices of a router's loads are positive on every open edge, and all
//! the cold ones swell what the capacities cost. Prices on the few tile edges that are fullest, of which no open edge leads
//! around, prove more.
//!
//! ```text
//! let cuts = hot_cuts(alloc, &design, loads.as_slice(), 20)?;
//! let least_peak = bound(&rt, alloc, &design, grounds.as_slice(), cuts.for_bound.as_slice(), None)?;
//! ```
//!
//! Where all but some tile edges cost nothing, tiles that the others join are one node, and what is left is a graph of few
//! nodes. It falls into parts, on each of which nets and prices answer each other for some rounds: nets take least trees of up
//! to eight of their nodes, those of all their terminals. What prices on different parts prove of the overflow adds up, so the
//! best ones of each place are joined, and from these some rounds more are led.
//!
//! It stands on `tile_graphs` for designs seen from above and the graphs, and on `edge_prices`, `grid_graph` and `grid_base`.
//! Want of memory alone is a free answer. Promised: both lists are price lists of the edges; what the search keeps of its trials
//! and joins, and what it takes capacities to cost. What it takes nets to cost, and how much the lists prove, no clause says.

#![tactic(auto)]

mod estimate;
mod least_trees;
mod maker;
mod market;
mod offers;
mod pricing;
mod rules;
mod search;
mod trial;

pub use maker::{HotCuts, hot_cuts};
pub use pricing::price_list;
