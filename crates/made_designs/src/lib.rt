//! What every generated design keeps: laws of the text that `gr_make` writes, by the reading of `ispd_reader`.
//!
//! ```text
//! made_texts_are_designs(seed, shape);      // computes nothing: its contract is the law
//! ```
//!
//! It stands on `gr_make` for the text, on `ispd_reader` and `text_scan` for what a text says, on `grid_graph` for grounds
//! and borders, and on `grid_base` for edges and walks.
//!
//! Promised: the text of any seed and shape names a near design with just the nets and adjustments that were made for it,
//! and every net of that design is reachable.

#![tactic(auto)]

mod laws;

pub use laws::{made_texts_are_designs, rows_and_columns_reach_all_nets};
