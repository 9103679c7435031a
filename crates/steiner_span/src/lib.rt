//! Trees for nets of many terminals: light ones, grown from terminal to terminal.
//!
//! ```text
//! let (tree, weight) = spanning_tree(&weights, terminals, &mut labels)?;
//! ```
//!
//! The search of one growth begins at the first terminal, takes in the nearest other one each time with the whole way to
//! it, and goes on from the whole tree: nothing that was found is forgotten. It stands on `shortest_paths` for a search that
//! its caller leads, on `tree_set` for trees, on `grid_graph` for weights, and on `grid_base` for vertices and pieces.
//!
//! Promised: the tree is of allowed pieces and joins the terminals, and its weight is at most that of each spanning tree
//! of the terminals by distances, and at most twice that of each set of allowed pieces that joins them.
#![tactic(auto)]

mod ahead;
mod grow;
mod nearest;
mod spanning;
mod step_back;
mod way_back;
mod weighing;

pub use spanning::spanning_tree;
