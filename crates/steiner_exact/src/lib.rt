//! Least trees for up to five terminals.
//!
//! Labels are made once for a grid and used for many trees:
//!
//! ```text
//! let mut labels = TreeLabels::new(alloc, grid.size())?;
//! let (tree, weight) = least_tree(alloc, &weighing, terminals.list(), &mut labels)?;
//! ```
//!
//! A table of the flat grid, searched under boxes of terminals, bounds a table of the grid, together with balls around the
//! terminals where vias weigh much; the tree is read back from its numbers. Where a tree weighs far more than its box says,
//! distances from each terminal are found first, and lead the table of the flat grid. These bounds are families of
//! `steiner_tables`, and so is any other that a caller has. Between two terminals there is one search of the grid, led by a search
//! of the flat grid where vias weigh little, and by floors elsewhere.
//!
//! It stands on `terminal_balls` for balls, on `terminal_distances` for distances, on `shortest_paths` for searches, on
//! `steiner_tables` for masks, on `tree_set` for sets of pieces and on `grid_graph` for weights that know lower bounds of
//! themselves. A tree takes memory for its own pieces, its terminals and the vertices of one guessed tree, and none that grows
//! with the grid, but for the first one for which balls are grown and the first for which distances are found.
//!
//! Promised: the tree is a set of allowed pieces that joins the terminals, no such set weighs less, and the weight is its
//! own.
#![tactic(auto)]

mod ball_family;
mod box_family;
mod boxes;
mod extent;
mod flat_edges;
mod flat_size;
mod flat_weights;
mod fork;
mod gaps;
mod goal_bound;
mod guess;
mod least_path;
mod limits;
mod nearness;
mod reading;
mod root_label;
mod root_search;
mod row_family;
mod terminal_box;
mod tiles;
mod tree_labels;
mod tree_limits;
mod trees;

pub use ball_family::BallFamily;
pub use box_family::BoxFamily;
pub use boxes::{MASKS, boxes_of};
pub use extent::Extent;
pub use flat_size::flat_of;
pub use flat_weights::FlatWeights;
pub use gaps::Gaps;
pub use goal_bound::GoalBound;
pub use guess::tree_guess;
pub use limits::{FIRST_SLACK, TABLE_VIAS};
pub use root_search::least_at_root;
pub use row_family::RowFamily;
pub use terminal_box::TerminalBox;
pub use tiles::{tile_under, tiles_of};
pub use tree_labels::TreeLabels;
pub use trees::{least_by_tiles, least_tree};
