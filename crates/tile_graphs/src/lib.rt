//! Designs seen from above, and graphs of the regions that their fullest tile edges part.
//!
//! ```text
//! let view = TileView::of(alloc, &design, loads.as_slice())?;
//! let uses = fullest_first(alloc, view.totals.as_slice())?;
//! let are_hot = marks_by_count(alloc, uses.as_slice(), 20, view.totals.len())?;
//! let graph = Contraction::of(alloc, &view, are_hot.as_slice())?;    // its parts have nodes, links and nets
//! ```
//!
//! Where all but some tile edges cost nothing, tiles that the others join are one node, and what is left is a graph of few
//! nodes. Without the region of the most tiles it falls into parts, and each net is brought into those where it has ends.
//!
//! It stands on `groups`, `grid_graph` and `grid_base`. Want of memory alone is a free answer. Promised: how many tile edges
//! there are, which tiles they join, their totals and what follows from them, bundles, and the links of given tile edges; of
//! regions, and of which tile edges and nets a part has, no more.

#![tactic(auto)]

mod bundles;
mod contraction;
mod ends;
mod numbers;
mod part;
mod regions;
mod tile_cuts;
mod tile_nets;
mod tile_use;
mod tile_view;

pub use bundles::{Bundle, most_sets, total_demand};
pub use contraction::Contraction;
pub use ends::Ends;
pub use numbers::tile_edges;
pub use part::{Link, Part};
pub use tile_cuts::fuller_cuts;
pub use tile_use::{FULL, TileTotal, TileUse, fullest_first, marks_by_count, marks_by_level};
pub use tile_view::TileView;
