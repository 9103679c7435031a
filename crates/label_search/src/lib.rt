//! A search that gives the vertices of a grid numbers, and takes them out in the order of their keys.
//!
//! A `Row` has the numbers of one search, and the vertices that wait. Its caller gives some vertices their first numbers,
//! and goes on until a goal's number can't fall any more, or until no vertex waits:
//!
//! ```text
//! let mut row = Row::new(alloc, size)?;
//! start_each(&mut row, &bound, limit, sources);
//! settle(&mut row, &weights, &bound, limit, goal, 0);
//! ```
//!
//! A `Bound` of what is still to go leads the search: the key of a vertex is its number and the bound together (Hart,
//! Nilsson and Raphael 1968). `NoBound` knows nothing; `FloorBound` is the grid distance to a goal, at the least that pieces
//! of each direction weigh. No offer is taken that is above the limit together with the bound.
//!
//! It stands on `grid_base` for vertices and pieces and on `grid_graph` for `Weights`. A search takes no memory and clears
//! nothing: its lists are reserved with the row and grow within that room, and what was found counts only under the stamp of
//! its search.
//!
//! Promised: each number is that of a vertex at the begin and the weight of a path from there, and a number that can't fall
//! any more is at most the weight of every set of allowed pieces that joins its vertex to a source.
#![tactic(auto)]

mod bound;
mod floor_bound;
mod found;
mod grid_distances;
mod heap;
mod limits;
mod no_bound;
mod padding;
mod row;
mod search;
mod sift;

pub use bound::Bound;
pub use floor_bound::FloorBound;
pub use grid_distances::apart;
pub use limits::MAX_LABELLED;
pub use no_bound::NoBound;
pub use row::{FAR, MOST, Row};
pub use search::{exhaust, offer, relax, settle, settle_each, start_each};
