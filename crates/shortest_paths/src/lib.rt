//! Shortest paths through the allowed pieces of a grid.
//!
//! `Labels` are made once for a grid and searched with many times. A search gives vertices numbers, which then answer
//! distances and paths:
//!
//! ```text
//! let mut labels = Labels::new(alloc, grid.size(), 1)?;
//! labels.distances(&weights, source, &[near, far]);
//! let path = match labels.distance(far) {
//!     Some(_) => labels.path_to(&weights, far)?,
//!     None => return Err(Unreachable),
//! };
//! ```
//!
//! A search between two vertices is led to its goal by a `Bound` of what is still to go, as a `FloorBound`, which takes
//! the least that pieces of each direction weigh:
//!
//! ```text
//! let bound = FloorBound::new(&weights, labels.size(), goal, floors);
//! labels.distance_between(&weights, &bound, source, goal);
//! ```
//!
//! `distance_past` goes on past its goal by a slack; what it found then leads other searches to its source, as a `SearchBound`.
//!
//! A vertex is joined to a tree, or to any other vertices, by `distance_from_any`, which begins at all of them.
//!
//! The same search finds least trees of up to five terminals, one row of numbers for each set of them (Dreyfus and Wagner
//! 1971), without what a `Family` of lower bounds shows to be too heavy; `subsets` leaves nothing out:
//!
//! ```text
//! labels.pruned(&weights, &family, &terminals, last, limit);
//! let least = labels.label(last, root);
//! ```
//!
//! `distances_from_each` finds the distances from each of some terminals alone, under a family and a limit, as labels of their
//! masks.
//!
//! A caller may lead a search of its own: it gives vertices numbers, and takes them out in the order of the keys under which
//! they wait:
//!
//! ```text
//! labels.begin(&[]);
//! labels.lower(source, 0, 0);
//! while let Some(at) = labels.next() { .. }
//! ```
//!
//! It stands on `label_search` for the search, on `steiner_tables` for rows of numbers, on `grid_graph` for `Weights`, and on
//! `grid_base` for vertices and pieces; what a caller needs of the two searches is named here once more. A search takes
//! no memory and clears nothing: its lists are reserved with the labels.
//!
//! Promised: the distance of two vertices is the least weight over all sets of allowed pieces that join them, and `None`
//! exactly where no set does; a path is a walk of allowed pieces whose weights sum to the distance. A label is the least
//! weight over all sets that join a vertex and some terminals, and `None` exactly where each such set is too heavy or there
//! is none. Distances from terminals under a limit, together with what that leaves, rise along no piece by more than it weighs.
//! Of least weights it is a law that where vias weigh nothing they are those between tiles.
#![tactic(auto)]

mod labels;
mod laws;
mod led_search;
mod nearest;
mod search_bound;

pub use label_search::{Bound, FloorBound, NoBound, apart};
pub use labels::Labels;
pub use laws::least_weights_are_those_of_tiles;
pub use search_bound::SearchBound;
pub use steiner_tables::{
    Family, NoFamily, holding_tables_bound_sets, pruned_tables_hold_completed,
};
