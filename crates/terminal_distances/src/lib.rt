//! Distances from terminals, which lead the search for a tree.
//!
//! Where weights differ much, the box of some terminals says little of what joins them: a tree may weigh many times as much. The
//! distance from each terminal alone says more, costs one search each, and is a lower bound for each set of terminals that has
//! it. So a family of bounds leads the search for the distances from one terminal, and, raised to these, that for the distances
//! from the others; raised to all, it leads the table of the sets:
//!
//! ```text
//! rows.root.distances_from_each(&weights, &bounds, terminals, root, root + 1, limit);
//! let rooted = DistanceFamily::new(&bounds, &rows.root, count, root, root + 1, limit);
//! rows.others.distances_from_each(&weights, &rooted, terminals, 0, root, limit);
//! let led = DistanceFamily::new(&rooted, &rows.others, count, 0, root, limit);
//! labels.pruned(&weights, &led, terminals, last, limit);
//! ```
//!
//! It stands on `shortest_paths` for labels and their searches, on `steiner_tables` for families and masks, on `label_search` for
//! limits, and on `grid_base` for vertices. `DistanceRows` take memory once, and searches none.
//!
//! Promised: a family that is raised so is a family again, and each of its numbers is the greatest of its own and of those that
//! the rows of the mask's terminals tell. How much that leaves out of a search no clause says.
#![tactic(auto)]

mod distance_family;
mod distance_rows;

pub use distance_family::DistanceFamily;
pub use distance_rows::DistanceRows;
