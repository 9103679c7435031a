//! Reference programs for sets of pieces, distances, trees and guides, which are slow, beside the fast ones.
//!
//! A reference program answers by a method that is evident and slow, so that a reader who trusts it trusts the definition
//! that its contract cites, and the tests compare it with the program that is used:
//!
//! ```text
//! let joined = joins_by_merging(alloc, size, pieces, terminals)?;          // as tree_set::joins
//! let distances = reference_distances(alloc, size, weighed_pieces, source)?;    // as shortest_paths::Labels::distances
//! let least = reference_least_weight(alloc, size, weighed_pieces, terminals)?; // of a least tree, where pieces are few
//! ```
//!
//! It stands on the libraries whose programs and definitions it compares: `tree_set`, `guide_text`, `shortest_paths`,
//! `steiner_exact` and `steiner_span`, over `grid_graph` and `grid_base`, and on `worked_designs`. Nothing stands on it. Those
//! for texts are in `reference_readers`.
//!
//! The programs stand with the tests that call them, so that they are proved once.
//!
//! Promised: each answer is the one of the definition, where a contract says so.

#![tactic(auto)]

#[cfg(test)]
mod comparing_tests;
#[cfg(test)]
mod covering_tests;
#[cfg(test)]
mod distance_tests;
#[cfg(test)]
mod draw_tests;
#[cfg(test)]
mod listed;
#[cfg(test)]
mod listing;
#[cfg(test)]
mod piece_sets;
#[cfg(test)]
mod reference_joins;
#[cfg(test)]
mod reference_paths;
#[cfg(test)]
mod reference_weights;
#[cfg(test)]
mod size_tests;
#[cfg(test)]
mod span_tests;
#[cfg(test)]
mod tree_tests;
#[cfg(test)]
mod weight_tests;
