//! Lower bounds by landmarks: a few vertices from which all distances are known.
//!
//! Two vertices are at least as far apart as their distances from a landmark differ, and so is each set of vertices as its
//! least and its greatest distance do. Distances count what pieces weigh beyond floors, so the box of the vertices counts too.
//! Where many searches are made at the same weights this leads them better than floors alone, however much weights vary (Goldberg and Harrelson, "Computing the shortest path: A* search meets graph
//! theory", 2005):
//!
//! ```text
//! let mut landmarks = Landmarks::new(alloc, size)?;
//! landmarks.renew(&weights, &mut labels);
//! let family = LandmarkFamily::new(&weights, size, &terminals, &landmarks);
//! let least = least_at_root(&weights, &family, &terminals, guess, FIRST_SLACK, &mut labels);
//! ```
//!
//! It stands on `shortest_paths` for the distances, on `steiner_exact` for extents of terminals and on `steiner_tables` for what
//! a family of bounds is.
//!
//! Promised: the numbers of a landmark rise along no piece by more than it weighs, and what follows from them is a family of
//! lower bounds, whatever vertices the landmarks are.
#![tactic(auto)]

mod beyond_floors;
mod distances;
mod landmark_family;
mod landmarks;
mod spans;

pub use landmark_family::LandmarkFamily;
pub use landmarks::{LANDMARKS, Landmarks};
