//! Straight runs of pieces: many pieces told by a direction, a first vertex and a count.
//!
//! ```text
//! let walls = LineCounts::of(alloc, &grid, Kind::Wall)?;            // once for a grid
//! if let Some(run) = run_between(size, from, to) {
//!     let on_wall = walls.count(run) > 0;
//!     runs.push(run)?;
//! }
//! let runs = merged(alloc, size, runs)?;                            // disjoint, and as long as can be
//! let sure = joins_surely(alloc, size, runs.as_slice(), terminals)?;
//! let mut sums = LoadSums::none(alloc, size)?;                      // once for all nets
//! sums.add_net(&grid, width, runs.as_slice());
//! let loads = sums.finish();
//! ```
//!
//! It stands on `groups`, `tree_set`, `grid_graph` and `grid_base`. Want of memory alone is a free answer.
//!
//! Promised: merged runs have the same pieces, none of them twice, and no two of them overlap or adjoin on one line; a count is
//! that of the run's edges of the kind; the loads are those of the sets of the added nets; and where `joins_surely` says so,
//! walks in the runs' pieces join the terminals; a no promises nothing. Nothing here takes steps for each piece, but for
//! `set_of_runs`, the vias of a stack, and one pass over the edges of the grid before the first run and behind the last.

#![tactic(auto)]

mod columns;
mod counted;
mod counting;
mod direction;
mod joining;
mod kinds;
mod line_counts;
mod linking;
mod listed;
mod load_sums;
mod lookup;
mod marks;
mod merging;
mod run;
mod spanned;
mod summing;
mod sweep;

pub use counted::piece_count;
pub use direction::Direction;
pub use joining::joins_surely;
pub use line_counts::LineCounts;
pub use listed::set_of_runs;
pub use load_sums::LoadSums;
pub use merging::merged;
pub use run::Run;
pub use spanned::run_between;
