//! Trees, loads and measures: the sets of pieces that nets are routed with, and what they use of the edges. A set may
//! hold cycles and loose pieces.
//!
//! ```text
//! let tree = Tree::of(pieces);                                      // in any order, with repeats
//! if inside(&grid, Ground::Open, &tree) && joins(alloc, size, &tree, terminals)? {
//!     add_load(&grid, width, &tree, loads.as_mut_slice());
//! }
//! let measure = measure_of(alloc, &design, trees.as_slice())?;      // overflow, wirelength, peak
//! ```
//!
//! It stands on `grid_base` and `grid_graph`, whose pieces, walks, grids and designs it speaks of, on `fractions` for the
//! peak, and on `edge_prices` for the budget; `joins` is a flood of `grid_base`.
//!
//! Promised: a tree is the set of the pieces that it was made of, as a strictly rising list; `joins` and `inside`
//! are true exactly where walks in the set join the terminals and where the ground allows every piece; and loads and
//! measures are exactly those of `specs/Loads.antt` and `specs/Measures.antt`.

#![tactic(auto)]

mod joining;
mod laws;
mod load;
mod load_measure;
mod measure;
mod measures;
mod overflow;
mod peak;
mod reached;
mod tree;
mod within;

pub use edge_prices::Budget;
pub use fractions::Fraction;
pub use joining::joins;
pub use laws::loads_add_up;
pub use load::{add_load, add_pieces};
pub use load_measure::measure_of_loads;
pub use measure::Measure;
pub use measures::measure_of;
pub use tree::Tree;
pub use within::inside;
