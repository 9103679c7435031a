//! The worked designs: texts of a few lines that a reader can work out by hand.
//!
//! ```text
//! let design = design_of(alloc, "CROWDED_ROW")?;
//! let without_nets = design_of(alloc, "ROW 119 144 0;0;")?;
//! ```
//!
//! It stands on `ispd_reader`, `grid_graph` and `test_rows`. Crates of tests stand on it, `run_tables`
//! among them, and nothing that a run uses.
//!
//! Promised: nothing. The texts are what they are, and the tests say what is read of them.

#![tactic(auto)]

mod named;
mod texts;

pub use named::{design_of, design_text};
pub use texts::{LAYERED, ROW, STACK, crowd, design, vast};
