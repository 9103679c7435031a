//! Tables and moats that anybody brings: each is tested, and where it holds it bounds what every set that joins the terminals
//! weighs.
//!
//! ```text
//! if moats_hold(&weights, size, terminals, &moats, &mut labels) {
//!     // the sum of the radii is a lower bound
//! }
//! if table_holds(&weights, size, terminals, &table) {
//!     // the number of all terminals but the last one, at the last one, is a lower bound
//! }
//! ```
//!
//! It stands on `lower_bound` for what moats are and the law of them, on `shortest_paths` for searches, on `steiner_tables` for
//! the law of tables, and on `grid_graph` and `grid_base`.
//!
//! Promised: a table or moats are accepted exactly where they hold, whoever made them, and then no set that joins the
//! terminals weighs less.
#![tactic(auto)]

mod holding;
mod limits;
mod moats;
mod own;
mod radii;
mod rising;
mod room;
mod rows;
mod splitting;
mod table;

pub use holding::{all_but_root, table_holds};
pub use limits::MAX_NUMBER;
pub use moats::Moats;
pub use radii::Radii;
pub use room::moats_hold;
pub use rows::Rows;
pub use table::Table;
