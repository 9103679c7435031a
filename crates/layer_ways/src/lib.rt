//! Which way the layers of a grid lead, and what the vias of ways between them weigh at least.
//!
//! ```text
//! let tables = LayerTables::of(alloc, &grid)?;
//! let has_rows = tables.directions.at(layer).along_y;
//! let vias = tables.vias.rests(from, to);
//! ```
//!
//! It stands on `grid_graph` for grids, and on `grid_base` for vertices and edges.
//!
//! Promised: the tables are as long as the grid has layers, what stands at a place of a table is read there, and two rests are put
//! together as is said. That the directions are those of the grid, and that no way has fewer vias, is tested, not promised.
#![tactic(auto)]

mod directions;
mod fewest_vias;
mod layer_tables;
mod rests;
mod unit;

pub use directions::{Direction, Directions};
pub use fewest_vias::FewestVias;
pub use layer_tables::LayerTables;
pub use rests::Rests;
pub use unit::UNIT;
