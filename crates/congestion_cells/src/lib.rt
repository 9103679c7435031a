//! How full the tile edges of a grid are, and the cells that a map of them shows.
//!
//! ```text
//! let shown = ShownLayers::all(grid.size());
//! let edges = edge_cells(alloc, &grid, loads, shown)?;      // one cell per tile edge
//! let raster = Raster::of(grid.size(), Direction::X);
//! let cells = map_cells(alloc, raster, edges.as_slice())?;  // row by row, from the lowest row on
//! ```
//!
//! A tile edge leads from a tile to the next column or the next row; it stands for the edges over it, of the layers that are
//! shown. Its load and its capacity are the sums of theirs, and its class says between which percents load/capacity lies.
//!
//! It stands on `grid_graph` and `grid_base`.
//!
//! Promised: each cell has the class of its fullest tile edge, and is overfull exactly where one of the edges that it stands for
//! carries more than its capacity, in the words of `specs/TileUses.antt` and `specs/Cells.antt`.

#![tactic(auto)]

mod cell;
mod cells_of_edges;
mod cells_of_tiles;
mod classes;
mod direction;
mod priced;
mod raster;
mod shown_layers;
mod tile_uses;

pub use cell::Cell;
pub use cells_of_edges::edge_cells;
pub use cells_of_tiles::map_cells;
pub use classes::{BORDERS, class_of};
pub use direction::Direction;
pub use priced::cut_edges;
pub use raster::Raster;
pub use shown_layers::ShownLayers;
pub use tile_uses::{TileUse, tile_edges, tile_use};
