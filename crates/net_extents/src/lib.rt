//! How far nets reach, and how many pieces each of their sets has at least, as far as boxes and layers tell.
//!
//! ```text
//! let extents = extents_of(alloc, &design)?;
//! let least = extents[net].least;
//! ```
//!
//! It stands on `grid_graph` for designs, on `lists` for their nets, and on `grid_base` for vertices and edges.
//!
//! Promised: each extent is that of its net: of the tiles, columns, rows and layers of its terminals, and of the lowest layers with
//! open edges. That each set of the net has so many pieces as the extent says is tested, not promised.
#![tactic(auto)]

mod extent;
mod extents;
mod lowest_layers;
mod spread;

pub use extent::Extent;
pub use extents::extents_of;
