//! The numbers of a routing grid: its vertices, its edges and its vias, and what it means that pieces join vertices.
//!
//! A grid has columns, rows and layers, each counted from 0. A vertex is one tile of one layer, and a piece is an
//! edge or a via: an edge goes from a vertex to the next column or the next row, a via to the next layer.
//!
//! ```text
//! let size = Size::new(2048, 2048, 2)?;
//! let v = size.vertex_of(Place { col: 5, row: 3, layer: 1 })?;
//! let w = size.vertex_of(Place { col: 6, row: 3, layer: 1 })?;
//! let edge = size.piece_between(v, w)?;   // Piece::Edge(Edge(2 * v.0))
//! ```
//!
//! It stands on std alone, and on thiserror for the one error type. `flood` alone takes memory, for the vertices that it
//! meets.
//!
//! Promised: each call gives exactly the number that `specs/Numbers.antt` defines, and `None` or `false` exactly
//! where there is none. `specs/Walks.antt` defines walks and when a set of pieces joins a set of vertices, on which
//! the crates above rest; the laws of `laws.rt` say that these words mean what they should. `flood` marks exactly the
//! vertices that walks join to its start, in whatever pieces (`PieceSet`) and with whatever marks (`Marks`).
#![tactic(auto)]

mod axis;
mod edge;
mod flooding;
mod laws;
mod limits;
mod marks;
mod no_memory;
mod piece;
mod piece_set;
mod place;
mod sides;
mod size;
mod spot;
mod spot_sides;
mod vertex;
mod via;

pub use axis::Axis;
pub use edge::Edge;
pub use flooding::flood;
pub use laws::{
    fewer_than_two_are_joined, more_pieces_join_more, no_pieces_join_no_two,
    reached_from_one_are_joined, straight_runs_join_their_ends, walks_are_an_equivalence,
};
pub use limits::{MAX_LAYERS, MAX_VERTICES};
pub use marks::Marks;
pub use no_memory::NoMemory;
pub use piece::Piece;
pub use piece_set::PieceSet;
pub use place::Place;
pub use sides::{nth_step, steps};
pub use size::Size;
pub use spot::Spot;
pub use spot_sides::spot_steps;
pub use vertex::Vertex;
pub use via::Via;
