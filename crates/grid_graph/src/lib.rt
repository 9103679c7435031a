//! Capacities, kinds and grounds: the routing grid and the nets of a design.
//!
//! A grid has a capacity on each edge number, and from it the edge's kind:
//!
//! ```text
//! let mut grid = Grid::new(alloc, parts)?;
//! grid.adjust(Edge(0), 8);
//! let open = grid.allows(Ground::Open, Piece::Edge(Edge(0)));
//! ```
//!
//! It stands on `grid_base`. It promises that capacities, kinds, demands, tiles and grounds are exactly those of
//! its definitions, and that one adjustment changes one edge alone.
#![tactic(auto)]

mod components;
mod components_of;
mod design;
mod first_apart;
mod first_capacity;
mod floored_weights;
mod floors;
mod grid;
mod grid_parts;
mod grid_refusal;
mod ground;
mod ground_components;
mod ground_error;
mod ground_pieces;
mod kind;
mod laws;
mod limits;
mod name;
mod net_spec;
mod nets;
mod terms;
mod tiles;
mod unreachable_net;
mod weights;

pub use design::Design;
pub use floored_weights::FlooredWeights;
pub use floors::Floors;
pub use grid::Grid;
pub use grid_parts::GridParts;
pub use grid_refusal::GridRefusal;
pub use ground::Ground;
pub use ground_components::GroundComponents;
pub use ground_error::GroundError;
pub use kind::Kind;
pub use laws::{allowed_are_pieces, written_positions_fit};
pub use limits::{MAX_CAPACITY, MAX_DEMAND, MAX_NETS, MAX_NUMBER, MAX_PINS, MAX_WEIGHT};
pub use name::Name;
pub use net_spec::NetSpec;
pub use nets::{DifferentIds, Nets};
pub use terms::{Distinct, Terms, terms_of};
pub use tiles::{tile_index, written_position};
pub use unreachable_net::UnreachableNet;
pub use weights::Weights;
