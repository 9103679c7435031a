//! The text of routes: written for a design with one set of pieces per net, and read back as blocks.
//!
//! ```text
//! write_routes(desk, Port::Report, &design, trees.as_slice())?;
//! // clock 7
//! // (5,25,1)-(45,25,1)
//! // (25,25,1)-(25,25,2)
//! // !
//! let blocks = read_routes(alloc, bytes)?;
//! blocks[0].segments.list();                // a wire from (5,25,1) to (45,25,1), and a via
//! let blocks = read_block_list(alloc, bytes)?;    // the same blocks in little memory, to be lent by `Blocks`
//! ```
//!
//! It stands on `tree_set`, `grid_graph` and `grid_base` for the routes, on `gr_desk` to write to, and on `text_scan` to
//! read.
//!
//! Promised: `write_routes` writes exactly the text of the nets with their sets, or some part from its front where a
//! write failed, and takes no memory. `read_routes` and `read_block_list` answer the blocks that a text names, or the
//! first place at which it is no list of blocks; only want of memory is left open. By the laws of `laws.rt` a written
//! text reads back: as one block per net, which has the net's name and id and names exactly the pieces of its set.

#![tactic(auto)]

mod block;
mod block_head;
mod block_heading;
mod block_list;
mod block_ref;
mod blocks;
mod laws;
mod nearby;
mod net;
mod parts;
mod point;
mod points;
mod position;
mod reading;
mod route_error;
mod routes;
mod runs;
mod segment;

pub use block::Block;
pub use block_list::BlockList;
pub use block_ref::BlockRef;
pub use blocks::Blocks;
pub use laws::{
    no_bound_decides, runs_are_longest, segments_name_their_pieces, written_routes_read_back,
};
pub use point::Point;
pub use points::put_point;
pub use reading::{read_block_list, read_routes};
pub use route_error::RouteError;
pub use routes::write_routes;
pub use segment::{Segment, Segments};
