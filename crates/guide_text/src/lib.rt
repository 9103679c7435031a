//! Guides for a detailed router: for each net the tiles of its route, as rectangles of tiles on layers.
//!
//! ```text
//! let guides = guides_of(alloc, &design, trees.as_slice())?;
//! guides[0].rects.list();                   // Rect { x1: 0, y1: 0, x2: 30, y2: 10, layer: 1 }
//! write_guides(desk, Port::GuideOut, guides.as_slice())?;
//! // a 0
//! // (
//! // 0 0 30 10 1
//! // )
//! let guides = read_guides(alloc, bytes)?;
//! covers(alloc, &design, 0, &trees[0], &guides[0])?; // true
//! ```
//!
//! It stands on `tree_set`, `grid_graph` and `grid_base` for the routes, on `lists`, on `gr_desk` to write to, and on
//! `text_scan` to read.
//!
//! Promised: a net's rectangles are the longest ones of the tiles of its route, in order. They share no tile and cover these
//! tiles and no others; `covers` says of any guide whether its rectangles consist of whole tiles and cover just a route's.
//! `write_guides` writes exactly the text of the guides, or some part from its front where a write failed, and takes no
//! memory. `read_guides` answers the guides that a text names, or the first place at which it names none. By the laws of
//! `laws.rt` a written text reads back.

#![tactic(auto)]

mod borders;
mod covering;
mod guide;
mod guide_error;
mod guides;
mod laws;
mod listed;
mod reading;
mod rect;
mod tile_rect;
mod tile_rects;
mod tiles;
mod tokens;
mod whole_tiles;
mod writing;

pub use borders::is_near;
pub use covering::covers;
pub use guide::Guide;
pub use guide_error::GuideError;
pub use guides::guides_of;
pub use laws::{guides_cover_their_routes, written_guides_read_back};
pub use reading::read_guides;
pub use rect::{Rect, Rects};
pub use writing::write_guides;
