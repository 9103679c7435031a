//! The text of edits of a routed design: nets that are dropped, added and changed.
//!
//! ```text
//! let edits = read_edits(alloc, b"edits 2 drop 7 add clk 9 1 1 5 5 1")?;
//! edits[0];                                 // Edit::Drop { id: 7 }
//! edits[1];                                 // Edit::Add { name: clk, id: 9, width: 1, pins: (5,5,1) }
//! ```
//!
//! It stands on `lists` and `grid_graph` for names and limits, and on `text_scan` for tokens.
//!
//! Promised: `read_edits` answers the edits that the text names, each with its numbers in their ranges, or the place of the
//! first token that is none of the form; only want of memory is left open.

#![tactic(auto)]

mod edit;
mod edit_text_error;
mod fields;
mod reading;
mod tokens;

pub use edit::{Edit, Pin, Pins};
pub use edit_text_error::EditTextError;
pub use reading::{MAX_EDITS, read_edits};
