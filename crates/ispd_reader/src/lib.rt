//! Reads a chip design: from the bytes of a text in the ISPD 2008 contest's input form to the
//! design that its tokens name.
//!
//! ```text
//! let design = read_design(alloc, bytes)?;  // a text at once
//! let mut reader = Reader::new(alloc)?;     // or piece by piece
//! reader.feed(piece)?;
//! let design = reader.end()?;
//! ```
//!
//! It stands on `text_scan` for where tokens begin and end, on `design_tokens` for what each is and for
//! the faults, on `grid_base` for sizes and vertices, and on `grid_graph` for grids, nets and designs.
//!
//! Promised: a `Reader` ends with the design that the joined pieces name, or with what is wrong with
//! them at the first place in the order of reading, however the text is cut; `read_design` answers
//! that of a text at once. Only want of memory is left open.

#![tactic(auto)]

mod adjustment;
mod adjustment_stage;
mod adjustments_reader;
mod body;
mod header_reader;
mod header_stage;
mod header_steps;
mod laws;
mod layer_list;
mod layer_lists;
mod machine;
mod machine_stage;
mod net_numbers;
mod net_stage;
mod nets_reader;
mod present_net;
mod progress;
mod reader;
mod reading;
mod tile_stage;

pub use design_tokens::{FaultFields, InputError, InputFault, Wanted};
pub use laws::{designs_of_a_text_are_alike, names_of_a_design};
pub use reader::{MAX_BYTES, Reader};
pub use reading::read_design;
