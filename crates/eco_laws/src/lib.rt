//! Laws of edits: what comes of them, whichever way the design was read.
//!
//! It stands on `eco_route` for edits, and on `ispd_reader` for the design of a text. Nothing is computed here.
//!
//! Promised: where a text has the header and the adjustments of another one, and the nets of that one with edits made on the list
//! of nets, it names the design that these edits make. What edits make of designs that are alike is alike, and the first that is
//! refused is the same one, for the same fault.

#![tactic(auto)]

mod laws;

pub use laws::{alike_designs_are_edited_alike, an_edited_text_names_the_edited_design};
