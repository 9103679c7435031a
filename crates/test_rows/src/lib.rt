//! Tables of tests, each one text: a row is a line, bars part its fields, and a line that begins with `#` is a comment.
//!
//! ```text
//! struct Sets;
//!
//! impl Answers for Sets {
//!     fn answer(&self, alloc: Global, given: &'static str) -> Result<String, Fail> {
//!         Ok(set_text(alloc, &set_of(alloc, given)?)?)
//!     }
//! }
//!
//! // in a module of tests, with the attribute of one
//! fn sets_are_written_as_they_are_read(rt: HostRuntime) -> Result<(), Fail> {
//!     check_rows(rt.alloc(), TABLE, &Sets)
//! }
//! ```
//!
//! What a field stands for and what is found as the text of a field have one form: a number, a piece and a vertex stand
//! behind a blank, and a set of pieces has a semicolon behind it. It stands on `tree_set` and `grid_base`. All test crates
//! stand on it, and nothing that a run uses.
//!
//! Promised: a table has rows. A malformed row is refused: one of more or fewer fields or numbers, or with something else
//! where a number or a piece has to stand.

#![tactic(auto)]

mod fault;
mod numbers;
mod rows;
mod shapes;
mod tables;

pub use fault::RowFault;
pub use numbers::{number_of, numbers_of, numbers_text, three_numbers, two_numbers};
pub use rows::{
    agree, bytes_of, five_fields, four_fields, paragraphs_of, rows_of, text_of, three_fields,
    two_fields,
};
pub use shapes::{
    fraction_text, piece_of, piece_text, set_of, set_text, sets_of, sets_text, size_of, vertices_of,
};
pub use tables::{Answers, check_rows};
