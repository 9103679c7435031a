//! What a token of a design text is: a word, a name or a number, also while the token is cut; and what
//! is wrong with one.
//!
//! ```text
//! let mut token = CutToken::new(alloc);
//! token.begin(7, b'1', false)?;     // its first byte, at place 7 of the text
//! token.extend(b"2")?;              // more of it, out of the next piece
//! capacity(&token)                  // Ok(12)
//! word(&token, Wanted::Grid)        // Err(Input(Syntax { at: 7, wanted: Grid }))
//! ```
//!
//! It stands on `text_scan` for what tokens and numbers are, on `grid_graph` for the limits of a grid,
//! and on `grid_base`. Which tokens a design has, and in which order, `ispd_reader` says.
//!
//! Promised: however its bytes come, a token is this word, name or number exactly where reading the text
//! at once finds it so, and is refused for what is refused there (`ReadsNext`). Only want of memory is
//! left open.

#![tactic(auto)]

mod cut_token;
mod fault_fields;
mod first_bytes;
mod input_error;
mod input_fault;
mod numeral;
mod values;
mod wanted;

pub use cut_token::CutToken;
pub use fault_fields::FaultFields;
pub use input_error::InputError;
pub use input_fault::InputFault;
pub use values::{capacity, count, name, number, side, spacing, width, word};
pub use wanted::Wanted;
