//! Reads a text of bytes token by token, and number by number, with the place of each.
//!
//! ```text
//! let mut scanner = Scanner::over(b"num net 12");
//! scanner.token();                          // Some(Span { start: 0, end: 3 })
//! scanner.token();                          // Some(Span { start: 4, end: 7 })
//! scanner.number(0, 10);                    // Err(NumberFault::OutOfRange { at: 8 })
//! ```
//!
//! It stands on no other crate of this repository, and no call takes memory.
//!
//! Promised: each call answers exactly the next token, number or byte that is left of the text,
//! or exactly why there is none, and says where it stopped.

#![tactic(auto)]

mod laws;
mod magnitude;
mod number;
mod number_fault;
mod number_front;
mod numeral;
mod runs;
mod scanner;
mod short_digits;
mod span;

pub use laws::{printed_numbers_read_back, tokens_are_longest_runs};
pub use number::Number;
pub use number_fault::NumberFault;
pub use scanner::Scanner;
pub use span::Span;
