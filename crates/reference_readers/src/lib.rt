//! Reference readers of texts, which are slow, beside the fast ones.
//!
//! A reference reader answers by a method that is evident and slow, so that a reader who trusts it trusts the definition
//! that its contract cites, and the tests compare it with the reader that is used:
//!
//! ```text
//! let tokens = tokens_by_splitting(alloc, text)?;    // as text_scan's Scanner::token
//! let blocks = blocks_by_automaton(alloc, text)?;    // as route_text::read_routes
//! ```
//!
//! It stands on `text_scan` and `route_text`, whose readers and definitions it compares, and on `grid_graph` for names.
//! Nothing stands on it. Reference programs for pieces, distances and trees are in `reference_programs`.
//!
//! The readers stand with the tests that call them, so that they are proved once. Only the types that their definitions name
//! stand without a test.
//!
//! Promised: each answer is the one of the definition.
#![tactic(auto)]

#[cfg(test)]
mod comparing_tests;
#[cfg(test)]
mod reading_tests;
#[cfg(test)]
mod reference_blocks;
#[cfg(test)]
mod reference_numbers;
#[cfg(test)]
mod reference_tokens;
mod taken;
mod word;
