//! Random words that a seed determines.
//!
//! ```text
//! let mut words = SeedWords::of(7, 0);   // stream 0 of seed 7
//! words.draw(4);                         // 3, the first word modulo 4
//! ```
//!
//! It stands on the kit's `rand_chacha`.
//!
//! Promised: the words of a stream are those of ChaCha8 under the seed, in their order, none left out. No call takes
//! memory.

#![tactic(auto)]

mod stream;

pub use stream::SeedWords;
