//! Generated designs: the text of a design that is drawn from a seed.
//!
//! ```text
//! let shape = Shape { cols: 2, rows: 2, layers: 2, nets: 1 };
//! make(desk, Port::DesignOut, 7, shape)?;
//! // grid 2 2 2
//! // vertical capacity 0 8
//! // horizontal capacity 8 0
//! // minimum width 1 1
//! // minimum spacing 1 1
//! // via spacing 1 1
//! // 0 0 10 10
//! // num net 1
//! // n0 0 6 1
//! // 8 0 1
//! // 1 17 1
//! // 11 19 1
//! // 14 6 1
//! // 1 7 1
//! // 11 7 1
//! // 0
//! ```
//!
//! It stands on `gr_desk` to write to, and on `seed_streams` for the words that a design is drawn from.
//!
//! Promised: `make` writes exactly the text that `specs/MadeText.antt` gives for the seed and the shape, or some part from
//! its front where a write failed. It keeps no list and takes no memory: each word is drawn where it is written.

#![tactic(auto)]

mod adjustments;
mod heading;
mod lines;
mod making;
mod nets;
mod random_words;
mod shape;

pub use making::make;
pub use shape::Shape;
