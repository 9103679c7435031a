//! A stretch of a text.

/// The bytes from place `start` up to, and without, place `end`. Places count from 0.
#[derive(Clone, Copy, Debug, PartialEq, Eq)]
pub struct Span {
    pub start: usize,
    pub end: usize,
}
