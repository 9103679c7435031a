//! What a load found.

/// A word's number, with the value that a load found there.
#[derive(Clone, Copy, Debug, Drop, PartialEq, Eq)]
pub struct Loaded {
    pub word: u32,
    pub value: u64,
}
