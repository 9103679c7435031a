//! A word of a text.

/// A word of a text: the place of its first byte, counted from 0, and its bytes.
#[derive(Drop)]
pub(crate) struct Word {
    pub place: usize,
    pub bytes: Vec<u8>,
}
