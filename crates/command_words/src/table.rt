//! What a table shows.

/// What a table shows: whether each layer has columns of its own.
#[derive(Clone, Copy, Debug, Drop)]
pub struct Table {
    pub layers: bool,
}
