//! What a search knows of a vertex.

use crate::road::Road;
use crate::side::Side;

/// What the searches know of a vertex, in 12 bytes. All but the edges counts only under the number of the present search.
/// A cost that 32 bits can't hold stands as the greatest number: such ways are found, in whatever order.
#[derive(Clone, Copy)]
pub(crate) struct Label {
    /// What the way to it costs.
    pub(crate) cost: u32,
    /// The search that reached it last.
    pub(crate) search: u32,
    /// The neighbour that it was reached from.
    pub(crate) back: Side,
    /// Whether its cost stands.
    pub(crate) is_taken: bool,
    /// The edge to the next column.
    pub(crate) east: Road,
    /// The edge to the next row.
    pub(crate) north: Road,
}

impl Label {
    /// That of a vertex which no search has reached, between walls.
    pub(crate) const BLANK: Label = Label {
        cost: 0,
        search: 0,
        back: Side::West,
        is_taken: false,
        east: Road::Wall,
        north: Road::Wall,
    };
}
