//! What a search sees of all other nets.

use crate::stage::Stage;

/// What a search sees of all other nets.
#[derive(Drop, Clone, Copy)]
pub struct Field<'a> {
    /// The room of each edge number: its capacity less its load, which is below 0 where it is overfull. The greatest or the least
    /// number stands for all beyond it: no demand comes near these, so they weigh the same.
    pub rooms: &'a [i16],
    /// The price of each edge number.
    pub prices: &'a [u16],
    /// The distance of each tile from one tile at these prices; an empty list where there is none.
    pub landmark: &'a [u32],
    /// How rooms and prices weigh.
    pub stage: Stage,
}
