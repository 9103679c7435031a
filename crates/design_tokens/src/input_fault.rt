//! Why a text is no design.

ghost use Rattle.std.specs.Prelude.{◌≡◌};
ghost use Rattle.design_tokens.specs.Faults.{input_fault_number, fields_of, wanted_of};

use crate::fault_fields::FaultFields;
use crate::wanted::Wanted;
use thiserror::Error;

/// What is wrong with a design text, at the first place in the order of reading. `at` is the place
/// of a byte, counted from 0: that of the token's first byte, or the text's length where the token is
/// missing. `id` is a net's, `pin` counts from 0 within its net, `index` counts adjustments from 0.
#[derive(Clone, Copy, Debug, Drop, PartialEq, Eq, Error)]
pub enum InputFault {
    /// A fixed word, a number or a name is missing, or another token stands there.
    #[error("{wanted} expected at byte {at}")]
    Syntax { at: usize, wanted: Wanted },
    /// A number below -2^40 or above 2^40, or a net's id that is no 32-bit number.
    #[error("number out of range at byte {at}")]
    Range { at: usize },
    /// More than 2^30 bytes.
    #[error("more than 2^30 bytes")]
    TooLong,
    /// The grid is empty, has more than 16 layers or more than 2^23 vertices.
    #[error("grid too large or empty at byte {at}")]
    GridSize { at: usize },
    /// A tile's width or height is below 1.
    #[error("tile size below 1 at byte {at}")]
    TileSize { at: usize },
    /// A capacity or level below 0 or above 2^18.
    #[error("capacity out of range at byte {at}")]
    CapacityLimit { at: usize },
    /// A width or spacing below 0 or above 1023, or a sum of the two that no wire can have.
    #[error("width or spacing out of range at byte {at}")]
    WidthLimit { at: usize },
    /// A count of nets, pins or adjustments below 0 or above its limit.
    #[error("count out of range at byte {at}")]
    NetLimit { at: usize },
    /// An earlier net has this id.
    #[error("id {id} again at byte {at}")]
    DuplicateId { at: usize, id: u32 },
    /// A pin's x or y lies outside the grid.
    #[error("pin {pin} of net {id} outside the grid at byte {at}")]
    PinOutside { at: usize, id: u32, pin: u32 },
    /// A pin's layer is none of the grid's.
    #[error("pin {pin} of net {id} on no layer at byte {at}")]
    PinLayer { at: usize, id: u32, pin: u32 },
    /// The two tiles of an adjustment are not neighbours inside the grid.
    #[error("adjustment {index} between no neighbours at byte {at}")]
    AdjustmentPlace { at: usize, index: u32 },
}

impl InputFault {
    /// Its number, 11 to 22 in the order above.
    pub fn number(self) -> u32
        ensures { result ≡ input_fault_number self }
    {
        match self {
            InputFault::Syntax { .. } => 11,
            InputFault::Range { .. } => 12,
            InputFault::TooLong => 13,
            InputFault::GridSize { .. } => 14,
            InputFault::TileSize { .. } => 15,
            InputFault::CapacityLimit { .. } => 16,
            InputFault::WidthLimit { .. } => 17,
            InputFault::NetLimit { .. } => 18,
            InputFault::DuplicateId { .. } => 19,
            InputFault::PinOutside { .. } => 20,
            InputFault::PinLayer { .. } => 21,
            InputFault::AdjustmentPlace { .. } => 22,
        }
    }

    /// What it names by number: its place, and then what stands at fault there.
    pub fn fields(self) -> FaultFields
        ensures { result ≡ fields_of self }
    {
        match self {
            InputFault::TooLong => FaultFields::first(0, [0; 3]),
            InputFault::Syntax { at, .. }
            | InputFault::Range { at }
            | InputFault::GridSize { at }
            | InputFault::TileSize { at }
            | InputFault::CapacityLimit { at }
            | InputFault::WidthLimit { at }
            | InputFault::NetLimit { at } => FaultFields::first(1, [at as u64, 0, 0]),
            InputFault::DuplicateId { at, id } => {
                FaultFields::first(2, [at as u64, u64::from(id), 0])
            }
            InputFault::PinOutside { at, id, pin } | InputFault::PinLayer { at, id, pin } => {
                FaultFields::first(3, [at as u64, u64::from(id), u64::from(pin)])
            }
            InputFault::AdjustmentPlace { at, index } => {
                FaultFields::first(2, [at as u64, u64::from(index), 0])
            }
        }
    }

    /// The word that was wanted, where one was.
    pub fn wanted(self) -> Option<Wanted>
        ensures { result ≡ wanted_of self }
    {
        match self {
            InputFault::Syntax { wanted, .. } => Some(wanted),
            _ => None,
        }
    }
}
