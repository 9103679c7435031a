//! What is wrong with an edit.

ghost use Rattle.std.specs.Prelude.{◌≡◌};
ghost use Rattle.eco_route.specs.EditFaults.{edit_fault_number, edit_fault_field};

use thiserror::Error;

/// What is wrong with an edit of a design.
#[derive(Clone, Copy, Debug, Drop, PartialEq, Eq, Error)]
pub enum EditFault {
    /// No net has the id that a drop or a change names.
    #[error("no net has the id {id}")]
    UnknownId { id: u32 },
    /// A net has the id that an add names.
    #[error("the id {id} is taken")]
    DuplicateId { id: u32 },
    /// The pin, counted from 0, is outside the grid's closed rectangle.
    #[error("pin {pin} is outside the grid")]
    PinOutside { pin: u32 },
    /// The pin, counted from 0, is on a layer below 1 or above the last.
    #[error("pin {pin} is on no layer of the grid")]
    PinLayer { pin: u32 },
    /// There would be too many nets, or too many terminals of the other nets and pins of this one.
    #[error("too many nets or pins")]
    NetLimit,
    /// The width and the greatest spacing of a layer sum to more than the greatest demand.
    #[error("the net is too wide")]
    WidthLimit,
    /// No ground joins the net: this is the first of its terminals, counted from 0, that none joins to the first one.
    #[error("terminal {terminal} is not joined to the first one")]
    Unreachable { terminal: u32 },
}

impl EditFault {
    /// Its number among the faults that a report names.
    pub fn number(self) -> u32
        ensures { result ≡ edit_fault_number self }
    {
        match self {
            EditFault::UnknownId { .. } => 62,
            EditFault::DuplicateId { .. } => 63,
            EditFault::PinOutside { .. } => 64,
            EditFault::PinLayer { .. } => 65,
            EditFault::NetLimit => 66,
            EditFault::WidthLimit => 67,
            EditFault::Unreachable { .. } => 68,
        }
    }

    /// The id, the pin or the terminal that it names; none for a limit.
    pub fn field(self) -> Option<u32>
        ensures { result ≡ edit_fault_field self }
    {
        match self {
            EditFault::UnknownId { id } | EditFault::DuplicateId { id } => Some(id),
            EditFault::PinOutside { pin } | EditFault::PinLayer { pin } => Some(pin),
            EditFault::NetLimit | EditFault::WidthLimit => None,
            EditFault::Unreachable { terminal } => Some(terminal),
        }
    }
}
