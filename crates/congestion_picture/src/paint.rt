//! What the paths of a map are drawn of.

ghost use Rattle.std.specs.Prelude.{◌≡◌};
ghost use Rattle.congestion_picture.specs.CellMaps.{covers, has_frame};

use congestion_cells::Cell;

/// Which cells a path shows.
#[derive(Clone, Copy, Debug, Drop, PartialEq, Eq)]
pub enum Paint {
    /// Those of a class.
    Class(u8),
    /// Those with a closed tile edge.
    Closed,
    /// Those with a tile edge that is closed on some layer.
    PartlyClosed,
    /// Those with an overfull edge.
    Overfull,
}

impl Paint {
    /// Whether the path shows a cell.
    pub(crate) fn covers(self, cell: Cell) -> bool
        ensures { result ≡ covers self cell }
    {
        match self {
            Paint::Class(class) => cell.class == class,
            Paint::Closed => cell.is_closed,
            Paint::PartlyClosed => cell.is_partly_closed,
            Paint::Overfull => cell.is_overfull,
        }
    }

    /// Whether it is drawn as a frame around cells, and not as a stroke through them.
    pub(crate) fn has_frame(self) -> bool
        ensures { result ≡ has_frame self }
    {
        matches!(self, Paint::Overfull)
    }
}
