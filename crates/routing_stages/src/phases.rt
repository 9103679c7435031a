//! The sets of all phases.

ghost use Rattle.std.specs.Prelude.{◌≡◌};

use crate::trees::Trees;
use std::marker::Model;

/// One set for each net in each phase, the first phase first.
#[derive(Debug, Drop)]
pub struct Phases {
    phases: Vec<Trees>,
}

impl Model for Phases {
    ghost use Rattle.std.specs.Prelude.{List};
    ghost use Rattle.grid_base.specs.declared.piece.Piece.{Piece};

    ghost Value = { List (List (List Piece)) };

    ghost view = { λ s. s.phases.items };
}

impl Phases {
    /// These phases.
    pub fn of(phases: Vec<Trees>) -> Phases
        ensures { result ≡ phases.items }
    {
        Phases { phases }
    }

    /// The phases.
    pub fn list(&self) -> &[Trees]
        ensures { result.now ≡ self.now }
    {
        self.phases.as_slice()
    }

    /// The phases, taken out.
    pub fn into_list(self) -> Vec<Trees>
        ensures { result.items ≡ self }
    {
        self.phases
    }
}
