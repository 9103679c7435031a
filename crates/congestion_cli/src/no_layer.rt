//! That a design has not the layer that is asked for.

ghost use Rattle.std.specs.Prelude.{◌≡◌};
ghost use Rattle.gr_desk.specs.Pens.{HasSameDesk, Puts, pen_told};
ghost use Rattle.congestion_cli.specs.NoLayers.{no_layer_text};

use command_runs::{Said, put_line};
use gr_desk::{Desk, Pen};

/// The number of this objection, behind those of the judge.
const NO_LAYER: u64 = 53;

/// The layer that is asked for, and how many there are.
#[derive(Clone, Copy, Debug, Drop, PartialEq, Eq)]
pub(crate) struct LayerMissing {
    pub asked: u32,
    pub there: u32,
}

impl Said for LayerMissing {
    ghost may = { λ _. Unit {0} };

    ghost text = { no_layer_text };

    fn put<D: Desk>(&self, pen: &mut Pen<'_, D>) {
        put_line(
            pen,
            b"no",
            &[NO_LAYER, u64::from(self.asked), u64::from(self.there)],
        );
    }
}
