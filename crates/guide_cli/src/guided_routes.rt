//! The guides of routes.

ghost use Rattle.std.specs.Prelude.{◌≡◌};
ghost use Rattle.gr_desk.specs.Pens.{Puts, pen_told, HasSameDesk};
ghost use Rattle.guide_cli.specs.GuideLines.{guided_text};

use command_runs::{Said, put_line};
use gr_desk::{Desk, Pen};
use guide_text::Guide;

/// The guides of all nets, of routes that are accepted.
#[derive(Drop)]
pub struct GuidedRoutes {
    pub guides: Vec<Guide>,
}

impl Said for GuidedRoutes {
    ghost may = { λ _. Unit {0} };

    ghost text = { guided_text };

    fn put<D: Desk>(&self, pen: &mut Pen<'_, D>) {
        put_line(pen, b"guides", &[self.guides.len() as u64]);
    }
}
