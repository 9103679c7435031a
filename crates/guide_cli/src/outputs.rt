//! The file of guides.

ghost use Rattle.gr_desk.specs.declared.port.Port.TheVariants.{GuideOut};
ghost use Rattle.guide_text.specs.GuideText.{guides_text};
ghost use Rattle.command_runs.specs.Outputs.{Makes};

use gr_desk::{Desk, Failed, Port};
use guide_text::{Guide, write_guides};

/// Creates a file under the name, and writes the guides to it.
pub(crate) fn make_guides<D: Desk>(desk: &mut D, name: &str, guides: &[Guide]) -> Result<(), Failed>
    ensures { Makes (D.told desk.old) (D.told desk.new) GuideOut name.now (guides_text guides.now) result }
{
    desk.create(Port::GuideOut, name)?;
    write_guides(desk, Port::GuideOut, guides)
}
