//! The files that guides are made of.

ghost use Rattle.std.specs.Prelude.{IfOk};
ghost use Rattle.command_runs.specs.Sources.{HasBytes};
ghost use Rattle.guide_cli.specs.NearDesigns.{IsNearDesignOf, ReadsNear, IsReadInput, ReadsInput};

use crate::guided_input::GuidedInput;
use crate::near_design::NearDesign;
use command_runs::{GroundedDesign, Refusal, read_design_source};
use gr_desk::Desk;
use guide_text::is_near;
use judge_cli::{RoutedInput, read_blocks};
use std::alloc::Global;

/// The design under the name, with its nets' grounds, if it is near.
fn read_near<D: Desk>(alloc: Global, desk: &mut D, name: &str) -> Result<NearDesign, Refusal>
    ensures near { IfOk result (λ found. HasBytes (D.told desk.old).files name.now (λ bytes. IsNearDesignOf bytes found)) }
    ensures reads { ReadsNear name.now (D.told desk.old) (D.told desk.new) result }
{
    let design = read_design_source(alloc, desk, name)?;
    if !is_near(&design.grid) {
        return Ok(NearDesign::Far);
    }
    Ok(NearDesign::Near(GroundedDesign::of(design)?))
}

/// The design and the routes under the names, read one after the other; behind a design that is not near nothing is read.
pub(crate) fn read_guided<D: Desk>(
    alloc: Global,
    desk: &mut D,
    input: &str,
    routes: &str,
) -> Result<GuidedInput, Refusal>
    ensures read { IfOk result (IsReadInput input.now routes.now (D.told desk.old)) }
    ensures reads { ReadsInput input.now routes.now (D.told desk.old) (D.told desk.new) result }
{
    match read_near(alloc, desk, input)? {
        NearDesign::Far => Ok(GuidedInput::Far),
        NearDesign::Near(grounded) => {
            let blocks = read_blocks(alloc, desk, routes)?;
            Ok(GuidedInput::Routes(RoutedInput { grounded, blocks }))
        }
    }
}
