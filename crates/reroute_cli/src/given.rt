//! What a run reads.

ghost use Rattle.std.specs.Prelude.{◌≡◌, IfOk, None};
ghost use Rattle.command_runs.specs.Steps.{ReadsSources};
ghost use Rattle.command_words.specs.RerouteLine.{reroute_task_of};
ghost use Rattle.route_judge.specs.Limits.{AreBlocks};
ghost use Rattle.reroute_cli.specs.RerouteHeadline.{AreRead};
ghost use Rattle.reroute_cli.specs.RerouteRun.{reroute_sources};

use command_runs::{Refusal, read_grounded};
use command_words::RerouteRequest;
use gr_desk::Desk;
use judge_cli::{RoutedInput, read_routed};
use route_text::BlockList;
use std::alloc::Global;

/// The design, and the given routes behind it, if there are any: no blocks where there are none.
pub(crate) fn read_given<D: Desk>(
    alloc: Global,
    desk: &mut D,
    request: &RerouteRequest<'_>,
) -> Result<RoutedInput, Refusal>
    ensures are_read { IfOk result (λ r. AreRead request.now.input.now (reroute_task_of request.now).routes (D.told desk.old)
        r.grounded.design r.grounded.grounds.items r.blocks) }
    ensures judged { IfOk result (λ r. AreBlocks r.blocks) }
    ensures reads { ReadsSources (reroute_sources request.now.input.now (reroute_task_of request.now).routes) (D.told desk.old) (D.told desk.new) result }
{
    match request.routes {
        Some(routes) => read_routed(alloc, desk, request.input, routes),
        None => read_alone(alloc, desk, request.input),
    }
}

/// The design, without routes.
fn read_alone<D: Desk>(alloc: Global, desk: &mut D, input: &str) -> Result<RoutedInput, Refusal>
    ensures are_read { IfOk result (λ r. AreRead input.now None (D.told desk.old) r.grounded.design r.grounded.grounds.items r.blocks) }
    ensures judged { IfOk result (λ r. AreBlocks r.blocks) }
    ensures reads { ReadsSources (reroute_sources input.now None) (D.told desk.old) (D.told desk.new) result }
{
    let grounded = read_grounded(alloc, desk, input)?;
    let blocks = BlockList::none(alloc);
    Ok(RoutedInput { grounded, blocks })
}
