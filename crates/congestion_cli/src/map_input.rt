//! What a map is made of, as it was read.

ghost use Rattle.std.specs.Prelude.{◌≡◌, IfOk, option_map};
ghost use Rattle.command_runs.specs.Steps.{ReadsSources};
ghost use Rattle.command_words.specs.MapLine.{map_task_of};
ghost use Rattle.judge_cli.specs.MeasureRun.{AreReadRoutes};
ghost use Rattle.route_judge.specs.Limits.{AreBlocks};
ghost use Rattle.congestion_cli.specs.MapSources.{IsCutRead, cut_of, map_sources};

use cert_text::Cert;
use command_runs::Refusal;
use command_words::{MapForm, MapRequest};
use gr_desk::Desk;
use judge_cli::{CertifiedInput, RoutedInput, read_certified, read_routed};
use std::alloc::Global;

/// A design with routes, and the certificate of a cut, if one is shown.
#[derive(Drop)]
pub(crate) struct MapInput {
    pub routed: RoutedInput,
    pub cert: Option<Cert>,
}

/// The name of the certificate whose cut is shown.
fn cut_name<'a>(request: &MapRequest<'a>) -> Option<&'a str>
    ensures { option_map (λ cut. cut.now) result ≡ cut_of (map_task_of request.now).form }
{
    match request.form {
        MapForm::Svg(picture) => picture.cut,
        MapForm::Csv(_) => None,
    }
}

/// The design, the routes and the certificate of a cut, read one after the other.
pub(crate) fn read_map_input<D: Desk>(
    alloc: Global,
    desk: &mut D,
    request: &MapRequest<'_>,
) -> Result<MapInput, Refusal>
    ensures are_read { IfOk result (λ r. AreReadRoutes request.now.input.now request.now.routes.now (D.told desk.old)
        r.routed.grounded.design r.routed.grounded.grounds.items r.routed.blocks) }
    ensures judged { IfOk result (λ r. AreBlocks r.routed.blocks) }
    ensures cert { IfOk result (λ r. IsCutRead (cut_of (map_task_of request.now).form) (D.told desk.old) r.cert) }
    ensures reads { ReadsSources (map_sources (map_task_of request.now)) (D.told desk.old) (D.told desk.new) result }
{
    match cut_name(request) {
        None => match read_routed(alloc, desk, request.input, request.routes) {
            Ok(routed) => Ok(MapInput { routed, cert: None }),
            Err(refusal) => Err(refusal),
        },
        Some(name) => match read_certified(alloc, desk, request.input, request.routes, name) {
            Ok(CertifiedInput { routed, cert }) => Ok(MapInput {
                routed,
                cert: Some(cert),
            }),
            Err(refusal) => Err(refusal),
        },
    }
}
