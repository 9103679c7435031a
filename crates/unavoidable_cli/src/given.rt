//! What a run reads.

ghost use Rattle.std.specs.Prelude.{◌≡◌, IfOk, IfSome};
ghost use Rattle.cert_text.specs.Certs.{IsCertWithin};
ghost use Rattle.command_runs.specs.Steps.{ReadsSources};
ghost use Rattle.judge_cli.specs.MeasureRun.{AreReadRoutes};
ghost use Rattle.route_judge.specs.Limits.{AreBlocks};
ghost use Rattle.unavoidable_cli.specs.FoundHeadline.{IsGivenCert};
ghost use Rattle.unavoidable_cli.specs.UnavoidableRun.{unavoidable_sources};
ghost use Rattle.unavoidable_cli.specs.Words.{unavoidable_task_of};

use crate::names::Names;
use cert_text::Cert;
use command_runs::Refusal;
use gr_desk::Desk;
use judge_cli::{CertifiedInput, RoutedInput, read_certified, read_routed};
use std::alloc::Global;

/// A design with routes, and a certificate where one is named.
#[derive(Drop)]
pub(crate) struct GivenInput {
    pub routed: RoutedInput,
    pub cert: Option<Cert>,
}

/// The design, the routes, and the certificate if there is one, read one after the other.
pub(crate) fn read_given<D: Desk>(
    alloc: Global,
    desk: &mut D,
    names: &Names<'_>,
) -> Result<GivenInput, Refusal>
    ensures are_read { IfOk result (λ r. AreReadRoutes names.now.input.now names.now.routes.now (D.told desk.old)
        r.routed.grounded.design r.routed.grounded.grounds.items r.routed.blocks) }
    ensures judged { IfOk result (λ r. AreBlocks r.routed.blocks) }
    ensures cert { IfOk result (λ r. IsGivenCert (unavoidable_task_of names.now).cert (D.told desk.old) r.cert) }
    ensures limits { IfOk result (λ r. IfSome r.cert IsCertWithin) }
    ensures reads { ReadsSources (unavoidable_sources (unavoidable_task_of names.now)) (D.told desk.old) (D.told desk.new) result }
{
    match names.certificate {
        None => match read_routed(alloc, desk, names.input, names.routes) {
            Ok(routed) => Ok(GivenInput { routed, cert: None }),
            Err(refusal) => Err(refusal),
        },
        Some(name) => match read_certified(alloc, desk, names.input, names.routes, name) {
            Ok(CertifiedInput { routed, cert }) => Ok(GivenInput {
                routed,
                cert: Some(cert),
            }),
            Err(refusal) => Err(refusal),
        },
    }
}
