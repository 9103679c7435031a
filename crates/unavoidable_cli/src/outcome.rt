//! What comes of a design and routes that were read, and of a certificate if there is one.

ghost use Rattle.std.specs.Prelude.{◌≡◌, IfOk, IfSome, None, Some};
ghost use Rattle.cert_text.specs.Certs.{IsCertWithin};
ghost use Rattle.grid_graph.specs.Grounds.{AreGrounds};
ghost use Rattle.route_judge.specs.Limits.{AreBlocks};
ghost use Rattle.unavoidable_cli.specs.FoundHeadline.{IsOutcomeOf};

use crate::finding::Finding;
use crate::found::finding_of;
use crate::given::GivenInput;
use crate::routes_alone::cert_of_routes;
use cert_text::Cert;
use grid_base::NoMemory;
use judge_cli::RoutedInput;
use route_judge::{Checked, Reason, Verdict, judge, judge_routes};
use std::alloc::Global;
use std::thread::Threads;

/// What comes of them: a finding, or the judge's reason against them.
#[derive(Drop)]
pub(crate) enum Outcome {
    Found(Finding),
    Objected(Reason),
}

/// What comes of a design and blocks, and of a certificate if there is one.
pub(crate) fn outcome_of<R: Threads + Sync>(
    rt: &R,
    alloc: Global,
    input: GivenInput,
) -> Result<Outcome, NoMemory>
    requires grounds { AreGrounds input.routed.grounded.design.grid input.routed.grounded.design.nets input.routed.grounded.grounds.items }
    requires blocks { AreBlocks input.routed.blocks }
    requires cert { IfSome input.cert IsCertWithin }
    ensures { IfOk result (IsOutcomeOf input.routed.grounded.design input.routed.grounded.grounds.items input.routed.blocks input.cert) }
{
    let GivenInput { routed, cert } = input;
    match cert {
        Some(cert) => outcome_with(rt, alloc, routed, cert),
        None => outcome_alone(rt, alloc, routed),
    }
}

/// What comes of a design, blocks and a certificate.
fn outcome_with<R: Threads + Sync>(
    rt: &R,
    alloc: Global,
    routed: RoutedInput,
    cert: Cert,
) -> Result<Outcome, NoMemory>
    requires grounds { AreGrounds routed.grounded.design.grid routed.grounded.design.nets routed.grounded.grounds.items }
    requires blocks { AreBlocks routed.blocks }
    requires cert { IsCertWithin cert }
    ensures { IfOk result (IsOutcomeOf routed.grounded.design routed.grounded.grounds.items routed.blocks (Some cert)) }
{
    let RoutedInput { grounded, blocks } = routed;
    let grounds = grounded.grounds.as_slice();
    match judge(rt, alloc, &grounded.design, grounds, &blocks, &cert)? {
        Verdict::Yes { measure, .. } => {
            let finding = finding_of(rt, alloc, grounded, &blocks, cert, measure.overflow)?;
            Ok(Outcome::Found(finding))
        }
        Verdict::No(reason) => Ok(Outcome::Objected(reason)),
    }
}

/// What comes of a design and blocks alone: the certificate of the routes alone is begun with.
fn outcome_alone<R: Threads + Sync>(
    rt: &R,
    alloc: Global,
    routed: RoutedInput,
) -> Result<Outcome, NoMemory>
    requires grounds { AreGrounds routed.grounded.design.grid routed.grounded.design.nets routed.grounded.grounds.items }
    requires blocks { AreBlocks routed.blocks }
    ensures { IfOk result (IsOutcomeOf routed.grounded.design routed.grounded.grounds.items routed.blocks None) }
{
    let RoutedInput { grounded, blocks } = routed;
    let grounds = grounded.grounds.as_slice();
    match judge_routes(alloc, &grounded.design, grounds, &blocks)? {
        Checked::Yes { measure, .. } => {
            let cert = cert_of_routes(alloc, &grounded.design, grounds, measure)?;
            let finding = finding_of(rt, alloc, grounded, &blocks, cert, measure.overflow)?;
            Ok(Outcome::Found(finding))
        }
        Checked::No(reason) => Ok(Outcome::Objected(reason)),
    }
}
