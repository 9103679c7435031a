//! The files that are judged: routes, and a certificate.

ghost use Rattle.std.specs.Prelude.{◌≡◌, [], ◌∷◌, Ok, IfOk};
ghost use Rattle.cert_text.specs.Certs.{IsCertWithin};
ghost use Rattle.command_runs.specs.JudgedTexts.{blocks_or_refusal};
ghost use Rattle.command_runs.specs.Sources.{HasBytes};
ghost use Rattle.command_runs.specs.Steps.{ReadsSources};
ghost use Rattle.gr_desk.specs.declared.port.Port.TheVariants.{RoutesIn, CertIn};
ghost use Rattle.route_judge.specs.Limits.{AreBlocks};
ghost use Rattle.judge_cli.specs.JudgeRun.{IsReadCert, judge_sources};
ghost use Rattle.judge_cli.specs.MeasureRun.{AreReadRoutes, measure_sources};

use crate::certified_input::CertifiedInput;
use crate::routed_input::RoutedInput;
use cert_text::{Cert, read_cert};
use command_runs::{Refusal, read_grounded, read_source};
use gr_desk::{Desk, Port};
use route_text::{BlockList, read_block_list};
use std::alloc::Global;

/// The blocks of the route text under the name.
pub fn read_blocks<D: Desk>(alloc: Global, desk: &mut D, name: &str) -> Result<BlockList, Refusal>
    ensures blocks { IfOk result (λ v. HasBytes (D.told desk.old).files name.now (λ bytes. blocks_or_refusal bytes ≡ Ok v)) }
    ensures judged { IfOk result AreBlocks }
    ensures reads { ReadsSources (record { port = RoutesIn; name = name.now } ∷ []) (D.told desk.old) (D.told desk.new) result }
{
    let bytes = read_source(alloc, desk, Port::RoutesIn, name)?;
    Ok(read_block_list(alloc, bytes.as_slice())?)
}

/// The certificate under the name.
pub fn read_certificate<D: Desk>(alloc: Global, desk: &mut D, name: &str) -> Result<Cert, Refusal>
    ensures cert { IfOk result (IsReadCert name.now (D.told desk.old)) }
    ensures limits { IfOk result IsCertWithin }
    ensures reads { ReadsSources (record { port = CertIn; name = name.now } ∷ []) (D.told desk.old) (D.told desk.new) result }
{
    let bytes = read_source(alloc, desk, Port::CertIn, name)?;
    Ok(read_cert(alloc, bytes.as_slice())?)
}

/// The design and the routes under the names, read one after the other.
pub fn read_routed<D: Desk>(
    alloc: Global,
    desk: &mut D,
    input: &str,
    routes: &str,
) -> Result<RoutedInput, Refusal>
    ensures are_read { IfOk result (λ r. AreReadRoutes input.now routes.now (D.told desk.old) r.grounded.design r.grounded.grounds.items r.blocks) }
    ensures judged { IfOk result (λ r. AreBlocks r.blocks) }
    ensures reads { ReadsSources (measure_sources (record { input = input.now; routes = routes.now })) (D.told desk.old) (D.told desk.new) result }
{
    let grounded = read_grounded(alloc, desk, input)?;
    let blocks = read_blocks(alloc, desk, routes)?;
    Ok(RoutedInput { grounded, blocks })
}

/// The design, the routes and the certificate under the names, read one after the other.
pub fn read_certified<D: Desk>(
    alloc: Global,
    desk: &mut D,
    input: &str,
    routes: &str,
    certificate: &str,
) -> Result<CertifiedInput, Refusal>
    ensures are_read { IfOk result (λ r. AreReadRoutes input.now routes.now (D.told desk.old)
        r.routed.grounded.design r.routed.grounded.grounds.items r.routed.blocks) }
    ensures judged { IfOk result (λ r. AreBlocks r.routed.blocks) }
    ensures cert { IfOk result (λ r. IsReadCert certificate.now (D.told desk.old) r.cert) }
    ensures limits { IfOk result (λ r. IsCertWithin r.cert) }
    ensures reads { ReadsSources (judge_sources (record { input = input.now; routes = routes.now; cert = certificate.now })) (D.told desk.old) (D.told desk.new) result }
{
    let routed = read_routed(alloc, desk, input, routes)?;
    let cert = read_certificate(alloc, desk, certificate)?;
    Ok(CertifiedInput { routed, cert })
}
