//! Texts that a trial writes to a desk in memory, and reads from it again.

ghost use Rattle.std.specs.Prelude.{◌≡◌, All, IfOk, IsErrOf, Ok, List, length};
ghost use Rattle.cert_text.specs.declared.cert.Cert.{Cert};
ghost use Rattle.cert_text.specs.Certs.{IsCertOf, IsCertWithin};
ghost use Rattle.cert_text.specs.CertText.{cert_text};
ghost use Rattle.gr_make.specs.MadeText.{made_text};
ghost use Rattle.gr_make.specs.Shapes.{IsShape};
ghost use Rattle.grid_graph.specs.Grids.{size_of};
ghost use Rattle.grid_graph.specs.Grounds.{AreGrounds};
ghost use Rattle.ispd_reader.specs.Designs.{IsDesignOfText};
ghost use Rattle.route_text.specs.declared.block.Block.{Block};
ghost use Rattle.route_text.specs.Blocks.{blocks_of};
ghost use Rattle.route_text.specs.RouteText.{routes_text};
ghost use Rattle.tree_set.specs.Routings.{ArePieces};
ghost use Rattle.command_runs.specs.declared.refusal.Refusal.{Refusal};
ghost use Rattle.router_cli.specs.TextsMeet.{TextsMeet};

use crate::outputs::{make_design, make_routes};
use crate::routed_design::RoutedDesign;
use cert_text::{Cert, read_cert};
use command_runs::{GroundedDesign, Refusal, grounded, make_cert};
use gr_desk::{MemDesk, Port};
use gr_make::Shape;
use grid_graph::Ground;
use route_judge::{Verdict, judge};
use route_text::{BlockList, read_block_list};
use std::alloc::Global;
use std::thread::Threads;

/// The design that is made from the seed, read of its text.
pub(crate) fn made_design(alloc: Global, seed: u64, shape: Shape) -> Result<GroundedDesign, Refusal>
    requires shape { IsShape shape }
    ensures named { IfOk result (λ g. IsDesignOfText (made_text seed shape) g.design) }
    ensures grounds { IfOk result (λ g. AreGrounds g.design.grid g.design.nets g.grounds.items) }
    ensures refused { (r : Refusal) → IsErrOf result r → r ≡ Refusal.NoMemory }
{
    let mut inner = MemDesk::new(alloc, Vec::new(alloc), Vec::new(alloc));
    if make_design(&mut inner, "design", seed, shape).is_err() {
        return Err(Refusal::NoMemory);
    }
    grounded(alloc, inner.written(Port::DesignOut))
}

/// The blocks that are read of the routes' text.
fn read_back_routes(alloc: Global, routed: &RoutedDesign) -> Result<BlockList, Refusal>
    requires one_each { length routed.now.trees ≡ length routed.now.design.nets }
    requires pieces { All (ArePieces (size_of routed.now.design.grid)) routed.now.trees }
    requires read { (blocks : List Block) × (blocks_of (routes_text routed.now.design.grid routed.now.design.nets routed.now.trees) ≡ Ok blocks) }
    ensures blocks { IfOk result (λ v. blocks_of (routes_text routed.now.design.grid routed.now.design.nets routed.now.trees) ≡ Ok v) }
    ensures refused { (r : Refusal) → IsErrOf result r → r ≡ Refusal.NoMemory }
{
    let mut inner = MemDesk::new(alloc, Vec::new(alloc), Vec::new(alloc));
    let trees = routed.trees.list();
    if make_routes(&mut inner, "routes", &routed.design, trees).is_err() {
        return Err(Refusal::NoMemory);
    }
    Ok(read_block_list(alloc, inner.written(Port::RoutesOut))?)
}

/// The certificate that is read of its text.
fn read_back_cert(alloc: Global, cert: &Cert) -> Result<Cert, Refusal>
    requires { IsCertOf (cert_text cert.now) cert.now }
    ensures same { IfOk result (λ other. other ≡ cert.now) }
    ensures limits { IfOk result IsCertWithin }
    ensures refused { (r : Refusal) → IsErrOf result r → r ≡ Refusal.NoMemory }
{
    let mut inner = MemDesk::new(alloc, Vec::new(alloc), Vec::new(alloc));
    if make_cert(&mut inner, "certificate", cert).is_err() {
        return Err(Refusal::NoMemory);
    }
    Ok(read_cert(alloc, inner.written(Port::CertOut))?)
}

/// Judges a routed design by its texts. They meet the design, so the verdict is a yes.
pub(crate) fn judge_texts<R: Threads + Sync>(
    rt: &R,
    alloc: Global,
    routed: &RoutedDesign,
    grounds: &[Ground],
) -> Result<(), Refusal>
    requires grounds { AreGrounds routed.now.design.grid routed.now.design.nets grounds.now }
    requires one_each { length routed.now.trees ≡ length routed.now.design.nets }
    requires pieces { All (ArePieces (size_of routed.now.design.grid)) routed.now.trees }
    requires meet { TextsMeet routed.now.design grounds.now (routes_text routed.now.design.grid routed.now.design.nets routed.now.trees) (cert_text routed.now.cert) routed.now.cert }
    ensures { (r : Refusal) → IsErrOf result r → r ≡ Refusal.NoMemory }
{
    let blocks = read_back_routes(alloc, routed)?;
    let cert = read_back_cert(alloc, &routed.cert)?;
    match judge(rt, alloc, &routed.design, grounds, &blocks, &cert)? {
        Verdict::Yes { .. } => Ok(()),
        Verdict::No(_) => unreachable!(),
    }
}
