//! What is found of routes and a certificate that the judge accepts.

ghost use Rattle.std.specs.Prelude.{◌≡◌, None, IfOk};
ghost use Rattle.cert_text.specs.Certs.{IsCertWithin};
ghost use Rattle.edge_prices.specs.Weights.{AreEdgePrices};
ghost use Rattle.grid_graph.specs.Grounds.{AreGrounds};
ghost use Rattle.route_judge.specs.Judgements.{IsJudged, StatesBound};
ghost use Rattle.route_judge.specs.Limits.{AreBlocks};
ghost use Rattle.route_judge.specs.Orders.{AreRoutes};
ghost use Rattle.unavoidable_cli.specs.Findings.{IsFinding, IsNoneOrShown, IsOverflowOfBlocks};
ghost use Rattle.unavoidable_cli.specs.ShownLists.{IsShownOverflow, ShowsNoLess};

use crate::finding::Finding;
use crate::improved::improve;
use crate::price_lists::priced_edges;
use crate::priced_edge::PricedEdge;
use crate::shown_list::{best_for_bound, shown_lists};
use crate::shown_overflow::{ShownOverflow, most_overflow};
use cert_text::Cert;
use command_runs::GroundedDesign;
use grid_base::NoMemory;
use grid_graph::{Design, Ground};
use hot_cuts::{HotCuts, hot_cuts};
use route_judge::loads_of;
use route_text::BlockList;
use std::alloc::Global;
use std::thread::Threads;

/// How often nets and prices answer each other on a cut. More rounds prove hardly more.
const ROUNDS: u32 = 20;

/// Price lists on the fullest tile edges of routes. The routes' loads are let go.
fn cuts_of(
    alloc: Global,
    design: &Design,
    grounds: &[Ground],
    blocks: &BlockList,
) -> Result<HotCuts, NoMemory>
    requires grounds { AreGrounds design.now.grid design.now.nets grounds.now }
    requires blocks { AreBlocks blocks.now }
    requires routes { AreRoutes design.now blocks.now }
    ensures for_bound { IfOk result (λ cuts. AreEdgePrices design.now.grid cuts.for_bound.items) }
    ensures for_overflow { IfOk result (λ cuts. AreEdgePrices design.now.grid cuts.for_overflow.items) }
{
    let loads = loads_of(alloc, design, grounds, blocks)?;
    hot_cuts(alloc, design, loads.as_slice(), ROUNDS)
}

/// The edges whose prices show the list's overflow; none where this is 0.
fn cut_of(
    alloc: Global,
    design: &Design,
    list: ShownOverflow<'_>,
) -> Result<Vec<PricedEdge>, NoMemory>
    requires { IsShownOverflow design.now list }
    ensures { IfOk result (λ edges. IsNoneOrShown design.now list.entry.overflow edges.items) }
{
    if list.overflow == 0 {
        return Ok(Vec::new(alloc));
    }
    priced_edges(alloc, &design.grid, list.prices)
}

/// What two price lists show of a design, and of blocks with so much overflow and a certificate that are accepted: each list
/// serves where it shows more, for overflow by the net bounds, by least trees of more terminals or by whole wires.
fn finding_by<R: Threads + Sync>(
    rt: &R,
    alloc: Global,
    grounded: GroundedDesign,
    blocks: &BlockList,
    cert: Cert,
    overflow: u64,
    cuts: &HotCuts,
) -> Result<Finding, NoMemory>
    requires grounds { AreGrounds grounded.design.grid grounded.design.nets grounded.grounds.items }
    requires cert { IsCertWithin cert }
    requires judged { IsJudged grounded.design grounded.grounds.items blocks.now cert None }
    requires bounds { StatesBound grounded.design cert }
    requires overflow { IsOverflowOfBlocks grounded.design blocks.now overflow }
    requires for_bound { AreEdgePrices grounded.design.grid cuts.now.for_bound.items }
    requires for_overflow { AreEdgePrices grounded.design.grid cuts.now.for_overflow.items }
    ensures finding { IfOk result (IsFinding grounded.grounds.items blocks.now cert) }
    ensures design { IfOk result (λ finding. finding.design ≡ grounded.design) }
    ensures first { IfOk result (ShowsNoLess cuts.now.for_bound.items) }
    ensures second { IfOk result (ShowsNoLess cuts.now.for_overflow.items) }
{
    let GroundedDesign { design, grounds } = grounded;
    let (first, second) = shown_lists(rt, alloc, &design, grounds.as_slice(), cuts)?;
    let most = most_overflow(alloc, &design, grounds.as_slice(), first, second)?;
    let cut = cut_of(alloc, &design, most)?;
    let better = improve(alloc, &design, cert, best_for_bound(first, second))?;
    Ok(Finding {
        design,
        new: better.cert,
        bottleneck: better.edges,
        overflow: most.overflow,
        cut,
        routes: overflow,
    })
}

/// What is found of a design, and of blocks with so much overflow and a certificate that are accepted, by two price lists on the
/// fullest tile edges of their routes.
pub(crate) fn finding_of<R: Threads + Sync>(
    rt: &R,
    alloc: Global,
    grounded: GroundedDesign,
    blocks: &BlockList,
    cert: Cert,
    overflow: u64,
) -> Result<Finding, NoMemory>
    requires grounds { AreGrounds grounded.design.grid grounded.design.nets grounded.grounds.items }
    requires blocks { AreBlocks blocks.now }
    requires cert { IsCertWithin cert }
    requires judged { IsJudged grounded.design grounded.grounds.items blocks.now cert None }
    requires bounds { StatesBound grounded.design cert }
    requires overflow { IsOverflowOfBlocks grounded.design blocks.now overflow }
    ensures finding { IfOk result (IsFinding grounded.grounds.items blocks.now cert) }
    ensures design { IfOk result (λ finding. finding.design ≡ grounded.design) }
{
    let grounds = grounded.grounds.as_slice();
    let cuts = cuts_of(alloc, &grounded.design, grounds, blocks)?;
    finding_by(rt, alloc, grounded, blocks, cert, overflow, &cuts)
}
