//! Judges routes and a certificate.

ghost use Rattle.std.specs.Prelude.{◌≡◌, ◌≤◌, ◌++◌, List, All, IfOk, OnOk, None};
ghost use Rattle.edge_prices.specs.Limits.{max_price};
ghost use Rattle.grid_graph.specs.declared.design.Design.{Design};
ghost use Rattle.grid_graph.specs.declared.ground.Ground.{Ground};
ghost use Rattle.grid_graph.specs.Grounds.{AreGrounds};
ghost use Rattle.route_text.specs.declared.block.Block.{Block};
ghost use Rattle.edge_prices.specs.Budgets.{IsWithinLimits, most_of};
ghost use Rattle.route_judge.specs.Answers.{reason_of_verdict, IfYes};
ghost use Rattle.route_judge.specs.Judgements.{IsJudged, IsJudgedAs, StatesBound};
ghost use Rattle.route_judge.specs.Limits.{AreBlocks};
ghost use Rattle.route_judge.specs.Measured.{AreMeasured};
ghost use Rattle.route_judge.specs.Orders.{measure_objections, count_objections};
ghost use Rattle.route_judge.specs.Stops.{StopsAt};

use crate::bounds::{found_bound, test_bound};
use crate::claims::{test_counts, test_measure};
use crate::measured::Measured;
use crate::routes::measure_routes;
use crate::stop::Stop;
use crate::verdict::Verdict;
use cert_text::Cert;
use grid_base::NoMemory;
use grid_graph::{Design, Ground};
use route_text::Blocks;
use std::alloc::Global;
use std::thread::Threads;
use tree_set::Budget;

/// The measure with a budget, where there is one.
fn with_budget(measured: Measured, budget: Option<Budget>) -> Measured
    requires { IsWithinLimits budget }
    ensures measured { (d : Design) (over : List Ground) (blocks : List Block)
        → AreMeasured d over blocks None measured.measure measured.beyond → AreMeasured d over blocks (most_of budget) result.measure result.beyond }
{
    match budget {
        None => measured,
        Some(budget) => Measured {
            measure: measured.measure.with_budget(budget.most),
            beyond: measured.beyond,
        },
    }
}

/// Tests what a certificate states but for its bound.
fn test_claims(
    design: &Design,
    grounds: &[Ground],
    cert: &Cert,
    measured: Measured,
) -> Result<(), Stop>
    ensures { StopsAt design.now (measure_objections cert.now measured.measure ++ count_objections design.now grounds.now cert.now) result }
{
    test_measure(design, cert, &measured.measure)?;
    test_counts(design, grounds, cert)
}

/// Measures routes and tests what a certificate states. Stops at the first reason against them.
fn go_through<R: Threads + Sync, B: Blocks>(
    rt: &R,
    alloc: Global,
    design: &Design,
    grounds: &[Ground],
    blocks: B,
    cert: &Cert,
) -> Result<Measured, Stop>
    requires grounds { AreGrounds design.now.grid design.now.nets grounds.now }
    requires blocks { AreBlocks (B.list blocks) }
    requires prices { All (λ price. price ≤ max_price) cert.now.prices }
    requires budget { IsWithinLimits cert.now.budget }
    ensures judged { IsJudgedAs design.now grounds.now (B.list blocks) cert.now result }
    ensures measured { IfOk result (λ m. AreMeasured design.now grounds.now (B.list blocks) (most_of cert.now.budget) m.measure m.beyond) }
    ensures bound { OnOk result (StatesBound design.now cert.now) }
{
    let measured = with_budget(measure_routes(alloc, design, grounds, blocks)?, cert.budget);
    test_claims(design, grounds, cert, measured)?;
    let found = found_bound(rt, alloc, design, grounds, cert)?;
    test_bound(design, cert, found)?;
    Ok(measured)
}

/// Whether the blocks and the certificate meet the design: the blocks are routes of it, their measure with the certificate's
/// budget is what the certificate states, so are the numbers of nets, of forced nets and of open edges, and the bound that it
/// states is at most the design's bound at its prices.
///
/// Whoever made the prices, the bound of a certificate that is accepted holds of every mixture of routings.
pub fn judge<R: Threads + Sync, B: Blocks>(
    rt: &R,
    alloc: Global,
    design: &Design,
    grounds: &[Ground],
    blocks: B,
    cert: &Cert,
) -> Result<Verdict, NoMemory>
    requires grounds { AreGrounds design.now.grid design.now.nets grounds.now }
    requires blocks { AreBlocks (B.list blocks) }
    requires prices { All (λ price. price ≤ max_price) cert.now.prices }
    requires budget { IsWithinLimits cert.now.budget }
    ensures first { IfOk result (λ answer. IsJudged design.now grounds.now (B.list blocks) cert.now (reason_of_verdict answer)) }
    ensures measured { IfOk result (λ answer. IfYes answer (AreMeasured design.now grounds.now (B.list blocks) (most_of cert.now.budget))) }
    ensures bound { IfOk result (λ answer. IfYes answer (λ _ _. StatesBound design.now cert.now)) }
{
    match go_through(rt, alloc, design, grounds, blocks, cert) {
        Ok(Measured { measure, beyond }) => Ok(Verdict::Yes { measure, beyond }),
        Err(Stop::Refused(reason)) => Ok(Verdict::No(reason)),
        Err(Stop::NoMemory) => Err(NoMemory),
    }
}
