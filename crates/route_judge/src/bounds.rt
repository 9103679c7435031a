//! The bound that a certificate states.

ghost use Rattle.std.specs.Prelude.{◌≡◌, ◌↔◌, ◌<◌, ◌≤◌, ℕ, All, false, IfOk, IfSome, IsSome, IsTrue, OnOk};
ghost use Rattle.dual_bound.specs.Bounds.{BoundsDesign};
ghost use Rattle.edge_prices.specs.Limits.{max_price};
ghost use Rattle.grid_graph.specs.Grids as grids;
ghost use Rattle.grid_graph.specs.Grids.{edge_numbers};
ghost use Rattle.grid_graph.specs.Grounds.{AreGrounds};
ghost use Rattle.edge_prices.specs.Budgets.{IsWithinLimits, most_of};
ghost use Rattle.route_judge.specs.Bounds as bounds;
ghost use Rattle.route_judge.specs.Judgements.{IsFound};
ghost use Rattle.route_judge.specs.Orders.{bound_objections};
ghost use Rattle.route_judge.specs.Stops.{StopsAt};

use crate::listing::listed_prices;
use crate::reason::Reason;
use crate::stop::Stop;
use cert_text::Cert;
use dual_bound::bound;
use grid_base::{Edge, NoMemory};
use grid_graph::{Design, Grid, Ground};
use std::alloc::Global;
use std::thread::Threads;
use tree_set::{Budget, Fraction};

/// The bound of the design at the prices and the budget of a certificate.
pub(crate) fn found_bound<R: Threads + Sync>(
    rt: &R,
    alloc: Global,
    design: &Design,
    grounds: &[Ground],
    cert: &Cert,
) -> Result<Option<Fraction>, NoMemory>
    requires grounds { AreGrounds design.now.grid design.now.nets grounds.now }
    requires prices { All (λ price. price ≤ max_price) cert.now.prices }
    requires budget { IsWithinLimits cert.now.budget }
    ensures found { IfOk result (IsFound design.now cert.now) }
    ensures bounds { IfOk result (λ found. IfSome found (λ f. BoundsDesign design.now (most_of cert.now.budget) f.num f.den)) }
{
    let prices = listed_prices(alloc, &design.grid, cert.prices.list())?;
    bound(rt, alloc, design, grounds, prices.as_slice(), cert.budget)
}

/// Whether an edge is open.
fn has_open_edge(grid: &Grid) -> bool
    ensures { IsTrue result ↔ ((e : ℕ) × (e < edge_numbers grid.now) × (0 < grids.capacity grid.now e)) }
{
    for e in 0..2 * grid.size().vertices() {
        if grid.capacity(Edge(e)) > 0 {
            return true;
        }
    }
    false
}

/// Whether there is a resource: an open edge or a budget.
fn has_resource(grid: &Grid, budget: Option<Budget>) -> bool
    requires { IsWithinLimits budget }
    ensures { IsTrue result ↔ bounds.HasResource grid.now (most_of budget) }
{
    budget.is_some() || has_open_edge(grid)
}

/// Whether a fraction is at most what was found, where something was.
fn is_at_most_found(stated: Fraction, found: Option<Fraction>) -> bool
    ensures { IsTrue result ↔ bounds.IsAtMostFound stated found }
{
    match found {
        None => false,
        Some(found) => stated.less_or_equal(&found),
    }
}

/// Whether a stated bound is higher than what was found shows.
fn is_too_high(
    grid: &Grid,
    budget: Option<Budget>,
    stated: Option<Fraction>,
    found: Option<Fraction>,
) -> bool
    requires { IsWithinLimits budget }
    ensures high { IsTrue result ↔ bounds.IsTooHigh grid.now (most_of budget) stated found }
    ensures resource { result ≡ false → IsSome stated → bounds.HasResource grid.now (most_of budget) }
{
    match stated {
        None => has_resource(grid, budget),
        Some(f) => !has_resource(grid, budget) || f.num > 0 && !is_at_most_found(f, found),
    }
}

/// Tests the bound that a certificate states, where this was found at its prices.
pub(crate) fn test_bound(design: &Design, cert: &Cert, found: Option<Fraction>) -> Result<(), Stop>
    requires { IsWithinLimits cert.now.budget }
    ensures stops { StopsAt design.now (bound_objections cert.now found) result }
    ensures resource { OnOk result (IsSome cert.now.bound → bounds.HasResource design.now.grid (most_of cert.now.budget)) }
{
    if is_too_high(&design.grid, cert.budget, cert.bound, found) {
        return Err(Stop::Refused(Reason::BoundTooHigh {
            stated: cert.bound,
            found,
        }));
    }
    Ok(())
}
