//! A certificate with a greater bound.

ghost use Rattle.std.specs.Prelude.{◌≡◌, IfOk};
ghost use Rattle.dual_bound.specs.Prices as prices;
ghost use Rattle.edge_prices.specs.Budgets.{most_of};
ghost use Rattle.unavoidable_cli.specs.Findings.{IsAbove, IsBetter, IsSameOrBetter};
ghost use Rattle.unavoidable_cli.specs.ShownLists.{IsShownList};

use crate::price_lists::priced_edges;
use crate::priced_edge::PricedEdge;
use crate::shown_list::{ShownList, is_above};
use cert_text::Cert;
use grid_base::NoMemory;
use grid_graph::Design;
use judge_laws::open_prices;
use std::alloc::Global;
use tree_set::Budget;

/// A certificate, and the edges by whose prices it is better than another one; none where it is no other.
#[derive(Drop)]
pub(crate) struct Improved {
    pub cert: Cert,
    pub edges: Vec<PricedEdge>,
}

/// The budget, of which the wirelength costs nothing.
fn free_budget(budget: Option<Budget>) -> Option<Budget>
    ensures { result ≡ prices.free_budget (most_of budget) }
{
    budget.map(|budget| Budget {
        most: budget.most,
        price: 0,
    })
}

/// The certificate with the bound and the prices of a list whose bound is greater.
fn with_list(
    alloc: Global,
    design: &Design,
    cert: Cert,
    list: ShownList<'_>,
) -> Result<Improved, NoMemory>
    requires list { IsShownList design.now list }
    requires above { IsAbove list.shown.bound cert.bound }
    ensures better { IfOk result (λ improved. IsBetter design.now cert improved.cert improved.edges.items list.entry.shown.overflow) }
    ensures bound { IfOk result (λ improved. improved.cert.bound ≡ list.entry.shown.bound) }
{
    let prices = open_prices(alloc, &design.grid, list.prices)?;
    let edges = priced_edges(alloc, &design.grid, list.prices)?;
    let cert = Cert {
        nets: cert.nets,
        forced: cert.forced,
        overflow: cert.overflow,
        wirelength: cert.wirelength,
        peak: cert.peak,
        bound: list.shown.bound,
        budget: free_budget(cert.budget),
        prices,
    };
    Ok(Improved { cert, edges })
}

/// The certificate with the bound and the prices of the list where this bound is greater, and else as it was.
pub(crate) fn improve(
    alloc: Global,
    design: &Design,
    cert: Cert,
    list: ShownList<'_>,
) -> Result<Improved, NoMemory>
    requires { IsShownList design.now list }
    ensures same_or_better { IfOk result (λ improved. IsSameOrBetter design.now cert improved.cert improved.edges.items list.entry.shown.overflow) }
    ensures not_less { IfOk result (λ improved. ¬ IsAbove list.entry.shown.bound improved.cert.bound) }
{
    if is_above(list.shown.bound, cert.bound) {
        return with_list(alloc, design, cert, list);
    }
    Ok(Improved {
        cert,
        edges: Vec::new(alloc),
    })
}
