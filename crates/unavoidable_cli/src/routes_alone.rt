//! The certificate of routes alone.

ghost use Rattle.std.specs.Prelude.{◌≡◌, ℕ, IfOk, List, None};
ghost use Rattle.grid_graph.specs.declared.grid.Grid.{Grid};
ghost use Rattle.grid_graph.specs.Grounds.{AreGrounds};
ghost use Rattle.judge_laws.specs.RoutesAlone.{IsBoundWithoutPrices, IsCertOfRoutes};
ghost use Rattle.route_judge.specs.Measured.{AreMeasured};
ghost use Rattle.route_text.specs.declared.block.Block.{Block};
ghost use Rattle.tree_set.specs.Measures.{IsPeak};

use cert_text::{Cert, PriceList};
use grid_base::NoMemory;
use grid_graph::{Design, Ground};
use route_judge::{forced_count, open_count};
use std::alloc::Global;
use tree_set::{Fraction, Measure};

/// The bound that takes no prices: 0 where there is an open edge, so that routes have a peak.
fn bound_beside(peak: Option<Fraction>) -> Option<Fraction>
    ensures { (g : Grid) (load : ℕ → ℕ) → IsPeak g load peak → IsBoundWithoutPrices g result }
{
    match peak {
        Some(_) => Some(Fraction::of(0, 1)),
        None => None,
    }
}

/// The certificate of routes alone, of which this was measured.
pub(crate) fn cert_of_routes(
    alloc: Global,
    design: &Design,
    grounds: &[Ground],
    measure: Measure,
) -> Result<Cert, NoMemory>
    requires grounds { AreGrounds design.now.grid design.now.nets grounds.now }
    ensures { (blocks : List Block) (beyond : ℕ) → AreMeasured design.now grounds.now blocks None measure beyond
        → IfOk result (IsCertOfRoutes design.now grounds.now blocks) }
{
    let prices = Vec::from_elem(alloc, 0, open_count(&design.grid) as usize)?;
    Ok(Cert {
        nets: design.nets.list().len() as u32,
        forced: forced_count(grounds) as u32,
        overflow: measure.overflow,
        wirelength: measure.wirelength,
        peak: measure.peak,
        bound: bound_beside(measure.peak),
        budget: None,
        prices: PriceList::of(prices),
    })
}
