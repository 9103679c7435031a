//! How much overflow a price list shows.

ghost use Rattle.std.specs.Prelude.{◌≡◌, ◌*◌, ◌+◌, ◌-◌, ◌^◌, ◌<◌, ◌≤◌, ℕ, List, IfOk, min};
ghost use Rattle.grid_base.specs.declared.piece.Piece.{Piece};
ghost use Rattle.edge_prices.specs.Limits.{max_price};
ghost use Rattle.edge_prices.specs.Weights.{AreEdgePrices};
ghost use Rattle.grid_graph.specs.Grounds.{AreGrounds};
ghost use Rattle.grid_graph.specs.Limits.{max_demand};
ghost use Rattle.tree_set.specs.Loads.{load};
ghost use Rattle.tree_set.specs.Measures.{overflow};
ghost use Rattle.tree_set.specs.Routings.{IsRouting};
ghost use Rattle.dual_bound.specs.LeastOverflow as words;
ghost use Rattle.dual_bound.specs.WholeWires.{whole_cost};
ghost use Rattle.overflow_bounds.specs.Shown.{IsNoneOrShownByWires};
ghost use Rattle.overflow_bounds.specs.Units.{unit_at};

use crate::layer_units::layer_units;
use crate::lows::lows_of_nets;
use crate::wires::Wires;
use dual_bound::{greatest_price, total_of};
use grid_base::NoMemory;
use grid_graph::{Design, Ground};
use std::alloc::Global;

/// How much overflow is shown by a divisor, where the nets cost so much at least.
fn shown_at(wires: &Wires, most: u64, total: u128) -> u64
    requires some { 0 < most }
    requires most { most ≤ max_price * max_demand }
    ensures { result ≡ min (words.least_overflow total (whole_cost wires.now.grid.now wires.now.prices.now
        (unit_at wires.now.grid.now wires.now.prices.now wires.now.units.now most)) most) (2 ^ 64 - 1) }
{
    let beyond = total.saturating_sub(wires.whole_cost(most));
    u64::try_from(beyond.div_ceil(u128::from(most))).unwrap_or(u64::MAX)
}

/// How much overflow every routing of whole routes has at least, by what a price list shows: what the nets cost at least beyond
/// what the capacities cost, by the greatest price. A net costs what it costs to join up to eight places to which its terminals
/// are drawn together by edges without a price, which is exact where it has no more.
///
/// Where each net uses whole units of an edge, the capacity counts by its whole units. It does so at the edges whose price is so
/// low that the greatest price serves as the divisor; and then once more at all edges, with a greater divisor. The greater
/// number counts.
///
/// It is made for lists that price few edges: where all have a price each tile is a place of its own, and a net of eight takes a
/// table of 127 rows over all tiles.
///
/// `grounds` has the ground of each net, and `prices` one price per edge number.
pub fn overflow_shown(
    alloc: Global,
    design: &Design,
    grounds: &[Ground],
    prices: &[u32],
) -> Result<u64, NoMemory>
    requires grounds { AreGrounds design.now.grid design.now.nets grounds.now }
    requires prices { AreEdgePrices design.now.grid prices.now }
    ensures shown { IfOk result (IsNoneOrShownByWires design.now prices.now) }
    ensures unavoidable { IfOk result (λ least. (trees : List (List Piece)) → IsRouting design.now.grid design.now.nets trees
        → least ≤ overflow design.now.grid (load design.now.grid design.now.nets trees)) }
{
    let most = u64::from(greatest_price(prices));
    if most == 0 {
        return Ok(0);
    }
    let lows = lows_of_nets(alloc, design, grounds, prices)?;
    let units = layer_units(alloc, design)?;
    let wires = Wires {
        grid: &design.grid,
        prices,
        units: units.as_slice(),
    };
    let total = total_of(lows.as_slice());
    let plain = shown_at(&wires, most, total);
    let whole = shown_at(&wires, wires.whole_price(), total);
    Ok(plain.max(whole))
}
