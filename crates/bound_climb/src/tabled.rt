//! The terminals of a table.

ghost use Rattle.std.specs.Prelude.{◌<◌, ◌↔◌, All, IfOk, IsTrue, length};
ghost use Rattle.grid_base.specs.Numbers.{IsVertex};
ghost use Rattle.steiner_tables.specs.Masks.{few_terminals};
ghost use Rattle.lower_bound.specs.Spread.{IsSpread};
ghost use Rattle.bound_climb.specs.NetProofs.{AreTabled};

use grid_base::{NoMemory, Size, Vertex};
use lower_bound::spread_five;
use std::alloc::Global;
use steiner_tables::FEW_TERMINALS;

/// The terminals that a table is of: all of them, or the spread five where there are more.
pub(crate) fn tabled(
    alloc: Global,
    size: Size,
    terminals: &[Vertex],
) -> Result<Vec<Vertex>, NoMemory>
    requires vertices { All (λ v. IsVertex size v.0) terminals.now }
    ensures { IfOk result (λ chosen. AreTabled size terminals.now chosen.items) }
{
    if are_many(terminals) {
        return spread_of(alloc, size, terminals);
    }
    Ok(Vec::from_slice(alloc, terminals)?)
}

/// Whether there are too many terminals for a table of all, so that moats stand around them beside the table of some.
pub(crate) fn are_many(terminals: &[Vertex]) -> bool
    ensures { IsTrue result ↔ (few_terminals < length terminals.now) }
{
    terminals.len() > FEW_TERMINALS
}

/// Those that are spread.
fn spread_of(alloc: Global, size: Size, terminals: &[Vertex]) -> Result<Vec<Vertex>, NoMemory>
    requires vertices { All (λ v. IsVertex size v.0) terminals.now }
    ensures { IfOk result (λ chosen. IsSpread size terminals.now chosen.items) }
{
    let answers = spread_five(size, terminals);
    let mut chosen = Vec::new(alloc);
    for place in 0..answers.len() {
        if let Some(v) = answers[place] {
            chosen.push(v)?;
        }
    }
    Ok(chosen)
}
