//! The least weight of pieces that join vertices, by going through all sets of them.

ghost use Rattle.std.specs.Prelude.{All, IfOk, MatchOption};
ghost use Rattle.grid_base.specs.Numbers.{IsVertex, IsPiece};
ghost use Rattle.grid_base.specs.Walks.{InVertices};
ghost use Rattle.grid_graph.specs.Weighed.{WeighsOnlyPieces, AreWithinLimit};
ghost use Rattle.label_search.specs.Sets.{IsLeastWeight, AreApart};
ghost use Rattle.reference_programs.specs.LeastSets.{IsLeastBeside};

use crate::reference_joins::joins_by_merging;
use grid_base::{NoMemory, Piece, Size, Vertex};
use std::alloc::Global;

/// Stands for the weight of what joins nothing: above what all pieces of a grid weigh together.
const APART: u64 = (3 << 61) + 1;

/// The least weight of a set of these pieces that joins the terminals, each piece with its weight. `None` where no set
/// joins them.
///
/// Each piece is left out and taken, so there are twice as many sets with each piece more.
pub fn reference_least_weight(
    alloc: Global,
    size: Size,
    pieces: &[(Piece, u64)],
    terminals: &[Vertex],
) -> Result<Option<u64>, NoMemory>
    requires inside { WeighsOnlyPieces size pieces.now }
    requires light { AreWithinLimit pieces.now }
    requires vertices { All (λ t. IsVertex size t.0) terminals.now }
    ensures { IfOk result (λ found. MatchOption found (AreApart size pieces.now (InVertices terminals.now))
        (λ least. IsLeastWeight size pieces.now (InVertices terminals.now) least)) }
{
    let chosen = Vec::new(alloc);
    let least = least_beside(alloc, size, chosen.as_slice(), pieces, terminals)?;
    Ok(if least < APART { Some(least) } else { None })
}

/// The least weight that some of the pieces add to the chosen ones, so that all together join the terminals. `APART` where
/// none do.
fn least_beside(
    alloc: Global,
    size: Size,
    chosen: &[Piece],
    pieces: &[(Piece, u64)],
    terminals: &[Vertex],
) -> Result<u64, NoMemory>
    requires chosen { All (IsPiece size) chosen.now }
    requires inside { WeighsOnlyPieces size pieces.now }
    requires light { AreWithinLimit pieces.now }
    requires vertices { All (λ t. IsVertex size t.0) terminals.now }
    ensures { IfOk result (λ least. IsLeastBeside size chosen.now pieces.now (InVertices terminals.now) least) }
{
    if pieces.is_empty() {
        let joined = joins_by_merging(alloc, size, chosen, terminals)?;
        return Ok(if joined { 0 } else { APART });
    }
    let (p, weight) = pieces[0];
    let rest = &pieces[1..];
    let left_out = least_beside(alloc, size, chosen, rest, terminals)?;
    let mut more = Vec::from_slice(alloc, chosen)?;
    more.push(p)?;
    let taken = least_beside(alloc, size, more.as_slice(), rest, terminals)?;
    Ok(left_out.min(taken + weight))
}
