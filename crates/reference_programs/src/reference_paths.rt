//! Distances by lowering numbers.

ghost use Rattle.std.specs.Prelude.{◌≡◌, ◌≤◌, ◌+◌, ℕ, List, None, IfOk, IfSome, length, map, get_or};
ghost use Rattle.grid_base.specs.declared.piece.Piece.{Piece};
ghost use Rattle.grid_base.specs.Numbers.{IsVertex, IsPiece, vertices};
ghost use Rattle.grid_graph.specs.Limits.{max_weight};
ghost use Rattle.grid_graph.specs.Weighed.{Weighs, WeighsOnlyPieces, AreWithinLimit};
ghost use Rattle.reference_programs.specs.LowerNumbers.{unreached, listed_number, distance_by, IsLowerNumber, IsSlack};
ghost use Rattle.label_search.specs.Sets.{IsDistance, RisesSlowly};

use grid_base::{NoMemory, Piece, Size, Vertex};
use std::alloc::{AllocError, Global};

/// The number of a vertex that nothing reached: above what all pieces of a grid weigh together.
const UNREACHED: u64 = (3 << 61) + 1;

/// The distance of each vertex from the source, by the definition: as long as a piece lowers the number of a vertex, the
/// vertex gets that number (Ford 1956).
pub fn reference_distances(
    alloc: Global,
    size: Size,
    pieces: &[(Piece, u64)],
    source: Vertex,
) -> Result<Vec<Option<u64>>, NoMemory>
    requires inside { WeighsOnlyPieces size pieces.now }
    requires light { AreWithinLimit pieces.now }
    requires source { IsVertex size source.0 }
    ensures { IfOk result (λ found. (v : ℕ) → IsVertex size v
        → IsDistance size pieces.now source.0 v (get_or found.items v None)) }
{
    let mut numbers = vec![in alloc; UNREACHED; size.vertices() as usize]?;
    numbers[source.0 as usize] = 0;
    while let Some((to, number)) = first_lower(size, pieces, numbers.as_slice()) {
        numbers[to.0 as usize] = number;
    }
    Ok(as_distances(alloc, numbers.as_slice())?)
}

/// The numbers as distances.
fn as_distances(alloc: Global, numbers: &[u64]) -> Result<Vec<Option<u64>>, AllocError>
    ensures { IfOk result (λ distances. distances.items ≡ map distance_by numbers.now) }
{
    numbers
        .iter()
        .map(|number| if *number < UNREACHED {
            Some(*number)
        } else {
            None
        })
        .collect(alloc)
}

/// The first vertex to which a piece gives a lower number than it has, and that number.
fn first_lower(size: Size, pieces: &[(Piece, u64)], numbers: &[u64]) -> Option<(Vertex, u64)>
    requires inside { WeighsOnlyPieces size pieces.now }
    requires light { AreWithinLimit pieces.now }
    requires long { length numbers.now ≡ vertices size }
    requires limit { (v : ℕ) → listed_number numbers.now v ≤ unreached }
    ensures some { IfSome result (λ x. IsLowerNumber size pieces.now (listed_number numbers.now) x.0.0 x.1) }
    ensures none { result ≡ None → RisesSlowly size pieces.now (listed_number numbers.now) }
{
    for entry in pieces {
        if let Some(lower) = lower_by(size, entry.0, entry.1, numbers) {
            return Some(lower);
        }
    }
    None
}

/// The end of a piece that gets a lower number from the other end, and that number.
fn lower_by(size: Size, p: Piece, weight: u64, numbers: &[u64]) -> Option<(Vertex, u64)>
    requires piece { IsPiece size p }
    requires light { weight ≤ max_weight }
    requires long { length numbers.now ≡ vertices size }
    requires limit { (v : ℕ) → listed_number numbers.now v ≤ unreached }
    ensures some { IfSome result (λ x. (pieces : List (Piece × ℕ)) → Weighs pieces p weight
        → IsLowerNumber size pieces (listed_number numbers.now) x.0.0 x.1) }
    ensures none { result ≡ None → IsSlack size (listed_number numbers.now) p weight }
{
    let (near, far) = size.ends_of(p);
    let near_number = numbers[near.0 as usize];
    let far_number = numbers[far.0 as usize];
    if near_number + weight < far_number {
        return Some((far, near_number + weight));
    }
    if far_number + weight < near_number {
        return Some((near, far_number + weight));
    }
    None
}
