//! Distances on small grids, beside a reference program that lowers numbers as long as a piece lowers one.

ghost use Rattle.std.specs.Prelude.{◌≡◌, ◌≤◌, IfOk, IfSome};
ghost use Rattle.grid_base.specs.Numbers.{IsVertex};
ghost use Rattle.label_search.specs.Paths.{NoneWeighsNothing};
ghost use Rattle.shortest_paths.specs.LabelWords.{labels_size};

use crate::listed::Listed;
use crate::piece_sets::numbered_piece;
use crate::reference_paths::reference_distances;
use grid_base::{NoMemory, Size, Vertex};
use grid_graph::FlooredWeights;
use shortest_paths::{FloorBound, Labels};
use std::alloc::Global;
use std::test::Fail;

/// A number that looks like chance.
pub(crate) fn mixed(seed: u32, i: u32) -> u32 {
    let mut x = seed
        .wrapping_mul(747796405)
        .wrapping_add(i.wrapping_mul(2654435761));
    x ^= x >> 15;
    x = x.wrapping_mul(2246822519);
    x ^ (x >> 13)
}

/// One piece in four is a wall, one in eight is as heavy as a choked edge, and the others weigh the least or up to nine steps
/// more.
fn drawn_weight(draw: u32, least: u64, step: u64) -> Option<u64>
    requires least { least ≤ 6 }
    requires step { step ≤ 100 }
{
    match draw % 8 {
        0 | 1 => None,
        2 => Some(1 << 38),
        _ => Some(u64::from(draw / 8 % 10) * step + least),
    }
}

/// Drawn pieces of a grid with drawn weights.
pub(crate) fn drawn(
    alloc: Global,
    size: Size,
    seed: u32,
    least: u64,
    step: u64,
) -> Result<Option<Listed>, NoMemory>
    requires least { least ≤ 6 }
    requires step { step ≤ 100 }
    ensures { IfOk result (λ found. IfSome found (λ x. x.size ≡ size)) }
{
    let mut pieces = Vec::new(alloc);
    for number in 0..3 * size.vertices() {
        let piece = numbered_piece(number);
        if let Some(weight) = drawn_weight(mixed(seed, number), least, step) {
            if size.is_piece(piece) {
                pieces.push((piece, weight))?;
            }
        }
    }
    Ok(Listed::of(size, pieces))
}

/// Whether the labels have these distances, one for each vertex.
fn are_distances(wanted: &[Option<u64>], labels: &Labels, size: Size) -> bool
    requires { labels_size labels.now ≡ size }
{
    for v in 0..size.vertices() {
        if wanted.get(v as usize).copied() != Some(labels.distance(Vertex(v))) {
            return false;
        }
    }
    true
}

/// Whether the labels answer for each vertex what the reference program does, from the first one.
pub(crate) fn distances_agree(alloc: Global, weights: &Listed, size: Size) -> Result<bool, NoMemory>
    requires { weights.now.size ≡ size }
{
    let wanted = reference_distances(alloc, size, weights.pieces(), Vertex(0))?;
    let mut labels = Labels::new(alloc, size, 1)?;
    labels.distances(weights, Vertex(0), &[]);
    Ok(are_distances(wanted.as_slice(), &labels, size))
}

/// Whether a search that is led to the goal finds the wanted distance, and a path of that weight between the two.
fn led_search_agrees(
    weights: &Listed,
    size: Size,
    source: Vertex,
    goal: Vertex,
    wanted: Option<Option<u64>>,
    labels: &mut Labels,
) -> Result<bool, NoMemory>
    requires size { weights.now.size ≡ size }
    requires labels { labels_size labels.old ≡ size }
    requires source { IsVertex size source.0 }
    requires goal { IsVertex size goal.0 }
    requires positive { NoneWeighsNothing weights.now.pieces.items }
{
    let bound = FloorBound::new(weights, size, goal, weights.floors());
    labels.distance_between(weights, &bound, source, goal);
    let Some(distance) = labels.distance(goal) else {
        return Ok(wanted == Some(None));
    };
    let path = labels.path_to(weights, goal)?;
    Ok(weights.weight_of(path.as_slice()) == Some(distance) && wanted == Some(Some(distance)))
}

/// Whether it does so between two corners of a grid, beside the reference program.
pub(crate) fn path_agrees(alloc: Global, weights: &Listed, size: Size) -> Result<bool, Fail>
    requires { weights.now.size ≡ size }
{
    if !weights.is_positive() {
        return Err(Fail::new("a piece weighs nothing"));
    }
    let (source, goal) = (Vertex(0), Vertex(size.vertices() - 1));
    let distances = reference_distances(alloc, size, weights.pieces(), source)?;
    let wanted = distances.get(goal.0 as usize).copied();
    let mut labels = Labels::new(alloc, size, 15)?;
    Ok(led_search_agrees(weights, size, source, goal, wanted, &mut labels)?)
}
