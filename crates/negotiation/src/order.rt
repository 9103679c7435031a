//! Nets in order of how far they reach.

ghost use Rattle.std.specs.Prelude.{◌≡◌, ◌<◌, ◌^◌, IfOk, length, map, All};
ghost use Rattle.std.specs.List.{range_with_len};
ghost use Rattle.std.specs.List.Sorted.{IsPermutation};

use grid_base::NoMemory;
use net_extents::Extent;
use std::alloc::Global;

/// A net with what its place in an order rests on.
#[derive(Clone, Copy, Drop)]
pub(crate) struct Ranked {
    pub half_perimeter: u32,
    pub tile: u32,
    pub net: u32,
}

/// These nets, short ones first, and of those that reach equally far such on near tiles one after another.
pub(crate) fn short_first(
    alloc: Global,
    extents: &[Extent],
    nets: &[u32],
) -> Result<Vec<u32>, NoMemory>
    requires nets { All (λ net. net < length extents.now) nets.now }
    ensures same { IfOk result (λ order. IsPermutation nets.now order.items) }
{
    let mut ranked = rank(alloc, extents, nets)?;
    ranked.sort_unstable_by_key(|x| (x.half_perimeter, x.tile, x.net));
    let mut order = Vec::with_capacity(alloc, ranked.len())?;
    for x in &ranked {
        order.push(x.net)?;
    }
    Ok(order)
}

/// The nets with what their places rest on.
fn rank(alloc: Global, extents: &[Extent], nets: &[u32]) -> Result<Vec<Ranked>, NoMemory>
    requires nets { All (λ net. net < length extents.now) nets.now }
    ensures same { IfOk result (λ ranked. map (λ x. x.net) ranked.items ≡ nets.now) }
{
    let mut ranked = Vec::with_capacity(alloc, nets.len())?;
    for net in nets {
        let extent = extents[*net as usize];
        ranked.push(Ranked {
            half_perimeter: extent.half_perimeter,
            tile: extent.tile,
            net: *net,
        })?;
    }
    Ok(ranked)
}

/// All nets, short ones first.
pub(crate) fn all_short_first(alloc: Global, extents: &[Extent]) -> Result<Vec<u32>, NoMemory>
    requires few { length extents.now < 2 ^ 32 }
    ensures nets { IfOk result (λ order. All (λ net. net < length extents.now) order.items) }
    ensures all { IfOk result (λ order. IsPermutation (range_with_len 0 (length extents.now)) order.items) }
{
    let mut nets = Vec::with_capacity(alloc, extents.len())?;
    for net in 0..extents.len() {
        nets.push(net as u32)?;
    }
    let order = short_first(alloc, extents, &nets)?;
    Ok(order)
}
