//! How many vias a way has at least.

use crate::directions::{Direction, Directions};
use crate::rests::Rests;
use crate::unit::UNIT;
use grid_base::NoMemory;
use std::alloc::Global;

/// What the vias of a way from a layer to a layer weigh at least.
#[derive(Drop)]
pub struct FewestVias {
    /// One for each layer that a way begins on and each that it ends on.
    pairs: Vec<Rests>,
    layers: usize,
}

impl FewestVias {
    ghost use Rattle.std.specs.Prelude.{◌≡◌, ◌<◌, ◌≤◌, IfOk, length, slice_index_or};
    ghost use Rattle.layer_ways.specs.ViaRests.{no_rests, pair_number};

    /// Those of layers with these directions.
    pub(crate) fn of(alloc: Global, directions: &Directions) -> Result<FewestVias, NoMemory>
        ensures { IfOk result (λ vias. vias.layers ≡ length directions.now.layers.items) }
    {
        let layers = directions.len();
        let mut pairs = Vec::new(alloc);
        for from in 0..layers {
            for to in 0..layers {
                pairs.push(fewest_between(directions, from, to))?;
            }
        }
        Ok(FewestVias { pairs, layers })
    }

    /// What the vias of a way from a layer to a layer weigh at least, by the axes along which it runs.
    pub fn rests(&self, from: usize, to: usize) -> Rests
        ensures outside { self.now.layers ≤ from → result ≡ no_rests }
        ensures table { from < self.now.layers → result ≡ slice_index_or self.now.pairs.items (pair_number self.now.layers from to) no_rests }
    {
        let at = from.wrapping_mul(self.layers).wrapping_add(to);
        if from < self.layers && at < self.pairs.len() {
            self.pairs[at]
        } else {
            Rests::NONE
        }
    }
}

/// What the vias between two layers weigh at least, by the axes along which the way runs.
fn fewest_between(directions: &Directions, from: usize, to: usize) -> Rests {
    let low = from.min(to);
    let high = from.max(to);
    let along = |along_x: bool, along_y: bool| {
        fewest_along(directions, low, high, Direction { along_x, along_y }).saturating_mul(UNIT)
    };
    Rests {
        upright: along(false, false),
        along_x: along(true, false),
        along_y: along(false, true),
        along_both: along(true, true),
    }
}

/// How many vias a way from layer `low` up to layer `high` has at least that also runs along these axes: it may have to
/// go down below `low` first, or up above `high`, and back. 0 where no layers have these axes.
fn fewest_along(directions: &Directions, low: usize, high: usize, needed: Direction) -> u32 {
    let mut least = u32::MAX;
    for lowest in 0..low.saturating_add(1) {
        if let Some(above) = layers_above(directions, lowest, high, needed) {
            let below = low.saturating_sub(lowest);
            let turns = below.saturating_add(above).saturating_mul(2);
            let vias = high.saturating_sub(low).saturating_add(turns);
            least = least.min(u32::try_from(vias).unwrap_or(u32::MAX));
        }
    }
    if least == u32::MAX { 0 } else { least }
}

/// How far above layer `high` the layers from `lowest` on have to go to have these axes.
fn layers_above(
    directions: &Directions,
    lowest: usize,
    high: usize,
    needed: Direction,
) -> Option<usize> {
    let mut met = Direction::NONE;
    for layer in lowest..directions.len() {
        met = met.or(directions.at(layer));
        if layer >= high && met.has(needed) {
            return Some(layer - high);
        }
    }
    None
}
