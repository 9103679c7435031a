//! What it costs to enter a tile.

ghost use Rattle.std.specs.Prelude.{◌≡◌, ◌-◌, ◌^◌, false, None, Some, slice_get};
ghost use Rattle.net_search.specs.declared.layers.LayerUse.{LayerUse};

use crate::labels::Labels;
use crate::road::Road;
use crate::side::Side;
use crate::site::Site;
use crate::weights::Weights;
use grid_base::{Edge, Size};
use layer_ways::UNIT;

/// What the cheapest edge into a site's tile on the site's layer weighs beyond the unit; the greatest number where the net may use
/// none. Beside the first column or row stands the number of a wall.
pub(crate) fn entry_on_layer(size: Size, labels: &Labels, weights: &Weights<'_>, site: Site) -> u32
    ensures none { slice_get weights.now.layers site.layer ≡ None → result ≡ 2 ^ 32 - 1 }
    ensures bare { (layer : LayerUse) → slice_get weights.now.layers site.layer ≡ Some layer → layer.along_x ≡ false → layer.along_y ≡ false → result ≡ 2 ^ 32 - 1 }
{
    let Some(layer) = weights.layers.get(site.layer as usize) else {
        return u32::MAX;
    };
    let mut least = u32::MAX;
    if layer.along_x {
        least = least.min(east_of(labels, weights, site, layer.demand)).min(east_of(
            labels,
            weights,
            site.beside(size, Side::West),
            layer.demand,
        ));
    }
    if layer.along_y {
        least = least
            .min(north_of(labels, weights, site, layer.demand))
            .min(north_of(
                labels,
                weights,
                site.beside(size, Side::South),
                layer.demand,
            ));
    }
    least
}

/// What the edge to the next column weighs beyond the unit.
fn east_of(labels: &Labels, weights: &Weights<'_>, site: Site, demand: u32) -> u32 {
    beyond_unit(weights, site.east(), labels.at(site.vertex).east, demand)
}

/// What the edge to the next row weighs beyond the unit.
fn north_of(labels: &Labels, weights: &Weights<'_>, site: Site, demand: u32) -> u32 {
    beyond_unit(weights, site.north(), labels.at(site.vertex).north, demand)
}

/// What an edge weighs beyond the unit.
fn beyond_unit(weights: &Weights<'_>, edge: Edge, road: Road, demand: u32) -> u32 {
    match weights.weight(edge, road, demand) {
        Some(weight) => weight.saturating_sub(UNIT),
        None => u32::MAX,
    }
}
