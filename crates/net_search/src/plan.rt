//! What the searches for one net go by.

use crate::bound::Bound;
use crate::field::Field;
use crate::frame::{Frame, frame_of};
use crate::layers::{layers_for, least_demand};
use crate::stage::Stage;
use crate::weights::Weights;
use grid_base::Size;
use grid_graph::{Grid, Ground, NetSpec};
use layer_ways::LayerTables;

/// What the searches for one net go by.
#[derive(Drop)]
pub struct Plan<'a> {
    pub(crate) size: Size,
    pub(crate) weights: Weights<'a>,
    pub(crate) bound: Bound<'a>,
    /// The box of the net's terminals.
    pub(crate) frame: Frame,
    /// How far a search looks beyond it at first.
    pub(crate) margin: u32,
}

impl<'a> Plan<'a> {
    ghost use Rattle.std.specs.Prelude.{◌≡◌};
    ghost use Rattle.grid_graph.specs.Grids.{size_of};
    ghost use Rattle.grid_graph.specs.Nets.{IsNet};
    ghost use Rattle.net_search.specs.Plans.{size_of_plan};

    /// What the searches for a net go by at the loads of this field, in its ground. They look no further than the margin
    /// beyond the box of the net's terminals, unless nothing is found there.
    pub fn of(
        grid: &Grid,
        tables: &'a LayerTables,
        field: Field<'a>,
        over: Ground,
        net: &NetSpec,
        margin: u32,
    ) -> Plan<'a>
        requires net { IsNet grid.now net.now }
        ensures size { size_of_plan result ≡ size_of grid.now }
        ensures field { result.weights.field ≡ field.entry }
        ensures over { result.weights.over ≡ over }
        ensures margin { result.margin ≡ margin }
    {
        let layers = layers_for(grid, &tables.directions, net.width);
        Plan {
            size: grid.size(),
            weights: Weights {
                field,
                layers,
                over,
            },
            bound: Bound {
                vias: &tables.vias,
                landmark: landmark_of(field, over),
                demand: least_demand(&layers),
                cols: grid.size().cols(),
            },
            frame: frame_of(grid.size(), net.terminals.list()),
            margin,
        }
    }

    /// The size of the grid.
    pub fn size(&self) -> Size
        ensures { result ≡ size_of_plan self.now }
    {
        self.size
    }
}

/// The distances from the landmark where prices weigh, and none elsewhere. They count open edges alone, so they say nothing to a net
/// that may use choked ones.
fn landmark_of(field: Field<'_>, over: Ground) -> &[u32] {
    if field.stage == Stage::Negotiation && over == Ground::Open {
        return field.landmark;
    }
    &[]
}
