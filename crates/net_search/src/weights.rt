//! What edges weigh.

use crate::field::Field;
use crate::layers::{LAYERS, LayerUse};
use crate::road::Road;
use crate::stage::Stage;
use grid_base::Edge;
use grid_graph::Ground;
use layer_ways::UNIT;

/// What one more overflow weighs where nets get their first set.
const OVERFLOW_AT_START: u32 = 16;

/// The same in negotiation: it stays far below what prices rise to, so that nets push one another away.
const OVERFLOW_IN_NEGOTIATION: u32 = 16;

/// The same in descent: more than any way round.
const OVERFLOW_IN_DESCENT: u32 = 400;

/// What edges weigh for one net.
#[derive(Drop)]
pub(crate) struct Weights<'a> {
    pub(crate) field: Field<'a>,
    /// What the net uses, by layer.
    pub(crate) layers: [LayerUse; LAYERS],
    /// The net's ground.
    pub(crate) over: Ground,
}

impl Weights<'_> {
    ghost use Rattle.std.specs.Prelude.{◌≤◌, ◌<◌, ◌↔◌, IsSome, IfSome, length};
    ghost use Rattle.net_search.specs.Using.{IsUsable};

    /// What an edge on this layer weighs. `None` is an edge that the net may not use.
    #[inline(always)]
    pub(crate) fn weight(&self, edge: Edge, road: Road, demand: u32) -> Option<u32>
        ensures usable { IsSome result ↔ (IsUsable self.now.over road × (edge.0 < length self.now.field.rooms.now)) }
        ensures unit { IfSome result (λ weight. 4 ≤ weight) }
    {
        let is_own = match road {
            Road::Wall => return None,
            Road::Choked | Road::OwnChoked if self.over == Ground::Open => return None,
            Road::Choked | Road::Open => false,
            Road::OwnChoked | Road::OwnOpen => true,
        };
        let room = *self.field.rooms.get(edge.0 as usize)?;
        let overflow = added_overflow(i64::from(room), demand, is_own);
        let weight = match self.field.stage {
            Stage::Start => overflow.saturating_mul(OVERFLOW_AT_START),
            Stage::Negotiation => overflow
                .saturating_mul(OVERFLOW_IN_NEGOTIATION)
                .saturating_add(self.priced(edge, demand)),
            Stage::Descent => overflow.saturating_mul(OVERFLOW_IN_DESCENT),
        };
        Some(weight.saturating_add(UNIT))
    }

    /// What the demand costs at the price of an edge.
    #[inline(always)]
    fn priced(&self, edge: Edge, demand: u32) -> u32 {
        match self.field.prices.get(edge.0 as usize) {
            Some(price) => u32::from(*price).saturating_mul(demand),
            None => 0,
        }
    }
}

/// What a demand adds to the overflow of an edge with this room, which is told with the net's own set in it or without.
#[inline(always)]
fn added_overflow(room: i64, demand: u32, is_own: bool) -> u32 {
    let free = if is_own {
        room.saturating_add(i64::from(demand))
    } else {
        room
    };
    if free <= 0 {
        return demand;
    }
    let free = free.unsigned_abs().min(u64::from(demand)) as u32;
    demand - free
}
