//! What rerouting works with beside the sets.

ghost use Rattle.std.specs.Prelude.{◌≡◌, IfOk, length};

use crate::due::Due;
use crate::overfull::holds_overfull;
use crate::round_prices::RoundPrices;
use crate::searching::search_batch;
use crate::sight::Sight;
use grid_base::NoMemory;
use grid_graph::{Design, Ground};
use net_extents::{Extent, extents_of};
use net_search::{Field, Stage};
use routing_state::RoutingState;
use std::alloc::Global;
use std::thread::Threads;
use tree_growth::Growth;
use tree_set::Tree;

/// So many tiles a net may look beyond its box at first.
const FIRST_MARGIN: u32 = 6;
/// The margin of a net grows up to this.
const MOST_MARGIN: u32 = 30;

/// The tables of each worker, how far each net reaches and may look beyond its box, the prices, and whose turn it is among a net's
/// terminals to be the first.
#[derive(Drop)]
pub(crate) struct Tools {
    growths: Vec<Growth>,
    extents: Vec<Extent>,
    margins: Vec<u32>,
    prices: RoundPrices,
    turn: usize,
}

impl Tools {
    ghost use Rattle.std.specs.Prelude.{◌≡◌, ◌≤◌, ◌<◌, ◌+◌, ◌%◌, ◌^◌, ◌↔◌, IfOk, IsTrue, List, length, map, slice_index, slice_index_or, slice_set};
    ghost use Rattle.grid_base.specs.declared.piece.Piece.{Piece};
    ghost use Rattle.grid_graph.specs.declared.design.Design.{Design as DesignOf};
    ghost use Rattle.grid_graph.specs.Grounds.{AreGrounds};
    ghost use Rattle.tree_set.specs.Loads.{load};
    ghost use Rattle.routing_state.specs.Clipped.{clipped};
    ghost use Rattle.routing_state.specs.States.{IsStateOf, rooms_of, trees_of};
    ghost use Rattle.net_extents.specs.declared.extent.Extent.{Extent as ExtentOf};
    ghost use Rattle.negotiation.specs.Due.{IsDue};
    ghost use Rattle.negotiation.specs.Margins.{wider};
    ghost use Rattle.negotiation.specs.RoundPrices.{ArePricesAfterRound};
    ghost use Rattle.negotiation.specs.Searches.{AreFound, ArePlaces};
    ghost use Rattle.negotiation.specs.Tools.{AreToolsFor};

    /// Tools for so many workers.
    pub fn new(alloc: Global, design: &Design, workers: u32) -> Result<Tools, NoMemory>
        requires workers { 1 ≤ workers }
        ensures tools { IfOk result (AreToolsFor design.now) }
    {
        let nets = design.nets.list().len();
        Ok(Tools {
            growths: growths_for(alloc, design, workers)?,
            extents: extents_of(alloc, design)?,
            margins: vec![in alloc; FIRST_MARGIN; nets]?,
            prices: RoundPrices::none(alloc, &design.grid)?,
            turn: 0,
        })
    }

    /// How far each net reaches.
    pub fn extents(&self) -> &[Extent]
        ensures { result.now ≡ self.now.extents.items }
    {
        self.extents.as_slice()
    }

    /// New sets for these nets, in their order, where they are found: all are searched for beside the sets that now are.
    pub fn search<'a, R: Threads + Sync>(
        &'a mut self,
        rt: &R,
        alloc: Global,
        design: &'a Design,
        grounds: &'a [Ground],
        state: &'a RoutingState,
        stage: Stage,
        nets: &[u32],
    ) -> Result<Vec<Option<Tree>>, NoMemory>
        requires tools { AreToolsFor design.now self.old }
        requires grounds { AreGrounds design.now.grid design.now.nets grounds.now }
        requires state { IsStateOf design.now state.now }
        requires nets { ArePlaces design.now nets.now }
        ensures found { IfOk result (λ found. AreFound design.now nets.now found.items) }
        ensures tools { AreToolsFor design.now self.new }
        ensures turn { self.new.turn ≡ self.old.turn }
        ensures margins { self.new.margins ≡ self.old.margins }
        ensures prices { self.new.prices ≡ self.old.prices }
    {
        let sight = Sight {
            design,
            grounds,
            trees: state.trees(),
            field: Field {
                rooms: state.narrow_rooms(),
                prices: self.prices.prices(),
                landmark: self.prices.landmark(),
                stage,
            },
            margins: self.margins.as_slice(),
            turn: self.turn,
        };
        search_batch(rt, alloc, sight, nets, self.growths.as_mut_slice())
    }

    /// The next round: prices follow the rooms, and the next terminal of each net is the first.
    pub fn go_on(&mut self, design: &Design, state: &RoutingState) -> Result<(), NoMemory>
        requires tools { AreToolsFor design.now self.old }
        requires state { IsStateOf design.now state.now }
        ensures tools { AreToolsFor design.now self.new }
        ensures prices { ArePricesAfterRound (map clipped (rooms_of state.now)) self.old.prices.prices.items self.new.prices.prices.items }
        ensures turn { self.new.turn ≡ (self.old.turn + 1) % 2 ^ 64 }
        ensures margins { self.new.margins ≡ self.old.margins }
    {
        self.pass_on();
        self.prices.go_on(&design.grid, state.narrow_rooms())
    }

    /// The next terminal of each net is the first.
    pub fn pass_on(&mut self)
        ensures tools { (d : DesignOf) → AreToolsFor d self.old → AreToolsFor d self.new }
        ensures turn { self.new ≡ record self.old { turn = (self.old.turn + 1) % 2 ^ 64 } }
    {
        self.turn = self.turn.wrapping_add(1);
    }

    /// A net may look further beyond its box.
    pub fn widen(&mut self, design: &Design, net: usize)
        requires tools { AreToolsFor design.now self.old }
        requires net { net < length design.now.nets }
        ensures tools { AreToolsFor design.now self.new }
        ensures margin { self.new.margins.items ≡ slice_set self.old.margins.items net (wider (slice_index self.old.margins.items net)) }
        ensures turn { self.new.turn ≡ self.old.turn }
        ensures prices { self.new.prices ≡ self.old.prices }
    {
        let margin = self.margins[net];
        self.margins[net] = margin.saturating_add(1 + margin / 4).min(MOST_MARGIN);
    }

    /// Whether a net is due.
    pub fn is_due(&self, design: &Design, state: &RoutingState, net: usize, due: Due) -> bool
        requires tools { AreToolsFor design.now self.now }
        requires state { IsStateOf design.now state.now }
        requires net { net < length design.now.nets }
        ensures { (tree : List Piece) (extent : ExtentOf) → tree ≡ slice_index_or (trees_of state.now) net tree → extent ≡ slice_index_or self.now.extents.items net extent
            → IsTrue result ↔ IsDue design.now.grid (load design.now.grid design.now.nets (trees_of state.now)) extent.least due tree }
    {
        due == Due::Improvable && state.trees()[net].pieces().len() as u64 > self.extents[net].least
            || holds_overfull(design, state, net)
    }
}

/// The tables of so many workers.
fn growths_for(alloc: Global, design: &Design, workers: u32) -> Result<Vec<Growth>, NoMemory>
    ensures some { IfOk result (λ growths. length growths.items ≡ workers) }
{
    let mut growths = Vec::with_capacity(alloc, workers as usize)?;
    for _ in 0..workers {
        growths.push(Growth::new(alloc, &design.grid)?)?;
    }
    Ok(growths)
}
