//! The reader of the nets.
//!
//! Most tokens of a text are those of pins. What takes other ones is not inlined, here and in the readers
//! around, so that a pin's token doesn't pay for room that it doesn't use.

ghost use Rattle.std.specs.Prelude.{◌≡◌, false, true, Ok, IfOk};
ghost use Rattle.grid_graph.specs.declared.grid.Grid.{Grid};
ghost use Rattle.grid_graph.specs.Grids.{layout_of};
ghost use Rattle.grid_graph.specs.Nets.{IdsDiffer, IsDesign};
ghost use Rattle.ispd_reader.specs.declared.net_stage.NetStage.TheVariants as stages;
ghost use Rattle.design_tokens.specs.CutTokens.{keeps_name};
ghost use Rattle.design_tokens.specs.Parsing.{Reading};
ghost use Rattle.ispd_reader.specs.Header.{Header};
ghost use Rattle.ispd_reader.specs.Nets.{nets_at};
ghost use Rattle.ispd_reader.specs.NetsLeft.{AreNetsOf, TakesNet, nets_left, nets_left_of, nets_left_at_pins, has_all_nets, awaits_name};
ghost use Rattle.ispd_reader.specs.NetsSoFar.{HasDoneNets, AwaitPins};
ghost use Rattle.design_tokens.specs.Steps.{TakesNext, IsMissing};
ghost use Rattle.ispd_reader.specs.Views.{header_of, nets_of};

use crate::net_numbers::{column, greatest_spacing, id, level, net_width, row, vertex};
use crate::net_stage::NetStage;
use crate::present_net::PresentNet;
use design_tokens::{CutToken, InputError, Wanted, count, name, word};
use grid_base::NoMemory;
use grid_graph::{Grid, MAX_NETS, MAX_PINS, Name, NetSpec, Nets};
use std::alloc::Global;
use std::collections::BTreeSet;

/// What of the nets has been read.
#[derive(Drop)]
pub(crate) struct NetsReader {
    stage: NetStage,
    /// The greatest spacing of a layer.
    spacing: u32,
    /// The nets that are there.
    nets: Vec<NetSpec>,
    /// Their ids, and that of the present net.
    taken: BTreeSet<u32>,
    /// How many pins they have, with those of the present net once they are counted.
    pins: u32,
    /// How many nets are owed behind the present one.
    owed: u32,
    net: PresentNet,
}

impl NetsReader {
    /// Nothing has been read.
    pub(crate) fn new(alloc: Global, grid: &Grid) -> Self
        ensures left { (r : Reading) → nets_left (header_of (layout_of grid.now)) result r ≡ nets_at (header_of (layout_of grid.now)) r }
        ensures fits { AreNetsOf grid.now result }
    {
        NetsReader {
            stage: NetStage::Num,
            spacing: greatest_spacing(grid),
            nets: Vec::new(alloc),
            taken: BTreeSet::new(alloc),
            pins: 0,
            owed: 0,
            net: PresentNet::new(alloc),
        }
    }

    /// Whether all nets are there.
    pub(crate) fn is_done(&self) -> bool
        ensures { result ≡ has_all_nets self.now }
    {
        self.stage.is_last()
    }

    /// Whether a name is next.
    pub(crate) fn awaits_name(&self) -> bool
        ensures { result ≡ awaits_name self.now }
    {
        self.stage.is_name()
    }

    /// The word, name or number that is next.
    pub(crate) fn wanted(&self) -> Wanted
        requires { has_all_nets self.now ≡ false }
        ensures { (header : Header) → IsMissing result (nets_left header self.now) }
    {
        self.stage.wanted()
    }

    /// Takes the next token.
    pub(crate) fn take(
        &mut self,
        alloc: Global,
        grid: &Grid,
        token: &CutToken,
    ) -> Result<(), InputError>
        requires more { has_all_nets self.old ≡ false }
        requires fits { AreNetsOf grid.now self.old }
        requires named { awaits_name self.old ≡ true → keeps_name token.now ≡ true }
        ensures takes { TakesNext token.now result (nets_left (header_of (layout_of grid.now)) self.old) (nets_left (header_of (layout_of grid.now)) self.new) }
        ensures fits { IfOk result (λ _. AreNetsOf grid.now self.new) }
    {
        match self.stage {
            NetStage::Num => self.take_num(token),
            NetStage::Net => self.take_net(token),
            NetStage::Count => self.take_count(token),
            NetStage::Name => self.take_name(alloc, token),
            NetStage::Id => self.take_id(token),
            NetStage::PinCount => self.take_pin_count(grid, token),
            NetStage::Width => self.take_width(alloc, grid, token),
            NetStage::X => self.take_x(grid, token),
            NetStage::Y { col } => self.take_y(grid, token, col),
            NetStage::Layer { col, row } => self.take_layer(alloc, grid, token, col, row),
            NetStage::Done => Ok(()),
        }
    }

    /// The nets, once all are there.
    pub(crate) fn into_nets(self) -> Nets
        requires all { has_all_nets self ≡ true }
        requires ids { IdsDiffer self.nets.items }
        ensures left { (header : Header) (r : Reading) → nets_left header self r ≡ Ok (nets_of result, r) }
        ensures limits { (grid : Grid) → AreNetsOf grid self → IsDesign grid result }
    {
        Nets::of(self.nets)
    }

    /// Takes the word `num`.
    #[inline(never)]
    fn take_num(&mut self, token: &CutToken) -> Result<(), InputError>
        requires { self.old.stage ≡ stages.Num }
        ensures { (grid : Grid) → AreNetsOf grid self.old → TakesNet grid token.now result self.old self.new }
    {
        word(token, Wanted::Num)?;
        self.stage = NetStage::Net;
        Ok(())
    }

    /// Takes the word `net`.
    #[inline(never)]
    fn take_net(&mut self, token: &CutToken) -> Result<(), InputError>
        requires { self.old.stage ≡ stages.Net }
        ensures { (grid : Grid) → AreNetsOf grid self.old → TakesNet grid token.now result self.old self.new }
    {
        word(token, Wanted::Net)?;
        self.stage = NetStage::Count;
        Ok(())
    }

    /// Takes how many nets there are.
    #[inline(never)]
    fn take_count(&mut self, token: &CutToken) -> Result<(), InputError>
        requires { self.old.stage ≡ stages.Count }
        ensures { (grid : Grid) → AreNetsOf grid self.old → TakesNet grid token.now result self.old self.new }
    {
        let count = count(token, MAX_NETS)?;
        self.await_net(count);
        Ok(())
    }

    /// Goes on with so many nets.
    fn await_net(&mut self, count: u32)
        ensures left { (header : Header) (r : Reading) → nets_left_of header self.old count r ≡ nets_left header self.new r }
        ensures fits { (grid : Grid) → HasDoneNets grid self.old (λ _. false) 0 count → AreNetsOf grid self.new }
    {
        if count > 0 {
            self.owed = count - 1;
            self.stage = NetStage::Name;
        } else {
            self.stage = NetStage::Done;
        }
    }

    /// Takes the name of a net.
    #[inline(never)]
    fn take_name(&mut self, alloc: Global, token: &CutToken) -> Result<(), InputError>
        requires stage { self.old.stage ≡ stages.Name }
        requires named { keeps_name token.now ≡ true }
        ensures { (grid : Grid) → AreNetsOf grid self.old → TakesNet grid token.now result self.old self.new }
    {
        let name = name(alloc, token)?;
        self.net.name = Name::of(name);
        self.stage = NetStage::Id;
        Ok(())
    }

    /// Takes the id of a net.
    #[inline(never)]
    fn take_id(&mut self, token: &CutToken) -> Result<(), InputError>
        requires { self.old.stage ≡ stages.Id }
        ensures { (grid : Grid) → AreNetsOf grid self.old → TakesNet grid token.now result self.old self.new }
    {
        let id = id(token, &mut self.taken)?;
        self.net.id = id;
        self.stage = NetStage::PinCount;
        Ok(())
    }

    /// Takes how many pins a net has.
    #[inline(never)]
    fn take_pin_count(&mut self, grid: &Grid, token: &CutToken) -> Result<(), InputError>
        requires stage { self.old.stage ≡ stages.PinCount }
        requires fits { AreNetsOf grid.now self.old }
        ensures { TakesNet grid.now token.now result self.old self.new }
    {
        let count = count(token, MAX_PINS - self.pins)?;
        self.pins += count;
        self.net.places.clear();
        self.net.pin = 0;
        self.net.owed = count;
        self.stage = NetStage::Width;
        Ok(())
    }

    /// Takes the width of a net, which ends with it where it has no pins.
    #[inline(never)]
    fn take_width(&mut self, alloc: Global, grid: &Grid, token: &CutToken) -> Result<(), InputError>
        requires stage { self.old.stage ≡ stages.Width }
        requires fits { AreNetsOf grid.now self.old }
        ensures { TakesNet grid.now token.now result self.old self.new }
    {
        let width = net_width(grid, token, self.spacing)?;
        self.net.width = width;
        self.await_pin(alloc)?;
        Ok(())
    }

    /// Goes on with a pin, or ends the net.
    fn await_pin(&mut self, alloc: Global) -> Result<(), NoMemory>
        ensures left { IfOk result (λ _. (header : Header) (r : Reading) → nets_left_at_pins header self.old self.old.net.owed r ≡ nets_left header self.new r) }
        ensures fits { (grid : Grid) → AwaitPins grid self.old → IfOk result (λ _. AreNetsOf grid self.new) }
    {
        if self.net.owed > 0 {
            self.net.owed -= 1;
            self.stage = NetStage::X;
            return Ok(());
        }
        self.end_net(alloc)
    }

    /// Puts the net to those that are there.
    #[inline(never)]
    fn end_net(&mut self, alloc: Global) -> Result<(), NoMemory>
        ensures left { IfOk result (λ _. (header : Header) (r : Reading) → nets_left_at_pins header self.old 0 r ≡ nets_left header self.new r) }
        ensures fits { (grid : Grid) → AwaitPins grid self.old → IfOk result (λ _. AreNetsOf grid self.new) }
    {
        let net = self.net.finish(alloc)?;
        self.nets.push(net)?;
        self.await_net(self.owed);
        Ok(())
    }

    /// Takes the x of a pin.
    fn take_x(&mut self, grid: &Grid, token: &CutToken) -> Result<(), InputError>
        requires stage { self.old.stage ≡ stages.X }
        requires fits { AreNetsOf grid.now self.old }
        ensures { TakesNet grid.now token.now result self.old self.new }
    {
        let col = column(grid, token, self.net.id, self.net.pin)?;
        self.stage = NetStage::Y { col };
        Ok(())
    }

    /// Takes the y of a pin in this column.
    fn take_y(&mut self, grid: &Grid, token: &CutToken, col: u32) -> Result<(), InputError>
        requires stage { self.old.stage ≡ stages.Y col }
        requires fits { AreNetsOf grid.now self.old }
        ensures { TakesNet grid.now token.now result self.old self.new }
    {
        let row = row(grid, token, self.net.id, self.net.pin)?;
        self.stage = NetStage::Layer { col, row };
        Ok(())
    }

    /// Takes the layer of a pin in this column and row.
    fn take_layer(
        &mut self,
        alloc: Global,
        grid: &Grid,
        token: &CutToken,
        col: u32,
        row: u32,
    ) -> Result<(), InputError>
        requires stage { self.old.stage ≡ stages.Layer col row }
        requires fits { AreNetsOf grid.now self.old }
        ensures { TakesNet grid.now token.now result self.old self.new }
    {
        let level = level(grid, token, self.net.id, self.net.pin)?;
        let vertex = vertex(grid, col, row, level);
        self.net.places.push(vertex)?;
        self.net.pin += 1;
        self.await_pin(alloc)?;
        Ok(())
    }
}
