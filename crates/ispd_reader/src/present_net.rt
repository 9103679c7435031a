//! The net that is being read.

ghost use Rattle.std.specs.Prelude.{◌≡◌, IfOk};
ghost use Rattle.grid_base.specs.Lists.{HasNoRepeats};
ghost use Rattle.ispd_reader.specs.PresentNets.{net_of_places};
ghost use Rattle.ispd_reader.specs.Views.{net_of, numbers};

use grid_base::{NoMemory, Vertex};
use grid_graph::{Name, NetSpec, terms_of};
use std::alloc::Global;
use std::mem::replace;

/// What of a net has been read.
#[derive(Drop)]
pub(crate) struct PresentNet {
    pub(crate) name: Name,
    pub(crate) id: u32,
    pub(crate) width: u32,
    /// The vertices of its pins so far.
    pub(crate) places: Vec<Vertex>,
    /// The number of the pin that is being read, or is next.
    pub(crate) pin: u32,
    /// How many pins are owed behind it, or with it while none is being read.
    pub(crate) owed: u32,
}

impl PresentNet {
    /// Nothing.
    pub(crate) fn new(alloc: Global) -> Self {
        PresentNet {
            name: Name::of(Vec::new(alloc)),
            id: 0,
            width: 0,
            places: Vec::new(alloc),
            pin: 0,
            owed: 0,
        }
    }

    /// The net with the pins so far. Its name is taken out.
    pub(crate) fn finish(&mut self, alloc: Global) -> Result<NetSpec, NoMemory>
        ensures net { IfOk result (λ made. net_of made ≡ net_of_places self.old (numbers self.old.places.items)) }
        ensures distinct { IfOk result (λ made. HasNoRepeats made.terminals) }
    {
        let terminals = terms_of(alloc, &self.places)?;
        let name = replace(&mut self.name, Name::of(Vec::new(alloc)));
        Ok(NetSpec {
            id: self.id,
            name,
            width: self.width,
            terminals,
        })
    }
}
