//! Where the nets of a design stand.

ghost use Rattle.std.specs.BTreeMap.{get};
ghost use Rattle.std.specs.Ordering.{nat_cmp};

use grid_base::NoMemory;
use grid_graph::NetSpec;
use std::alloc::Global;
use std::collections::BTreeMap;

/// The place of each net in the list of nets, by its id.
#[derive(Drop)]
pub(crate) struct NetPlaces {
    places: BTreeMap<u32, usize>,
}

impl NetPlaces {
    ghost use Rattle.std.specs.Prelude.{◌≡◌, IfOk};
    ghost use Rattle.grid_graph.specs.Nets.{IdsDiffer};
    ghost use Rattle.route_judge.specs.NetPlaces.{place_by_id, ArePlacesOf};

    /// Where these nets stand.
    pub fn of(alloc: Global, nets: &[NetSpec]) -> Result<NetPlaces, NoMemory>
        requires { IdsDiffer nets.now }
        ensures { IfOk result (λ places. ArePlacesOf nets.now (place_by_id places)) }
    {
        let mut places = BTreeMap::new(alloc);
        for place in 0..nets.len() {
            places.insert(nets[place].id, place)?;
        }
        Ok(NetPlaces { places })
    }

    /// The place of the net with this id.
    pub fn place_of(&self, id: u32) -> Option<usize>
        ensures { result ≡ place_by_id self.now id }
    {
        self.places.get(&id).copied()
    }
}
