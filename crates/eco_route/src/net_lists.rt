//! Nets of a list, as one of them comes, changes or goes. The list is taken out of its rule for as long.

ghost use Rattle.std.specs.Prelude.{◌≡◌, ◌<◌, ◌++◌, ◌∷◌, [], length, slice_set, OnOk, OnErr};
ghost use Rattle.std.specs.List.{remove};
ghost use Rattle.grid_graph.specs.Nets.{IdsDiffer};

use grid_base::NoMemory;
use grid_graph::{NetSpec, Nets};
use std::alloc::Global;
use std::mem::replace;

/// The nets, in whose place none are left.
fn taken(alloc: Global, nets: &mut Nets) -> Vec<NetSpec>
    ensures { result.items ≡ nets.old }
{
    replace(nets, Nets::of(Vec::new(alloc))).into_list()
}

/// A net comes behind all others.
pub(crate) fn push_net(alloc: Global, nets: &mut Nets, net: NetSpec) -> Result<(), NoMemory>
    requires { IdsDiffer (nets.old ++ net ∷ []) }
    ensures pushed { OnOk result (nets.new ≡ nets.old ++ net ∷ []) }
    ensures no_memory { OnErr result (nets.new ≡ nets.old) }
{
    let mut list = taken(alloc, nets);
    let pushed = list.push(net);
    *nets = Nets::of(list);
    pushed?;
    Ok(())
}

/// Another net comes in place of the one at this place.
pub(crate) fn set_net(alloc: Global, nets: &mut Nets, place: usize, net: NetSpec)
    requires place { place < length nets.old }
    requires ids { IdsDiffer (slice_set nets.old place net) }
    ensures { nets.new ≡ slice_set nets.old place net }
{
    let mut list = taken(alloc, nets);
    list[place] = net;
    *nets = Nets::of(list);
}

/// The net at this place goes, and those behind it move up.
pub(crate) fn remove_net(alloc: Global, nets: &mut Nets, place: usize)
    requires place { place < length nets.old }
    requires ids { IdsDiffer (remove nets.old place) }
    ensures { nets.new ≡ remove nets.old place }
{
    let mut list = taken(alloc, nets);
    list.remove(place);
    *nets = Nets::of(list);
}
