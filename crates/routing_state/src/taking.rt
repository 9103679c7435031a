//! The rooms as all nets use them.

ghost use Rattle.std.specs.Prelude.{◌≡◌, All};
ghost use Rattle.tree_set.specs.Loads.{load};
ghost use Rattle.tree_set.specs.Measures as measures;
ghost use Rattle.tree_set.specs.Order.{IsRising};
ghost use Rattle.routing_state.specs.NetSets.{AreNetSets};
ghost use Rattle.routing_state.specs.Rooms.{AreRooms};

use crate::rooms::Rooms;
use grid_graph::Design;
use tree_set::Tree;

/// Takes what all nets use from the rooms, and counts their pieces.
pub(crate) fn take_all(design: &Design, trees: &[Tree], rooms: &mut Rooms) -> u64
    requires sets { AreNetSets design.now trees.now }
    requires rooms { AreRooms design.now.grid (λ e. 0) rooms.old.rooms.items }
    ensures rooms { AreRooms design.now.grid (load design.now.grid design.now.nets trees.now) rooms.new.rooms.items }
    ensures wirelength { result ≡ measures.wirelength trees.now }
    ensures rising { All IsRising trees.now }
{
    let mut wirelength = 0;
    for net in 0..trees.len() {
        rooms.take(&design.grid, design.nets.list()[net].width, &trees[net]);
        wirelength += trees[net].pieces().len() as u64;
    }
    wirelength
}
