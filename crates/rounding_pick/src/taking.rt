//! The load of whole phases is taken off a share.

ghost use Rattle.std.specs.Prelude.{◌≡◌, ◌+◌, ◌≤◌, ◌<◌, ℕ, All};
ghost use Rattle.grid_graph.specs.Grids.{entries};
ghost use Rattle.load_core.specs.Parties.{share_at};
ghost use Rattle.load_table.specs.Holdings.{IsShare};
ghost use Rattle.tree_set.specs.Loads.{load_on};
ghost use Rattle.tree_set.specs.Routings.{IsRouting};
ghost use Rattle.routing_stages.specs.Phases.{phases_load};
ghost use Rattle.price_workers.specs.TreeLoads.{DiffersInShares};

use grid_graph::Design;
use load_table::{LoadTable, Share};
use price_workers::take_load;
use routing_stages::Trees;
use tree_set::Tree;

/// Takes the load of the sets of some phases off a share.
pub(crate) fn take_phases(design: &Design, table: &LoadTable, share: &mut Share, phases: &[Trees])
    requires table { share.old.table ≡ table.now }
    requires words { table.now.words ≡ entries design.now.grid }
    requires routings { All (IsRouting design.now.grid design.now.nets) phases.now }
    requires had { (r : ℕ) → r < entries design.now.grid → phases_load design.now.grid design.now.nets phases.now r ≤ share_at r share.old.party }
    requires share { IsShare share.old }
    ensures shares { (r : ℕ) → r < entries design.now.grid → share_at r share.old.party ≡ share_at r share.new.party + phases_load design.now.grid design.now.nets phases.now r }
    ensures party { DiffersInShares share.old.party share.new.party }
    ensures table { share.new.table ≡ share.old.table }
    ensures valid { IsShare share.new }
{
    for trees in phases {
        take_routing(design, table, share, trees.list());
    }
}

/// Takes the load of a set for each net off a share.
fn take_routing(design: &Design, table: &LoadTable, share: &mut Share, trees: &[Tree])
    requires table { share.old.table ≡ table.now }
    requires words { table.now.words ≡ entries design.now.grid }
    requires routing { IsRouting design.now.grid design.now.nets trees.now }
    requires had { (r : ℕ) → r < entries design.now.grid → load_on design.now.grid design.now.nets trees.now r ≤ share_at r share.old.party }
    requires share { IsShare share.old }
    ensures shares { (r : ℕ) → r < entries design.now.grid → share_at r share.old.party ≡ share_at r share.new.party + load_on design.now.grid design.now.nets trees.now r }
    ensures party { DiffersInShares share.old.party share.new.party }
    ensures table { share.new.table ≡ share.old.table }
    ensures valid { IsShare share.new }
{
    let nets = design.nets.list();
    for position in 0..nets.len() {
        take_load(
            share,
            table,
            &design.grid,
            nets[position].width,
            &trees[position],
        );
    }
}
