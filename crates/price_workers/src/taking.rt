//! The load of a net's set is taken off a share.

ghost use Rattle.std.specs.Prelude.{◌≡◌, ◌+◌, ℕ};
ghost use Rattle.grid_graph.specs.Grids.{entries, IsNetWidth};
ghost use Rattle.load_core.specs.Parties.{share_at};
ghost use Rattle.load_table.specs.Holdings.{IsShare};
ghost use Rattle.tree_set.specs.Loads.{net_load};
ghost use Rattle.price_workers.specs.TreeLoads.{without_tree, DiffersInShares, HoldsTree};

use grid_base::Piece;
use grid_graph::Grid;
use load_table::{LoadTable, Share};
use tree_set::Tree;

/// Takes the load of a net of this width by its set off a share that has it, one word after another: its demand on each edge
/// of the set, and the number of the set's pieces on the wirelength.
pub fn take_load(share: &mut Share, table: &LoadTable, grid: &Grid, width: u32, tree: &Tree)
    requires table { share.old.table ≡ table.now }
    requires words { table.now.words ≡ entries grid.now }
    requires width { IsNetWidth grid.now width }
    requires had { HoldsTree grid.now width tree.now share.old.party }
    requires share { IsShare share.old }
    ensures shares { share.new.party.shares ≡ without_tree grid.now width tree.now share.old.party.shares }
    ensures party { DiffersInShares share.old.party share.new.party }
    ensures table { share.new.table ≡ share.old.table }
    ensures valid { IsShare share.new }
{
    take_edges(share, table, grid, width, tree);
    let wirelength = 2 * grid.size().vertices();
    share.sub(table, wirelength, tree.pieces().len() as u64);
}

/// Takes what a net of this width uses of each edge of its set.
fn take_edges(share: &mut Share, table: &LoadTable, grid: &Grid, width: u32, tree: &Tree)
    requires table { share.old.table ≡ table.now }
    requires words { table.now.words ≡ entries grid.now }
    requires width { IsNetWidth grid.now width }
    requires had { HoldsTree grid.now width tree.now share.old.party }
    requires share { IsShare share.old }
    ensures shares { (e : ℕ) → share_at e share.old.party ≡ share_at e share.new.party + net_load grid.now width tree.now e }
    ensures party { DiffersInShares share.old.party share.new.party }
    ensures table { share.new.table ≡ share.old.table }
    ensures valid { IsShare share.new }
{
    for p in tree.pieces() {
        if let Piece::Edge(e) = *p {
            share.sub(table, e.0, u64::from(grid.demand(width, e)));
        }
    }
}
