//! The load of a net's set is put on a share and on the loads that are seen, and taken off again.

ghost use Rattle.std.specs.Prelude.{◌≡◌, ◌+◌, ◌-◌, ◌<◌, ◌≤◌, ℕ, slice_index, slice_set};
ghost use Rattle.edge_prices.specs.KeptLists.{grid_of, loads_of, KeepsSetting};
ghost use Rattle.grid_graph.specs.Limits.{max_load};
ghost use Rattle.grid_graph.specs.Grids.{entries, size_of, IsNetWidth};
ghost use Rattle.load_core.specs.Parties.{added, share_at};
ghost use Rattle.load_table.specs.Holdings.{held, IsShare};
ghost use Rattle.tree_set.specs.Loads.{net_load, tree_load, max_tree_load};
ghost use Rattle.tree_set.specs.Routings.{ArePieces};
ghost use Rattle.price_workers.specs.Readings.{AreCloseTo};
ghost use Rattle.price_workers.specs.TreeLoads.{GainsTree, without_tree, DiffersInShares, HasRoomForSet, HoldsTree};

use crate::taking::take_load;
use edge_prices::KeptPrices;
use grid_base::Piece;
use grid_graph::Grid;
use load_table::{LoadTable, Share};
use tree_set::Tree;

/// Puts the load of a net of this width by its set on the share and on the seen loads.
pub(crate) fn put_tree(
    share: &mut Share,
    kept: &mut KeptPrices<'_>,
    table: &LoadTable,
    grid: &Grid,
    width: u32,
    tree: &Tree,
)
    requires grid { grid_of kept.old ≡ grid.now }
    requires table { share.old.table ≡ table.now }
    requires words { table.now.words ≡ entries grid.now }
    requires width { IsNetWidth grid.now width }
    requires pieces { ArePieces (size_of grid.now) tree.now }
    requires room { HasRoomForSet share.old.party }
    requires share { IsShare share.old }
    requires close { AreCloseTo share.old.party (loads_of kept.old) }
    ensures seen { GainsTree grid.now width tree.now (loads_of kept.old) (loads_of kept.new) }
    ensures share { GainsTree grid.now width tree.now share.old.party.shares share.new.party.shares }
    ensures party { DiffersInShares share.old.party share.new.party }
    ensures table { share.new.table ≡ share.old.table }
    ensures setting { KeepsSetting kept.old kept.new }
    ensures valid { IsShare share.new }
{
    put_edges(share, kept, table, grid, width, tree);
    let wirelength = 2 * grid.size().vertices();
    raise(share, kept, table, wirelength, tree.pieces().len() as u64);
}

/// Takes the load of a net of this width by its set from the share and from the seen loads.
pub(crate) fn take_tree(
    share: &mut Share,
    kept: &mut KeptPrices<'_>,
    table: &LoadTable,
    grid: &Grid,
    width: u32,
    tree: &Tree,
)
    requires grid { grid_of kept.old ≡ grid.now }
    requires table { share.old.table ≡ table.now }
    requires words { table.now.words ≡ entries grid.now }
    requires width { IsNetWidth grid.now width }
    requires had { HoldsTree grid.now width tree.now share.old.party }
    requires share { IsShare share.old }
    requires close { AreCloseTo share.old.party (loads_of kept.old) }
    ensures seen { loads_of kept.new ≡ without_tree grid.now width tree.now (loads_of kept.old) }
    ensures share { share.new.party.shares ≡ without_tree grid.now width tree.now share.old.party.shares }
    ensures party { DiffersInShares share.old.party share.new.party }
    ensures table { share.new.table ≡ share.old.table }
    ensures setting { KeepsSetting kept.old kept.new }
    ensures valid { IsShare share.new }
{
    take_load(share, table, grid, width, tree);
    forget_tree(kept, grid, width, tree);
}

/// Puts what a net of this width uses of each edge of its set.
fn put_edges(
    share: &mut Share,
    kept: &mut KeptPrices<'_>,
    table: &LoadTable,
    grid: &Grid,
    width: u32,
    tree: &Tree,
)
    requires grid { grid_of kept.old ≡ grid.now }
    requires table { share.old.table ≡ table.now }
    requires words { table.now.words ≡ entries grid.now }
    requires width { IsNetWidth grid.now width }
    requires pieces { ArePieces (size_of grid.now) tree.now }
    requires room { HasRoomForSet share.old.party }
    requires share { IsShare share.old }
    requires close { AreCloseTo share.old.party (loads_of kept.old) }
    ensures seen { (e : ℕ) → slice_index (loads_of kept.new) e ≡ slice_index (loads_of kept.old) e + net_load grid.now width tree.now e }
    ensures share { (e : ℕ) → share_at e share.new.party ≡ share_at e share.old.party + net_load grid.now width tree.now e }
    ensures party { DiffersInShares share.old.party share.new.party }
    ensures table { share.new.table ≡ share.old.table }
    ensures setting { KeepsSetting kept.old kept.new }
    ensures valid { IsShare share.new }
{
    for p in tree.pieces() {
        if let Piece::Edge(e) = *p {
            raise(share, kept, table, e.0, u64::from(grid.demand(width, e)));
        }
    }
}

/// Puts the load of a net of this width by its set on loads that no share has.
pub fn notice_tree(kept: &mut KeptPrices<'_>, grid: &Grid, width: u32, tree: &Tree)
    requires grid { grid_of kept.old ≡ grid.now }
    requires width { IsNetWidth grid.now width }
    requires pieces { ArePieces (size_of grid.now) tree.now }
    requires room { (r : ℕ) → slice_index (loads_of kept.old) r + max_tree_load ≤ max_load }
    ensures seen { GainsTree grid.now width tree.now (loads_of kept.old) (loads_of kept.new) }
    ensures setting { KeepsSetting kept.old kept.new }
{
    notice_edges(kept, grid, width, tree);
    let wirelength = 2 * grid.size().vertices();
    lift(kept, wirelength, tree.pieces().len() as u64);
}

/// Puts what a net of this width uses of each edge of its set on loads that no share has.
fn notice_edges(kept: &mut KeptPrices<'_>, grid: &Grid, width: u32, tree: &Tree)
    requires grid { grid_of kept.old ≡ grid.now }
    requires width { IsNetWidth grid.now width }
    requires pieces { ArePieces (size_of grid.now) tree.now }
    requires room { (r : ℕ) → slice_index (loads_of kept.old) r + max_tree_load ≤ max_load }
    ensures seen { (e : ℕ) → slice_index (loads_of kept.new) e ≡ slice_index (loads_of kept.old) e + net_load grid.now width tree.now e }
    ensures setting { KeepsSetting kept.old kept.new }
{
    for p in tree.pieces() {
        if let Piece::Edge(e) = *p {
            lift(kept, e.0, u64::from(grid.demand(width, e)));
        }
    }
}

/// Takes the load of a net of this width by its set from the seen loads.
pub fn forget_tree(kept: &mut KeptPrices<'_>, grid: &Grid, width: u32, tree: &Tree)
    requires grid { grid_of kept.old ≡ grid.now }
    requires width { IsNetWidth grid.now width }
    requires pieces { ArePieces (size_of grid.now) tree.now }
    requires had { (r : ℕ) → tree_load grid.now width tree.now r ≤ slice_index (loads_of kept.old) r }
    ensures seen { loads_of kept.new ≡ without_tree grid.now width tree.now (loads_of kept.old) }
    ensures setting { KeepsSetting kept.old kept.new }
{
    forget_edges(kept, grid, width, tree);
    let wirelength = 2 * grid.size().vertices();
    lower(kept, wirelength, tree.pieces().len() as u64);
}

/// Takes what a net of this width uses of each edge of its set from the seen loads.
fn forget_edges(kept: &mut KeptPrices<'_>, grid: &Grid, width: u32, tree: &Tree)
    requires grid { grid_of kept.old ≡ grid.now }
    requires width { IsNetWidth grid.now width }
    requires pieces { ArePieces (size_of grid.now) tree.now }
    requires had { (r : ℕ) → tree_load grid.now width tree.now r ≤ slice_index (loads_of kept.old) r }
    ensures seen { (e : ℕ) → slice_index (loads_of kept.old) e ≡ slice_index (loads_of kept.new) e + net_load grid.now width tree.now e }
    ensures setting { KeepsSetting kept.old kept.new }
{
    for p in tree.pieces() {
        if let Piece::Edge(e) = *p {
            lower(kept, e.0, u64::from(grid.demand(width, e)));
        }
    }
}

/// One entry rises, of the share and of the seen loads.
fn raise(share: &mut Share, kept: &mut KeptPrices<'_>, table: &LoadTable, entry: u32, amount: u64)
    requires table { share.old.table ≡ table.now }
    requires word { entry < table.now.words }
    requires entry { entry < entries (grid_of kept.old) }
    requires room { share_at entry share.old.party + amount ≤ share.old.party.allot }
    requires load { slice_index (loads_of kept.old) entry + amount ≤ max_load }
    ensures event { share.new ≡ held table.now (added share.old.party entry amount) }
    ensures valid { IsShare share.new }
    ensures seen { loads_of kept.new ≡ slice_set (loads_of kept.old) entry (slice_index (loads_of kept.old) entry + amount) }
    ensures setting { KeepsSetting kept.old kept.new }
{
    share.add(table, entry, amount);
    lift(kept, entry, amount);
}

/// One entry of the seen loads rises.
fn lift(kept: &mut KeptPrices<'_>, entry: u32, amount: u64)
    requires entry { entry < entries (grid_of kept.old) }
    requires load { slice_index (loads_of kept.old) entry + amount ≤ max_load }
    ensures seen { loads_of kept.new ≡ slice_set (loads_of kept.old) entry (slice_index (loads_of kept.old) entry + amount) }
    ensures setting { KeepsSetting kept.old kept.new }
{
    let load = kept.load(entry);
    kept.set_load(entry, load + amount);
}

/// One entry of the seen loads falls.
fn lower(kept: &mut KeptPrices<'_>, entry: u32, amount: u64)
    requires entry { entry < entries (grid_of kept.old) }
    requires load { amount ≤ slice_index (loads_of kept.old) entry }
    ensures seen { loads_of kept.new ≡ slice_set (loads_of kept.old) entry (slice_index (loads_of kept.old) entry - amount) }
    ensures setting { KeepsSetting kept.old kept.new }
{
    let load = kept.load(entry);
    kept.set_load(entry, load - amount);
}
