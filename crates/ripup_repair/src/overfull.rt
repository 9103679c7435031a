//! The nets that are to be repaired.

ghost use Rattle.std.specs.Prelude.{◌≡◌, ◌<◌, ◌++◌, ◌∷◌, [], ℕ, cond, All, IfOk};
ghost use Rattle.grid_base.specs.Numbers.{IsPiece};
ghost use Rattle.grid_graph.specs.Grids.{entries, size_of};
ghost use Rattle.load_core.specs.Parties.{share_at};
ghost use Rattle.tree_set.specs.Loads.{load_on};
ghost use Rattle.tree_set.specs.Order.{IsRising};
ghost use Rattle.tree_set.specs.Routings.{ArePieces, IsRouting};
ghost use Rattle.sharing_runs.specs.RepairRuns.{holds_overfull, is_overfull_edge, nets_to_repair};

use grid_base::{NoMemory, Piece};
use grid_graph::{Design, Grid, Kind};
use load_table::Share;
use std::alloc::Global;
use tree_set::Tree;

/// The positions of the nets whose set holds an edge with more load than capacity, by the loads that a share has.
pub(crate) fn nets_to_repair(
    alloc: Global,
    design: &Design,
    share: &Share,
    trees: &[Tree],
) -> Result<Vec<u32>, NoMemory>
    requires words { share.now.table.words ≡ entries design.now.grid }
    requires routing { IsRouting design.now.grid design.now.nets trees.now }
    requires loads { (r : ℕ) → r < entries design.now.grid
        → share_at r share.now.party ≡ load_on design.now.grid design.now.nets trees.now r }
    ensures positions { IfOk result (λ positions. positions.items ≡ nets_to_repair design.now trees.now) }
    ensures rising { IfOk result (λ _. All IsRising trees.now) }
{
    let mut positions = Vec::new(alloc);
    for position in 0..trees.len() {
        let due = holds_overfull(&design.grid, share, &trees[position]);
        push_if(&mut positions, position as u32, due)?;
    }
    Ok(positions)
}

fn push_if(positions: &mut Vec<u32>, position: u32, due: bool) -> Result<(), NoMemory>
    ensures pushed { IfOk result (λ _. positions.new.items ≡ positions.old.items ++ cond due (position ∷ []) []) }
{
    if due {
        positions.push(position)?;
    }
    Ok(())
}

/// Whether a set holds an open edge with more load than capacity.
fn holds_overfull(grid: &Grid, share: &Share, tree: &Tree) -> bool
    requires words { share.now.table.words ≡ entries grid.now }
    requires pieces { ArePieces (size_of grid.now) tree.now }
    ensures overfull { result ≡ holds_overfull grid.now (λ e. share_at e share.now.party) tree.now }
    ensures rising { IsRising tree.now }
{
    for p in tree.pieces() {
        if is_overfull(grid, share, *p) {
            return true;
        }
    }
    false
}

fn is_overfull(grid: &Grid, share: &Share, p: Piece) -> bool
    requires words { share.now.table.words ≡ entries grid.now }
    requires piece { IsPiece (size_of grid.now) p }
    ensures overfull { result ≡ is_overfull_edge grid.now (λ e. share_at e share.now.party) p }
{
    match p {
        Piece::Edge(e) => match grid.kind(e) {
            Kind::Open => share.share_of(e.0) > u64::from(grid.capacity(e)),
            Kind::Choked | Kind::Wall => false,
        },
        Piece::Via(_) => false,
    }
}
