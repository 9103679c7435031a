//! Which nets got another set.

ghost use Rattle.std.specs.Prelude.{◌≡◌, ◌<◌, ◌↔◌, ◌≢◌, All, Bool, IfOk, IsTrue, List, length};
ghost use Rattle.grid_base.specs.declared.piece.Piece.{Piece};
ghost use Rattle.grid_base.specs.Lists.{At};
ghost use Rattle.tree_set.specs.Order.{IsRising};
ghost use Rattle.reroute_cli.specs.NewRoutes.{HaveOtherSets};

use grid_base::NoMemory;
use std::alloc::Global;
use tree_set::Tree;

/// Whether two sets are the same.
fn are_same(one: &Tree, other: &Tree) -> bool
    ensures same { IsTrue result ↔ one.now ≡ other.now }
    ensures rising { IsRising other.now }
{
    one.pieces() == other.pieces()
}

/// Whether the net at a place had a block and got another set.
fn is_changed(has_block: &[bool], given: &[Tree], trees: &[Tree], place: usize) -> bool
    requires has_block { place < length has_block.now }
    requires given { place < length given.now }
    requires trees { place < length trees.now }
    ensures changed { (had : Bool) (old new : List Piece) → At has_block.now place had → At given.now place old → At trees.now place new
        → IsTrue result ↔ (IsTrue had × (old ≢ new)) }
    ensures rising { (new : List Piece) → At trees.now place new → IsRising new }
{
    let is_same = are_same(&given[place], &trees[place]);
    has_block[place] && !is_same
}

/// Which nets had a block and got another set.
pub(crate) fn changed_nets(
    alloc: Global,
    has_block: &[bool],
    given: &[Tree],
    trees: &[Tree],
) -> Result<Vec<bool>, NoMemory>
    requires has_block { length has_block.now ≡ length trees.now }
    requires given { length given.now ≡ length trees.now }
    ensures changed { IfOk result (λ changed. HaveOtherSets has_block.now given.now trees.now changed.items) }
    ensures rising { IfOk result (λ _. All IsRising trees.now) }
{
    let mut changed = Vec::with_capacity(alloc, trees.len())?;
    for place in 0..trees.len() {
        changed.push(is_changed(has_block, given, trees, place))?;
    }
    Ok(changed)
}
