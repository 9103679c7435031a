//! Whether a set of pieces joins vertices.

ghost use Rattle.std.specs.Prelude.{◌↔◌, IfOk, IsTrue, All};
ghost use Rattle.grid_base.specs.Numbers.{IsVertex};
ghost use Rattle.grid_base.specs.Walks.{JoinsList};
ghost use Rattle.tree_set.specs.Reached.{Has};
ghost use Rattle.tree_set.specs.Routings.{ArePieces};

use crate::reached::Reached;
use crate::tree::Tree;
use grid_base::{NoMemory, Size, Vertex, flood};
use std::alloc::Global;

/// Whether walks in the set lead from each of the terminals to each other one. Fewer than two are always joined.
///
/// Takes about `n log n` steps for n pieces and terminals, whatever the size of the grid.
pub fn joins(alloc: Global, size: Size, tree: &Tree, terminals: &[Vertex]) -> Result<bool, NoMemory>
    requires pieces { ArePieces size tree.now }
    requires vertices { All (λ t. IsVertex size t.0) terminals.now }
    ensures { IfOk result (λ joined. IsTrue joined ↔ JoinsList size tree.now terminals.now) }
{
    let Some(root) = terminals.first() else {
        return Ok(true);
    };
    let mut reached = Reached::none(alloc);
    flood(size, tree, &mut reached, *root, &mut Vec::new(alloc))?;
    Ok(are_reached(&reached, terminals))
}

/// Whether all terminals were reached.
fn are_reached(reached: &Reached, terminals: &[Vertex]) -> bool
    ensures { IsTrue result ↔ All (λ t. Has reached.now t.0) terminals.now }
{
    terminals.iter().all(|t| reached.has(*t))
}
