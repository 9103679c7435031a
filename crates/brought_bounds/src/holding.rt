//! Whether a table holds.

ghost use Rattle.std.specs.Prelude.{◌≡◌, ◌<◌, ◌≤◌, ◌-◌, ◌↔◌, ℕ, List, All, IsTrue, length};
ghost use Rattle.grid_base.specs.declared.piece.Piece.{Piece};
ghost use Rattle.grid_base.specs.declared.vertex.Vertex.{Vertex};
ghost use Rattle.grid_base.specs.Lists.{At};
ghost use Rattle.grid_base.specs.Numbers.{IsVertex};
ghost use Rattle.grid_base.specs.Walks.{Joins, InVertices};
ghost use Rattle.grid_graph.specs.Weighed.{IsAllowed};
ghost use Rattle.steiner_tables.specs.Masks as words;
ghost use Rattle.steiner_tables.specs.Masks.{few_terminals};
ghost use Rattle.label_search.specs.Sets.{IsSetOf, weight};
ghost use Rattle.brought_bounds.specs.TableWords.{table_number, IsTableThatHolds};

use crate::own::are_own;
use crate::rising::rows_rise;
use crate::splitting::splits_hold;
use crate::table::Table;
use grid_base::{Size, Vertex};
use grid_graph::Weights;

/// The mask of all terminals but the last one, which is also how many masks these have.
pub fn all_but_root(terminals: &[Vertex]) -> u32
    requires some { 1 ≤ length terminals.now }
    requires few { length terminals.now ≤ few_terminals }
    ensures { result ≡ words.all_but_root terminals.now }
{
    (1 << (terminals.len() - 1)) - 1
}

/// Whether a table holds, whoever made it: a number for each set of terminals without the last one, which is the root, and
/// for each vertex. Where it does, the number of all other terminals at the root is a lower bound of what joins them.
pub fn table_holds<W: Weights>(weights: &W, size: Size, terminals: &[Vertex], table: &Table) -> bool
    requires size { size ≡ W.size weights.now }
    requires some { 1 ≤ length terminals.now }
    requires few { length terminals.now ≤ few_terminals }
    requires vertices { All (λ v. IsVertex size v.0) terminals.now }
    ensures holds { IsTrue result ↔ IsTableThatHolds size (W.pieces weights.now) terminals.now table.now.rows }
    ensures bound { IsTrue result → 2 ≤ length terminals.now → (root : Vertex)
        → At terminals.now (length terminals.now - 1) root
        → (set : List (Piece × ℕ)) → IsSetOf (W.pieces weights.now) set → Joins size (IsAllowed set) (InVertices terminals.now)
        → table_number table.now.rows (words.all_but_root terminals.now) root.0 ≤ weight set }
{
    let last = all_but_root(terminals);
    if !table.rows.are(last as usize, size.vertices() as usize) {
        return false;
    }
    if !rows_rise(weights, size, &table.rows, last) {
        return false;
    }
    if !are_own(size, &table.rows, terminals) {
        return false;
    }
    splits_hold(size, &table.rows)
}
