//! Laws of tables: each is the contract of a call that does nothing.

ghost use Rattle.std.specs.Prelude.{ℕ, ◌≡◌, ◌<◌, ◌≤◌, ◌-◌, List, length};
ghost use Rattle.grid_base.specs.declared.piece.Piece.{Piece};
ghost use Rattle.grid_base.specs.Lists.{At};
ghost use Rattle.grid_base.specs.Walks.{Joins, InVertices};
ghost use Rattle.grid_graph.specs.Weighed.{IsAllowed};
ghost use Rattle.label_search.specs.Sets.{IsSetOf, weight};
ghost use Rattle.steiner_tables.specs.Masks.{all_of, all_but_root, WithVertex};
ghost use Rattle.steiner_tables.specs.Tables.{IsHoldingTable, IsFamily, IsPrunedTable, IsPrunedLabel, answer_at, completed};

use grid_base::{Size, Vertex};

/// Where a table holds, each of its numbers is at most the weight of every set of allowed pieces that joins its vertex and
/// the terminals of its mask, cycles and loose pieces included; so that of all terminals but the root, at the root, is at
/// most every set that joins the terminals.
pub fn holding_tables_bound_sets(size: &Size, terminals: &[Vertex])
    ensures sets { (pieces : List (Piece × ℕ)) (last : ℕ) (number : ℕ → ℕ → ℕ) (set : List (Piece × ℕ)) (mask v : ℕ)
        → IsHoldingTable size.now pieces terminals.now last number → last ≤ all_of terminals.now → IsSetOf pieces set → 0 < mask
        → mask ≤ last
        → Joins size.now (IsAllowed set) (WithVertex terminals.now mask v) → number mask v ≤ weight set }
    ensures root { (pieces : List (Piece × ℕ)) (number : ℕ → ℕ → ℕ) (set : List (Piece × ℕ)) (root : Vertex)
        → IsHoldingTable size.now pieces terminals.now (all_but_root terminals.now) number → 2 ≤ length terminals.now
        → At terminals.now (length terminals.now - 1) root → IsSetOf pieces set
        → Joins size.now (IsAllowed set) (InVertices terminals.now)
        → number (all_but_root terminals.now) root.0 ≤ weight set }
{}

/// A table that was pruned under a family of lower bounds holds when it is completed by them; so what it kept is a least
/// weight, and where it kept none every joining set is above the limit.
pub fn pruned_tables_hold_completed(size: &Size, terminals: &[Vertex])
    ensures completed { (pieces : List (Piece × ℕ)) (last : ℕ) (low : ℕ → ℕ → ℕ) (limit far : ℕ) (number : ℕ → ℕ → ℕ)
        → IsFamily size.now pieces terminals.now low → last < all_of terminals.now → limit < far
        → IsPrunedTable size.now pieces terminals.now last low limit far number
        → IsHoldingTable size.now pieces terminals.now last (completed terminals.now low limit far number) }
    ensures labels { (pieces : List (Piece × ℕ)) (last : ℕ) (low : ℕ → ℕ → ℕ) (limit far : ℕ) (number : ℕ → ℕ → ℕ) (mask v : ℕ)
        → IsFamily size.now pieces terminals.now low → last < all_of terminals.now → limit < far
        → IsPrunedTable size.now pieces terminals.now last low limit far number → 0 < mask → mask ≤ last
        → IsPrunedLabel size.now pieces terminals.now low limit mask v (answer_at far (number mask v)) }
{}
