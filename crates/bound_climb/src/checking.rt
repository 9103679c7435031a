//! Whether a proof of a net bound is right.

ghost use Rattle.std.specs.Prelude.{◌≡◌, ◌<◌, ◌≤◌, ◌^◌, ◌↔◌, ℕ, List, Some, All, IfOk, IfSome, sum, length};
ghost use Rattle.grid_base.specs.declared.piece.Piece.{Piece};
ghost use Rattle.grid_base.specs.Lists.{HasNoRepeats};
ghost use Rattle.grid_base.specs.Numbers.{IsVertex};
ghost use Rattle.grid_base.specs.Walks.{Joins, InVertices, JoinsList};
ghost use Rattle.grid_graph.specs.Grids as grids;
ghost use Rattle.grid_graph.specs.Grids.{IsNetWidth, Allows};
ghost use Rattle.grid_graph.specs.Grounds.{JoinsTerminals};
ghost use Rattle.grid_graph.specs.Weighed.{IsAllowed};
ghost use Rattle.edge_prices.specs.Limits.{max_price};
ghost use Rattle.edge_prices.specs.Weights.{AreEdgePrices};
ghost use Rattle.shortest_paths.specs.LabelWords.{labels_size, masks_of};
ghost use Rattle.steiner_tables.specs.Masks.{few_terminals, all_but_root};
ghost use Rattle.lower_bound.specs.Costs.{costed, set_cost};
ghost use Rattle.brought_bounds.specs.TableWords.{mask_row, IsTableThatHolds};
ghost use Rattle.steiner_exact.specs.Roots.{root_of};
ghost use Rattle.bound_climb.specs.NetProofs as words;
ghost use Rattle.bound_climb.specs.NetProofs.{MayHaveMoats, greater_bound, IsRightForNone, IsRightForSeveral, IsRight};

use crate::net_proof::NetProof;
use crate::tabled::{are_many, tabled};
use brought_bounds::{Moats, Table, moats_hold, table_holds};
use edge_prices::Costing;
use grid_base::{NoMemory, Size, Vertex};
use grid_graph::{Grid, Ground, NetSpec, Weights};
use lower_bound::Extra;
use shortest_paths::Labels;
use std::alloc::Global;

/// What a proof bounds for a net, at a price for each edge and a price for each piece, whoever made the proof. `None` stands
/// where it isn't right. The labels serve the searches.
pub fn check_net(
    alloc: Global,
    grid: &Grid,
    net: &NetSpec,
    ground: Ground,
    prices: &[u32],
    piece: u32,
    proof: &NetProof,
    labels: &mut Labels,
) -> Result<Option<u64>, NoMemory>
    requires width { IsNetWidth grid.now net.now.width }
    requires prices { AreEdgePrices grid.now prices.now }
    requires piece { piece ≤ max_price }
    requires vertices { All (λ v. IsVertex (grids.size_of grid.now) v.0) net.now.terminals }
    requires ground { JoinsTerminals grid.now ground net.now.terminals }
    requires labels { labels_size labels.old ≡ grids.size_of grid.now }
    ensures right { IfOk result (λ answer. (number : ℕ) → (answer ≡ Some number) ↔ IsRight (grids.size_of grid.now)
        (costed grid.now net.now.width ground prices.now piece) net.now.terminals proof.now number) }
    ensures low { IfOk result (λ answer. IfSome answer (λ number. (set : List Piece) → HasNoRepeats set
        → All (Allows grid.now ground) set → JoinsList (grids.size_of grid.now) set net.now.terminals
        → number ≤ set_cost grid.now net.now.width prices.now piece set)) }
    ensures size { labels_size labels.new ≡ labels_size labels.old }
    ensures masks { masks_of labels.new ≡ masks_of labels.old }
{
    let costing = Costing::new(grid, net.width, ground, prices);
    let weights = Extra::new(costing, piece);
    number_of(alloc, &weights, net.terminals.list(), proof, labels)
}

/// The number of a proof that is right at these weights of the pieces that the net may use.
fn number_of<W: Weights>(
    alloc: Global,
    weights: &W,
    terminals: &[Vertex],
    proof: &NetProof,
    labels: &mut Labels,
) -> Result<Option<u64>, NoMemory>
    requires labels { labels_size labels.old ≡ W.size weights.now }
    requires vertices { All (λ v. IsVertex (W.size weights.now) v.0) terminals.now }
    requires joined { Joins (W.size weights.now) (IsAllowed (W.pieces weights.now)) (InVertices terminals.now) }
    ensures right { IfOk result (λ answer. (number : ℕ) → (answer ≡ Some number)
        ↔ IsRight (W.size weights.now) (W.pieces weights.now) terminals.now proof.now number) }
    ensures size { labels_size labels.new ≡ labels_size labels.old }
    ensures masks { masks_of labels.new ≡ masks_of labels.old }
{
    if terminals.len() < 2 {
        return Ok(number_of_none(proof));
    }
    number_of_several(alloc, weights, terminals, proof, labels)
}

/// 0 where a proof has no rows and no moats.
fn number_of_none(proof: &NetProof) -> Option<u64>
    ensures { (number : ℕ) → (result ≡ Some number) ↔ IsRightForNone proof.now number }
{
    if proof.table.rows.list().is_empty() && proof.moats.is_none() {
        return Some(0);
    }
    None
}

/// The number of a proof for two or more terminals.
fn number_of_several<W: Weights>(
    alloc: Global,
    weights: &W,
    terminals: &[Vertex],
    proof: &NetProof,
    labels: &mut Labels,
) -> Result<Option<u64>, NoMemory>
    requires labels { labels_size labels.old ≡ W.size weights.now }
    requires two { 2 ≤ length terminals.now }
    requires vertices { All (λ v. IsVertex (W.size weights.now) v.0) terminals.now }
    requires joined { Joins (W.size weights.now) (IsAllowed (W.pieces weights.now)) (InVertices terminals.now) }
    ensures right { IfOk result (λ answer. (number : ℕ) → (answer ≡ Some number)
        ↔ IsRightForSeveral (W.size weights.now) (W.pieces weights.now) terminals.now proof.now number) }
    ensures size { labels_size labels.new ≡ labels_size labels.old }
    ensures masks { masks_of labels.new ≡ masks_of labels.old }
{
    if proof.moats.is_some() != are_many(terminals) {
        return Ok(None);
    }
    let size = labels.size();
    let chosen = tabled(alloc, size, terminals)?;
    match bound_of_table(weights, size, chosen.as_slice(), &proof.table) {
        Some(bound) => Ok(with_moats(weights, terminals, bound, &proof.moats, labels)),
        None => Ok(None),
    }
}

/// What a table bounds where it holds.
fn bound_of_table<W: Weights>(
    weights: &W,
    size: Size,
    chosen: &[Vertex],
    table: &Table,
) -> Option<u64>
    requires size { size ≡ W.size weights.now }
    requires two { 2 ≤ length chosen.now }
    requires few { length chosen.now ≤ few_terminals }
    requires vertices { All (λ v. IsVertex size v.0) chosen.now }
    ensures { (bound : ℕ) → (result ≡ Some bound) ↔ (IsTableThatHolds size (W.pieces weights.now) chosen.now table.now.rows
        × (bound ≡ words.table_bound chosen.now table.now.rows)) }
{
    if !table_holds(weights, size, chosen, table) {
        return None;
    }
    Some(last_at_root(chosen, table))
}

/// The last row's number at the last terminal.
fn last_at_root(chosen: &[Vertex], table: &Table) -> u64
    requires two { 2 ≤ length chosen.now }
    requires rows { length table.now.rows ≡ all_but_root chosen.now }
    requires root { (root_of chosen.now).0 < length (mask_row table.now.rows (all_but_root chosen.now)) }
    ensures { result ≡ words.table_bound chosen.now table.now.rows }
{
    let rows = table.rows.list();
    let root = chosen[chosen.len() - 1];
    rows[rows.len() - 1][root.0 as usize]
}

/// The greater of a table's bound and that of moats, if there are any and they hold.
fn with_moats<W: Weights>(
    weights: &W,
    terminals: &[Vertex],
    of_table: u64,
    moats: &Option<Moats>,
    labels: &mut Labels,
) -> Option<u64>
    requires labels { labels_size labels.old ≡ W.size weights.now }
    requires two { 2 ≤ length terminals.now }
    requires vertices { All (λ v. IsVertex (W.size weights.now) v.0) terminals.now }
    requires joined { Joins (W.size weights.now) (IsAllowed (W.pieces weights.now)) (InVertices terminals.now) }
    ensures number { (number : ℕ) → (result ≡ Some number)
        ↔ (MayHaveMoats (W.size weights.now) (W.pieces weights.now) terminals.now moats.now
        × (number ≡ greater_bound of_table moats.now)) }
    ensures size { labels_size labels.new ≡ labels_size labels.old }
    ensures masks { masks_of labels.new ≡ masks_of labels.old }
{
    match moats {
        None => Some(of_table),
        Some(moats) => {
            if !moats_hold(weights, labels.size(), terminals, moats, labels) {
                return None;
            }
            Some(of_table.max(sum_of(moats.radii.list())))
        }
    }
}

/// The sum of radii.
fn sum_of(radii: &[u64]) -> u64
    requires { sum radii.now < 2 ^ 64 }
    ensures { result ≡ sum radii.now }
{
    radii.iter().copied().sum()
}
