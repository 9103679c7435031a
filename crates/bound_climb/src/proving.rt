//! Proofs of net bounds.

ghost use Rattle.std.specs.Prelude.{◌≡◌, ◌<◌, ◌≤◌, All, IfOk, length};
ghost use Rattle.grid_base.specs.Lists.{HasNoRepeats};
ghost use Rattle.grid_base.specs.Numbers.{IsVertex};
ghost use Rattle.grid_base.specs.Walks.{Joins, InVertices};
ghost use Rattle.grid_graph.specs.Grids as grids;
ghost use Rattle.grid_graph.specs.Grids.{IsNetWidth};
ghost use Rattle.grid_graph.specs.Grounds.{JoinsTerminals};
ghost use Rattle.grid_graph.specs.Weighed.{IsAllowed};
ghost use Rattle.edge_prices.specs.Limits.{max_price};
ghost use Rattle.edge_prices.specs.Weights.{AreEdgePrices};
ghost use Rattle.shortest_paths.specs.LabelWords.{labels_size, masks_of};
ghost use Rattle.steiner_tables.specs.Masks.{rooted_masks};
ghost use Rattle.lower_bound.specs.Costs.{costed};
ghost use Rattle.lower_bound.specs.HalfWords.{IsHalf};
ghost use Rattle.lower_bound.specs.NetBounds.{AreHalves};
ghost use Rattle.bound_climb.specs.NetProofs.{ProvesNetBound};
ghost use Rattle.bound_climb.specs.ProofParts.{IsLeastTable, AreHalfMoats};

use crate::label_rows::label_rows;
use crate::net_proof::NetProof;
use crate::tabled::{are_many, tabled};
use brought_bounds::{Moats, Radii, Rows, Table, all_but_root};
use edge_prices::Costing;
use grid_base::{NoMemory, Vertex};
use grid_graph::{Grid, Ground, NetSpec, Weights};
use lower_bound::Extra;
use shortest_paths::Labels;
use std::alloc::Global;

/// A proof of the net bound, at a price for each edge and a price for each piece: `check_net` says that it is right, and its
/// number is the net bound. The labels serve the searches.
pub fn prove_net(
    alloc: Global,
    grid: &Grid,
    net: &NetSpec,
    ground: Ground,
    prices: &[u32],
    piece: u32,
    labels: &mut Labels,
) -> Result<NetProof, NoMemory>
    requires width { IsNetWidth grid.now net.now.width }
    requires prices { AreEdgePrices grid.now prices.now }
    requires piece { piece ≤ max_price }
    requires vertices { All (λ v. IsVertex (grids.size_of grid.now) v.0) net.now.terminals }
    requires ground { JoinsTerminals grid.now ground net.now.terminals }
    requires labels { labels_size labels.old ≡ grids.size_of grid.now }
    requires room { rooted_masks ≤ masks_of labels.old }
    ensures proves { IfOk result (ProvesNetBound (grids.size_of grid.now)
        (costed grid.now net.now.width ground prices.now piece) net.now.terminals) }
    ensures size { labels_size labels.new ≡ labels_size labels.old }
    ensures masks { masks_of labels.new ≡ masks_of labels.old }
{
    let costing = Costing::new(grid, net.width, ground, prices);
    let weights = Extra::new(costing, piece);
    proof_at(alloc, &weights, net.terminals.list(), labels)
}

/// A proof at these weights of the pieces that the net may use.
fn proof_at<W: Weights>(
    alloc: Global,
    weights: &W,
    terminals: &[Vertex],
    labels: &mut Labels,
) -> Result<NetProof, NoMemory>
    requires labels { labels_size labels.old ≡ W.size weights.now }
    requires room { rooted_masks ≤ masks_of labels.old }
    requires vertices { All (λ v. IsVertex (W.size weights.now) v.0) terminals.now }
    requires distinct { HasNoRepeats terminals.now }
    requires joined { Joins (W.size weights.now) (IsAllowed (W.pieces weights.now)) (InVertices terminals.now) }
    ensures proves { IfOk result (ProvesNetBound (W.size weights.now) (W.pieces weights.now) terminals.now) }
    ensures size { labels_size labels.new ≡ labels_size labels.old }
    ensures masks { masks_of labels.new ≡ masks_of labels.old }
{
    if terminals.len() < 2 {
        let rows = Rows::of(Vec::new(alloc));
        return Ok(NetProof {
            table: Table { rows },
            moats: None,
        });
    }
    let table = least_table(alloc, weights, terminals, labels)?;
    let moats = half_moats(alloc, weights, terminals, labels)?;
    Ok(NetProof { table, moats })
}

/// The table of least costs: of all terminals, or of the spread five.
fn least_table<W: Weights>(
    alloc: Global,
    weights: &W,
    terminals: &[Vertex],
    labels: &mut Labels,
) -> Result<Table, NoMemory>
    requires labels { labels_size labels.old ≡ W.size weights.now }
    requires room { rooted_masks ≤ masks_of labels.old }
    requires two { 2 ≤ length terminals.now }
    requires vertices { All (λ v. IsVertex (W.size weights.now) v.0) terminals.now }
    requires joined { Joins (W.size weights.now) (IsAllowed (W.pieces weights.now)) (InVertices terminals.now) }
    ensures table { IfOk result (λ table. IsLeastTable (W.size weights.now) (W.pieces weights.now) terminals.now table.rows) }
    ensures size { labels_size labels.new ≡ labels_size labels.old }
    ensures masks { masks_of labels.new ≡ masks_of labels.old }
{
    let chosen = tabled(alloc, labels.size(), terminals)?;
    labels.subsets(weights, chosen.as_slice());
    let rows = label_rows(alloc, labels, all_but_root(chosen.as_slice()))?;
    Ok(Table {
        rows: Rows::of(rows),
    })
}

/// Moats around the terminals, if there are more than five: half as wide as it is to the nearest other one.
fn half_moats<W: Weights>(
    alloc: Global,
    weights: &W,
    terminals: &[Vertex],
    labels: &mut Labels,
) -> Result<Option<Moats>, NoMemory>
    requires labels { labels_size labels.old ≡ W.size weights.now }
    requires two { 2 ≤ length terminals.now }
    requires vertices { All (λ v. IsVertex (W.size weights.now) v.0) terminals.now }
    requires distinct { HasNoRepeats terminals.now }
    requires joined { Joins (W.size weights.now) (IsAllowed (W.pieces weights.now)) (InVertices terminals.now) }
    ensures moats { IfOk result (AreHalfMoats (W.size weights.now) (W.pieces weights.now) terminals.now) }
    ensures size { labels_size labels.new ≡ labels_size labels.old }
    ensures masks { masks_of labels.new ≡ masks_of labels.old }
{
    if !are_many(terminals) {
        return Ok(None);
    }
    let radii = halves(alloc, weights, terminals, labels)?;
    Ok(Some(Moats {
        radii: Radii::of(radii),
    }))
}

/// Of each terminal half of the least cost of joining it to one other terminal, rounded down.
fn halves<W: Weights>(
    alloc: Global,
    weights: &W,
    terminals: &[Vertex],
    labels: &mut Labels,
) -> Result<Vec<u64>, NoMemory>
    requires labels { labels_size labels.old ≡ W.size weights.now }
    requires two { 2 ≤ length terminals.now }
    requires vertices { All (λ v. IsVertex (W.size weights.now) v.0) terminals.now }
    requires distinct { HasNoRepeats terminals.now }
    requires joined { Joins (W.size weights.now) (IsAllowed (W.pieces weights.now)) (InVertices terminals.now) }
    ensures halves { IfOk result (λ halves. AreHalves (W.size weights.now) (W.pieces weights.now) terminals.now halves.items) }
    ensures size { labels_size labels.new ≡ labels_size labels.old }
    ensures masks { masks_of labels.new ≡ masks_of labels.old }
{
    let mut halves = Vec::with_capacity(alloc, terminals.len())?;
    for place in 0..terminals.len() {
        halves.push(half(weights, terminals, place, labels))?;
    }
    Ok(halves)
}

/// That of the terminal at a place.
fn half<W: Weights>(weights: &W, terminals: &[Vertex], place: usize, labels: &mut Labels) -> u64
    requires labels { labels_size labels.old ≡ W.size weights.now }
    requires two { 2 ≤ length terminals.now }
    requires place { place < length terminals.now }
    requires vertices { All (λ v. IsVertex (W.size weights.now) v.0) terminals.now }
    requires distinct { HasNoRepeats terminals.now }
    requires joined { Joins (W.size weights.now) (IsAllowed (W.pieces weights.now)) (InVertices terminals.now) }
    ensures half { IsHalf (W.size weights.now) (W.pieces weights.now) terminals.now place result }
    ensures size { labels_size labels.new ≡ labels_size labels.old }
    ensures masks { masks_of labels.new ≡ masks_of labels.old }
{
    let least = labels.distance_to_nearest(weights, terminals[place], terminals);
    least.unwrap_or(0) / 2
}
