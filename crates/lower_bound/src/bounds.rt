//! The net bound.

ghost use Rattle.std.specs.Prelude.{◌≡◌, ◌<◌, ◌≤◌, ℕ, List, All, length};
ghost use Rattle.grid_base.specs.declared.piece.Piece.{Piece};
ghost use Rattle.grid_base.specs.Lists.{HasNoRepeats};
ghost use Rattle.grid_base.specs.Numbers.{IsVertex};
ghost use Rattle.grid_base.specs.Walks.{Joins, InVertices, JoinsList};
ghost use Rattle.grid_graph.specs.Grids as grids;
ghost use Rattle.grid_graph.specs.Grids.{IsNetWidth, Allows};
ghost use Rattle.grid_graph.specs.Grounds.{JoinsTerminals};
ghost use Rattle.grid_graph.specs.Weighed.{IsAllowed};
ghost use Rattle.edge_prices.specs.Limits.{max_price};
ghost use Rattle.edge_prices.specs.Weights.{AreEdgePrices};
ghost use Rattle.shortest_paths.specs.LabelWords.{labels_size, masks_of};
ghost use Rattle.steiner_tables.specs.Masks.{rooted_masks, few_terminals};
ghost use Rattle.lower_bound.specs.Costs.{costed, set_cost};
ghost use Rattle.lower_bound.specs.NetBounds.{IsBoundOfMany, IsNetBound};

use crate::extra::Extra;
use crate::halves::sum_of_halves;
use crate::spread::choose;
use edge_prices::Costing;
use grid_base::Vertex;
use grid_graph::{FlooredWeights, Grid, Ground, NetSpec};
use least_weights::least_weight;
use shortest_paths::Labels;
use steiner_tables::FEW_TERMINALS;

/// The bound of more than five terminals: the greater of the least cost of five that are spread, and the sum of halves of
/// what it costs to join each to another one.
fn bound_of_many<W: FlooredWeights>(weights: &W, terminals: &[Vertex], labels: &mut Labels) -> u64
    requires labels { labels_size labels.old ≡ W.size weights.now }
    requires room { rooted_masks ≤ masks_of labels.old }
    requires many { few_terminals < length terminals.now }
    requires vertices { All (λ v. IsVertex (W.size weights.now) v.0) terminals.now }
    requires joined { Joins (W.size weights.now) (IsAllowed (W.pieces weights.now)) (InVertices terminals.now) }
    ensures bound { IsBoundOfMany (W.size weights.now) (W.pieces weights.now) terminals.now result }
    ensures size { labels_size labels.new ≡ labels_size labels.old }
    ensures masks { masks_of labels.new ≡ masks_of labels.old }
{
    let chosen = choose(labels.size(), terminals);
    let of_chosen = least_weight(weights, &chosen, labels);
    let halves = sum_of_halves(weights, terminals, labels);
    of_chosen.max(halves)
}

/// The net bound at these weights of the pieces that the net may use.
fn bound_at<W: FlooredWeights>(weights: &W, terminals: &[Vertex], labels: &mut Labels) -> u64
    requires labels { labels_size labels.old ≡ W.size weights.now }
    requires room { rooted_masks ≤ masks_of labels.old }
    requires vertices { All (λ v. IsVertex (W.size weights.now) v.0) terminals.now }
    requires joined { Joins (W.size weights.now) (IsAllowed (W.pieces weights.now)) (InVertices terminals.now) }
    ensures bound { IsNetBound (W.size weights.now) (W.pieces weights.now) terminals.now result }
    ensures size { labels_size labels.new ≡ labels_size labels.old }
    ensures masks { masks_of labels.new ≡ masks_of labels.old }
{
    if terminals.len() > FEW_TERMINALS {
        return bound_of_many(weights, terminals, labels);
    }
    least_weight(weights, terminals, labels)
}

/// A lower bound of what the net costs at a price for each edge and a price for each piece, over all subsets of its ground
/// that join its terminals. The labels serve the searches.
pub fn net_bound(
    grid: &Grid,
    net: &NetSpec,
    ground: Ground,
    prices: &[u32],
    piece: u32,
    labels: &mut Labels,
) -> u64
    requires width { IsNetWidth grid.now net.now.width }
    requires prices { AreEdgePrices grid.now prices.now }
    requires piece { piece ≤ max_price }
    requires vertices { All (λ v. IsVertex (grids.size_of grid.now) v.0) net.now.terminals }
    requires ground { JoinsTerminals grid.now ground net.now.terminals }
    requires labels { labels_size labels.old ≡ grids.size_of grid.now }
    requires room { rooted_masks ≤ masks_of labels.old }
    ensures bound { IsNetBound (grids.size_of grid.now)
        (costed grid.now net.now.width ground prices.now piece) net.now.terminals result }
    ensures low { (set : List Piece) → HasNoRepeats set → All (Allows grid.now ground) set
        → JoinsList (grids.size_of grid.now) set net.now.terminals
        → result ≤ set_cost grid.now net.now.width prices.now piece set }
    ensures size { labels_size labels.new ≡ labels_size labels.old }
    ensures masks { masks_of labels.new ≡ masks_of labels.old }
{
    let costing = Costing::new(grid, net.width, ground, prices);
    let weights = Extra::new(costing, piece);
    bound_at(&weights, net.terminals.list(), labels)
}
