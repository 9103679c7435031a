//! The nearest other terminal, by a search that is led.

ghost use Rattle.std.specs.Prelude.{◌≡◌, ◌≢◌, ◌≤◌, ◌<◌, ◌⊎◌, ℕ, All, IfOk, IsTrue};
ghost use Rattle.grid_base.specs.Numbers.{IsVertex};
ghost use Rattle.grid_base.specs.Walks.{InVertices};
ghost use Rattle.grid_graph.specs.Flat.{IsFlatOf, tile_of};
ghost use Rattle.grid_graph.specs.TilePieces.{tiles_of};
ghost use Rattle.label_search.specs.Stamped.{most};
ghost use Rattle.shortest_paths.specs.LabelWords.{labels_size, labels_number};
ghost use Rattle.shortest_paths.specs.Nearest.{IsGoal, IsNearestDistance};
ghost use Rattle.steiner_exact.specs.TreeLabelWords.{AreTreeLabels};
ghost use Rattle.least_weights.specs.NearestWithin.{IsNearestWithin};

use grid_base::{NoMemory, Size, Vertex};
use grid_graph::FlooredWeights;
use label_search::MOST;
use shortest_paths::{Labels, NoBound, SearchBound};
use std::alloc::Global;
use steiner_exact::{FlatWeights, GoalBound, TreeLabels, tile_under};

/// So many vias more than the way between tiles a way on the grid has at first.
const FIRST_VIAS: u64 = 4;

/// Whether a terminal stands elsewhere than here, and the search of the flat grid found its tile within the limit.
fn is_found_goal(flat: &Labels, size: Size, here: Vertex, limit: u64, terminal: Vertex) -> bool
    requires tiled { IsFlatOf (labels_size flat.now) size }
    ensures elsewhere { IsTrue result → terminal.0 ≢ here.0 }
    ensures others { terminal.0 ≢ here.0 → IsTrue result ⊎ (limit < labels_number flat.now (tile_of size terminal.0)) }
{
    terminal != here && flat.number(tile_under(size, terminal)) <= limit
}

/// The other terminals whose tiles the search of the flat grid found within the limit.
fn found_goals(
    alloc: Global,
    flat: &Labels,
    size: Size,
    terminals: &[Vertex],
    here: Vertex,
    limit: u64,
) -> Result<Vec<Vertex>, NoMemory>
    requires tiled { IsFlatOf (labels_size flat.now) size }
    requires vertices { All (λ v. IsVertex size v.0) terminals.now }
    ensures goals { IfOk result (λ found. All (λ v. IsGoal terminals.now here.0 v.0) found.items) }
    ensures others { IfOk result (λ found. (v : ℕ) → IsGoal terminals.now here.0 v
        → InVertices found.items v ⊎ (limit < labels_number flat.now (tile_of size v))) }
{
    let mut found = Vec::new(alloc);
    for terminal in terminals {
        if is_found_goal(flat, size, here, limit, *terminal) {
            found.push(*terminal)?;
        }
    }
    Ok(found)
}

/// The distance of a terminal to the nearest other one, if it is within the limit. The search begins at those of the others
/// whose tiles are no further, and one of the flat grid, from the terminal's tile as far as the limit, leads it.
fn nearest_within<W: FlooredWeights>(
    alloc: Global,
    weights: &W,
    terminals: &[Vertex],
    here: Vertex,
    limit: u64,
    labels: &mut TreeLabels,
) -> Result<Option<u64>, NoMemory>
    requires labels { AreTreeLabels (W.size weights.now) labels.old }
    requires vertices { All (λ v. IsVertex (W.size weights.now) v.0) terminals.now }
    requires here { IsVertex (W.size weights.now) here.0 }
    requires limit { limit ≤ most }
    ensures nearest { IfOk result (IsNearestWithin (W.size weights.now) (W.pieces weights.now) terminals.now here.0 limit) }
    ensures labels { AreTreeLabels (W.size weights.now) labels.new }
{
    let size = labels.grid.size();
    let tile = tile_under(size, here);
    let ground = FlatWeights::new(weights, labels.flat.size(), labels.flat_edges.as_slice());
    let lead = NoBound { weights: &ground };
    let past = labels
        .flat
        .distance_past(&ground, &lead, tile, tile, limit + 1);
    let sources = found_goals(alloc, &labels.flat, size, terminals, here, limit)?;
    let across = SearchBound::new(&ground, &lead, &labels.flat, past);
    let bound = GoalBound::new(weights, size, here, &across);
    labels
        .grid
        .distance_from_any(weights, &bound, sources.as_slice(), here);
    let number = labels.grid.number(here);
    Ok(if number <= limit { Some(number) } else { None })
}

/// The distance of a terminal to the nearest other one. `tiles` are those of the terminals. It is looked for within a limit,
/// which is raised until there is one.
pub fn led_nearest<W: FlooredWeights>(
    alloc: Global,
    weights: &W,
    terminals: &[Vertex],
    tiles: &[Vertex],
    here: Vertex,
    labels: &mut TreeLabels,
) -> Result<Option<u64>, NoMemory>
    requires labels { AreTreeLabels (W.size weights.now) labels.old }
    requires vertices { All (λ v. IsVertex (W.size weights.now) v.0) terminals.now }
    requires here { IsVertex (W.size weights.now) here.0 }
    requires tiles { tiles.now ≡ tiles_of (W.size weights.now) terminals.now }
    ensures nearest { IfOk result (IsNearestDistance (W.size weights.now) (W.pieces weights.now) terminals.now here.0) }
    ensures labels { AreTreeLabels (W.size weights.now) labels.new }
{
    let tile = tile_under(labels.grid.size(), here);
    let mut slack = FIRST_VIAS * weights.floors().via + 1;
    let mut limit = (across_tiles(weights, tile, tiles, labels) + slack).min(MOST);
    let mut found = nearest_within(alloc, weights, terminals, here, limit, labels)?;
    while found.is_none() && limit < MOST {
        limit = (limit + slack).min(MOST);
        slack = (2 * slack).min(MOST);
        found = nearest_within(alloc, weights, terminals, here, limit, labels)?;
    }
    Ok(found)
}

/// What it weighs at least to get from a tile to the nearest other one of these; 0 where no way leads there.
fn across_tiles<W: FlooredWeights>(
    weights: &W,
    tile: Vertex,
    tiles: &[Vertex],
    labels: &mut TreeLabels,
) -> u64
    requires labels { AreTreeLabels (W.size weights.now) labels.old }
    requires tile { IsVertex (labels_size labels.old.flat) tile.0 }
    requires tiles { All (λ v. IsVertex (labels_size labels.old.flat) v.0) tiles.now }
    ensures limit { result ≤ most }
    ensures labels { AreTreeLabels (W.size weights.now) labels.new }
    ensures flat { labels_size labels.new.flat ≡ labels_size labels.old.flat }
{
    let ground = FlatWeights::new(weights, labels.flat.size(), labels.flat_edges.as_slice());
    let across = labels.flat.distance_to_nearest(&ground, tile, tiles);
    across.unwrap_or(0).min(MOST)
}
