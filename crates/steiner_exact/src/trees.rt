//! Trees of least weight.

ghost use Rattle.std.specs.Prelude.{◌≡◌, ◌≤◌, ◌<◌, [], All, IfOk, length};
ghost use Rattle.std.specs.Option.{ForSome};
ghost use Rattle.grid_graph.specs.Flat.{IsFlatOf};
ghost use Rattle.grid_graph.specs.TilePieces.{tiles_of as flat_tiles_of};
ghost use Rattle.grid_base.specs.Numbers.{IsVertex};
ghost use Rattle.grid_base.specs.Walks.{Joins, InVertices};
ghost use Rattle.grid_graph.specs.Weighed.{IsAllowed};
ghost use Rattle.shortest_paths.specs.LabelWords.{labels_size, masks_of, label_of};
ghost use Rattle.steiner_tables.specs.Masks.{rooted_masks, proper_masks, few_terminals};
ghost use Rattle.label_search.specs.Stamped.{most};
ghost use Rattle.label_search.specs.Paths.{NoneWeighsNothing};
ghost use Rattle.terminal_balls.specs.Balls.{AreBalls, AreInGrid, balls_of};
ghost use Rattle.terminal_distances.specs.DistanceWords.{AreDistanceRows};
ghost use Rattle.steiner_exact.specs.FlatPieces.{edges_with};
ghost use Rattle.steiner_exact.specs.LeastSets.{IsLeastTree};
ghost use Rattle.steiner_exact.specs.Roots.{IsLeastAtRoot};
ghost use Rattle.steiner_exact.specs.TreeLabelWords.{AreTreeLabels};

use crate::ball_family::BallFamily;
use crate::box_family::BoxFamily;
use crate::flat_weights::FlatWeights;
use crate::guess::tree_guess;
use crate::least_path::least_path;
use crate::limits::{
    DISTANCE_SLACK, FAR_MARGIN, FIRST_SLACK, LED_VIA, MOST, TABLE_SLACK, TABLE_VIAS,
};
use crate::nearness::with_far_root;
use crate::reading::read_tree;
use crate::root_label::root_label;
use crate::root_search::least_at_root;
use crate::row_family::RowFamily;
use crate::tiles::tiles_of;
use crate::tree_labels::TreeLabels;
use crate::tree_limits::TreeLimits;
use grid_base::{NoMemory, Size, Vertex};
use grid_graph::{FlooredWeights, Weights};
use shortest_paths::{Family, Labels};
use std::alloc::Global;
use steiner_tables::{all_but_root_of, all_of};
use terminal_balls::TerminalBalls;
use terminal_distances::{DistanceFamily, DistanceRows};
use tree_set::Tree;

/// A set of allowed pieces that joins at most five terminals, of least weight, and that weight. The labels are those of
/// the weights' size. After Dreyfus and Wagner, "The Steiner problem in graphs" (1971).
pub fn least_tree<W: FlooredWeights>(
    alloc: Global,
    weights: &W,
    terminals: &[Vertex],
    labels: &mut TreeLabels,
) -> Result<(Tree, u64), NoMemory>
    requires labels { AreTreeLabels (W.size weights.now) labels.old }
    requires few { length terminals.now ≤ few_terminals }
    requires joined { Joins (W.size weights.now) (IsAllowed (W.pieces weights.now)) (InVertices terminals.now) }
    requires positive { NoneWeighsNothing (W.pieces weights.now) }
    ensures tree { IfOk result (λ found. IsLeastTree (W.size weights.now) (W.pieces weights.now) terminals.now found.0 found.1) }
    ensures none { length terminals.now < 2 → IfOk result (λ found. found.0 ≡ []) }
    ensures labels { AreTreeLabels (W.size weights.now) labels.new }
{
    if terminals.len() < 2 {
        return Ok((Tree::empty(alloc), 0));
    }
    if terminals.len() == 2 {
        return least_path(weights, terminals, labels);
    }
    let ordered = with_far_root(alloc, labels.grid.size(), terminals)?;
    let found = least_of_several(alloc, weights, ordered.as_slice(), labels)?;
    Ok(found)
}

/// The same for two to five terminals, by a table.
fn least_of_several<W: FlooredWeights>(
    alloc: Global,
    weights: &W,
    terminals: &[Vertex],
    labels: &mut TreeLabels,
) -> Result<(Tree, u64), NoMemory>
    requires labels { AreTreeLabels (W.size weights.now) labels.old }
    requires terminals { All (λ v. IsVertex (W.size weights.now) v.0) terminals.now }
    requires two { 2 ≤ length terminals.now }
    requires few { length terminals.now ≤ few_terminals }
    requires joined { Joins (W.size weights.now) (IsAllowed (W.pieces weights.now)) (InVertices terminals.now) }
    requires positive { NoneWeighsNothing (W.pieces weights.now) }
    ensures tree { IfOk result (λ found. IsLeastTree (W.size weights.now) (W.pieces weights.now) terminals.now found.0 found.1) }
    ensures labels { AreTreeLabels (W.size weights.now) labels.new }
{
    let via = weights.floors().via;
    let slack = FIRST_SLACK.max(via);
    let table_slack = TABLE_SLACK.max(TABLE_VIAS * via);
    let weight = least_by_tiles(alloc, weights, terminals, slack, table_slack, labels)?;
    let mask = all_but_root_of(terminals.len());
    let root = terminals[terminals.len() - 1];
    let tree = read_tree(alloc, weights, &labels.grid, terminals, mask, root)?;
    Ok((tree, weight))
}

/// The least weight of a set that joins two to five terminals, with the table that tells it. Where there are several layers,
/// a table of the terminals' tiles bounds it, whose limit is at most `table_slack` above the weight of a tree. The search begins
/// `slack` above what that table tells, and is raised by as much at first. Where vias weigh more than 4, balls around the terminals
/// bound it too, and what such searches came to stands in place of both slacks.
pub fn least_by_tiles<W: FlooredWeights>(
    alloc: Global,
    weights: &W,
    terminals: &[Vertex],
    slack: u64,
    table_slack: u64,
    labels: &mut TreeLabels,
) -> Result<u64, NoMemory>
    requires labels { AreTreeLabels (W.size weights.now) labels.old }
    requires terminals { All (λ v. IsVertex (W.size weights.now) v.0) terminals.now }
    requires two { 2 ≤ length terminals.now }
    requires few { length terminals.now ≤ few_terminals }
    requires joined { Joins (W.size weights.now) (IsAllowed (W.pieces weights.now)) (InVertices terminals.now) }
    ensures least { IfOk result (λ least. IsLeastAtRoot (W.size weights.now) (W.pieces weights.now) terminals.now (label_of labels.new.grid) least) }
    ensures labels { AreTreeLabels (W.size weights.now) labels.new }
{
    if labels.grid.size().layers() == 1 {
        return least_by_boxes(alloc, weights, terminals, &mut labels.grid);
    }
    if weights.floors().via <= LED_VIA {
        return least_over_tiles(alloc, weights, terminals, slack, table_slack, labels);
    }
    let kept = labels.balls.take();
    let balls = grown_balls(alloc, weights, labels.grid.size(), terminals, kept)?;
    let found = least_with_balls(
        alloc,
        weights,
        terminals,
        &balls,
        slack,
        table_slack,
        labels,
    );
    labels.balls = Some(balls);
    found
}

/// The same where there are several layers, with these balls.
fn least_with_balls<W: FlooredWeights>(
    alloc: Global,
    weights: &W,
    terminals: &[Vertex],
    balls: &TerminalBalls,
    slack: u64,
    table_slack: u64,
    labels: &mut TreeLabels,
) -> Result<u64, NoMemory>
    requires labels { AreTreeLabels (W.size weights.now) labels.old }
    requires balls { AreInGrid (W.size weights.now) balls.now }
    requires grown { AreBalls (W.size weights.now) (W.pieces weights.now) (W.over weights.now) terminals.now (balls_of balls.now) }
    requires terminals { All (λ v. IsVertex (W.size weights.now) v.0) terminals.now }
    requires two { 2 ≤ length terminals.now }
    requires few { length terminals.now ≤ few_terminals }
    requires joined { Joins (W.size weights.now) (IsAllowed (W.pieces weights.now)) (InVertices terminals.now) }
    ensures least { IfOk result (λ least. IsLeastAtRoot (W.size weights.now) (W.pieces weights.now) terminals.now (label_of labels.new.grid) least) }
    ensures labels { AreTreeLabels (W.size weights.now) labels.new }
{
    let listed = tiles_of(alloc, labels.grid.size(), terminals)?;
    let tiles = listed.as_slice();
    let count = tiles.len();
    let via = weights.floors().via;
    let ground = FlatWeights::new(weights, labels.flat.size(), labels.flat_edges.as_slice());
    let bounds = BoxFamily::new(&ground, labels.flat.size(), tiles);
    let guess = tree_guess(alloc, &ground, tiles, &mut labels.flat)?;
    let above = labels.gaps.slacks(count, guess, via, table_slack).first;
    let limit = guess.saturating_add(above).min(MOST);
    labels
        .flat
        .pruned(&ground, &bounds, tiles, all_of(count) - 1, limit);
    let across = root_label(&labels.flat, tiles).unwrap_or(guess);
    let base = across.saturating_add(balls.radii_of(all_of(count)));
    let slacks = labels.gaps.slacks(count, across, via, slack);
    let size = labels.grid.size();
    let row = RowFamily::new(weights, size, terminals, &bounds, &labels.flat, limit);
    let family = BallFamily::new(&row, balls);
    let within = base.saturating_add(slacks.first);
    let least = least_at_root(
        weights,
        &family,
        terminals,
        within,
        slacks.more,
        &mut labels.grid,
    );
    labels
        .gaps
        .learn(count, across, via, least.saturating_sub(base));
    Ok(least)
}

/// The same where there are several layers, without balls. Where a tree weighs far more than the box of its tiles, distances from
/// them lead the table.
fn least_over_tiles<W: FlooredWeights>(
    alloc: Global,
    weights: &W,
    terminals: &[Vertex],
    slack: u64,
    table_slack: u64,
    labels: &mut TreeLabels,
) -> Result<u64, NoMemory>
    requires labels { AreTreeLabels (W.size weights.now) labels.old }
    requires terminals { All (λ v. IsVertex (W.size weights.now) v.0) terminals.now }
    requires two { 2 ≤ length terminals.now }
    requires few { length terminals.now ≤ few_terminals }
    requires joined { Joins (W.size weights.now) (IsAllowed (W.pieces weights.now)) (InVertices terminals.now) }
    ensures least { IfOk result (λ least. IsLeastAtRoot (W.size weights.now) (W.pieces weights.now) terminals.now (label_of labels.new.grid) least) }
    ensures labels { AreTreeLabels (W.size weights.now) labels.new }
{
    let listed = tiles_of(alloc, labels.grid.size(), terminals)?;
    let tiles = listed.as_slice();
    let ground = FlatWeights::new(weights, labels.flat.size(), labels.flat_edges.as_slice());
    let bounds = BoxFamily::new(&ground, labels.flat.size(), tiles);
    let guess = tree_guess(alloc, &ground, tiles, &mut labels.flat)?;
    if !is_far(&bounds, labels.flat.size(), tiles, guess) {
        let limits = TreeLimits::new(guess, table_slack, slack);
        return Ok(least_under(
            weights,
            &ground,
            terminals,
            tiles,
            &bounds,
            limits,
            &mut labels.grid,
            &mut labels.flat,
        ));
    }
    let limits = TreeLimits::new(guess, table_slack.min(DISTANCE_SLACK), slack);
    let mut rows = match labels.distances.take() {
        Some(rows) => rows,
        None => DistanceRows::new(alloc, labels.flat.size())?,
    };
    let found = least_led(
        weights,
        &ground,
        terminals,
        tiles,
        &bounds,
        limits,
        &mut rows,
        &mut labels.grid,
        &mut labels.flat,
    );
    labels.distances = Some(rows);
    Ok(found)
}

/// Whether a tree of at least three terminals that weighs so much weighs far more than the family says of them. Of two terminals
/// the table has no rows but their distances.
fn is_far<F: Family>(bounds: &F, size: Size, terminals: &[Vertex], guess: u64) -> bool
    requires size { size ≡ F.size bounds.now }
    requires same { F.terminals bounds.now ≡ terminals.now }
    requires terminals { All (λ v. IsVertex (F.size bounds.now) v.0) terminals.now }
    requires two { 2 ≤ length terminals.now }
    requires few { length terminals.now ≤ few_terminals }
{
    let root = terminals[terminals.len() - 1];
    let mask = all_but_root_of(terminals.len());
    let boxed = bounds.low(mask, root, size.place_of(root));
    terminals.len() > 2 && guess.saturating_sub(boxed) > boxed.max(FAR_MARGIN)
}

/// The least weight by a table of the terminals' tiles that is led by distances from them, those from the root first.
fn least_led<W: FlooredWeights, G: Weights, B: Family>(
    weights: &W,
    ground: &G,
    terminals: &[Vertex],
    tiles: &[Vertex],
    bounds: &B,
    limits: TreeLimits,
    rows: &mut DistanceRows,
    labels: &mut Labels,
    flat: &mut Labels,
) -> u64
    requires rows { AreDistanceRows (B.size bounds.now) rows.old }
    requires labels { labels_size labels.old ≡ W.size weights.now }
    requires room { rooted_masks ≤ masks_of labels.old }
    requires flat { IsFlatOf (B.size bounds.now) (W.size weights.now) }
    requires flat_size { labels_size flat.old ≡ B.size bounds.now }
    requires flat_room { proper_masks ≤ masks_of flat.old }
    requires ground_size { G.size ground.now ≡ B.size bounds.now }
    requires ground { G.pieces ground.now ≡ B.pieces bounds.now }
    requires bounds { B.pieces bounds.now ≡ edges_with (B.size bounds.now) (W.over weights.now) }
    requires tiles { tiles.now ≡ flat_tiles_of (W.size weights.now) terminals.now }
    requires same { B.terminals bounds.now ≡ tiles.now }
    requires limit { limits.table ≤ most }
    requires terminals { All (λ v. IsVertex (W.size weights.now) v.0) terminals.now }
    requires two { 2 ≤ length terminals.now }
    requires few { length terminals.now ≤ few_terminals }
    requires joined { Joins (W.size weights.now) (IsAllowed (W.pieces weights.now)) (InVertices terminals.now) }
    ensures rows { AreDistanceRows (B.size bounds.now) rows.new }
    ensures least { IsLeastAtRoot (W.size weights.now) (W.pieces weights.now) terminals.now (label_of labels.new) result }
    ensures size { labels_size labels.new ≡ labels_size labels.old }
    ensures masks { masks_of labels.new ≡ masks_of labels.old }
    ensures flat_size { labels_size flat.new ≡ labels_size flat.old }
    ensures flat_masks { masks_of flat.new ≡ masks_of flat.old }
{
    let count = tiles.len();
    let (root, all) = (count as u32 - 1, count as u32);
    rows.root
        .distances_from_each(ground, bounds, tiles, root, all, limits.table);
    let rooted = DistanceFamily::new(bounds, &rows.root, count, root, all, limits.table);
    rows.others
        .distances_from_each(ground, &rooted, tiles, 0, root, limits.table);
    let led = DistanceFamily::new(&rooted, &rows.others, count, 0, root, limits.table);
    least_under(
        weights, ground, terminals, tiles, &led, limits, labels, flat,
    )
}

/// The least weight by a table of the terminals' tiles that is led by a family.
fn least_under<W: FlooredWeights, G: Weights, B: Family>(
    weights: &W,
    ground: &G,
    terminals: &[Vertex],
    tiles: &[Vertex],
    bounds: &B,
    limits: TreeLimits,
    labels: &mut Labels,
    flat: &mut Labels,
) -> u64
    requires labels { labels_size labels.old ≡ W.size weights.now }
    requires room { rooted_masks ≤ masks_of labels.old }
    requires flat { IsFlatOf (B.size bounds.now) (W.size weights.now) }
    requires flat_size { labels_size flat.old ≡ B.size bounds.now }
    requires flat_room { proper_masks ≤ masks_of flat.old }
    requires ground_size { G.size ground.now ≡ B.size bounds.now }
    requires ground { G.pieces ground.now ≡ B.pieces bounds.now }
    requires bounds { B.pieces bounds.now ≡ edges_with (B.size bounds.now) (W.over weights.now) }
    requires tiles { tiles.now ≡ flat_tiles_of (W.size weights.now) terminals.now }
    requires same { B.terminals bounds.now ≡ tiles.now }
    requires limit { limits.table ≤ most }
    requires terminals { All (λ v. IsVertex (W.size weights.now) v.0) terminals.now }
    requires two { 2 ≤ length terminals.now }
    requires few { length terminals.now ≤ few_terminals }
    requires joined { Joins (W.size weights.now) (IsAllowed (W.pieces weights.now)) (InVertices terminals.now) }
    ensures least { IsLeastAtRoot (W.size weights.now) (W.pieces weights.now) terminals.now (label_of labels.new) result }
    ensures size { labels_size labels.new ≡ labels_size labels.old }
    ensures masks { masks_of labels.new ≡ masks_of labels.old }
    ensures flat_size { labels_size flat.new ≡ labels_size flat.old }
    ensures flat_masks { masks_of flat.new ≡ masks_of flat.old }
{
    flat.pruned(ground, bounds, tiles, all_of(tiles.len()) - 1, limits.table);
    let across = root_label(flat, tiles).unwrap_or(limits.guess);
    let row = RowFamily::new(
        weights,
        labels.size(),
        terminals,
        bounds,
        flat,
        limits.table,
    );
    let within = across.saturating_add(limits.slack);
    least_at_root(weights, &row, terminals, within, limits.slack, labels)
}

/// Balls that have grown around terminals, made where there are none.
fn grown_balls<W: FlooredWeights>(
    alloc: Global,
    weights: &W,
    size: Size,
    terminals: &[Vertex],
    kept: Option<TerminalBalls>,
) -> Result<TerminalBalls, NoMemory>
    requires size { size ≡ W.size weights.now }
    requires kept { ForSome kept (λ b. AreInGrid (W.size weights.now) b) }
    requires terminals { All (λ v. IsVertex (W.size weights.now) v.0) terminals.now }
    requires few { length terminals.now ≤ few_terminals }
    ensures balls { IfOk result (λ b. AreBalls (W.size weights.now) (W.pieces weights.now) (W.over weights.now) terminals.now (balls_of b)) }
    ensures grid { IfOk result (λ b. AreInGrid (W.size weights.now) b) }
{
    let mut balls = match kept {
        Some(balls) => balls,
        None => TerminalBalls::new(alloc, size)?,
    };
    balls.grow(weights, terminals);
    Ok(balls)
}

/// The same by a search under boxes.
fn least_by_boxes<W: FlooredWeights>(
    alloc: Global,
    weights: &W,
    terminals: &[Vertex],
    labels: &mut Labels,
) -> Result<u64, NoMemory>
    requires size { labels_size labels.old ≡ W.size weights.now }
    requires room { rooted_masks ≤ masks_of labels.old }
    requires terminals { All (λ v. IsVertex (W.size weights.now) v.0) terminals.now }
    requires two { 2 ≤ length terminals.now }
    requires few { length terminals.now ≤ few_terminals }
    requires joined { Joins (W.size weights.now) (IsAllowed (W.pieces weights.now)) (InVertices terminals.now) }
    ensures least { IfOk result (λ least. IsLeastAtRoot (W.size weights.now) (W.pieces weights.now) terminals.now (label_of labels.new) least) }
    ensures size { labels_size labels.new ≡ labels_size labels.old }
    ensures masks { masks_of labels.new ≡ masks_of labels.old }
{
    let guess = tree_guess(alloc, weights, terminals, labels)?;
    let family = BoxFamily::new(weights, labels.size(), terminals);
    Ok(least_at_root(weights, &family, terminals, guess, FIRST_SLACK, labels))
}
