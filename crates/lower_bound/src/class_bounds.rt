//! Net bounds by what the class pays between tiles.

ghost use Rattle.std.specs.Prelude.{ℕ, ◌≤◌, ◌↔◌, length};
ghost use Rattle.grid_base.specs.Walks.{InVertices};

use crate::class_costs::ClassCosts;
use crate::halves::sum_of_halves;
use crate::kept_halves::sum_of_kept_halves;
use crate::spread::choose;
use grid_base::{NoMemory, Vertex};
use grid_graph::NetSpec;
use least_weights::kept_least;
use shortest_paths::Labels;
use std::alloc::Global;
use steiner_tables::FEW_TERMINALS;

/// For so many tiles a search is made before landmarks are taken.
const TILES_PER_SEARCH: u32 = 32;

impl ClassCosts<'_> {
    ghost use Rattle.std.specs.Prelude.{◌≡◌, ◌<◌, ◌≤◌, All, IfOk, length};
    ghost use Rattle.grid_base.specs.Numbers.{IsVertex};
    ghost use Rattle.grid_base.specs.Walks.{Joins, InVertices};
    ghost use Rattle.grid_graph.specs.Grids.{size_of};
    ghost use Rattle.grid_graph.specs.Grounds.{JoinsTerminals};
    ghost use Rattle.grid_graph.specs.TilePieces as tile_pieces;
    ghost use Rattle.grid_graph.specs.Weighed.{IsAllowed};
    ghost use Rattle.shortest_paths.specs.LabelWords.{labels_size, masks_of};
    ghost use Rattle.steiner_tables.specs.Masks.{rooted_masks, few_terminals};
    ghost use Rattle.label_search.specs.Sets.{IsLeastWeight};
    ghost use Rattle.lower_bound.specs.ClassWords.{tiles_size, class_pieces, IsCurrentClass, KeepsClass};
    ghost use Rattle.lower_bound.specs.HalfWords.{IsSumOfHalves};
    ghost use Rattle.lower_bound.specs.NetBounds.{IsBoundOfMany, IsNetBound};
    ghost use Rattle.lower_bound.specs.Representatives as words;

    /// The net bound of a net of the class, where a piece alone costs nothing. The labels are those of the flat grid.
    pub fn net_bound(
        &mut self,
        alloc: Global,
        net: &NetSpec,
        labels: &mut Labels,
    ) -> Result<u64, NoMemory>
        requires current { IsCurrentClass self.old }
        requires vertices { All (λ v. IsVertex (size_of self.old.grid.now) v.0) net.now.terminals }
        requires ground { JoinsTerminals self.old.grid.now self.old.ground net.now.terminals }
        requires labels { labels_size labels.old ≡ tiles_size self.old }
        requires room { rooted_masks ≤ masks_of labels.old }
        ensures bound { IfOk result (IsNetBound (size_of self.old.grid.now) (class_pieces self.old) net.now.terminals) }
        ensures class { KeepsClass self.old self.new }
        ensures current { IsCurrentClass self.new }
        ensures size { labels_size labels.new ≡ labels_size labels.old }
        ensures masks { masks_of labels.new ≡ masks_of labels.old }
    {
        let terminals = net.terminals.list();
        if terminals.len() > FEW_TERMINALS {
            return self.bound_of_many(alloc, terminals, labels);
        }
        self.least_cost(alloc, terminals, labels)
    }

    /// Takes the landmarks of the class once so many searches were made for its nets that they pay.
    fn lead(&mut self, labels: &mut Labels)
        requires current { IsCurrentClass self.old }
        requires labels { labels_size labels.old ≡ tiles_size self.old }
        requires room { rooted_masks ≤ masks_of labels.old }
        ensures class { KeepsClass self.old self.new }
        ensures current { IsCurrentClass self.new }
        ensures size { labels_size labels.new ≡ labels_size labels.old }
        ensures masks { masks_of labels.new ≡ masks_of labels.old }
    {
        if !self.is_led && self.kept.puts() >= self.costs.size().vertices() / TILES_PER_SEARCH {
            self.landmarks.renew(&self.costs, labels);
            self.is_led = true;
        }
    }

    /// The same of more than five terminals.
    fn bound_of_many(
        &mut self,
        alloc: Global,
        terminals: &[Vertex],
        labels: &mut Labels,
    ) -> Result<u64, NoMemory>
        requires current { IsCurrentClass self.old }
        requires many { few_terminals < length terminals.now }
        requires vertices { All (λ v. IsVertex (size_of self.old.grid.now) v.0) terminals.now }
        requires joined { Joins (size_of self.old.grid.now) (IsAllowed (class_pieces self.old)) (InVertices terminals.now) }
        requires labels { labels_size labels.old ≡ tiles_size self.old }
        requires room { rooted_masks ≤ masks_of labels.old }
        ensures bound { IfOk result (IsBoundOfMany (size_of self.old.grid.now) (class_pieces self.old) terminals.now) }
        ensures class { KeepsClass self.old self.new }
        ensures current { IsCurrentClass self.new }
        ensures size { labels_size labels.new ≡ labels_size labels.old }
        ensures masks { masks_of labels.new ≡ masks_of labels.old }
    {
        let chosen = choose(self.grid.size(), terminals);
        let of_chosen = self.least_cost(alloc, &chosen, labels)?;
        let halves = self.sum_of_halves(alloc, terminals, labels)?;
        Ok(of_chosen.max(halves))
    }

    /// The least cost of at most five terminals.
    fn least_cost(
        &mut self,
        alloc: Global,
        terminals: &[Vertex],
        labels: &mut Labels,
    ) -> Result<u64, NoMemory>
        requires current { IsCurrentClass self.old }
        requires few { length terminals.now ≤ few_terminals }
        requires vertices { All (λ v. IsVertex (size_of self.old.grid.now) v.0) terminals.now }
        requires joined { Joins (size_of self.old.grid.now) (IsAllowed (class_pieces self.old)) (InVertices terminals.now) }
        requires labels { labels_size labels.old ≡ tiles_size self.old }
        requires room { rooted_masks ≤ masks_of labels.old }
        ensures least { IfOk result (IsLeastWeight (size_of self.old.grid.now)
            (class_pieces self.old) (InVertices terminals.now)) }
        ensures class { KeepsClass self.old self.new }
        ensures current { IsCurrentClass self.new }
        ensures size { labels_size labels.new ≡ labels_size labels.old }
        ensures masks { masks_of labels.new ≡ masks_of labels.old }
    {
        let tiles = distinct(self.represented(alloc, terminals)?);
        let cost = kept_least(
            &self.costs,
            &self.landmarks,
            &mut self.kept,
            tiles.as_slice(),
            labels,
        );
        self.lead(labels);
        Ok(cost)
    }

    /// The sum of halves of what it costs to join each terminal to another one. Where many of them are joined at no cost, few
    /// pairs of tiles tell all, whose costs are kept.
    fn sum_of_halves(
        &mut self,
        alloc: Global,
        terminals: &[Vertex],
        labels: &mut Labels,
    ) -> Result<u64, NoMemory>
        requires current { IsCurrentClass self.old }
        requires two { 2 ≤ length terminals.now }
        requires vertices { All (λ v. IsVertex (size_of self.old.grid.now) v.0) terminals.now }
        requires joined { Joins (size_of self.old.grid.now) (IsAllowed (class_pieces self.old)) (InVertices terminals.now) }
        requires labels { labels_size labels.old ≡ tiles_size self.old }
        requires room { rooted_masks ≤ masks_of labels.old }
        ensures sum { IfOk result (IsSumOfHalves (size_of self.old.grid.now) (class_pieces self.old)
            terminals.now (length terminals.now)) }
        ensures class { KeepsClass self.old self.new }
        ensures current { IsCurrentClass self.new }
        ensures size { labels_size labels.new ≡ labels_size labels.old }
        ensures masks { masks_of labels.new ≡ masks_of labels.old }
    {
        let tiles = self.represented(alloc, terminals)?;
        let different = distinct(Vec::from_slice(alloc, tiles.as_slice())?);
        let costs = &self.costs;
        if are_mostly_joined(different.len(), tiles.len()) {
            let landmarks = &self.landmarks;
            return Ok(sum_of_kept_halves(
                costs,
                landmarks,
                &mut self.kept,
                tiles.as_slice(),
                labels,
            ));
        }
        Ok(sum_of_halves(costs, tiles.as_slice(), labels))
    }

    /// The tiles that stand for those of terminals.
    fn represented(&self, alloc: Global, terminals: &[Vertex]) -> Result<Vec<Vertex>, NoMemory>
        requires current { IsCurrentClass self.now }
        requires vertices { All (λ v. IsVertex (size_of self.now.grid.now) v.0) terminals.now }
        ensures { IfOk result (λ tiles. tiles.items
            ≡ words.represented self.now.representatives.of.parents.items
            (tile_pieces.tiles_of (size_of self.now.grid.now) terminals.now)) }
    {
        let size = self.grid.size();
        let per_layer = size.cols() * size.rows();
        let mut tiles = Vec::new(alloc);
        for terminal in terminals {
            tiles.push(self.representatives.of(Vertex(terminal.0 % per_layer)))?;
        }
        Ok(tiles)
    }
}

/// Whether most of the tiles are joined with others at no cost, where so many are different.
fn are_mostly_joined(different: usize, all: usize) -> bool {
    different <= all / 2 && different <= FEW_TERMINALS
}

/// The same tiles, each once.
fn distinct(mut tiles: Vec<Vertex>) -> Vec<Vertex>
    ensures same { (v : ℕ) → InVertices result.items v ↔ InVertices tiles.items v }
    ensures fewer { length result.items ≤ length tiles.items }
{
    tiles.sort_unstable();
    tiles.dedup();
    tiles
}
