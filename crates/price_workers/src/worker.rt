//! A worker.

ghost use Rattle.std.specs.Prelude.{◌≡◌, ◌+◌, ◌/◌, replicate, IfOk};
ghost use Rattle.edge_prices.specs.KeptLists.{grid_of, loads_of, scale_of, budget_of};
ghost use Rattle.edge_prices.specs.Limits.{IsScale, IsBudget};
ghost use Rattle.grid_graph.specs.Grids.{entries, size_of};
ghost use Rattle.steiner_exact.specs.TreeLabelWords.{AreTreeLabels};
ghost use Rattle.price_workers.specs.Marks.{entries_per_mark, MarksChanges};
ghost use Rattle.price_workers.specs.Working.{IsWorking};

use crate::changes::Changes;
use crate::loads::{put_tree, take_tree};
use crate::net_route::{prices_without_loads, route_net};
use crate::reading::read_all;
use edge_prices::KeptPrices;
use grid_base::NoMemory;
use grid_graph::{Design, Ground};
use load_table::{LoadTable, Share};
use std::alloc::Global;
use steiner_exact::TreeLabels;
use tree_set::Tree;

/// A share of a table, sets for nets, and the loads that were seen, at whose prices the next net is routed.
///
/// A reading of all loads serves the turns of 32 nets. A turn takes no time that grows with the grid, but for its search.
#[derive(Drop)]
pub struct Worker<'a> {
    share: Share,
    trees: Vec<Tree>,
    kept: KeptPrices<'a>,
    changes: Changes,
    labels: TreeLabels,
    refreshed: bool,
    since: u32,
    pub ghost working: { IsWorking share kept labels refreshed },
    pub ghost marked: { MarksChanges (grid_of kept) changes.marks.items share.party.last (loads_of kept) },
}

impl<'a> Worker<'a> {
    ghost use Rattle.std.specs.Prelude.{◌≡◌, ◌<◌, ℕ, length, true, false, List, IfOk, IfErr, OnOk, OnErr};
    ghost use Rattle.grid_base.specs.declared.piece.Piece.{Piece};
    ghost use Rattle.grid_base.specs.Lists.{At};
    ghost use Rattle.grid_graph.specs.declared.net_spec.NetSpec.{NetSpec};
    ghost use Rattle.grid_graph.specs.Grounds.{IsGround};
    ghost use Rattle.edge_prices.specs.Limits.{IsScale, IsBudget};
    ghost use Rattle.grid_graph.specs.Grids.{entries};
    ghost use Rattle.load_table.specs.Holdings.{held};
    ghost use Rattle.price_workers.specs.Readings.{after_reading, AreCloseTo};
    ghost use Rattle.price_workers.specs.TreeLoads.{HoldsTree};
    ghost use Rattle.price_workers.specs.Workers.{worked_grid, worked_scale, worked_budget, held_share, party_of, trees_of, seen_loads, is_refreshed, nets_since, WorksOn, KeepsWork, MayRoute, IsPriced, IsRepriced, IsUnchanged};

    /// A worker that has read nothing yet. The error is want of memory, and hands share and sets back.
    pub fn new(
        alloc: Global,
        design: &'a Design,
        share: Share,
        trees: Vec<Tree>,
        scale: u32,
        budget: Option<u64>,
    ) -> Result<Worker<'a>, (Share, Vec<Tree>)>
        requires words { share.table.words ≡ entries design.now.grid }
        requires scale { IsScale scale }
        requires budget { IsBudget budget }
        ensures grid { IfOk result (λ w. worked_grid w ≡ design.now.grid) }
        ensures share { IfOk result (λ w. held_share w ≡ share) }
        ensures trees { IfOk result (λ w. trees_of w ≡ trees.items) }
        ensures scale { IfOk result (λ w. worked_scale w ≡ scale) }
        ensures budget { IfOk result (λ w. worked_budget w ≡ budget) }
        ensures unread { IfOk result (λ w. is_refreshed w ≡ false) }
        ensures share_back { IfErr result (λ back. back.0 ≡ share) }
        ensures trees_back { IfErr result (λ back. back.1.items ≡ trees.items) }
    {
        let Ok((labels, kept, changes)) = workplace(alloc, design, scale, budget) else {
            return Err((share, trees));
        };
        Ok(Worker {
            share,
            trees,
            kept,
            changes,
            labels,
            refreshed: false,
            since: 0,
        })
    }

    /// Reads the load of every word, in rising order of its number. A price is renewed where its load differs alone.
    pub fn refresh(&mut self, design: &Design, table: &LoadTable)
        requires works { WorksOn design.now.grid table.now self.old }
        ensures reading { held_share self.new ≡ held table.now (after_reading (party_of self.old) (seen_loads self.new)) }
        ensures close { AreCloseTo (party_of self.new) (seen_loads self.new) }
        ensures refreshed { is_refreshed self.new ≡ true }
        ensures since { nets_since self.new ≡ 0 }
        ensures trees { trees_of self.new ≡ trees_of self.old }
        ensures setting { KeepsWork self.old self.new }
    {
        read_all(
            &mut self.share,
            &mut self.kept,
            &self.changes,
            table,
            &design.grid,
        );
        self.changes.clear();
        self.refreshed = true;
        self.since = 0;
    }

    /// The turn of a net in a phase: it gets a set at the prices of the seen loads.
    pub fn price_net(
        &mut self,
        design: &Design,
        table: &LoadTable,
        net: usize,
        over: Ground,
    ) -> Result<(), NoMemory>
        requires works { WorksOn design.now.grid table.now self.old }
        requires may { MayRoute self.old }
        requires net { net < length design.now.nets }
        requires ground { (n : NetSpec) → At design.now.nets net n → IsGround design.now.grid n.terminals over }
        ensures priced { (n : NetSpec) → At design.now.nets net n → OnOk result (IsPriced design.now.grid n self.old self.new) }
        ensures close { AreCloseTo (party_of self.new) (seen_loads self.new) }
        ensures no_memory { OnErr result (IsUnchanged self.old self.new) }
        ensures setting { KeepsWork self.old self.new }
    {
        let alloc = *self.trees.allocator();
        let spec = &design.nets.list()[net];
        let tree = route_net(alloc, &mut self.kept, spec, over, &mut self.labels)?;
        self.changes.add_tree(&design.grid, &tree);
        let at = self.trees.len();
        self.trees.push(tree)?;
        put_tree(
            &mut self.share,
            &mut self.kept,
            table,
            &design.grid,
            spec.width,
            &self.trees[at],
        );
        self.since += 1;
        Ok(())
    }

    /// The turn of a net in a round of repair: it gets a set in place of the one at `at`, at the prices of the seen loads
    /// without that one.
    pub fn reprice_net(
        &mut self,
        design: &Design,
        table: &LoadTable,
        at: usize,
        net: usize,
        over: Ground,
    ) -> Result<(), NoMemory>
        requires works { WorksOn design.now.grid table.now self.old }
        requires may { MayRoute self.old }
        requires net { net < length design.now.nets }
        requires at { at < length (trees_of self.old) }
        requires ground { (n : NetSpec) → At design.now.nets net n → IsGround design.now.grid n.terminals over }
        requires had { (n : NetSpec) (before : List Piece) → At design.now.nets net n → At (trees_of self.old) at before → HoldsTree design.now.grid n.width before (party_of self.old) }
        ensures repriced { (n : NetSpec) (before : List Piece) → At design.now.nets net n → At (trees_of self.old) at before → OnOk result (IsRepriced design.now.grid n at before self.old self.new) }
        ensures close { AreCloseTo (party_of self.new) (seen_loads self.new) }
        ensures no_memory { OnErr result (IsUnchanged self.old self.new) }
        ensures setting { KeepsWork self.old self.new }
    {
        let alloc = *self.trees.allocator();
        let spec = &design.nets.list()[net];
        let grid = &design.grid;
        take_tree(
            &mut self.share,
            &mut self.kept,
            table,
            grid,
            spec.width,
            &self.trees[at],
        );
        self.changes.add_tree(grid, &self.trees[at]);
        match route_net(alloc, &mut self.kept, spec, over, &mut self.labels) {
            Ok(tree) => {
                self.changes.add_tree(grid, &tree);
                self.trees[at] = tree;
                self.since += 1;
                put_tree(
                    &mut self.share,
                    &mut self.kept,
                    table,
                    grid,
                    spec.width,
                    &self.trees[at],
                );
                Ok(())
            }
            Err(no_memory) => {
                put_tree(
                    &mut self.share,
                    &mut self.kept,
                    table,
                    grid,
                    spec.width,
                    &self.trees[at],
                );
                Err(no_memory)
            }
        }
    }

    /// The share and the sets, taken out.
    pub fn finish(self) -> (Share, Vec<Tree>)
        ensures share { result.0 ≡ held_share self.entry }
        ensures trees { result.1.items ≡ trees_of self.entry }
    {
        (self.share, self.trees)
    }
}

/// What a worker works with, but for its share and its sets.
fn workplace<'a>(
    alloc: Global,
    design: &'a Design,
    scale: u32,
    budget: Option<u64>,
) -> Result<(TreeLabels, KeptPrices<'a>, Changes), NoMemory>
    requires scale { IsScale scale }
    requires budget { IsBudget budget }
    ensures labels { IfOk result (λ r. AreTreeLabels (size_of design.now.grid) r.0) }
    ensures grid { IfOk result (λ r. grid_of r.1 ≡ design.now.grid) }
    ensures scale { IfOk result (λ r. scale_of r.1 ≡ scale) }
    ensures budget { IfOk result (λ r. budget_of r.1 ≡ budget) }
    ensures changes { IfOk result (λ r. r.2.marks.items ≡ replicate (entries design.now.grid / entries_per_mark + 1) 1) }
{
    let labels = TreeLabels::new(alloc, design.grid.size())?;
    let kept = prices_without_loads(alloc, &design.grid, scale, budget)?;
    let changes = Changes::everywhere(alloc, &design.grid)?;
    Ok((labels, kept, changes))
}
