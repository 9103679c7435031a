//! Sets that are being changed, and the best that they were.

ghost use Rattle.std.specs.Prelude.{◌≡◌, Some, unwrap_or};

use crate::state::RoutingState;
use crate::totals::Totals;
use grid_base::NoMemory;
use grid_graph::Design;
use std::alloc::Global;
use tree_set::Tree;

/// A state that is being changed, the totals at its best, and of each net whose set changed since then the set that it had.
#[derive(Drop)]
pub struct Rerouting {
    state: RoutingState,
    saved: Vec<Option<Tree>>,
    best: Totals,
}

impl Rerouting {
    ghost use Rattle.std.specs.Prelude.{◌≡◌, ◌↔◌, ◌<◌, None, All, IfOk, IsTrue, length, slice_set};
    ghost use Rattle.grid_graph.specs.declared.design.Design.{Design as DesignOf};
    ghost use Rattle.grid_graph.specs.declared.ground.Ground.{Ground};
    ghost use Rattle.tree_set.specs.Routings.{KeepsTo};
    ghost use Rattle.routing_state.specs.Best.{best_of, IsReroutingOf};
    ghost use Rattle.routing_state.specs.States.{IsStateOf, totals_in, trees_of};
    ghost use Rattle.routing_state.specs.Totals.{IsBetter, IsNoWorse, totals_of};

    /// The best is the state as it is.
    pub fn of(alloc: Global, state: RoutingState) -> Result<Rerouting, NoMemory>
        ensures of { (d : DesignOf) → IsStateOf d state → IfOk result (IsReroutingOf d) }
        ensures state { IfOk result (λ made. made.state ≡ state) }
        ensures best { IfOk result (λ made. best_of made ≡ trees_of state) }
        ensures totals { IfOk result (λ made. made.best ≡ totals_in state) }
    {
        let mut saved = Vec::new(alloc);
        for _ in 0..state.trees().len() {
            saved.push(None)?;
        }
        let best = state.totals();
        Ok(Rerouting { state, saved, best })
    }

    /// The state as it is now.
    pub fn state(&self) -> &RoutingState
        ensures { result.now ≡ self.now.state }
    {
        &self.state
    }

    /// The totals at the best.
    pub fn best(&self) -> Totals
        ensures value { result ≡ self.now.best }
        ensures totals { (d : DesignOf) → IsReroutingOf d self.now → result ≡ totals_of d (best_of self.now) }
    {
        self.best
    }

    /// The net gets the set, whatever it costs. At its first change since the best the set that it had is saved.
    pub fn exchange(&mut self, design: &Design, net: usize, tree: Tree)
        requires of { IsReroutingOf design.now self.old }
        requires net { net < length design.now.nets }
        requires set { KeepsTo design.now.grid Ground.WithChoked tree }
        ensures of { IsReroutingOf design.now self.new }
        ensures trees { trees_of self.new.state ≡ slice_set (trees_of self.old.state) net tree }
        ensures best { best_of self.new ≡ best_of self.old }
        ensures totals { self.new.best ≡ self.old.best }
    {
        let before = self.state.exchange(design, net, tree);
        save(&mut self.saved[net], before);
    }

    /// What is now is the best where it is better: whether it is.
    pub fn keep_if_better(&mut self) -> bool
        ensures of { (d : DesignOf) → IsReroutingOf d self.old → IsReroutingOf d self.new }
        ensures state { self.new.state ≡ self.old.state }
        ensures decided { IsTrue result ↔ IsBetter (totals_in self.old.state) self.old.best }
        ensures better { IsTrue result → (d : DesignOf) → IsReroutingOf d self.old → best_of self.new ≡ trees_of self.new.state }
        ensures kept { ¬ IsTrue result → self.new ≡ self.old }
        ensures no_worse { IsNoWorse self.new.best self.old.best }
    {
        let totals = self.state.totals();
        let is_better = totals.is_better(self.best);
        if is_better {
            self.best = totals;
            self.forget();
        }
        is_better
    }

    /// The state at the best: each net has the set that it had then.
    pub fn back(mut self, design: &Design) -> RoutingState
        requires { IsReroutingOf design.now self }
        ensures state { IsStateOf design.now result }
        ensures trees { trees_of result ≡ best_of self }
        ensures totals { totals_in result ≡ self.best }
    {
        for net in 0..self.saved.len() {
            self.put_back(design, net);
        }
        self.state
    }

    /// Nothing is saved from now on.
    fn forget(&mut self)
        ensures state { self.new.state ≡ self.old.state }
        ensures best { self.new.best ≡ self.old.best }
        ensures long { length self.new.saved.items ≡ length self.old.saved.items }
        ensures none { All (λ set. set ≡ None) self.new.saved.items }
    {
        for net in 0..self.saved.len() {
            self.saved[net] = None;
        }
    }

    /// The net gets the set that is saved for it, if one is.
    fn put_back(&mut self, design: &Design, net: usize)
        requires of { IsReroutingOf design.now self.old }
        requires net { net < length design.now.nets }
        ensures of { IsReroutingOf design.now self.new }
        ensures best { best_of self.new ≡ best_of self.old }
        ensures totals { self.new.best ≡ self.old.best }
        ensures saved { self.new.saved.items ≡ slice_set self.old.saved.items net None }
    {
        if let Some(tree) = self.saved[net].take() {
            self.state.exchange(design, net, tree);
        }
    }
}

/// Saves the set where none is saved yet.
fn save(saved: &mut Option<Tree>, before: Tree)
    ensures { saved.new ≡ Some (unwrap_or saved.old before) }
{
    if saved.is_none() {
        *saved = Some(before);
    }
}
