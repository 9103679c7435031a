//! The sets of all nets, with their rooms and totals.

use crate::overfull::holds_overfull;
use crate::rooms::Rooms;
use crate::taking::take_all;
use crate::totals::Totals;
use grid_base::NoMemory;
use grid_graph::Design;
use std::alloc::Global;
use std::mem::replace;
use tree_set::Tree;

/// One set for each net, the room that they leave on each edge, their overflow and their wirelength.
#[derive(Drop)]
pub struct RoutingState {
    trees: Vec<Tree>,
    rooms: Rooms,
    wirelength: u64,
}

impl RoutingState {
    ghost use Rattle.std.specs.Prelude.{◌≡◌, ◌↔◌, ◌<◌, ℕ, List, IfOk, IsTrue, length, map, slice_index_or, slice_set};
    ghost use Rattle.grid_base.specs.declared.piece.Piece.{Piece};
    ghost use Rattle.grid_graph.specs.declared.design.Design.{Design as DesignOf};
    ghost use Rattle.grid_graph.specs.declared.ground.Ground.{Ground};
    ghost use Rattle.tree_set.specs.Loads.{load};
    ghost use Rattle.tree_set.specs.Routings.{KeepsTo};
    ghost use Rattle.routing_state.specs.Clipped.{clipped};
    ghost use Rattle.routing_state.specs.Rooms.{AreRooms};
    ghost use Rattle.routing_state.specs.NetSets.{AreNetSets};
    ghost use Rattle.routing_state.specs.Overfull.{HoldsOverfull};
    ghost use Rattle.routing_state.specs.States.{IsStateOf, rooms_of, totals_in, trees_of};
    ghost use Rattle.routing_state.specs.Totals.{IsNoWorse, totals_of};

    /// The state of these sets.
    pub fn of(alloc: Global, design: &Design, trees: Vec<Tree>) -> Result<RoutingState, NoMemory>
        requires sets { AreNetSets design.now trees.items }
        ensures state { IfOk result (λ made. IsStateOf design.now made) }
        ensures trees { IfOk result (λ made. trees_of made ≡ trees.items) }
    {
        let mut rooms = Rooms::of(alloc, &design.grid)?;
        let wirelength = take_all(design, trees.as_slice(), &mut rooms);
        Ok(RoutingState {
            trees,
            rooms,
            wirelength,
        })
    }

    /// The set of each net.
    pub fn trees(&self) -> &[Tree]
        ensures { result.now ≡ trees_of self.now }
    {
        self.trees.as_slice()
    }

    /// The room on each edge number: its capacity less the load, below 0 where the load is more.
    pub fn rooms(&self) -> &[i64]
        ensures list { result.now ≡ rooms_of self.now }
        ensures rooms { (d : DesignOf) → IsStateOf d self.now → AreRooms d.grid (load d.grid d.nets (trees_of self.now)) result.now }
    {
        self.rooms.list()
    }

    /// The same as 16 bits tell it, in a quarter of the bytes, for those who read much of it.
    pub fn narrow_rooms(&self) -> &[i16]
        ensures { result.now ≡ map clipped (rooms_of self.now) }
    {
        self.rooms.narrow_list()
    }

    /// The overflow and the wirelength of the sets.
    pub fn totals(&self) -> Totals
        ensures value { result ≡ totals_in self.now }
        ensures totals { (d : DesignOf) → IsStateOf d self.now → result ≡ totals_of d (trees_of self.now) }
    {
        Totals {
            overflow: self.rooms.lacking(),
            wirelength: self.wirelength,
        }
    }

    /// Whether the net's set holds an open edge with more load than capacity.
    pub fn holds_overfull(&self, design: &Design, net: usize) -> bool
        requires state { IsStateOf design.now self.now }
        requires net { net < length design.now.nets }
        ensures { (tree : List Piece) → tree ≡ slice_index_or (trees_of self.now) net tree
            → IsTrue result ↔ HoldsOverfull design.now.grid (load design.now.grid design.now.nets (trees_of self.now)) tree }
    {
        holds_overfull(&design.grid, self.rooms.list(), &self.trees[net])
    }

    /// The net gets the set in exchange for the one that it had, which is handed back. No set is copied.
    pub fn exchange(&mut self, design: &Design, net: usize, tree: Tree) -> Tree
        requires state { IsStateOf design.now self.old }
        requires net { net < length design.now.nets }
        requires set { KeepsTo design.now.grid Ground.WithChoked tree }
        ensures state { IsStateOf design.now self.new }
        ensures trees { trees_of self.new ≡ slice_set (trees_of self.old) net tree }
        ensures before { (other : List Piece) → result ≡ slice_index_or (trees_of self.old) net other }
        ensures set { KeepsTo design.now.grid Ground.WithChoked result }
    {
        let width = design.nets.list()[net].width;
        let before = replace(&mut self.trees[net], tree);
        self.rooms.give(&design.grid, width, &before);
        self.rooms.take(&design.grid, width, &self.trees[net]);
        self.wirelength = self.wirelength - before.pieces().len() as u64
            + self.trees[net].pieces().len() as u64;
        before
    }

    /// The net gets the set unless the totals are worse with it: whether it got it.
    pub fn exchange_unless_worse(&mut self, design: &Design, net: usize, tree: Tree) -> bool
        requires state { IsStateOf design.now self.old }
        requires net { net < length design.now.nets }
        requires set { KeepsTo design.now.grid Ground.WithChoked tree }
        ensures state { IsStateOf design.now self.new }
        ensures got { IsTrue result → trees_of self.new ≡ slice_set (trees_of self.old) net tree }
        ensures kept { ¬ IsTrue result → trees_of self.new ≡ trees_of self.old }
        ensures decided { IsTrue result ↔ IsNoWorse (totals_of design.now (slice_set (trees_of self.old) net tree)) (totals_in self.old) }
        ensures no_worse { IsNoWorse (totals_in self.new) (totals_in self.old) }
    {
        let before = self.totals();
        let had = self.exchange(design, net, tree);
        let is_kept = !before.is_better(self.totals());
        if !is_kept {
            self.exchange(design, net, had);
        }
        is_kept
    }

    /// The sets, taken out.
    pub fn into_trees(self) -> Vec<Tree>
        ensures { result.items ≡ trees_of self }
    {
        self.trees
    }
}
