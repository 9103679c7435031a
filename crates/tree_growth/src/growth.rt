//! The growth of a set for one net.

ghost use Rattle.std.specs.Prelude.{◌≡◌, IfOk, IfSome, IfNone, length};
ghost use Rattle.std.specs.List.{Contains};

use crate::growing::Growing;
use crate::grown::Grown;
use grid_base::{NoMemory, Vertex};
use grid_graph::{Grid, Ground, NetSpec};
use net_search::{Field, LayerTables, Plan};
use std::alloc::Global;
use tree_set::Tree;

/// The tables of one worker, made once for a grid.
#[derive(Drop)]
pub struct Growth {
    growing: Growing,
    grown: Grown,
    tables: LayerTables,
}

impl Growth {
    ghost use Rattle.grid_base.specs.Walks.{JoinsList};
    ghost use Rattle.grid_graph.specs.Grids.{size_of, edge_numbers};
    ghost use Rattle.grid_graph.specs.Nets.{IsNet};
    ghost use Rattle.tree_set.specs.Routings.{KeepsTo};

    /// The tables for searches on this grid.
    pub fn new(alloc: Global, grid: &Grid) -> Result<Growth, NoMemory>
        ensures size { IfOk result (λ growth. growth.grown.size ≡ size_of grid.now) }
    {
        Ok(Growth {
            growing: Growing::new(alloc, grid)?,
            grown: Grown::new(alloc, grid.size())?,
            tables: LayerTables::of(alloc, grid)?,
        })
    }

    /// A set that joins the net's terminals in its ground, cheap at the weights of the field where the net's own set is
    /// taken away. `None` is a net for which no such set was found. The search begins at the terminal whose turn it is,
    /// and looks no further than the margin beyond the net's box, unless nothing is found there. Tables that were made for
    /// another size are made anew.
    pub fn tree(
        &mut self,
        grid: &Grid,
        field: Field<'_>,
        net: &NetSpec,
        over: Ground,
        own: &Tree,
        turn: usize,
        margin: u32,
    ) -> Result<Option<Tree>, NoMemory>
        requires rooms { length field.rooms.now ≡ edge_numbers grid.now }
        requires prices { length field.prices.now ≡ edge_numbers grid.now }
        requires net { IsNet grid.now net.now }
        ensures keeps { IfOk result (λ found. IfSome found (λ tree. KeepsTo grid.now over tree)) }
        ensures joins { IfOk result (λ found. IfSome found (λ tree. JoinsList (size_of grid.now) tree net.now.terminals)) }
    {
        self.fit(grid)?;
        let terminals = net.terminals.list();
        let root = match root_of(terminals, turn) {
            Some(root) => root,
            None => return Ok(Some(Tree::empty(self.grown.allocator()))),
        };
        self.grown.begin(root);
        let plan = Plan::of(grid, &self.tables, field, over, net, margin);
        self.growing.search.lay_own(own, true);
        let is_done = self
            .growing
            .grow(grid, over, &plan, &mut self.grown, root, terminals);
        self.growing.search.lay_own(own, false);
        if !is_done? {
            return Ok(None);
        }
        self.grown.tree(terminals)
    }

    /// Makes the tables anew where they were made for another size.
    fn fit(&mut self, grid: &Grid) -> Result<(), NoMemory>
        ensures { IfOk result (λ _. self.new.grown.size ≡ size_of grid.now) }
    {
        if self.grown.size() != grid.size() {
            *self = Growth::new(self.grown.allocator(), grid)?;
        }
        self.grown.fit(grid.size())
    }
}

/// The terminal whose turn it is to be the root.
fn root_of(terminals: &[Vertex], turn: usize) -> Option<Vertex>
    ensures root { IfSome result (λ root. Contains terminals.now root) }
    ensures none { IfNone result (length terminals.now ≡ 0) }
{
    if terminals.is_empty() {
        return None;
    }
    Some(terminals[turn % terminals.len()])
}
