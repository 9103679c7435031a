//! A row of numbers.

ghost use Rattle.std.specs.Prelude.{◌≡◌, ◌<◌, ◌≤◌, [], All, IfOk, length};
ghost use Rattle.overflow_bounds.specs.Links.{IsInside};
ghost use Rattle.overflow_bounds.specs.NodeTables.{max_ends};
ghost use Rattle.overflow_bounds.specs.NodeRows.{AreBefore, IsNodeRow};

use crate::link::Link;
use crate::settling::settle;
use crate::starting::start;
use grid_base::NoMemory;
use std::alloc::Global;
use std::marker::Model;

/// A number for each node of a graph.
#[derive(Drop)]
pub(crate) struct NodeRow {
    numbers: Vec<u64>,
}

impl Model for NodeRow {
    ghost use Rattle.std.specs.Prelude.{ℕ, List};

    ghost Value = { List ℕ };

    ghost view = { λ s. s.numbers.items };
}

impl NodeRow {
    /// A row for a graph without nodes.
    pub(crate) fn new(alloc: Global) -> NodeRow
        ensures { result ≡ [] }
    {
        NodeRow {
            numbers: Vec::new(alloc),
        }
    }

    /// The numbers.
    pub(crate) fn list(&self) -> &[u64]
        ensures { result.now ≡ self.now }
    {
        self.numbers.as_slice()
    }

    /// Makes it the row of a mask, in the place of what it was. Nothing is allocated if it ever had as many numbers.
    pub(crate) fn make(
        &mut self,
        nodes: u32,
        links: &[Link],
        ends: &[u32],
        rows: &[NodeRow],
        mask: usize,
    ) -> Result<(), NoMemory>
        requires few { length ends.now ≤ max_ends }
        requires ends { All (λ n. n < nodes) ends.now }
        requires links { All (IsInside nodes) links.now }
        requires some { 0 < mask }
        requires rows { mask ≤ length rows.now }
        requires before { AreBefore nodes mask rows.now }
        ensures { IfOk result (λ _. IsNodeRow nodes links.now ends.now rows.now mask self.new) }
    {
        self.numbers.clear();
        self.numbers.resize(nodes as usize, u64::MAX)?;
        start(self.numbers.as_mut_slice(), ends, rows, mask);
        settle(self.numbers.as_mut_slice(), links);
        Ok(())
    }
}
