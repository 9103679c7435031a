//! Tables over sets of nodes.

ghost use Rattle.std.specs.Prelude.{◌≡◌, ◌<◌, ◌≤◌, ◌+◌, All, IfOk, length};
ghost use Rattle.overflow_bounds.specs.Links.{IsInside};
ghost use Rattle.overflow_bounds.specs.NodeTables.{all_but_last as last_mask, max_ends, IsNodeTable, IsOfTable};
ghost use Rattle.overflow_bounds.specs.NodeRows.{AreBefore, number_of_mask};

use crate::link::Link;
use crate::node_row::NodeRow;
use grid_base::NoMemory;
use std::alloc::Global;
use std::mem::swap;

/// Tables are made for so many ends at most.
pub(crate) const MOST_ENDS: usize = 8;

/// Rows of numbers, one for each set of ends without the last one and each with a number for every node. A table is made in the
/// rows of the one before.
#[derive(Drop)]
pub(crate) struct NodeTables {
    rows: Vec<NodeRow>,
    next: NodeRow,
}

impl NodeTables {
    /// No rows yet.
    pub fn new(alloc: Global) -> NodeTables {
        NodeTables {
            rows: Vec::new(alloc),
            next: NodeRow::new(alloc),
        }
    }

    /// A lower bound of what links cost that join these ends, on a graph of so many nodes. It is the least cost, since a row
    /// comes to rest in as many turns as there are nodes; of that no clause speaks. Where no links join the ends it is the
    /// greatest number.
    pub fn least_joining(
        &mut self,
        alloc: Global,
        nodes: u32,
        links: &[Link],
        ends: &[u32],
    ) -> Result<u64, NoMemory>
        requires some { 1 ≤ length ends.now }
        requires few { length ends.now ≤ max_ends }
        requires ends { All (λ n. n < nodes) ends.now }
        requires links { All (IsInside nodes) links.now }
        ensures { IfOk result (IsOfTable nodes links.now ends.now) }
    {
        let last = all_but_last(ends);
        if last == 0 {
            return Ok(0);
        }
        self.reserve(alloc, last)?;
        self.make_rows(nodes, links, ends, last)?;
        let root = ends[ends.len() - 1] as usize;
        Ok(self.rows[last - 1].list()[root])
    }

    /// Sees to it that there are so many rows at least, whatever is in them.
    fn reserve(&mut self, alloc: Global, last: usize) -> Result<(), NoMemory>
        ensures { IfOk result (λ _. last ≤ length self.new.rows.items) }
    {
        for _ in self.rows.len()..last {
            self.rows.push(NodeRow::new(alloc))?;
        }
        Ok(())
    }

    /// Makes the rows of the masks up to the last one. Each is made outside of the others, and takes the place of an old one.
    fn make_rows(
        &mut self,
        nodes: u32,
        links: &[Link],
        ends: &[u32],
        last: usize,
    ) -> Result<(), NoMemory>
        requires few { length ends.now ≤ max_ends }
        requires ends { All (λ n. n < nodes) ends.now }
        requires links { All (IsInside nodes) links.now }
        requires rows { last ≤ length self.old.rows.items }
        ensures rows { last ≤ length self.new.rows.items }
        ensures long { IfOk result (λ _. AreBefore nodes (last + 1) self.new.rows.items) }
        ensures holds { IfOk result (λ _. IsNodeTable nodes links.now ends.now last (number_of_mask self.new.rows.items)) }
    {
        for made in 0..last {
            self.next
                .make(nodes, links, ends, self.rows.as_slice(), made + 1)?;
            swap(&mut self.rows[made], &mut self.next);
        }
        Ok(())
    }
}

/// The mask of all ends but the last one.
fn all_but_last(ends: &[u32]) -> usize
    requires some { 1 ≤ length ends.now }
    requires few { length ends.now ≤ max_ends }
    ensures { result ≡ last_mask ends.now }
{
    (1 << (ends.len() - 1)) - 1
}
