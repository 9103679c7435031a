//! Least trees on the graph of regions.

ghost use Rattle.std.specs.Prelude.{◌≡◌, ◌-◌, All, IfOk, length, slice_index};
ghost use Rattle.hot_cuts.specs.Labels.{label_at};
ghost use Rattle.tile_graphs.specs.Bundles.{sets_of_ends};

use grid_base::NoMemory;
use std::alloc::Global;
use std::mem::swap;
use tile_graphs::{Ends, Link};

/// So often all links are looked at until the cheapest ways are known. Five times or so are enough on most graphs.
const MOST_TURNS: u32 = 100;

/// What a least tree consists of at a node.
#[derive(Debug, Drop, Clone, Copy, PartialEq, Eq)]
enum Step {
    /// Nothing: the node is an end, or not reached.
    None,
    /// A link, and a tree at its other node.
    Along(u32),
    /// Two trees: one for this set of ends, and one for the others.
    Apart(u32),
}

/// What a least tree costs that joins some ends and a node.
#[derive(Debug, Drop, Clone, Copy, PartialEq, Eq)]
struct Label {
    cost: u64,
    step: Step,
}

impl Label {
    /// The node is not reached.
    const FAR: Label = Label {
        cost: u64::MAX,
        step: Step::None,
    };

    /// The node is the end.
    const HERE: Label = Label {
        cost: 0,
        step: Step::None,
    };
}

/// A tree for a set of ends at a node, of which the links are still to be told.
#[derive(Debug, Drop, Clone, Copy, PartialEq, Eq)]
struct Branch {
    set: u32,
    node: u32,
}

/// Trees that join ends at the least cost, by the method of Dreyfus and Wagner ("The Steiner problem in graphs", 1971): for
/// each set of ends but the first one, and each node, the least cost of joining them.
#[derive(Drop)]
pub(crate) struct LeastTrees {
    /// By sets of ends: the end 1 counts 1, the end 2 counts 2, the end 3 counts 4, and so on.
    rows: Vec<Vec<Label>>,
    row: Vec<Label>,
    branches: Vec<Branch>,
    tree: Vec<u32>,
}

impl LeastTrees {
    /// Room for trees on so many nodes, for so many sets of ends.
    pub fn new(alloc: Global, nodes: u32, sets: u32) -> Result<LeastTrees, NoMemory>
        ensures { IfOk result (λ trees. All (λ row. length row.items ≡ nodes) trees.rows.items) }
    {
        let mut rows = Vec::new(alloc);
        for _ in 0..sets {
            rows.push(vec![in alloc; Label::FAR; nodes as usize]?)?;
        }
        Ok(LeastTrees {
            rows,
            row: vec![in alloc; Label::FAR; nodes as usize]?,
            branches: Vec::new(alloc),
            tree: Vec::new(alloc),
        })
    }

    /// What joining the ends costs at least at these prices of the links.
    pub fn cost(&mut self, links: &[Link], prices: &[u64], ends: Ends) -> u64
        ensures { result ≡ (label_at self.new.rows.items (sets_of_ends ends.nodes - 1) (slice_index ends.nodes 0)).cost }
    {
        self.fill_rows(links, prices, ends);
        self.label(ends.sets().saturating_sub(1), ends.nodes[0])
            .cost
    }

    /// The links of a tree that joins the ends at the least cost.
    pub fn tree(&mut self, links: &[Link], prices: &[u64], ends: Ends) -> Result<&[u32], NoMemory> {
        self.fill_rows(links, prices, ends);
        self.tree.clear();
        self.branches.clear();
        self.branches.push(Branch {
            set: ends.sets().saturating_sub(1),
            node: ends.nodes[0],
        })?;
        for _ in 0..u64::MAX {
            let Some(branch) = self.branches.pop() else {
                break;
            };
            self.follow(links, branch)?;
        }
        Ok(self.tree.as_slice())
    }

    /// Takes the link of a branch into the tree, and what is behind it to the branches.
    fn follow(&mut self, links: &[Link], branch: Branch) -> Result<(), NoMemory> {
        match self.label(branch.set, branch.node).step {
            Step::None => {}
            Step::Along(number) => {
                self.tree.push(number)?;
                if let Some(link) = links.get(number as usize) {
                    self.branches.push(Branch {
                        set: branch.set,
                        node: if link.one == branch.node {
                            link.other
                        } else {
                            link.one
                        },
                    })?;
                }
            }
            Step::Apart(part) => {
                let node = branch.node;
                let rest = branch.set ^ part;
                self.branches.push(Branch { set: part, node })?;
                self.branches.push(Branch { set: rest, node })?;
            }
        }
        Ok(())
    }

    /// The label of a node for a set of ends.
    fn label(&self, set: u32, node: u32) -> Label
        ensures { result ≡ label_at self.now.rows.items set node }
    {
        match self.rows.get(set as usize) {
            Some(row) => row.get(node as usize).copied().unwrap_or(Label::FAR),
            None => Label::FAR,
        }
    }

    /// Makes the labels of all sets of ends.
    fn fill_rows(&mut self, links: &[Link], prices: &[u64], ends: Ends) {
        for set in 1..ends.sets() {
            self.row.fill(Label::FAR);
            if set.is_power_of_two() {
                self.begin(ends, set);
            } else {
                self.join_parts(set);
            }
            self.reach(links, prices);
            if let Some(row) = self.rows.get_mut(set as usize) {
                swap(row, &mut self.row);
            }
        }
    }

    /// Begins at the one end of a set.
    fn begin(&mut self, ends: Ends, set: u32) {
        let end = set.trailing_zeros() as usize + 1;
        let node = ends.nodes.get(end).copied().unwrap_or(0);
        if let Some(label) = self.row.get_mut(node as usize) {
            *label = Label::HERE;
        }
    }

    /// Joins the trees for each two parts of a set.
    fn join_parts(&mut self, set: u32) {
        for part in 1..set {
            let rest = set ^ part;
            if part & set == part && part > rest {
                self.join_rows(part, rest);
            }
        }
    }

    /// Joins the trees for two sets at each node, where that is cheaper.
    fn join_rows(&mut self, part: u32, rest: u32) {
        if let (Some(one), Some(other)) = (
            self.rows.get(part as usize),
            self.rows.get(rest as usize),
        ) {
            join_labels(
                self.row.as_mut_slice(),
                one.as_slice(),
                other.as_slice(),
                part,
            );
        }
    }

    /// Reaches all nodes by cheapest ways, or by cheap ones where these are very winding.
    fn reach(&mut self, links: &[Link], prices: &[u64]) {
        for _ in 0..MOST_TURNS {
            if !self.reach_further(links, prices) {
                return;
            }
        }
    }

    /// Goes once along each link, and tells whether a node was cheaper by one of them.
    fn reach_further(&mut self, links: &[Link], prices: &[u64]) -> bool {
        let mut cheaper = false;
        for (number, (link, price)) in (0..u32::MAX).zip(links.iter().zip(prices)) {
            cheaper |= self.go_along(link.one, link.other, *price, number);
            cheaper |= self.go_along(link.other, link.one, *price, number);
        }
        cheaper
    }

    /// Goes from a node to another one along a link, and tells whether that is cheaper.
    fn go_along(&mut self, from: u32, to: u32, price: u64, link: u32) -> bool {
        let here = self.row.get(from as usize).copied().unwrap_or(Label::FAR);
        let cost = here.cost.saturating_add(price);
        if let Some(label) = self.row.get_mut(to as usize)
            && cost < label.cost
        {
            *label = Label {
                cost,
                step: Step::Along(link),
            };
            return true;
        }
        false
    }
}

/// Joins the trees of two rows of labels, of which one is for this part of a set, at each node where that is cheaper.
fn join_labels(row: &mut [Label], one: &[Label], other: &[Label], part: u32) {
    for ((label, one), other) in row.iter_mut().zip(one).zip(other) {
        let cost = one.cost.saturating_add(other.cost);
        if cost < label.cost {
            *label = Label {
                cost,
                step: Step::Apart(part),
            };
        }
    }
}
