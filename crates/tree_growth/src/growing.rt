//! How a set grows from terminal to terminal.

ghost use Rattle.std.specs.Prelude.{◌≡◌, [], IfOk, All};
ghost use Rattle.grid_base.specs.Numbers.{IsVertex};
ghost use Rattle.grid_graph.specs.Grids.{size_of};
ghost use Rattle.net_search.specs.Plans.{size_of_plan};
ghost use Rattle.tree_growth.specs.Growns.{IsGrown};

use crate::grown::Grown;
use crate::targets::{bring_nearest, draw_nearer};
use grid_base::{NoMemory, Piece, Vertex};
use grid_graph::{Grid, Ground};
use net_search::{NetSearch, Plan, Site, Target};
use std::alloc::Global;

/// How many terminals a search looks for at once, the nearest ones.
const TARGETS: usize = 3;

/// The tables of a growth.
#[derive(Drop)]
pub(crate) struct Growing {
    pub(crate) search: NetSearch,
    /// All that is joined.
    joined: Vec<Site>,
    /// The terminals that are left.
    left: Vec<Target>,
    /// The pieces of a way, from its end.
    way: Vec<Piece>,
}

impl Growing {
    /// The tables for growths on this grid.
    pub(crate) fn new(alloc: Global, grid: &Grid) -> Result<Growing, NoMemory>
        ensures joined { IfOk result (λ growing. growing.joined.items ≡ []) }
        ensures left { IfOk result (λ growing. growing.left.items ≡ []) }
    {
        Ok(Growing {
            search: NetSearch::new(alloc, grid)?,
            joined: Vec::new(alloc),
            left: Vec::new(alloc),
            way: Vec::new(alloc),
        })
    }

    /// Grows a set from the root to all terminals. Answers whether none is left.
    pub(crate) fn grow(
        &mut self,
        grid: &Grid,
        over: Ground,
        plan: &Plan<'_>,
        grown: &mut Grown,
        root: Vertex,
        terminals: &[Vertex],
    ) -> Result<bool, NoMemory>
        requires size { grown.old.size ≡ size_of grid.now }
        requires root { IsVertex (size_of_plan plan.now) root.0 }
        requires terminals { All (λ t. IsVertex (size_of_plan plan.now) t.0) terminals.now }
        ensures size { grown.new.size ≡ grown.old.size }
        ensures grown { IfOk result (λ _. IsGrown grid.now over grown.old → IsGrown grid.now over grown.new) }
    {
        self.begin(plan, root, terminals)?;
        self.join_all(grid, over, plan, grown)
    }

    /// Begins a growth: the root is joined, and all other terminals are left.
    fn begin(&mut self, plan: &Plan<'_>, root: Vertex, terminals: &[Vertex]) -> Result<(), NoMemory>
        requires root { IsVertex (size_of_plan plan.now) root.0 }
        requires terminals { All (λ t. IsVertex (size_of_plan plan.now) t.0) terminals.now }
    {
        let root = Site::of(plan.size(), root);
        self.joined.clear();
        self.joined.push(root)?;
        self.left.clear();
        for terminal in terminals {
            let site = Site::of(plan.size(), *terminal);
            if site.vertex() != root.vertex() {
                self.left.push(Target::of(site, root))?;
            }
        }
        Ok(())
    }

    /// Joins one terminal after another. Answers whether none is left.
    fn join_all(
        &mut self,
        grid: &Grid,
        over: Ground,
        plan: &Plan<'_>,
        grown: &mut Grown,
    ) -> Result<bool, NoMemory>
        requires size { grown.old.size ≡ size_of grid.now }
        ensures size { grown.new.size ≡ grown.old.size }
        ensures grown { IfOk result (λ _. IsGrown grid.now over grown.old → IsGrown grid.now over grown.new) }
    {
        for _ in 0..self.left.len() {
            if !self.left.is_empty() && !self.join_next(grid, over, plan, grown)? {
                return Ok(false);
            }
        }
        Ok(true)
    }

    /// Joins one of the nearest terminals that are left. Answers whether a way was found.
    fn join_next(
        &mut self,
        grid: &Grid,
        over: Ground,
        plan: &Plan<'_>,
        grown: &mut Grown,
    ) -> Result<bool, NoMemory>
        requires size { grown.old.size ≡ size_of grid.now }
        ensures size { grown.new.size ≡ grown.old.size }
        ensures grown { IfOk result (λ _. IsGrown grid.now over grown.old → IsGrown grid.now over grown.new) }
    {
        bring_nearest(self.left.as_mut_slice(), TARGETS);
        let targets = &self.left[..self.left.len().min(TARGETS)];
        let Some(site) = self.search.nearest(plan, targets, &self.joined)? else {
            return Ok(false);
        };
        let before = self.joined.len();
        self.walk_back(plan, grown, site)?;
        if !self.take_way(grid, over, grown)? {
            return Ok(false);
        }
        self.left
            .retain(|target| !grown.has(target.site().vertex()));
        if before <= self.joined.len() {
            draw_nearer(self.left.as_mut_slice(), &self.joined[before..]);
        }
        Ok(true)
    }

    /// Lists the pieces from a target back to what is joined.
    fn walk_back(&mut self, plan: &Plan<'_>, grown: &Grown, from: Site) -> Result<(), NoMemory> {
        self.way.clear();
        let mut here = from;
        for _ in 0..plan.size().vertices() {
            if grown.has(here.vertex()) {
                return Ok(());
            }
            let (piece, next) = self.search.step_back(plan, here);
            self.way.push(piece)?;
            self.joined.push(here)?;
            here = next;
        }
        Ok(())
    }

    /// Takes the pieces of the way into the set, from what is joined on. Answers whether each could be.
    fn take_way(&mut self, grid: &Grid, over: Ground, grown: &mut Grown) -> Result<bool, NoMemory>
        requires size { grown.old.size ≡ size_of grid.now }
        ensures size { grown.new.size ≡ grown.old.size }
        ensures grown { IfOk result (λ _. IsGrown grid.now over grown.old → IsGrown grid.now over grown.new) }
    {
        for _ in 0..self.way.len() {
            let Some(piece) = self.way.pop() else {
                return Ok(true);
            };
            if !grown.add(grid, over, piece)? {
                return Ok(false);
            }
        }
        Ok(true)
    }
}
