//! What the searches know of all vertices.

use crate::label::Label;
use crate::road::Road;
use crate::side::Side;
use grid_base::{Axis, Edge, NoMemory, Vertex};
use grid_graph::Grid;
use std::alloc::Global;

/// A label for each vertex. A label counts only under the number of the present search, so that a search clears nothing.
#[derive(Drop)]
pub(crate) struct Labels {
    labels: Vec<Label>,
    search: u32,
}

impl Labels {
    ghost use Rattle.std.specs.Prelude.{◌≡◌, ◌<◌, ◌+◌, ◌-◌, ◌*◌, ◌^◌, ◌↔◌, ℕ, false, map, slice_set, IsTrue, IfOk, IfSome, IfNone};
    ghost use Rattle.grid_base.specs.Numbers.{vertices, edge_start, edge_axis};
    ghost use Rattle.grid_graph.specs.Grids.{size_of, kind};
    ghost use Rattle.net_search.specs.Known.{AreFor, IsLower, known_of, laid, lowered, as_taken, as_forgotten};
    ghost use Rattle.net_search.specs.Roads.{road_for};

    /// No vertex is reached. The roads are those of the grid.
    pub(crate) fn new(alloc: Global, grid: &Grid) -> Result<Labels, NoMemory>
        ensures one_each { IfOk result (λ labels. AreFor grid.now labels) }
        ensures search { IfOk result (λ labels. labels.search ≡ 0) }
    {
        let count = grid.size().vertices() as usize;
        let mut labels = vec![in alloc; Label::BLANK; count]?;
        for v in 0..labels.len() {
            let start = Vertex(v as u32);
            labels[v].east = Road::of(grid.kind(Edge::along(start, Axis::X)));
            labels[v].north = Road::of(grid.kind(Edge::along(start, Axis::Y)));
        }
        Ok(Labels { labels, search: 0 })
    }

    /// Begins a search: no vertex is reached.
    pub(crate) fn begin(&mut self)
        ensures next { self.old.search < 2 ^ 32 - 1 → self.new ≡ record self.old { search = self.old.search + 1 } }
        ensures first { self.old.search ≡ 2 ^ 32 - 1 → self.new.search ≡ 1 }
        ensures forgotten { self.old.search ≡ 2 ^ 32 - 1 → self.new.labels.items ≡ map as_forgotten self.old.labels.items }
    {
        if self.search == u32::MAX {
            for label in self.labels.iter_mut() {
                label.search = 0;
            }
            self.search = 0;
        }
        self.search += 1;
    }

    /// Says whether the net of the searches that follow has got an edge.
    pub(crate) fn lay(&mut self, edge: Edge, is_own: bool)
        ensures labels { self.new.labels.items ≡ slice_set self.old.labels.items (edge_start edge.0) (laid (known_of self.old (edge_start edge.0)) (edge_axis edge.0) is_own) }
        ensures search { self.new.search ≡ self.old.search }
    {
        let at = edge.start().0 as usize;
        if at >= self.labels.len() {
            return;
        }
        match edge.axis() {
            Axis::X => self.labels[at].east = self.labels[at].east.owned(is_own),
            Axis::Y => self.labels[at].north = self.labels[at].north.owned(is_own),
        }
    }

    /// The label of a vertex. One that is outside the grid is blank.
    #[inline(always)]
    pub(crate) fn at(&self, vertex: u32) -> Label
        ensures { result ≡ known_of self.now vertex }
    {
        let at = vertex as usize;
        if at < self.labels.len() {
            self.labels[at]
        } else {
            Label::BLANK
        }
    }

    /// Whether a way at this cost would lower the cost of a label.
    #[inline(always)]
    pub(crate) fn may_lower(&self, vertex: u32, cost: u32) -> bool
        ensures { IsTrue result ↔ IsLower self.now vertex cost }
    {
        let at = vertex as usize;
        at < self.labels.len()
            && {
                let label = self.labels[at];
                label.search != self.search || (!label.is_taken && cost < label.cost)
            }
    }

    /// Gives a label this cost and this way back.
    #[inline(always)]
    pub(crate) fn lower(&mut self, vertex: u32, cost: u32, back: Side)
        ensures labels { self.new.labels.items ≡ slice_set self.old.labels.items vertex (lowered (known_of self.old vertex) cost self.old.search back) }
        ensures search { self.new.search ≡ self.old.search }
    {
        let at = vertex as usize;
        if at < self.labels.len() {
            let label = self.labels[at];
            self.labels[at] = Label {
                cost,
                search: self.search,
                back,
                is_taken: false,
                ..label
            };
        }
    }

    /// Takes a label, and answers its cost. `None` where it was taken before.
    #[inline(always)]
    pub(crate) fn take(&mut self, vertex: u32) -> Option<u32>
        ensures cost { IfSome result (λ cost. (cost ≡ (known_of self.old vertex).cost) × ((known_of self.old vertex).is_taken ≡ false)) }
        ensures taken { IfSome result (λ _. self.new.labels.items ≡ slice_set self.old.labels.items vertex (as_taken (known_of self.old vertex))) }
        ensures none { IfNone result (self.new ≡ self.old) }
        ensures search { self.new.search ≡ self.old.search }
    {
        let at = vertex as usize;
        if at >= self.labels.len() || self.labels[at].is_taken {
            return None;
        }
        self.labels[at].is_taken = true;
        Some(self.labels[at].cost)
    }
}
