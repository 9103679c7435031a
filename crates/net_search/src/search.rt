//! One search: from all that is joined to the nearest target.

use crate::goal::Goal;
use crate::plan::Plan;
use crate::site::Site;
use crate::target::Target;
use crate::view::View;
use crate::wave::Wave;
use grid_base::{NoMemory, Piece};
use grid_graph::Grid;
use std::alloc::Global;
use tree_set::Tree;

/// The tables of searches, made once for a grid.
#[derive(Drop)]
pub struct NetSearch {
    wave: Wave,
    /// The targets of the present search.
    goals: Vec<Goal>,
}

impl NetSearch {
    ghost use Rattle.std.specs.Prelude.{◌≡◌, IfOk, IfSome, map};
    ghost use Rattle.std.specs.List.{Any};
    ghost use Rattle.net_search.specs.Known.{AreFor, KeepsKinds, known_of, laid_all};
    ghost use Rattle.net_search.specs.Sites.{IsStepBack};

    /// The tables for searches on this grid.
    pub fn new(alloc: Global, grid: &Grid) -> Result<NetSearch, NoMemory>
        ensures { IfOk result (λ search. AreFor grid.now search.wave.labels) }
    {
        Ok(NetSearch {
            wave: Wave::new(alloc, grid)?,
            goals: Vec::new(alloc),
        })
    }

    /// Says of the edges of a set that they are those which the net of the next searches has got, or that they are no longer.
    /// Loads are weighed as if its own set were taken away.
    pub fn lay_own(&mut self, own: &Tree, is_own: bool)
        ensures kinds { KeepsKinds self.old.wave.labels self.new.wave.labels }
        ensures laid { self.new.wave.labels.labels.items ≡ laid_all self.old.wave.labels.labels.items own.now is_own }
    {
        for piece in own.pieces() {
            if let Piece::Edge(edge) = *piece {
                self.wave.labels.lay(edge, is_own);
            }
        }
    }

    /// The site of a target that is reached at least cost from the sources, or nearly: the queue tells great costs apart only
    /// coarsely. Where nothing is found the margin doubles, up to the whole grid. `None` is a grid in which no way leads to a
    /// target.
    pub fn nearest(
        &mut self,
        plan: &Plan<'_>,
        targets: &[Target],
        sources: &[Site],
    ) -> Result<Option<Site>, NoMemory>
        ensures { IfOk result (λ found. IfSome found (λ site. Any (λ target. target.site.vertex ≡ site.vertex) targets.now)) }
    {
        self.aim(plan, targets)?;
        let mut margin = plan.margin;
        for _ in 0..u32::BITS {
            let view = View::of(plan, targets, self.goals.as_slice(), margin);
            if let Some(site) = self.wave.nearest_in(&view, sources)? {
                return Ok(Some(site));
            }
            if margin >= plan.size.cols() && margin >= plan.size.rows() {
                return Ok(None);
            }
            margin = margin.saturating_mul(2).saturating_add(1);
        }
        Ok(None)
    }

    /// Makes the targets those of the present search.
    fn aim(&mut self, plan: &Plan<'_>, targets: &[Target]) -> Result<(), NoMemory>
        ensures { IfOk result (λ _. map (λ goal. goal.site) self.new.goals.items ≡ map (λ target. target.site) targets.now) }
    {
        self.goals.clear();
        for target in targets {
            self.goals
                .push(Goal::of(plan, &self.wave.labels, target.site))?;
        }
        Ok(())
    }

    /// The piece by which the last search reached a site, and where from.
    pub fn step_back(&self, plan: &Plan<'_>, site: Site) -> (Piece, Site)
        ensures { IsStepBack plan.now.size site (known_of self.now.wave.labels site.vertex).back result.0 result.1 }
    {
        let side = self.wave.labels.at(site.vertex).back;
        (site.piece(plan.size, side), site.beside(plan.size, side))
    }
}
