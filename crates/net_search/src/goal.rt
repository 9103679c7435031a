//! A target of one search.

use crate::entry::entry_on_layer;
use crate::labels::Labels;
use crate::layers::LAYERS;
use crate::plan::Plan;
use crate::side::Side;
use crate::site::Site;
use layer_ways::{Rests, UNIT};

/// A target of one search, with what is still to go to it from each layer.
#[derive(Clone, Copy)]
pub(crate) struct Goal {
    pub(crate) site: Site,
    /// The distance of its tile from the landmark.
    pub(crate) from_landmark: u32,
    /// What the vias of a way weigh at least, by the layer that it begins on.
    pub(crate) vias: [Rests; LAYERS],
    /// What vias and the edge into the target's tile weigh at least beyond the unit, by the layer that a way begins on.
    pub(crate) with_entry: [Rests; LAYERS],
}

impl Goal {
    ghost use Rattle.std.specs.Prelude.{◌≡◌, slice_index};
    ghost use Rattle.net_search.specs.Going.{IsSameGoal, rest_to, rest_at_prices};
    ghost use Rattle.net_search.specs.Tiles.{tile_of};

    /// What a way from here costs at least.
    #[inline(always)]
    pub(crate) fn rest(&self, site: &Site) -> u64
        ensures { result ≡ rest_to self.now site.now }
    {
        let cols = site.col.abs_diff(self.site.col);
        let rows = site.row.abs_diff(self.site.row);
        let layer = site.layer as usize;
        if layer >= LAYERS {
            return 0;
        }
        let beside = self.with_entry[layer].at(cols > 0, rows > 0);
        u64::from(UNIT) * (u64::from(cols) + u64::from(rows)) + u64::from(beside)
    }

    /// The same where edges have prices: for each unit of demand these add at least what the distances from the landmark differ by.
    #[inline(always)]
    pub(crate) fn rest_at_prices(&self, site: &Site, from_landmark: u32, demand: u32) -> u64
        ensures { result ≡ rest_at_prices self.now site.now from_landmark demand }
    {
        let cols = site.col.abs_diff(self.site.col);
        let rows = site.row.abs_diff(self.site.row);
        let layer = site.layer as usize;
        if layer >= LAYERS {
            return 0;
        }
        let entry = u64::from(self.with_entry[layer].at(cols > 0, rows > 0));
        let vias = u64::from(self.vias[layer].at(cols > 0, rows > 0));
        let climb = u64::from(from_landmark.abs_diff(self.from_landmark)) * u64::from(demand);
        let beside = entry.max(vias.wrapping_add(climb));
        (u64::from(UNIT) * (u64::from(cols) + u64::from(rows))).wrapping_add(beside)
    }

    /// A terminal as a target.
    pub(crate) fn of(plan: &Plan<'_>, labels: &Labels, site: Site) -> Goal
        ensures site { result.site ≡ site }
        ensures landmark { result.from_landmark ≡ slice_index plan.now.bound.landmark.now (tile_of plan.now.bound site) }
    {
        let mut goal = Goal {
            site,
            from_landmark: plan.bound.from_landmark(&site),
            vias: [Rests::FAR; LAYERS],
            with_entry: [Rests::FAR; LAYERS],
        };
        let least = goal.enter_from_above(plan, labels);
        goal.enter_from_below(plan, labels, least);
        goal.stay_within();
        goal
    }

    /// Takes in the target's layer, and each layer above it whose edges into the tile are cheaper than those of all layers between.
    /// Answers what the cheapest one on the target's layer adds.
    fn enter_from_above(&mut self, plan: &Plan<'_>, labels: &Labels) -> u32
        ensures { IsSameGoal self.old self.new }
    {
        let mut at = self.site;
        let first = entry_on_layer(plan.size, labels, &plan.weights, at);
        self.enter(plan, at.layer, first, u32::MAX);
        let mut least = first;
        for _ in at.layer.saturating_add(1)..plan.size.layers() {
            if least == 0 {
                return first;
            }
            at = at.beside(plan.size, Side::Up);
            let weight = entry_on_layer(plan.size, labels, &plan.weights, at);
            self.enter(plan, at.layer, weight, least);
            least = least.min(weight);
        }
        first
    }

    /// The same on each layer below it.
    fn enter_from_below(&mut self, plan: &Plan<'_>, labels: &Labels, first: u32)
        ensures { IsSameGoal self.old self.new }
    {
        let mut at = self.site;
        let mut least = first;
        for _ in 0..at.layer {
            if least == 0 {
                return;
            }
            at = at.beside(plan.size, Side::Down);
            let weight = entry_on_layer(plan.size, labels, &plan.weights, at);
            self.enter(plan, at.layer, weight, least);
            least = least.min(weight);
        }
    }

    /// Ways may enter the tile on this layer, where the cheapest edge adds this weight. It is left out where a layer between is no
    /// dearer, since a way there has no more vias.
    fn enter(&mut self, plan: &Plan<'_>, layer: u32, weight: u32, between: u32)
        ensures { IsSameGoal self.old self.new }
    {
        if weight >= between {
            return;
        }
        let upright = UNIT.saturating_mul(layer.abs_diff(self.site.layer));
        for from in 0..LAYERS.min(plan.size.layers() as usize) {
            let vias = plan.bound.vias.rests(from, layer as usize).with(upright);
            self.with_entry[from] = self.with_entry[from].or(vias.with(weight));
            if between == u32::MAX {
                self.vias[from] = self.vias[from].or(vias);
            }
        }
    }

    /// Within the target's tile only vias are still to go.
    fn stay_within(&mut self)
        ensures { IsSameGoal self.old self.new }
    {
        for from in 0..LAYERS {
            let upright = UNIT.saturating_mul(self.site.layer.abs_diff(from as u32));
            self.with_entry[from].upright = upright;
            self.vias[from].upright = upright;
        }
    }
}
