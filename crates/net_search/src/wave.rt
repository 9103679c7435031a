//! What goes out from all that is joined, until it meets a target.

use crate::labels::Labels;
use crate::road::Road;
use crate::side::Side;
use crate::site::Site;
use crate::view::View;
use bucket_queue::BucketQueue;
use grid_base::{Edge, NoMemory};
use grid_graph::Grid;
use layer_ways::UNIT;
use std::alloc::Global;

/// What is known of each vertex, and what waits.
#[derive(Drop)]
pub(crate) struct Wave {
    pub(crate) labels: Labels,
    queue: BucketQueue<Site>,
}

impl Wave {
    ghost use Rattle.std.specs.Prelude.{◌≡◌, IfOk, IfSome};
    ghost use Rattle.std.specs.List.{Any};
    ghost use Rattle.net_search.specs.Known.{AreFor};

    /// The tables for this grid.
    pub(crate) fn new(alloc: Global, grid: &Grid) -> Result<Wave, NoMemory>
        ensures { IfOk result (λ wave. AreFor grid.now wave.labels) }
    {
        Ok(Wave {
            labels: Labels::new(alloc, grid)?,
            queue: BucketQueue::new(alloc)?,
        })
    }

    /// The site of a target that is reached at least cost in a view.
    pub(crate) fn nearest_in(
        &mut self,
        view: &View<'_, '_, '_>,
        sources: &[Site],
    ) -> Result<Option<Site>, NoMemory>
        ensures { IfOk result (λ found. IfSome found (λ site. Any (λ goal. goal.site.vertex ≡ site.vertex) view.now.goals.now)) }
    {
        self.labels.begin();
        self.queue.clear();
        for source in sources {
            if view.frame.has(*source) {
                self.lower(view, source, 0, Side::Up)?;
            }
        }
        for _ in 0..u64::MAX {
            let Some(site) = self.queue.pop() else {
                return Ok(None);
            };
            if let Some(cost) = self.labels.take(site.vertex) {
                if view.is_target(&site) {
                    return Ok(Some(site));
                }
                self.spread(view, &site, cost)?;
            }
        }
        Ok(None)
    }

    /// Offers each neighbour of a site the way that leads over the site.
    #[inline(always)]
    fn spread(&mut self, view: &View<'_, '_, '_>, from: &Site, cost: u32) -> Result<(), NoMemory> {
        if from.layer > 0 {
            self.offer_via(view, from, Side::Down, Side::Up, cost)?;
        }
        if from.layer.saturating_add(1) < view.plan.size.layers() {
            self.offer_via(view, from, Side::Up, Side::Down, cost)?;
        }
        let Some(layer) = view.plan.weights.layers.get(from.layer as usize) else {
            return Ok(());
        };
        if layer.along_x {
            self.spread_along_x(view, from, cost, layer.demand)?;
        }
        if layer.along_y {
            self.spread_along_y(view, from, cost, layer.demand)?;
        }
        Ok(())
    }

    /// The same to the columns beside.
    #[inline(always)]
    fn spread_along_x(
        &mut self,
        view: &View<'_, '_, '_>,
        from: &Site,
        cost: u32,
        demand: u32,
    ) -> Result<(), NoMemory> {
        if from.col > view.frame.west {
            let to = from.beside(view.plan.size, Side::West);
            let road = self.labels.at(to.vertex).east;
            self.offer(view, &to, Side::East, cost, to.east(), road, demand)?;
        }
        if from.col < view.frame.east {
            let to = from.beside(view.plan.size, Side::East);
            let road = self.labels.at(from.vertex).east;
            self.offer(view, &to, Side::West, cost, from.east(), road, demand)?;
        }
        Ok(())
    }

    /// The same to the rows beside.
    #[inline(always)]
    fn spread_along_y(
        &mut self,
        view: &View<'_, '_, '_>,
        from: &Site,
        cost: u32,
        demand: u32,
    ) -> Result<(), NoMemory> {
        if from.row > view.frame.south {
            let to = from.beside(view.plan.size, Side::South);
            let road = self.labels.at(to.vertex).north;
            self.offer(view, &to, Side::North, cost, to.north(), road, demand)?;
        }
        if from.row < view.frame.north {
            let to = from.beside(view.plan.size, Side::North);
            let road = self.labels.at(from.vertex).north;
            self.offer(view, &to, Side::South, cost, from.north(), road, demand)?;
        }
        Ok(())
    }

    /// Offers a site on another layer the way by a via.
    #[inline(always)]
    fn offer_via(
        &mut self,
        view: &View<'_, '_, '_>,
        from: &Site,
        side: Side,
        back: Side,
        cost: u32,
    ) -> Result<(), NoMemory> {
        let to = from.beside(view.plan.size, side);
        let cost = cost.saturating_add(UNIT);
        if self.labels.may_lower(to.vertex, cost) {
            self.lower(view, &to, cost, back)?;
        }
        Ok(())
    }

    /// Offers a site the way by an edge. Nothing is read of the edge where even the least weight would be too much.
    #[inline(always)]
    fn offer(
        &mut self,
        view: &View<'_, '_, '_>,
        to: &Site,
        back: Side,
        cost: u32,
        edge: Edge,
        road: Road,
        demand: u32,
    ) -> Result<(), NoMemory> {
        if !self.labels.may_lower(to.vertex, cost.saturating_add(UNIT)) {
            return Ok(());
        }
        if let Some(weight) = view.plan.weights.weight(edge, road, demand) {
            let cost = cost.saturating_add(weight);
            if weight == UNIT || self.labels.may_lower(to.vertex, cost) {
                self.lower(view, to, cost, back)?;
            }
        }
        Ok(())
    }

    /// Gives a site this cost, with which it waits.
    fn lower(
        &mut self,
        view: &View<'_, '_, '_>,
        to: &Site,
        cost: u32,
        back: Side,
    ) -> Result<(), NoMemory> {
        self.labels.lower(to.vertex, cost, back);
        let key = view.rest(to).saturating_add(u64::from(cost));
        self.queue.push(key, *to)
    }
}
