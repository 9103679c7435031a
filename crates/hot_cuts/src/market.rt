//! Rounds in which nets and prices answer each other.

ghost use Rattle.std.specs.Prelude.{◌≡◌, ◌<◌, ℕ, IfOk, length, replicate, slice_index};
ghost use Rattle.hot_cuts.specs.Estimates.{of_capacities};
ghost use Rattle.hot_cuts.specs.Markets.{given_price, price_if_fuller};

use crate::estimate::Estimate;
use crate::least_trees::LeastTrees;
use crate::rules::{GRAIN, TOP, part_of};
use edge_prices::MAX_PRICE;
use grid_base::NoMemory;
use std::alloc::Global;
use tile_graphs::{Bundle, FULL, Link, most_sets, total_demand};

/// Bundles of nets that take the cheapest way, one after the other, and prices that follow their ways.
///
/// They are to prove that links can't all be less full than at a level: overflow, where the level is just full. Prices rise where
/// links are fuller and fall where they are less full, by steps that become smaller, between 0 and the greatest price. It is a
/// subgradient method, since what the nets cost beyond what the links hold at the level is concave in the prices, and its slope
/// at a link is the load less what the link holds.
#[derive(Drop)]
pub(crate) struct Market<'a> {
    links: &'a [Link],
    bundles: &'a [Bundle],
    trees: LeastTrees,
    prices: Vec<u64>,
    sums: Vec<u64>,
}

impl<'a> Market<'a> {
    /// All prices are 0.
    pub fn new(
        alloc: Global,
        nodes: u32,
        links: &'a [Link],
        bundles: &'a [Bundle],
    ) -> Result<Market<'a>, NoMemory>
        ensures prices { IfOk result (λ market. market.prices.items ≡ replicate (length links.now) 0) }
        ensures sums { IfOk result (λ market. market.sums.items ≡ replicate (length links.now) 0) }
    {
        Ok(Market {
            links,
            bundles,
            trees: LeastTrees::new(alloc, nodes, most_sets(bundles))?,
            prices: vec![in alloc; 0; links.len()]?,
            sums: vec![in alloc; 0; links.len()]?,
        })
    }

    /// Leads so many rounds from the present prices, for a level in parts of `FULL`. Prices rise and fall by the first step in
    /// the first round, half of it in the second, a third of it in the third, and so on. The sums are of those in the later half
    /// of the rounds.
    pub fn run(&mut self, level: u64, rounds: u32, first_step: u64) -> Result<(), NoMemory> {
        for round in 0..rounds {
            if round <= rounds / 2 {
                self.sums.fill(0);
            }
            self.lead_round(level, first_step / (u64::from(round) + 1))?;
        }
        Ok(())
    }

    /// Gives the links that routes fill more than at a level the greatest price, and all others none.
    pub fn price_fuller(&mut self, level: u64)
        ensures long { length self.new.prices.items ≡ length self.old.prices.items }
        ensures prices { (k : ℕ) → k < length self.old.prices.items → k < length self.old.links.now
            → slice_index self.new.prices.items k ≡ price_if_fuller level self.old.links.now k }
    {
        for (place, link) in self.links.iter().enumerate() {
            if let Some(price) = self.prices.get_mut(place) {
                *price = if link.total.is_fuller(level) { TOP } else { 0 };
            }
        }
    }

    /// Gives no link a price.
    pub fn price_nothing(&mut self)
        ensures { self.new.prices.items ≡ replicate (length self.old.prices.items) 0 }
    {
        self.prices.fill(0);
    }

    /// Gives the links these prices.
    pub fn set_prices(&mut self, prices: &[u64])
        ensures long { length self.new.prices.items ≡ length self.old.prices.items }
        ensures prices { (k : ℕ) → k < length self.old.prices.items → k < length prices.now
            → slice_index self.new.prices.items k ≡ given_price (slice_index prices.now k) }
    {
        for (place, new) in prices.iter().enumerate() {
            if let Some(price) = self.prices.get_mut(place) {
                *price = new.saturating_mul(GRAIN).min(TOP);
            }
        }
    }

    /// The mean prices of the later rounds, of which the greatest is `MAX_PRICE` unless all are 0.
    pub fn mean_prices(&self, alloc: Global) -> Result<Vec<u64>, NoMemory>
        ensures { IfOk result (λ prices. length prices.items ≡ length self.now.sums.items) }
    {
        let greatest = self.sums.iter().copied().max().unwrap_or(0);
        let mut prices = Vec::new(alloc);
        for sum in self.sums.iter() {
            prices.push(part_of(u64::from(MAX_PRICE), *sum, greatest))?;
        }
        Ok(prices)
    }

    /// What prices of the links prove.
    pub fn estimate(&mut self, prices: &[u64]) -> Estimate
        ensures { result.capacity_cost ≡ (of_capacities self.old.links.now prices.now).capacity_cost }
    {
        let mut estimate = capacities_at(self.links, prices);
        for bundle in self.bundles {
            let cost = self.trees.cost(self.links, prices, bundle.ends);
            estimate.add_demand(bundle.demand, cost);
        }
        estimate
    }

    /// Gives each bundle a way, along which prices rise by its parts of what the links hold at the level, and all prices fall by
    /// its part of all demands. So a price rises by a step for each time that a link is filled to the level, and falls by one.
    fn lead_round(&mut self, level: u64, step: u64) -> Result<(), NoMemory> {
        let all = total_demand(self.bundles);
        for bundle in self.bundles {
            self.raise_prices(bundle, level, step)?;
            self.lower_prices(part_of(step, bundle.demand, all));
        }
        Ok(())
    }

    /// Raises the prices along a bundle's way.
    fn raise_prices(&mut self, bundle: &Bundle, level: u64, step: u64) -> Result<(), NoMemory> {
        let demand = bundle.demand.saturating_mul(FULL);
        let prices = self.prices.as_slice();
        for number in self.trees.tree(self.links, prices, bundle.ends)? {
            let place = *number as usize;
            if let (Some(price), Some(link)) = (self.prices.get_mut(place), self.links.get(place)) {
                let held = link.total.capacity.saturating_mul(level);
                *price = price.saturating_add(part_of(step, demand, held));
            }
        }
        Ok(())
    }

    /// Lowers all prices by a number, so that none is above the greatest, and adds them to the sums.
    fn lower_prices(&mut self, fall: u64) {
        for (price, sum) in self.prices.iter_mut().zip(self.sums.iter_mut()) {
            *price = price.saturating_sub(fall).min(TOP);
            *sum = sum.saturating_add(*price / GRAIN);
        }
    }
}

/// What the capacities of links cost at prices, and no nets.
fn capacities_at(links: &[Link], prices: &[u64]) -> Estimate
    ensures { result ≡ of_capacities links.now prices.now }
{
    let mut estimate = Estimate::NONE;
    for (link, price) in links.iter().zip(prices) {
        estimate.add_capacity(link.total.capacity, *price);
    }
    estimate
}
