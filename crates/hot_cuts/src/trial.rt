//! What is tried on a part.

ghost use Rattle.std.specs.Prelude.{◌≡◌, ◌≤◌, [], IfOk, map};
ghost use Rattle.hot_cuts.specs.Estimates.{proved_excess};
ghost use Rattle.hot_cuts.specs.Trials.{flat_price};

use crate::market::Market;
use crate::offers::Offer;
use crate::rules::{FIRST_STEP, LATER_STEP};
use edge_prices::MAX_PRICE;
use grid_base::NoMemory;
use std::alloc::Global;
use tile_graphs::{Bundle, FULL, Part};

/// Fewer rounds than this prove nothing.
const FEWEST_ROUNDS: u32 = 4;

/// A part, and the best prices of its links so far: those of the greatest bound, and those that prove the most overflow.
#[derive(Drop)]
pub(crate) struct Trial<'a> {
    alloc: Global,
    part: &'a Part,
    market: Market<'a>,
    pub bound: Offer,
    pub overflow: Offer,
}

impl<'a> Trial<'a> {
    /// Nothing is tried so far.
    pub fn new(alloc: Global, part: &'a Part, bundles: &'a [Bundle]) -> Result<Trial<'a>, NoMemory>
        ensures bound { IfOk result (λ trial. trial.bound.prices.items ≡ []) }
        ensures overflow { IfOk result (λ trial. trial.overflow.prices.items ≡ []) }
    {
        Ok(Trial {
            alloc,
            part,
            market: Market::new(alloc, part.nodes, part.links.as_slice(), bundles)?,
            bound: Offer::none(alloc),
            overflow: Offer::none(alloc),
        })
    }

    /// Tries one price for all links.
    pub fn try_equal(&mut self) -> Result<(), NoMemory>
        ensures { proved_excess self.old.overflow.estimate ≤ proved_excess self.new.overflow.estimate }
    {
        let alloc = self.alloc;
        let equal = vec![in alloc; u64::from(MAX_PRICE); self.part.links.len()]?;
        self.try_list(equal.as_slice())
    }

    /// Tries what is found from prices on the links that routes fill more than a level, which serves good routes; and where
    /// that is not much, what is found from none.
    pub fn try_rounds(&mut self, level: u64, rounds: u32) -> Result<(), NoMemory>
        ensures { proved_excess self.old.overflow.estimate ≤ proved_excess self.new.overflow.estimate }
    {
        self.market.price_fuller(level);
        self.lead_rounds(level, rounds, FIRST_STEP)?;
        if self.proves_half() {
            return Ok(());
        }
        self.market.price_nothing();
        self.lead_rounds(level, rounds, FIRST_STEP)
    }

    /// Tries prices of tile edges, and what is found from them.
    pub fn try_from(&mut self, tile_prices: &[u32], rounds: u32) -> Result<(), NoMemory>
        ensures { proved_excess self.old.overflow.estimate ≤ proved_excess self.new.overflow.estimate }
    {
        let given = self.part.prices_of(self.alloc, tile_prices)?;
        self.try_list(given.as_slice())?;
        self.market.set_prices(given.as_slice());
        self.lead_rounds(FULL, rounds, LATER_STEP)
    }

    /// Leads rounds from the present prices, and tries the mean prices, and one price for the links whose mean price is high.
    fn lead_rounds(&mut self, level: u64, rounds: u32, first_step: u64) -> Result<(), NoMemory>
        ensures { proved_excess self.old.overflow.estimate ≤ proved_excess self.new.overflow.estimate }
    {
        if rounds < FEWEST_ROUNDS {
            return Ok(());
        }
        self.market.run(level, rounds, first_step)?;
        let mean = self.market.mean_prices(self.alloc)?;
        self.try_list(mean.as_slice())?;
        let flat = flattened(self.alloc, mean.as_slice())?;
        self.try_list(flat.as_slice())
    }

    /// Whether half of all that can be proved of the overflow is.
    fn proves_half(&self) -> bool {
        let most = u128::from(self.part.excess()).saturating_mul(u128::from(MAX_PRICE));
        self.overflow.estimate.excess() >= most / 2
    }

    /// Tries one list of prices.
    fn try_list(&mut self, prices: &[u64]) -> Result<(), NoMemory>
        ensures { proved_excess self.old.overflow.estimate ≤ proved_excess self.new.overflow.estimate }
    {
        let estimate = self.market.estimate(prices);
        if estimate.has_greater_bound(self.bound.estimate) {
            self.bound = Offer::of(self.alloc, self.part, prices, estimate)?;
        }
        if estimate.proves_more_overflow(self.overflow.estimate) {
            self.overflow = Offer::of(self.alloc, self.part, prices, estimate)?;
        }
        Ok(())
    }
}

/// The greatest price in place of each that is a quarter of it at least, and 0 in place of the others.
fn flattened(alloc: Global, prices: &[u64]) -> Result<Vec<u64>, NoMemory>
    ensures { IfOk result (λ flat. flat.items ≡ map flat_price prices.now) }
{
    let greatest = u64::from(MAX_PRICE);
    let mut flat = Vec::new(alloc);
    for price in prices {
        flat.push(if *price < greatest / 4 { 0 } else { greatest })?;
    }
    Ok(flat)
}
