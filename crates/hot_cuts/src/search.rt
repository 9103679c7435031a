//! The search for the best prices.

ghost use Rattle.std.specs.Prelude.{◌≡◌, ◌-◌, ◌*◌, ◌/◌, ◌<◌, ◌≤◌, [], IfOk, OnOk, length, min};
ghost use Rattle.hot_cuts.specs.Estimates.{level_of, proved_excess};
ghost use Rattle.hot_cuts.specs.Searches.{greater_offer, level_for, looks_for, may_prove_more, open_excess_of_all, open_excess_of_part, rounds_for, with_offer, with_settled};
ghost use Rattle.tile_graphs.specs.Fullness.{in_word};

use crate::estimate::Estimate;
use crate::offers::{Offer, TilePrice, by_tile_edges, joined};
use crate::rules::{Goal, part_of};
use crate::trial::Trial;
use edge_prices::MAX_PRICE;
use grid_base::NoMemory;
use std::alloc::Global;
use tile_graphs::{
    Contraction, FULL, Part, TileTotal, TileView, fuller_cuts, fullest_first, marks_by_count,
    marks_by_level,
};

/// For the bound so many of the fullest tile edges are tried for cuts.
const COUNTS: [usize; 7] = [10, 20, 40, 80, 160, 320, 640];

/// For overflow those are tried that are filled so much in percent at least, and first those that are filled more.
const PERCENTS: [u64; 4] = [100, 98, 95, 90];

/// For one goal what is tried may look at links and labels about so often: some seconds.
const MOST_LOOKS: u64 = 1 << 30;

/// What is tried, and the best of it so far.
#[derive(Drop)]
pub(crate) struct Search<'a> {
    alloc: Global,
    view: &'a TileView,
    rounds: u32,
    bound: Offer,
    offers: Vec<Offer>,
    /// By tile edges: whether all is proved that can be, since routes overfill them by no more.
    are_settled: Vec<bool>,
    looks_left: u64,
}

impl<'a> Search<'a> {
    /// Nothing is tried so far.
    pub fn new(alloc: Global, view: &'a TileView, rounds: u32) -> Result<Search<'a>, NoMemory>
        ensures bound { IfOk result (λ search. search.bound.prices.items ≡ []) }
        ensures offers { IfOk result (λ search. search.offers.items ≡ []) }
        ensures settled { IfOk result (λ search. length search.are_settled.items ≡ length view.now.totals.items) }
    {
        Ok(Search {
            alloc,
            view,
            rounds,
            bound: Offer::none(alloc),
            offers: Vec::new(alloc),
            are_settled: vec![in alloc; false; view.totals.len()]?,
            looks_left: 0,
        })
    }

    /// Tries cuts of some of the tile edges that routes fill most, and of those round the tiles that nets have to leave most.
    pub fn try_all(&mut self) -> Result<(), NoMemory>
        ensures more { length self.old.offers.items ≤ length self.new.offers.items }
    {
        let totals = self.view.totals.as_slice();
        let cuts = fuller_cuts(self.alloc, self.view)?;
        self.looks_left = MOST_LOOKS;
        self.try_fullest(totals)?;
        self.try_fullest(cuts.as_slice())?;
        self.looks_left = MOST_LOOKS;
        self.try_level(FULL + 1)?;
        for percent in PERCENTS {
            self.try_level(FULL * percent / 100)?;
        }
        Ok(())
    }

    /// The prices of the greatest bound.
    pub fn for_bound(&self) -> &[TilePrice]
        ensures { result.now ≡ self.now.bound.prices.items }
    {
        self.bound.prices.as_slice()
    }

    /// The prices that prove the most overflow: the best ones of each place, and what is found from there.
    pub fn for_overflow(&mut self) -> Result<Offer, NoMemory>
        ensures bound { self.new.bound ≡ self.old.bound }
        ensures offers { self.new.offers ≡ self.old.offers }
    {
        let given = joined(self.alloc, self.offers.as_slice(), self.are_settled.len())?;
        let found = self.found_from(&given)?;
        if found.estimate.proves_more_overflow(given.estimate) {
            Ok(found)
        } else {
            Ok(given)
        }
    }

    /// Tries cuts of some of the tile edges that are fullest by these totals, for the bound.
    fn try_fullest(&mut self, totals: &[TileTotal]) -> Result<(), NoMemory>
        ensures more { length self.old.offers.items ≤ length self.new.offers.items }
    {
        let uses = fullest_first(self.alloc, totals)?;
        for count in COUNTS {
            let marks = marks_by_count(self.alloc, uses.as_slice(), count, totals.len())?;
            self.try_parts(marks.as_slice(), Goal::Bound)?;
        }
        Ok(())
    }

    /// Tries cuts of the tile edges that routes fill to a level at least, for overflow.
    fn try_level(&mut self, level: u64) -> Result<(), NoMemory>
        ensures more { length self.old.offers.items ≤ length self.new.offers.items }
    {
        let marks = marks_by_level(self.alloc, self.view.totals.as_slice(), level)?;
        self.try_parts(marks.as_slice(), Goal::Overflow)
    }

    /// Tries prices on the parts of the graph between hot tile edges.
    fn try_parts(&mut self, are_hot: &[bool], goal: Goal) -> Result<(), NoMemory>
        ensures more { length self.old.offers.items ≤ length self.new.offers.items }
    {
        let mut graph = Contraction::of(self.alloc, self.view, are_hot)?;
        let all = self.open_excess();
        for part in graph.parts.iter_mut() {
            self.try_part(part, goal, all)?;
        }
        Ok(())
    }

    /// Tries prices on a part, if looks enough are left.
    fn try_part(&mut self, part: &mut Part, goal: Goal, all: u64) -> Result<(), NoMemory>
        ensures more { length self.old.offers.items ≤ length self.new.offers.items }
    {
        let bundles = part.bundles(self.alloc)?;
        let looks = part.looks(bundles.as_slice());
        if looks > self.looks_left {
            return Ok(());
        }
        self.looks_left = self.looks_left.saturating_sub(looks);
        let mut trial = Trial::new(self.alloc, part, bundles.as_slice())?;
        trial.try_equal()?;
        let rounds = self.rounds_on(part, looks, goal, all);
        let level = self.level(goal, trial.bound.estimate);
        trial.try_rounds(level, rounds)?;
        self.take(trial)
    }

    /// Prices that are found from given ones, on the tile edges that have a price there.
    fn found_from(&mut self, given: &Offer) -> Result<Offer, NoMemory>
        ensures bound { self.new.bound ≡ self.old.bound }
        ensures offers { self.new.offers ≡ self.old.offers }
    {
        let alloc = self.alloc;
        let prices = by_tile_edges(alloc, given.prices.as_slice(), self.are_settled.len())?;
        let mut are_hot = vec![in alloc; false; self.are_settled.len()]?;
        given.mark(&mut are_hot);
        let mut graph = Contraction::of(alloc, self.view, are_hot.as_slice())?;
        let mut found = Offer::none(alloc);
        let all = self.open_excess();
        self.looks_left = MOST_LOOKS;
        for part in graph.parts.iter_mut() {
            let bundles = part.bundles(alloc)?;
            let looks = part.looks(bundles.as_slice());
            let rounds = self.rounds_on(part, looks, Goal::Overflow, all);
            let mut trial = Trial::new(alloc, part, bundles.as_slice())?;
            trial.try_from(prices.as_slice(), rounds)?;
            found.add(&trial.overflow)?;
        }
        Ok(found)
    }

    /// Takes the best prices of a trial. Tile edges are settled where they prove all by which routes overfill them.
    fn take(&mut self, trial: Trial) -> Result<(), NoMemory>
        ensures more { length self.old.offers.items ≤ length self.new.offers.items }
        ensures bound { OnOk result (self.new.bound ≡ greater_offer self.old.bound trial.entry.bound) }
        ensures offers { OnOk result (self.new.offers.items ≡ with_offer self.old.offers.items trial.entry.overflow) }
        ensures settled { OnOk result (self.new.are_settled.items
            ≡ with_settled self.old.view.now.totals.items self.old.are_settled.items trial.entry.overflow) }
    {
        let Trial {
            bound,
            overflow,
            ..
        } = trial;
        if bound.estimate.has_greater_bound(self.bound.estimate) {
            self.bound = bound;
        }
        if overflow.estimate.excess() > 0 {
            self.settle(&overflow);
            self.offers.push(overflow)?;
        }
        Ok(())
    }

    /// Settles the tile edges that an offer prices, where it proves all by which routes overfill them.
    fn settle(&mut self, offer: &Offer)
        ensures settled { 0 < proved_excess offer.now.estimate → self.new.are_settled.items
            ≡ with_settled self.old.view.now.totals.items self.old.are_settled.items offer.now }
        ensures bound { self.new.bound ≡ self.old.bound }
        ensures offers { self.new.offers ≡ self.old.offers }
    {
        let most = offer.most_excess(self.view.totals.as_slice());
        if offer.estimate.excess() >= u128::from(most).saturating_mul(u128::from(MAX_PRICE)) {
            offer.mark(&mut self.are_settled);
        }
    }

    /// By how much routes overfill the tile edges that are not settled.
    fn open_excess(&self) -> u64
        ensures { result ≡ open_excess_of_all self.now.view.now.totals.items self.now.are_settled.items }
    {
        let mut all: u64 = 0;
        for (total, is_settled) in self.view.totals.iter().zip(self.are_settled.iter()) {
            if !*is_settled {
                all = all.saturating_add(total.excess());
            }
        }
        all
    }

    /// How many rounds may be led on a part, each of which takes so many looks of those that are left.
    fn rounds_on(&mut self, part: &Part, looks: u64, goal: Goal, all: u64) -> u32
        ensures most { result ≤ self.old.rounds }
        ensures rounds { result ≡ min (rounds_for (looks_for goal (may_prove_more (level_of self.old.bound.estimate) part.now)
            (self.old.looks_left / 2) (open_excess_of_part self.old.view.now.totals.items self.old.are_settled.items part.now) all) looks) self.old.rounds }
        ensures left { self.new.looks_left ≡ self.old.looks_left - in_word (looks * result) }
        ensures bound { self.new.bound ≡ self.old.bound }
        ensures offers { self.new.offers ≡ self.old.offers }
    {
        let most = self.most_looks(part, goal, all);
        let rounds = most.checked_div(looks).unwrap_or(0);
        let rounds = u32::try_from(rounds).unwrap_or(u32::MAX).min(self.rounds);
        let taken = looks.saturating_mul(u64::from(rounds));
        self.looks_left = self.looks_left.saturating_sub(taken);
        rounds
    }

    /// How often rounds on a part may look at links and labels: not at all where no more can be proved; and for overflow as
    /// much of half of what is left as is the part's share in what routes overfill.
    fn most_looks(&self, part: &Part, goal: Goal, all: u64) -> u64
        ensures { result ≡ looks_for goal (may_prove_more (level_of self.now.bound.estimate) part.now)
            (self.now.looks_left / 2) (open_excess_of_part self.now.view.now.totals.items self.now.are_settled.items part.now) all }
    {
        let half = self.looks_left / 2;
        let totals = self.view.totals.as_slice();
        match goal {
            Goal::Bound if part.may_be_fuller(self.bound.estimate.level()) => half,
            Goal::Bound => 0,
            Goal::Overflow => {
                part_of(
                    half,
                    part.open_excess(totals, self.are_settled.as_slice()),
                    all,
                )
            }
        }
    }

    /// The level that prices are to prove more than, in parts of `FULL`: the greatest bound so far or the one just found, or
    /// what is just full.
    fn level(&self, goal: Goal, found: Estimate) -> u64
        ensures { result ≡ level_for goal self.now.bound.estimate found }
    {
        match goal {
            Goal::Bound => self.bound.estimate.level().max(found.level()),
            Goal::Overflow => FULL,
        }
    }
}
