//! Prices that are offered, with what they prove.

ghost use Rattle.std.specs.Prelude.{◌≡◌, ◌++◌, [], IfOk, OnOk, length, not, replicate, slice_index_or, true};
ghost use Rattle.std.specs.List.{flat_map, fold, list_all, sum_by};
ghost use Rattle.hot_cuts.specs.Estimates.{of_both};
ghost use Rattle.hot_cuts.specs.Offers.{offered_price, with_mark_of, with_price};
ghost use Rattle.hot_cuts.specs.Standings.{AreBestApart, AreStandings, joined_in, with_standing};
ghost use Rattle.tile_graphs.specs.Fullness.{excess_of, in_word, no_total};

use crate::estimate::Estimate;
use grid_base::NoMemory;
use std::alloc::Global;
use std::cmp::Reverse;
use tile_graphs::{Part, TileTotal};

/// The price of a tile edge.
#[derive(Debug, Drop, Clone, Copy, PartialEq, Eq)]
pub(crate) struct TilePrice {
    pub tile_edge: u32,
    pub price: u32,
}

/// Prices of tile edges above 0, with what they prove.
#[derive(Drop)]
pub(crate) struct Offer {
    pub prices: Vec<TilePrice>,
    pub estimate: Estimate,
}

impl Offer {
    /// No prices.
    pub fn none(alloc: Global) -> Offer
        ensures prices { result.prices.items ≡ [] }
        ensures estimate { result.estimate ≡ record { cost = 0; capacity_cost = 0 } }
    {
        Offer {
            prices: Vec::new(alloc),
            estimate: Estimate::NONE,
        }
    }

    /// Prices of the links of a part.
    pub fn of(
        alloc: Global,
        part: &Part,
        prices: &[u64],
        estimate: Estimate,
    ) -> Result<Offer, NoMemory>
        ensures prices { IfOk result (λ offer. offer.prices.items ≡ flat_map (offered_price prices.now) part.now.edges.items) }
        ensures estimate { IfOk result (λ offer. offer.estimate ≡ estimate) }
    {
        let mut offered = Vec::new(alloc);
        for edge in part.edges.iter() {
            let price = prices.get(edge.link as usize).copied().unwrap_or(0);
            let tile_edge = edge.tile_edge;
            let price = u32::try_from(price).unwrap_or(0);
            if price > 0 {
                offered.push(TilePrice { tile_edge, price })?;
            }
        }
        Ok(Offer {
            prices: offered,
            estimate,
        })
    }

    /// Adds the prices of another place.
    pub fn add(&mut self, other: &Offer) -> Result<(), NoMemory>
        ensures prices { OnOk result (self.new.prices.items ≡ self.old.prices.items ++ other.now.prices.items) }
        ensures estimate { OnOk result (self.new.estimate ≡ of_both self.old.estimate other.now.estimate) }
    {
        self.prices.extend_from_slice(other.prices.as_slice())?;
        self.estimate.add(other.estimate);
        Ok(())
    }

    /// Whether none of the marked tile edges has a price.
    fn is_apart(&self, marks: &[bool]) -> bool
        ensures { result ≡ list_all (λ priced. not (slice_index_or marks.now priced.tile_edge true)) self.now.prices.items }
    {
        for priced in self.prices.iter() {
            let mark = marks.get(priced.tile_edge as usize);
            if mark.copied().unwrap_or(true) {
                return false;
            }
        }
        true
    }

    /// Marks the tile edges that have a price.
    pub fn mark(&self, marks: &mut Vec<bool>)
        ensures long { length marks.new.items ≡ length marks.old.items }
        ensures marked { marks.new.items ≡ fold with_mark_of marks.old.items self.now.prices.items }
    {
        for priced in self.prices.iter() {
            if let Some(mark) = marks.get_mut(priced.tile_edge as usize) {
                *mark = true;
            }
        }
    }

    /// By how much routes overfill the tile edges that have a price, of which these are the totals.
    pub fn most_excess(&self, totals: &[TileTotal]) -> u64
        ensures { result
            ≡ in_word (sum_by (λ priced. excess_of (slice_index_or totals.now priced.tile_edge no_total)) self.now.prices.items) }
    {
        let mut most: u64 = 0;
        for priced in self.prices.iter() {
            let total = totals.get(priced.tile_edge as usize).copied();
            most = most.saturating_add(total.unwrap_or(TileTotal::NONE).excess());
        }
        most
    }
}

/// Prices of tile edges by the numbers of these, which are so many.
pub(crate) fn by_tile_edges(
    alloc: Global,
    prices: &[TilePrice],
    count: usize,
) -> Result<Vec<u32>, NoMemory>
    ensures { IfOk result (λ made. made.items ≡ fold with_price (replicate count 0) prices.now) }
{
    let mut tile_prices = vec![in alloc; 0u32; count]?;
    for priced in prices {
        if let Some(price) = tile_prices.get_mut(priced.tile_edge as usize) {
            *price = priced.price;
        }
    }
    Ok(tile_prices)
}

/// The best offers that price none of the tile edges that a better one prices. What they prove of the overflow adds up.
pub(crate) fn joined(alloc: Global, offers: &[Offer], count: usize) -> Result<Offer, NoMemory>
    ensures { IfOk result (AreBestApart offers.now count) }
{
    let mut all = Offer::none(alloc);
    let mut marks = vec![in alloc; false; count]?;
    let order = standings(alloc, offers)?;
    for standing in order.iter() {
        add_if_apart(&mut all, &mut marks, offers, *standing)?;
    }
    Ok(all)
}

/// Adds an offer by its standing, and marks the tile edges that it prices, if none of them is marked.
fn add_if_apart(
    all: &mut Offer,
    marks: &mut Vec<bool>,
    offers: &[Offer],
    standing: Standing,
) -> Result<(), NoMemory>
    ensures { OnOk result (joined_in marks.new.items all.new ≡ with_standing offers.now (joined_in marks.old.items all.old) standing) }
{
    let Some(offer) = offers.get(standing.place) else {
        return Ok(());
    };
    if offer.is_apart(marks.as_slice()) {
        offer.mark(marks);
        all.add(offer)?;
    }
    Ok(())
}

/// Where an offer is in a list. The one that proves the most overflow comes first.
#[derive(Debug, Drop, Clone, Copy, PartialEq, Eq, PartialOrd, Ord)]
struct Standing {
    excess: Reverse<u128>,
    place: usize,
}

/// The places of the offers in order.
fn standings(alloc: Global, offers: &[Offer]) -> Result<Vec<Standing>, NoMemory>
    ensures { IfOk result (λ standings. AreStandings offers.now standings.items) }
{
    let mut standings = Vec::new(alloc);
    for (place, offer) in offers.iter().enumerate() {
        standings.push(Standing {
            excess: Reverse(offer.estimate.excess()),
            place,
        })?;
    }
    standings.sort_unstable();
    Ok(standings)
}
