//! The prices of a round of negotiation.

ghost use Rattle.std.specs.Prelude.{◌≡◌, length};
ghost use Rattle.negotiation.specs.RoundPrices.{price_after_round, ArePricesAfterRound};

use grid_base::{NoMemory, Vertex};
use grid_graph::Grid;
use std::alloc::Global;
use tree_growth::landmark_distances;

/// So much the price of an edge on which room is lacking rises in a round.
const STEP: u16 = 10;
/// No price is greater.
const MOST: u16 = 4000;
/// A price falls by one part of so many where more room than 1 is left, rounded up.
const PARTS: u16 = 50;

/// The price of each edge number for each unit of demand, and how far each tile is from the first one at these prices.
#[derive(Drop)]
pub(crate) struct RoundPrices {
    prices: Vec<u16>,
    landmark: Vec<u32>,
}

impl RoundPrices {
    ghost use Rattle.std.specs.Prelude.{◌≡◌, [], IfOk, length, replicate};
    ghost use Rattle.grid_graph.specs.Flat.{tiles};
    ghost use Rattle.grid_graph.specs.Grids.{edge_numbers, size_of};
    ghost use Rattle.negotiation.specs.RoundPrices.{ArePricesAfterRound};

    /// No edge has a price.
    pub fn none(alloc: Global, grid: &Grid) -> Result<RoundPrices, NoMemory>
        ensures long { IfOk result (λ made. length made.prices.items ≡ edge_numbers grid.now) }
        ensures prices { IfOk result (λ made. made.prices.items ≡ replicate (edge_numbers grid.now) 0) }
        ensures landmark { IfOk result (λ made. made.landmark.items ≡ []) }
    {
        let numbers = 2 * grid.size().vertices();
        Ok(RoundPrices {
            prices: vec![in alloc; 0; numbers as usize]?,
            landmark: Vec::new(alloc),
        })
    }

    /// The prices.
    pub fn prices(&self) -> &[u16]
        ensures { result.now ≡ self.now.prices.items }
    {
        self.prices.as_slice()
    }

    /// The distance of each tile from the first one; none before the first round.
    pub fn landmark(&self) -> &[u32]
        ensures { result.now ≡ self.now.landmark.items }
    {
        self.landmark.as_slice()
    }

    /// The prices of the next round: those of edges on which room is lacking rise, and those of edges with a room above 1 fall.
    /// The distances from the landmark are made anew from them.
    pub fn go_on(&mut self, grid: &Grid, rooms: &[i16]) -> Result<(), NoMemory>
        requires long { length self.old.prices.items ≡ edge_numbers grid.now }
        requires rooms { length rooms.now ≡ edge_numbers grid.now }
        ensures long { length self.new.prices.items ≡ edge_numbers grid.now }
        ensures prices { ArePricesAfterRound rooms.now self.old.prices.items self.new.prices.items }
        ensures landmark { IfOk result (λ _. length self.new.landmark.items ≡ tiles (size_of grid.now)) }
    {
        move_prices(self.prices.as_mut_slice(), rooms);
        landmark_distances(grid, self.prices.as_slice(), Vertex(0), &mut self.landmark)
    }
}

/// Each price follows the room on its edge; 16 bits keep its sign and whether it is above 1.
fn move_prices(prices: &mut [u16], rooms: &[i16])
    requires { length rooms.now ≡ length prices.old }
    ensures { ArePricesAfterRound rooms.now prices.old prices.new }
{
    for e in 0..prices.len() {
        prices[e] = next_price(prices[e], rooms[e]);
    }
}

/// The price that follows where so much room is left. With a room of 0 or 1 it stays, and none of 0 falls.
fn next_price(price: u16, room: i16) -> u16
    ensures { result ≡ price_after_round price room }
{
    if room < 0 {
        return price.saturating_add(STEP).min(MOST);
    }
    if room > 1 {
        return price.saturating_sub(price.div_ceil(PARTS));
    }
    price
}
