//! What prices prove.

ghost use Rattle.std.specs.Prelude.{◌≡◌, ◌/◌, ◌*◌, ◌<◌, ◌↔◌, IsTrue};
ghost use Rattle.hot_cuts.specs.Estimates.{in_two_words, is_greater_bound, level_of, of_both, proved_excess, with_capacity, with_demand};
ghost use Rattle.tile_graphs.specs.Fullness.{in_word, just_full};

use tile_graphs::FULL;

/// What nets cost at prices of links, and what all capacities cost.
#[derive(Debug, Drop, Clone, Copy, PartialEq, Eq)]
pub(crate) struct Estimate {
    cost: u128,
    capacity_cost: u128,
}

impl Estimate {
    /// Nothing costs anything.
    pub const NONE: Estimate = Estimate {
        cost: 0,
        capacity_cost: 0,
    };

    /// Adds a link.
    pub fn add_capacity(&mut self, capacity: u64, price: u64)
        ensures { self.new ≡ with_capacity self.old capacity price }
    {
        self.capacity_cost = self.capacity_cost.saturating_add(product(capacity, price));
    }

    /// Adds a bundle of nets.
    pub fn add_demand(&mut self, demand: u64, cost: u64)
        ensures { self.new ≡ with_demand self.old demand cost }
    {
        self.cost = self.cost.saturating_add(product(demand, cost));
    }

    /// Adds what is estimated of another part.
    pub fn add(&mut self, other: Estimate)
        ensures { self.new ≡ of_both self.old other }
    {
        self.cost = self.cost.saturating_add(other.cost);
        self.capacity_cost = self.capacity_cost.saturating_add(other.capacity_cost);
    }

    /// Whether the bound is greater than another one.
    pub fn has_greater_bound(self, other: Estimate) -> bool
        ensures { result ≡ is_greater_bound self other }
    {
        let one = self.cost.saturating_mul(other.capacity_cost);
        let two = other.cost.saturating_mul(self.capacity_cost);
        self.capacity_cost > 0 && (other.capacity_cost == 0 || one > two)
    }

    /// The bound, in parts of `FULL`.
    pub fn level(self) -> u64
        ensures some { 0 < self.capacity_cost → result ≡ in_word (in_two_words (self.cost * just_full) / self.capacity_cost) }
        ensures all { result ≡ level_of self }
    {
        let cost = self.cost.saturating_mul(u128::from(FULL));
        let level = cost.checked_div(self.capacity_cost).unwrap_or(0);
        u64::try_from(level).unwrap_or(u64::MAX)
    }

    /// Whether more overflow is proved than by another one, where both have the same greatest price.
    pub fn proves_more_overflow(self, other: Estimate) -> bool
        ensures { IsTrue result ↔ proved_excess other < proved_excess self }
    {
        self.excess() > other.excess()
    }

    /// What the nets cost beyond the capacities.
    pub fn excess(self) -> u128
        ensures { result ≡ proved_excess self }
    {
        self.cost.saturating_sub(self.capacity_cost)
    }
}

fn product(one: u64, other: u64) -> u128
    ensures { result ≡ one * other }
{
    u128::from(one) * u128::from(other)
}
