//! Prices from the table.

ghost use Rattle.std.specs.Prelude.{◌≡◌, ◌≤◌};
ghost use Rattle.edge_prices.specs.Limits.{last_index};
ghost use Rattle.edge_prices.specs.Prices.{price, price_by};

use crate::limits::LAST_INDEX;
use crate::price_table::PRICES;

/// The price at this index of the table.
pub fn price_at(i: u32) -> u32
    requires { i ≤ last_index }
    ensures { result ≡ price i }
{
    PRICES[i as usize]
}

/// The price of a resource with this index, where `top` is the greatest index of all resources.
pub fn price_from(index: u128, top: u128) -> u32
    requires { index ≤ top }
    ensures { result ≡ price_by top index }
{
    let below = top - index;
    if below > u128::from(LAST_INDEX) {
        return price_at(0);
    }
    price_at(LAST_INDEX - below as u32)
}
