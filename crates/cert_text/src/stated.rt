//! What a text states.

use crate::price_list::PriceList;
use crate::ratio::Ratio;
use tree_set::Budget;

/// A certificate as a text states it: its fractions are perhaps not in lowest terms.
#[derive(Debug, Drop)]
pub struct Stated {
    pub nets: u32,
    pub forced: u32,
    pub overflow: u64,
    pub wirelength: u64,
    pub peak: Option<Ratio>,
    pub bound: Option<Ratio>,
    pub budget: Option<Budget>,
    pub prices: PriceList,
}
