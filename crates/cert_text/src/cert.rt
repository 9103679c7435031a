//! A certificate.

use crate::price_list::PriceList;
use tree_set::{Budget, Fraction};

/// What is said of a routing of a design, and what shows its bound: anybody can work the bound out again from the prices.
#[derive(Debug, Drop)]
pub struct Cert {
    /// How many nets the design has.
    pub nets: u32,
    /// How many of them are joined by open and choked edges alone, and not by open ones.
    pub forced: u32,
    /// How much more than the capacities the loads are, over all open and choked edges.
    pub overflow: u64,
    /// How many pieces the nets' sets have.
    pub wirelength: u64,
    /// The greatest load/capacity of a resource; `None` where there is no resource.
    pub peak: Option<Fraction>,
    /// What the greatest load/capacity of every routing is at least; `None` where there is no resource.
    pub bound: Option<Fraction>,
    /// The wirelength that is to be kept, and its price, where there is one.
    pub budget: Option<Budget>,
    /// The prices of the open edges.
    pub prices: PriceList,
}
