//! What sharing hands on.

use crate::phases::Phases;
use load_table::{LoadTable, Share};

/// The sets of all phases, with the table of their loads and its one share. `loads` has the load of all sets and `prices`
/// its price at scale 1, each with one entry per edge number and one more for the wirelength.
#[derive(Drop)]
pub struct Shared {
    pub table: LoadTable,
    pub share: Share,
    pub phases: Phases,
    pub loads: Vec<u64>,
    pub prices: Vec<u32>,
}
