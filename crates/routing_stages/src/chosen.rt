//! What a pick hands on.

use crate::trees::Trees;
use load_table::{LoadTable, Share};

/// One set for each net, with the table of their loads and its one share. `loads` has the load of these sets, and `prices` the
/// prices at scale 1 of the load of all phases, each with one entry per edge number and one more for the wirelength.
#[derive(Drop)]
pub struct Chosen {
    pub table: LoadTable,
    pub share: Share,
    pub trees: Trees,
    pub loads: Vec<u64>,
    pub prices: Vec<u32>,
}
