//! What repair hands on.

use crate::trees::Trees;
use load_table::{LoadTable, Share};

/// The result: one set for each net, and their loads, which may be those of an earlier routing than the last. Table and share
/// are as the last round left them. `prices` are the prices at scale 1 of the load of all phases. `rounded` is the overflow
/// before repair, and `rounds` counts the rounds.
#[derive(Drop)]
pub struct Routed {
    pub table: LoadTable,
    pub share: Share,
    pub trees: Trees,
    pub loads: Vec<u64>,
    pub prices: Vec<u32>,
    pub rounded: u64,
    pub rounds: u32,
}
