//! A routing under repair.

use load_table::{LoadTable, Share};
use tree_set::Tree;

/// One set for each net, with the table of their loads and its one share. `loads` has the load of the best routing so far, with
/// one entry per edge number and one more for the wirelength.
#[derive(Drop)]
pub(crate) struct Routing {
    pub table: LoadTable,
    pub share: Share,
    pub trees: Vec<Tree>,
    pub loads: Vec<u64>,
}
