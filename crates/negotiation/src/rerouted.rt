//! What rerouting comes to.

use lists::Items;
use tree_set::Tree;

/// One set per net, in file order, how many rounds of negotiation there were, and the measure of the sets.
#[derive(Debug, Drop)]
pub struct Rerouted {
    pub trees: Items<Tree>,
    pub rounds: u32,
    pub overflow: u64,
    pub wirelength: u64,
}
