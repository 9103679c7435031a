//! What a pass works on.

use crate::plan::Plan;
use grid_graph::{Design, Ground};
use load_table::LoadTable;
use routing_stages::Trees;
use tree_set::Tree;

/// What all calls of a pass are lent: the design, each net's ground, the table of the loads, sets of all nets that stay, those
/// that the nets have beside these, and the plan.
#[derive(Clone, Copy, Drop)]
pub(crate) struct PassInput<'a> {
    pub design: &'a Design,
    pub grounds: &'a [Ground],
    pub table: &'a LoadTable,
    pub earlier: &'a [Trees],
    pub before: &'a [Tree],
    pub plan: &'a Plan,
}
