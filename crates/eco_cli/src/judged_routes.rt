//! A design with the sets of its routes.

use grid_graph::Design;
use tree_set::Tree;

/// A design, and the set that accepted routes give each of its nets.
#[derive(Drop)]
pub struct JudgedRoutes {
    pub design: Design,
    pub trees: Vec<Tree>,
}
