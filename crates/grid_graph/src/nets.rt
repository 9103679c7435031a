//! The nets of a design.

ghost use Rattle.grid_graph.specs.Nets.{IdsDiffer};

use crate::net_spec::NetSpec;
use lists::{Kept, Rule};

/// The rule that no two nets have one id.
#[derive(Drop)]
pub struct DifferentIds;

impl Rule<NetSpec> for DifferentIds {
    ghost holds = { IdsDiffer };
}

/// Nets with different ids, in file order.
pub type Nets = Kept<NetSpec, DifferentIds>;
