//! A design and routes, as they were read.

use command_runs::GroundedDesign;
use route_text::BlockList;

/// A design with its nets' grounds, and the blocks of a route text.
#[derive(Drop)]
pub struct RoutedInput {
    pub grounded: GroundedDesign,
    pub blocks: BlockList,
}
