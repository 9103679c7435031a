//! A design by whether it is near.

use command_runs::GroundedDesign;

/// A design whose borders a guide can hold, with its nets' grounds; or that it is none.
#[derive(Drop)]
pub enum NearDesign {
    Near(GroundedDesign),
    /// Some border is further from zero than the numbers of a design.
    Far,
}
