//! A design with its nets' grounds.

use grid_graph::{Design, Ground, GroundError};

/// A design, and one ground per net in file order.
#[derive(Drop)]
pub struct GroundedDesign {
    pub design: Design,
    pub grounds: Vec<Ground>,
}

impl GroundedDesign {
    ghost use Rattle.std.specs.Prelude.{◌≡◌, IfOk, IfErr};
    ghost use Rattle.grid_graph.specs.Grounds.{AreGrounds, IsFirstGroundError};

    /// The design with its nets' grounds. `Unreachable` is the first net that no ground joins.
    pub fn of(design: Design) -> Result<GroundedDesign, GroundError>
        ensures design { IfOk result (λ g. g.design ≡ design) }
        ensures grounds { IfOk result (λ g. AreGrounds g.design.grid g.design.nets g.grounds.items) }
        ensures cause { IfErr result (λ e. IsFirstGroundError design.grid design.nets e) }
    {
        let grounds = design.grounds()?;
        Ok(GroundedDesign { design, grounds })
    }
}
