//! A design.

ghost use Rattle.grid_graph.specs.Nets.{IsDesign};

use crate::grid::Grid;
use crate::ground::Ground;
use crate::ground_components::GroundComponents;
use crate::ground_error::GroundError;
use crate::nets::Nets;

/// A grid and the nets to be routed on it.
#[derive(Drop)]
pub struct Design {
    /// The routing grid.
    pub grid: Grid,
    /// The nets, in file order.
    pub nets: Nets,
    pub ghost limits: { IsDesign grid nets },
}

impl Design {
    ghost use Rattle.std.specs.Prelude.{ℕ, ◌≡◌, ◌<◌, length, IfOk, IfErr};
    ghost use Rattle.grid_graph.specs.declared.net_spec.NetSpec.{NetSpec};
    ghost use Rattle.grid_graph.specs.Grounds.{IsGround, IsGroundError, IsFirstGroundError, AreGrounds};
    ghost use Rattle.grid_graph.specs.GroundComponents.{AreGroundComponents};
    ghost use Rattle.grid_base.specs.Lists.{At};

    /// The ground of the net at this place of the list. `Unreachable` is a net that no ground joins.
    pub fn ground(&self, net: usize) -> Result<Ground, GroundError>
        requires { net < length self.now.nets }
        ensures found { (n : NetSpec) → At self.now.nets net n → IfOk result (λ found. IsGround self.now.grid n.terminals found) }
        ensures cause { (n : NetSpec) → At self.now.nets net n → IfErr result (λ e. IsGroundError self.now.grid n e) }
    {
        let components = GroundComponents::of(self.grid.allocator(), &self.grid)?;
        self.ground_by(&components, net)
    }

    /// The grounds of all nets, in file order. `Unreachable` is the first net that no ground joins.
    ///
    /// Takes time linear in the vertices and the terminals: the components are found once for each ground.
    pub fn grounds(&self) -> Result<Vec<Ground>, GroundError>
        ensures grounds { IfOk result (λ grounds. AreGrounds self.now.grid self.now.nets grounds.items) }
        ensures cause { IfErr result (λ e. IsFirstGroundError self.now.grid self.now.nets e) }
    {
        let components = GroundComponents::of(self.grid.allocator(), &self.grid)?;
        let mut grounds = Vec::new(self.grid.allocator());
        for net in 0..self.nets.list().len() {
            grounds.push(self.ground_by(&components, net)?)?;
        }
        Ok(grounds)
    }

    /// The ground of a net, by the components of the vertices.
    fn ground_by(&self, components: &GroundComponents, net: usize) -> Result<Ground, GroundError>
        requires net { net < length self.now.nets }
        requires components { AreGroundComponents self.now.grid components.now }
        ensures found { (n : NetSpec) → At self.now.nets net n → IfOk result (λ found. IsGround self.now.grid n.terminals found) }
        ensures cause { (n : NetSpec) → At self.now.nets net n → IfErr result (λ e. IsGroundError self.now.grid n e) }
    {
        match components.ground_of(&self.nets.list()[net]) {
            Ok(found) => Ok(found),
            Err(unreachable) => Err(GroundError::Unreachable(unreachable)),
        }
    }
}
