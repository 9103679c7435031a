//! The components of a grid's vertices, under either ground.

use crate::components_of::components_of;
use crate::first_apart::first_apart;
use crate::grid::Grid;
use crate::ground::Ground;
use crate::net_spec::NetSpec;
use crate::unreachable_net::UnreachableNet;
use grid_base::NoMemory;
use std::alloc::Global;

/// The component of each vertex of a grid by open edges and vias, and by open and choked edges and vias.
///
/// They tell the ground of any net in time linear in its terminals.
#[derive(Drop)]
pub struct GroundComponents {
    by_open: Vec<u32>,
    by_choked: Vec<u32>,
}

impl GroundComponents {
    ghost use Rattle.std.specs.Prelude.{ℕ, ◌≤◌, length, IfOk, IfErr};
    ghost use Rattle.grid_base.specs.declared.vertex.Vertex.{Vertex};
    ghost use Rattle.grid_base.specs.Lists.{At};
    ghost use Rattle.grid_graph.specs.declared.grid.Grid.{Grid as GridOf};
    ghost use Rattle.grid_graph.specs.GroundComponents.{AreGroundComponents, HasComponents};
    ghost use Rattle.grid_graph.specs.Grounds.{IsGround, IsCutOff};
    ghost use Rattle.grid_graph.specs.Limits.{max_pins};

    /// The components of a grid. Takes time linear in the number of vertices.
    pub fn of(alloc: Global, grid: &Grid) -> Result<GroundComponents, NoMemory>
        ensures { IfOk result (AreGroundComponents grid.now) }
    {
        let by_open = components_of(alloc, grid, Ground::Open)?;
        let by_choked = components_of(alloc, grid, Ground::WithChoked)?;
        Ok(GroundComponents { by_open, by_choked })
    }

    /// The ground of a net on the grid that the components are of. The error is a net that no ground joins.
    pub fn ground_of(&self, net: &NetSpec) -> Result<Ground, UnreachableNet>
        requires few { length net.now.terminals ≤ max_pins }
        requires vertices { (i : ℕ) (v : Vertex) → At net.now.terminals i v → HasComponents self.now v.0 }
        ensures found { (g : GridOf) → AreGroundComponents g self.now → IfOk result (IsGround g net.now.terminals) }
        ensures cause { (g : GridOf) → AreGroundComponents g self.now → IfErr result (λ e. IsCutOff g net.now e.id e.terminal) }
    {
        let terminals = net.terminals.list();
        let Some(_) = first_apart(self.by_open.as_slice(), terminals) else {
            return Ok(Ground::Open);
        };
        match first_apart(self.by_choked.as_slice(), terminals) {
            None => Ok(Ground::WithChoked),
            Some(terminal) => Err(UnreachableNet {
                id: net.id,
                terminal: terminal as u32,
            }),
        }
    }
}
