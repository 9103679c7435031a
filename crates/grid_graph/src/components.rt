//! Numbers of components that are given on the way.

ghost use Rattle.std.specs.Prelude.{◌<◌};
ghost use Rattle.grid_graph.specs.Components.{no_component};

use grid_base::{Marks, NoMemory, Size, Vertex};
use std::alloc::Global;

/// Stands in place of the number of a vertex that has none yet.
pub const NO_COMPONENT: u32 = u32::MAX;

/// The numbers of the vertices' components so far, and the number that is given from now on.
#[derive(Drop)]
pub struct Components {
    numbers: Vec<u32>,
    number: u32,
    pub ghost is_number: { number < no_component },
}

impl Components {
    ghost use Rattle.std.specs.Prelude.{◌≡◌, ◌<◌, IfOk, replicate};
    ghost use Rattle.grid_base.specs.Numbers.{vertices};
    ghost use Rattle.grid_graph.specs.Components.{no_component};

    /// No vertex of the grid has a number.
    pub fn blank(alloc: Global, size: Size) -> Result<Components, NoMemory>
        ensures { IfOk result (λ s. s.numbers.items ≡ replicate (vertices size) no_component) }
    {
        let numbers = vec![in alloc; NO_COMPONENT; size.vertices() as usize]?;
        Ok(Components { numbers, number: 0 })
    }

    /// From now on this number is given.
    pub fn give(&mut self, number: u32)
        requires { number < no_component }
        ensures number { self.new.number ≡ number }
        ensures numbers { self.new.numbers.items ≡ self.old.numbers.items }
    {
        self.number = number;
    }

    /// The numbers, taken out.
    pub fn into_list(self) -> Vec<u32>
        ensures { result.items ≡ self.numbers.items }
    {
        self.numbers
    }
}

impl Marks for Components {
    ghost use Rattle.std.specs.Prelude.{length};
    ghost use Rattle.grid_graph.specs.Components.{component_of};

    ghost mark_of = { λ s v. component_of s.numbers.items v };

    ghost next_mark = { λ s. s.number };

    ghost limit = { λ s. length s.numbers.items };

    fn mark(&mut self, v: Vertex) -> Result<bool, NoMemory> {
        if self.numbers[v.0 as usize] != NO_COMPONENT {
            return Ok(false);
        }
        self.numbers[v.0 as usize] = self.number;
        Ok(true)
    }
}
