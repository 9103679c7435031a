//! Marks of vertices.

use crate::no_memory::NoMemory;
use crate::vertex::Vertex;

/// Vertices that have a mark or none. The vertices below `limit` can be marked, and those that are marked from now on
/// get `next_mark`.
pub trait Marks {
    ghost use Rattle.std.specs.Prelude.{◌≡◌, ◌<◌, ℕ, Option, IfOk, OnOk};
    ghost use Rattle.grid_base.specs.Flood.{IsMarked};

    ghost mark_of: { Self → ℕ → Option ℕ };

    ghost next_mark: { Self → ℕ };

    ghost limit: { Self → ℕ };

    /// Marks the vertex unless it has a mark. Answers whether it had none.
    fn mark(&mut self, v: Vertex) -> Result<bool, NoMemory>
        requires { v.0 < limit self.old }
        ensures marked { IfOk result (λ new. IsMarked (mark_of self.old) (mark_of self.new) (next_mark self.old) v.0 new) }
        ensures next { OnOk result (next_mark self.new ≡ next_mark self.old) }
        ensures limit { OnOk result (limit self.new ≡ limit self.old) };
}
