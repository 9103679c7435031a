//! The first terminal that components tell apart from the first one.

ghost use Rattle.std.specs.Prelude.{ℕ, ◌<◌, length, IfNone, IfSome};
ghost use Rattle.grid_graph.specs.Apart.{AreInOneComponent, IsFirstApart};
ghost use Rattle.grid_base.specs.Lists.{At};

use grid_base::Vertex;

/// The place of the first terminal whose component isn't that of the first one.
pub fn first_apart(components: &[u32], terminals: &[Vertex]) -> Option<usize>
    requires { (i : ℕ) (v : Vertex) → At terminals.now i v → v.0 < length components.now }
    ensures alike { IfNone result (AreInOneComponent components.now terminals.now (length terminals.now)) }
    ensures apart { IfSome result (λ i. IsFirstApart components.now terminals.now i) }
{
    let first = *terminals.first()?;
    for (i, v) in terminals.iter().enumerate() {
        if components[v.0 as usize] != components[first.0 as usize] {
            return Some(i);
        }
    }
    None
}
