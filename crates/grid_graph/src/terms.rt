//! The terminals of a net.

ghost use Rattle.std.specs.Prelude.{◌≡◌, IfOk};
ghost use Rattle.grid_base.specs.Lists.{HasNoRepeats};
ghost use Rattle.grid_graph.specs.Terms.{numbers, without_repeats};

use grid_base::{NoMemory, Vertex};
use lists::{Kept, Rule};
use std::alloc::Global;
use std::collections::BTreeSet;

/// The rule that no vertex occurs twice.
#[derive(Drop)]
pub struct Distinct;

impl Rule<Vertex> for Distinct {
    ghost holds = { HasNoRepeats };
}

/// The vertices of a net's pins without repeats, in the order of their first pin.
pub type Terms = Kept<Vertex, Distinct>;

/// The terminals of a net whose pins are at these vertices.
pub fn terms_of(alloc: Global, vertices: &[Vertex]) -> Result<Terms, NoMemory>
    ensures terminals { IfOk result (λ t. numbers t ≡ without_repeats (numbers vertices.now)) }
    ensures distinct { IfOk result HasNoRepeats }
{
    let mut seen = BTreeSet::new(alloc);
    let mut terms = Vec::new(alloc);
    for v in vertices {
        if seen.insert(v.0)? {
            terms.push(*v)?;
        }
    }
    Ok(Terms::of(terms))
}
