//! What is still to go from a mask at a vertex.

ghost use Rattle.std.specs.Prelude.{◌≡◌};
ghost use Rattle.steiner_tables.specs.Masks.{all_of};

use crate::stack::Stack;
use grid_base::{Place, Spot, Vertex};
use label_search::Bound;
use steiner_tables::Family;

/// The bound of a family for the terminals that a mask doesn't have yet. What leads from one layer of the stack to another is no
/// piece, so the law of bounds says nothing of it, and `offer` asks for none.
#[derive(Drop)]
pub(crate) struct RestOnStack<'a, F: Family> {
    pub(crate) family: &'a F,
    pub(crate) stack: Stack,
    pub(crate) all: u32,
    pub ghost flat: { F.size family.now ≡ stack.flat },
    pub ghost every: { all ≡ all_of (F.terminals family.now) },
}

impl<F: Family> Bound for RestOnStack<'_, F> {
    ghost use Rattle.std.specs.Prelude.{[]};
    ghost use Rattle.std.proofs.Common.{arith};
    ghost use Rattle.dijkstra_steiner.specs.Stacks.{rest_on};

    ghost size = { λ x. x.stack.size };

    ghost pieces = { λ _. [] };

    ghost rest = { λ x. rest_on x.stack.size (F.terminals x.family.now) (F.low x.family.now) };

    ghost slow = { λ x p k a b weighs connects. absurd (Prim.omega (arith, weighs.1)) };

    fn rest(&self, v: Vertex, place: Place) -> u64 {
        let at = Spot { vertex: v, place };
        let mask = self.stack.mask(at);
        if mask >= self.all {
            return 0;
        }
        let under = self.stack.under(at);
        self.family.low(self.all - mask, under.vertex, under.place)
    }
}
