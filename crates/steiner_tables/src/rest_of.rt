//! What a family leaves to go.

ghost use Rattle.std.specs.Prelude.{◌<◌};
ghost use Rattle.steiner_tables.specs.Masks.{all_of};

use crate::family::Family;
use crate::terminal_masks::single_of;
use grid_base::{Place, Vertex};
use label_search::Bound;

/// The bound of a family for the terminals of one mask: what is still to go to them.
#[derive(Drop)]
pub struct RestOf<'a, F: Family> {
    pub(crate) family: &'a F,
    pub(crate) mask: u32,
    pub ghost some: { 0 < mask },
    pub ghost within: { mask < all_of (F.terminals family.now) },
}

impl<'a, F: Family> RestOf<'a, F> {
    ghost use Rattle.std.specs.Prelude.{◌≡◌, ◌≤◌, ◌<◌, length};
    ghost use Rattle.steiner_tables.specs.Masks.{few_terminals, single};

    /// What is still to go to one of several terminals.
    pub fn to_one(family: &'a F, place: u32) -> RestOf<'a, F>
        requires several { 2 ≤ length (F.terminals family.now) }
        requires few { length (F.terminals family.now) ≤ few_terminals }
        requires place { place < length (F.terminals family.now) }
        ensures family { result.family.now ≡ family.now }
        ensures mask { result.mask ≡ single place }
    {
        RestOf {
            family,
            mask: single_of(place),
        }
    }
}

impl<'a, F: Family> Bound for RestOf<'a, F> {
    ghost use Rattle.std.proofs.Common.{arith};

    ghost size = { λ x. F.size x.family.now };

    ghost pieces = { λ x. F.pieces x.family.now };

    ghost rest = { λ x. F.low x.family.now x.mask };

    ghost slow = { λ x. (F.holds x.family.now).steps x.mask x.some (Prim.omega arith) };

    fn rest(&self, v: Vertex, place: Place) -> u64 {
        self.family.low(self.mask, v, place)
    }
}
