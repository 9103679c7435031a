//! By how much trees of the grid weigh more than those of the flat grid.

use crate::limits::LED_VIA;
use grid_base::NoMemory;
use std::alloc::Global;

/// So many numbers of terminals are told apart.
const COUNTS: usize = 6;

/// So many lengths are told apart, each from a power of two to the next.
const LENGTHS: usize = 65;

/// A gap counts in so many parts of a via.
const PARTS: u64 = 256;

/// The first gap counts for so many vias at most, so that one net that goes far out of its way floods nothing for the next.
const FIRST_VIAS: u64 = 32;

/// A search counts for one part of so many in what is kept.
const WINDOW: u64 = 8;

/// How far above what tiles and balls tell the limit of a search begins, and by how much it is raised first.
#[derive(Clone, Copy)]
pub(crate) struct Slacks {
    pub(crate) first: u64,
    pub(crate) more: u64,
}

/// What searches came to of as many terminals that lie as far apart: the gap between a least tree of the grid and what tiles and
/// balls tell of it, as a mean in which the latest ones count most, and none for more than twice as much as those before. A limit
/// that is too high costs more than one that is too low, and the tree is the same under any.
#[derive(Drop)]
pub struct Gaps {
    /// In parts of a via; 0 where no search was made yet, or none that had a gap.
    means: Vec<u64>,
}

impl Gaps {
    ghost use Rattle.std.specs.Prelude.{◌≡◌, ◌≤◌, ◌*◌, IfOk, length};

    /// No search was made yet.
    pub(crate) fn new(alloc: Global) -> Result<Gaps, NoMemory>
        ensures { IfOk result (λ gaps. length gaps.means.items ≡ 6 * 65) }
    {
        let mut means = vec![in alloc; 0; COUNTS * LENGTHS]?;
        Ok(Gaps { means })
    }

    /// The slacks for so many terminals, whose least tree of the flat grid weighs so much. Where vias weigh little or no search
    /// tells, both are the given one.
    pub(crate) fn slacks(&self, terminals: usize, across: u64, via: u64, slack: u64) -> Slacks
        ensures first { via ≤ 4 → result.first ≡ slack }
        ensures more { via ≤ 4 → result.more ≡ slack }
    {
        let mean = self.means.get(mean_place(terminals, across, via));
        match mean {
            Some(mean) if *mean > 0 && via > LED_VIA => {
                let expected = mean.saturating_mul(via) / PARTS;
                Slacks {
                    first: expected.saturating_add(expected / 8),
                    more: (expected / 4).max(via),
                }
            }
            _ => Slacks {
                first: slack,
                more: slack,
            },
        }
    }

    /// Takes in the gap of a search, where vias weigh enough.
    pub(crate) fn learn(&mut self, terminals: usize, across: u64, via: u64, gap: u64)
        ensures { length self.new.means.items ≡ length self.old.means.items }
    {
        let place = mean_place(terminals, across, via);
        if place < self.means.len() && via > LED_VIA {
            let mean = self.means[place];
            let most = if mean == 0 {
                FIRST_VIAS * PARTS
            } else {
                mean.saturating_mul(2)
            };
            let parts = (gap.saturating_mul(PARTS) / via).min(most);
            self.means[place] = if mean == 0 {
                parts
            } else {
                (mean - mean / WINDOW).saturating_add(parts / WINDOW)
            };
        }
    }
}

/// Where the mean of so many terminals stands, whose least tree of the flat grid weighs so much.
fn mean_place(terminals: usize, across: u64, via: u64) -> usize {
    let vias = across / via.max(1);
    let length = (u64::BITS - vias.leading_zeros()) as usize;
    terminals.saturating_mul(LENGTHS).saturating_add(length)
}
