//! One set for each net out of those of all phases.

ghost use Rattle.std.specs.Prelude.{◌≡◌, ◌+◌, ◌<◌, ◌∷◌, ℕ, length, All};
ghost use Rattle.tree_set.specs.Loads.{load_on};
ghost use Rattle.tree_set.specs.Routings.{IsRouting};
ghost use Rattle.routing_stages.specs.Limits.{max_phases};
ghost use Rattle.routing_stages.specs.Phases.{phases_load};
ghost use Rattle.routing_stages.specs.Whole.{IsWholeShared, IsWholeChosen};
ghost use Rattle.rounding_pick.specs.ChosenRoutings.{chosen_routing};

use crate::picks::pick;
use crate::taking::take_phases;
use grid_graph::Design;
use load_core::WHOLE_ALLOTMENT;
use routing_stages::{Chosen, Shared, Trees, write_shares};

/// Each net keeps its set of one phase, which is picked for its position under the seed. The sets of all other phases
/// are given up, and their load is taken off the share. This is randomised rounding after Raghavan and Thompson,
/// "Randomized rounding" (1987). It copies no set and takes no memory.
pub fn round(design: &Design, shared: Shared, seed: u64) -> Chosen
    requires whole { IsWholeShared design.now shared }
    ensures chosen { result.trees ≡ chosen_routing seed shared.phases (length design.now.nets) }
    ensures whole { IsWholeChosen design.now result }
    ensures table { result.table ≡ shared.table }
    ensures prices { result.prices.items ≡ shared.prices.items }
    ensures history { result.share.party.history ≡ shared.share.party.history }
{
    let Shared {
        table,
        mut share,
        phases,
        mut loads,
        prices,
    } = shared;
    // It is the one share of the table; by this call the proof knows that it has an entry for each word.
    prove_eq!(share.allotment(), WHOLE_ALLOTMENT);
    let mut others = phases.into_list();
    let mut trees = others.remove(0);
    keep_picked(design, seed, &mut trees, &mut others);
    take_phases(design, &table, &mut share, &others);
    write_shares(&share, 2 * design.grid.size().vertices() + 1, &mut loads);
    Chosen {
        table,
        share,
        trees,
        loads,
        prices,
    }
}

/// Each net gets its set of the phase that is picked for it among those of the first phase, in exchange for the set
/// that it has there.
fn keep_picked(design: &Design, seed: u64, first: &mut Trees, others: &mut [Trees])
    requires first { IsRouting design.now.grid design.now.nets first.old }
    requires others { All (IsRouting design.now.grid design.now.nets) others.old }
    requires few { length others.old < max_phases }
    ensures chosen { first.new ≡ chosen_routing seed (first.old ∷ others.old) (length design.now.nets) }
    ensures routing { IsRouting design.now.grid design.now.nets first.new }
    ensures left { All (IsRouting design.now.grid design.now.nets) others.new }
    ensures loads { (r : ℕ) → load_on design.now.grid design.now.nets first.new r + phases_load design.now.grid design.now.nets others.new r ≡ load_on design.now.grid design.now.nets first.old r + phases_load design.now.grid design.now.nets others.old r }
{
    let phases = others.len() as u32 + 1;
    for position in 0..design.nets.list().len() {
        let phase = pick(seed, position as u32, phases) as usize;
        if phase > 0 {
            first.exchange(&mut others[phase - 1], position);
        }
    }
}
