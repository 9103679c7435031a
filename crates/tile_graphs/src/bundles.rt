//! Nets in bundles.

ghost use Rattle.std.specs.Prelude.{◌≡◌, ◌<◌, ◌≤◌, ◌^◌, ℕ, All, IfOk};
ghost use Rattle.std.specs.List.{sum_by};
ghost use Rattle.tile_graphs.specs.Bundles.{AreTight, CostAlike, demand_of_bundles, looks_of_bundle, much_of, sets_of_ends};
ghost use Rattle.tile_graphs.specs.Fullness.{in_word};

use crate::ends::Ends;
use grid_base::NoMemory;
use std::alloc::Global;

/// A bundle that has one of so many parts of all demands takes no further net. The last one that it took may be of any demand.
const PARTS: u64 = 1000;

/// Nets with the same ends, and what they use together of an edge of the lowest layer.
#[derive(Debug, Drop, Clone, Copy, PartialEq, Eq, PartialOrd, Ord)]
pub struct Bundle {
    pub ends: Ends,
    pub demand: u64,
}

/// What all bundles use together.
pub fn total_demand(bundles: &[Bundle]) -> u64
    ensures { result ≡ in_word (demand_of_bundles bundles.now) }
{
    let mut total: u64 = 0;
    for bundle in bundles {
        total = total.saturating_add(bundle.demand);
    }
    total
}

/// The most sets of ends that a bundle has.
pub fn most_sets(bundles: &[Bundle]) -> u32
    ensures within { All (λ b. sets_of_ends b.ends.nodes ≤ result) bundles.now }
    ensures least { (n : ℕ) → All (λ b. sets_of_ends b.ends.nodes ≤ n) bundles.now → result ≤ n }
{
    let mut most: u32 = 0;
    for bundle in bundles {
        most = most.max(bundle.ends.sets());
    }
    most
}

/// How often least trees of the bundles look at links, of which there are so many, and at labels of so many nodes, where they
/// look at each link once for each set of ends.
pub(crate) fn looks_of(bundles: &[Bundle], links: u64, nodes: u64) -> u64
    ensures { result ≡ in_word (sum_by (looks_of_bundle links nodes) bundles.now) }
{
    let mut looks: u64 = 0;
    for bundle in bundles {
        let sets = u64::from(bundle.ends.sets());
        let of_labels = nodes.saturating_mul(sets / 4);
        let of_set = links.saturating_add(of_labels);
        looks = looks.saturating_add(sets.saturating_mul(of_set));
    }
    looks
}

/// Neighbours with the same ends in one bundle, as long as it has less than a part of all demands.
pub(crate) fn merged(alloc: Global, singles: &[Bundle]) -> Result<Vec<Bundle>, NoMemory>
    ensures alike { IfOk result (λ bundles. demand_of_bundles singles.now < 2 ^ 64 → CostAlike bundles.items singles.now) }
    ensures tight { IfOk result (λ bundles. AreTight (much_of singles.now) bundles.items) }
{
    let most = total_demand(singles) / PARTS;
    let mut bundles = Vec::new(alloc);
    let mut last: Option<Bundle> = None;
    for single in singles {
        last = Some(match last {
            Some(bundle) if bundle.ends == single.ends && bundle.demand < most => {
                Bundle {
                    ends: bundle.ends,
                    demand: bundle.demand.saturating_add(single.demand),
                }
            }
            Some(bundle) => {
                bundles.push(bundle)?;
                *single
            }
            None => *single,
        });
    }
    if let Some(bundle) = last {
        bundles.push(bundle)?;
    }
    Ok(bundles)
}
