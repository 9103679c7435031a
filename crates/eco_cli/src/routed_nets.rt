//! The nets that edits route.

ghost use Rattle.std.specs.Prelude.{◌≡◌, ℕ, Bool, IfOk};
ghost use Rattle.std.specs.BTreeSet.{contains};
ghost use Rattle.std.specs.List.{list_any};
ghost use Rattle.std.specs.Ordering.{nat_cmp};
ghost use Rattle.eco_cli.specs.RoutedCounts.{routed_count, routes_net};

use edit_text::Edit;
use grid_base::NoMemory;
use grid_graph::NetSpec;
use std::alloc::Global;
use std::collections::BTreeSet;

/// How many of the nets some edit adds or changes.
///
/// Takes time linear in the edits and the nets, times the logarithm of how many edits there are.
pub(crate) fn count_routed(alloc: Global, edits: &[Edit], nets: &[NetSpec]) -> Result<u64, NoMemory>
    ensures { IfOk result (λ count. count ≡ routed_count edits.now nets.now) }
{
    let routed = routed_ids(alloc, edits)?;
    let mut count = 0;
    for net in nets {
        count += u64::from(routed.contains(&net.id));
    }
    Ok(count)
}

/// The ids of the nets that the edits add or change.
fn routed_ids(alloc: Global, edits: &[Edit]) -> Result<BTreeSet<u32>, NoMemory>
    ensures { IfOk result (λ ids. (id : ℕ) → contains nat_cmp ids id ≡ list_any (routes_net id) edits.now) }
{
    let mut ids = BTreeSet::new(alloc);
    for edit in edits {
        match edit {
            Edit::Add { id, .. } | Edit::Change { id, .. } => {
                ids.insert(*id)?;
            }
            Edit::Drop { .. } => {}
        }
    }
    Ok(ids)
}
