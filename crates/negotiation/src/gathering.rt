//! What workers found, by the order of the nets.

ghost use Rattle.std.specs.Prelude.{◌≡◌, IfOk, length};
ghost use Rattle.negotiation.specs.Searches.{AreFindings, AreFound, ArePlaces, IsSight};

use crate::finding::Finding;
use crate::sight::Sight;
use grid_base::NoMemory;
use std::alloc::Global;
use tree_growth::Growth;
use tree_set::Tree;

/// What was found for these nets, in their order. A net that no worker took is searched for here; there is none, but nothing that
/// is proved says so.
pub(crate) fn in_order(
    alloc: Global,
    sight: Sight<'_>,
    nets: &[u32],
    findings: Vec<Finding>,
    growth: &mut Growth,
) -> Result<Vec<Option<Tree>>, NoMemory>
    requires sight { IsSight sight }
    requires nets { ArePlaces sight.design.now nets.now }
    requires findings { AreFindings sight.design.now nets.now findings.items }
    ensures found { IfOk result (λ found. AreFound sight.entry.design.now nets.now found.items) }
{
    let mut found = nothing_for(alloc, sight, nets)?;
    let mut is_done = vec![in alloc; false; nets.len()]?;
    put_in_place(sight, nets, findings, &mut found, &mut is_done);
    search_left_out(sight, nets, &is_done, growth, &mut found)?;
    Ok(found)
}

/// Nothing was found for any of these nets.
fn nothing_for(alloc: Global, sight: Sight<'_>, nets: &[u32]) -> Result<Vec<Option<Tree>>, NoMemory>
    ensures found { IfOk result (λ found. AreFound sight.entry.design.now nets.now found.items) }
{
    let mut found = Vec::with_capacity(alloc, nets.len())?;
    for _net in nets {
        found.push(None)?;
    }
    Ok(found)
}

/// Puts each finding at its place, and marks the place.
fn put_in_place(
    sight: Sight<'_>,
    nets: &[u32],
    mut findings: Vec<Finding>,
    found: &mut Vec<Option<Tree>>,
    is_done: &mut Vec<bool>,
)
    requires findings { AreFindings sight.design.now nets.now findings.items }
    requires found { AreFound sight.design.now nets.now found.old.items }
    requires marks { length is_done.old.items ≡ length nets.now }
    ensures found { AreFound sight.entry.design.now nets.now found.new.items }
    ensures marks { length is_done.new.items ≡ length nets.now }
{
    for i in 0..findings.len() {
        let place = findings[i].place;
        found[place] = findings[i].found.take();
        is_done[place] = true;
    }
}

/// Searches for the nets whose places aren't marked.
fn search_left_out(
    sight: Sight<'_>,
    nets: &[u32],
    is_done: &[bool],
    growth: &mut Growth,
    found: &mut Vec<Option<Tree>>,
) -> Result<(), NoMemory>
    requires sight { IsSight sight }
    requires nets { ArePlaces sight.design.now nets.now }
    requires marks { length is_done.now ≡ length nets.now }
    requires found { AreFound sight.design.now nets.now found.old.items }
    ensures found { IfOk result (λ _. AreFound sight.entry.design.now nets.now found.new.items) }
{
    for place in 0..nets.len() {
        if !is_done[place] {
            found[place] = sight.search(nets[place], growth)?;
        }
    }
    Ok(())
}
