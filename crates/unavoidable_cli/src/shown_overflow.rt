//! Price lists with the overflow that they show.

ghost use Rattle.std.specs.Prelude.{◌≡◌, ◌⊎◌, ◌≤◌, IfOk};
ghost use Rattle.grid_graph.specs.Grounds.{AreGrounds};
ghost use Rattle.unavoidable_cli.specs.ShownLists.{IsShownList, IsShownOverflow};

use crate::shown_list::ShownList;
use grid_base::NoMemory;
use grid_graph::{Design, Ground};
use overflow_bounds::overflow_shown;
use std::alloc::Global;

/// A price list of a design, and how much overflow it shows.
#[derive(Clone, Copy, Drop)]
pub(crate) struct ShownOverflow<'a> {
    pub prices: &'a [u32],
    pub overflow: u64,
}

/// What a price list shows, where by the net bounds it shows so much: that, or more by least trees of more terminals or by whole
/// wires.
fn with_trees<'a>(
    alloc: Global,
    design: &Design,
    grounds: &[Ground],
    list: ShownList<'a>,
) -> Result<ShownOverflow<'a>, NoMemory>
    requires grounds { AreGrounds design.now.grid design.now.nets grounds.now }
    requires list { IsShownList design.now list }
    ensures shown { IfOk result (IsShownOverflow design.now) }
    ensures no_less { IfOk result (λ shown. list.entry.shown.overflow ≤ shown.overflow) }
{
    let by_trees = overflow_shown(alloc, design, grounds, list.prices)?;
    if by_trees > list.shown.overflow {
        return Ok(ShownOverflow {
            prices: list.prices,
            overflow: by_trees,
        });
    }
    Ok(ShownOverflow {
        prices: list.prices,
        overflow: list.shown.overflow,
    })
}

/// The list that shows more.
fn greater<'a>(first: ShownOverflow<'a>, second: ShownOverflow<'a>) -> ShownOverflow<'a>
    ensures one { (result ≡ first.entry) ⊎ (result ≡ second.entry) }
    ensures not_first { first.entry.overflow ≤ result.overflow }
    ensures not_second { second.entry.overflow ≤ result.overflow }
{
    if second.overflow > first.overflow {
        second
    } else {
        first
    }
}

/// What the one of two price lists shows that shows more.
pub(crate) fn most_overflow<'a>(
    alloc: Global,
    design: &Design,
    grounds: &[Ground],
    first: ShownList<'a>,
    second: ShownList<'a>,
) -> Result<ShownOverflow<'a>, NoMemory>
    requires grounds { AreGrounds design.now.grid design.now.nets grounds.now }
    requires first { IsShownList design.now first }
    requires second { IsShownList design.now second }
    ensures shown { IfOk result (IsShownOverflow design.now) }
    ensures not_first { IfOk result (λ most. first.entry.shown.overflow ≤ most.overflow) }
    ensures not_second { IfOk result (λ most. second.entry.shown.overflow ≤ most.overflow) }
{
    let of_first = with_trees(alloc, design, grounds, first)?;
    let of_second = with_trees(alloc, design, grounds, second)?;
    Ok(greater(of_first, of_second))
}
