//! Labels of masks of terminals.

ghost use Rattle.std.specs.Prelude.{◌≡◌};
ghost use Rattle.label_search.specs.Rows.{size_in};

use crate::stack::Stack;
use grid_base::{NoMemory, Size};
use label_search::Row;
use std::alloc::Global;

/// The numbers of all masks of up to four terminals at the vertices of a flat grid, by the latest search. Searches take no further
/// memory.
#[derive(Drop)]
pub struct MaskLabels {
    pub(crate) stack: Stack,
    pub(crate) row: Row,
    pub ghost sized: { size_in row ≡ stack.size },
}

impl MaskLabels {
    ghost use Rattle.std.specs.Prelude.{◌≡◌, ◌↔◌, IfOk, IfSome, IsSome};
    ghost use Rattle.dijkstra_steiner.specs.LabelWords.{mask_labels_size};
    ghost use Rattle.dijkstra_steiner.specs.Stacks.{HasStack};

    /// Labels of a flat grid of this size; `None` where it has several layers, or too many vertices for a stack.
    pub fn new(alloc: Global, flat: Size) -> Result<Option<MaskLabels>, NoMemory>
        ensures size { IfOk result (λ o. IfSome o (λ l. mask_labels_size l ≡ flat)) }
        ensures some { IfOk result (λ o. IsSome o ↔ HasStack flat) }
    {
        match Stack::of(flat) {
            Some(stack) => {
                let row = Row::new(alloc, stack.size())?;
                Ok(Some(MaskLabels { stack, row }))
            }
            None => Ok(None),
        }
    }

    /// The size of the flat grid.
    pub fn size(&self) -> Size
        ensures { result ≡ mask_labels_size self.now }
    {
        self.stack.flat()
    }
}
