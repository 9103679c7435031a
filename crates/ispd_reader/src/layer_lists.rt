//! The numbers per layer that were read so far.

ghost use Rattle.std.specs.Prelude.{◌≡◌, ◌+◌, ◌<◌, [], IfOk, IfErr};
ghost use Rattle.grid_base.specs.Numbers.{layers};
ghost use Rattle.ispd_reader.specs.HeaderTails.{values_left};
ghost use Rattle.ispd_reader.specs.LayersRead.{AreRead, header_with};
ghost use Rattle.design_tokens.specs.Steps.{TakesNext};

use crate::layer_list::LayerList;
use design_tokens::{CutToken, InputError, capacity, number, spacing, width};
use grid_base::Size;
use std::alloc::Global;

/// The numbers per layer that were read so far.
#[derive(Debug, Drop)]
pub(crate) struct LayerLists {
    pub(crate) vertical: Vec<u32>,
    pub(crate) horizontal: Vec<u32>,
    pub(crate) widths: Vec<u32>,
    pub(crate) spacings: Vec<u32>,
}

impl LayerLists {
    /// None.
    pub(crate) fn new(alloc: Global) -> Self
        ensures vertical { result.vertical.items ≡ [] }
        ensures horizontal { result.horizontal.items ≡ [] }
        ensures widths { result.widths.items ≡ [] }
        ensures spacings { result.spacings.items ≡ [] }
    {
        LayerLists {
            vertical: Vec::new(alloc),
            horizontal: Vec::new(alloc),
            widths: Vec::new(alloc),
            spacings: Vec::new(alloc),
        }
    }

    /// Takes the next token as a number of this list, of which `done` have been read.
    pub(crate) fn take(
        &mut self,
        token: &CutToken,
        size: Size,
        list: LayerList,
        done: u32,
    ) -> Result<(), InputError>
        requires so_far { AreRead (layers size) list done self.old }
        requires room { done < layers size }
        ensures takes { TakesNext token.now result (values_left list (header_with size self.old) done) (values_left list (header_with size self.new) (done + 1)) }
        ensures more { IfOk result (λ _. AreRead (layers size) list (done + 1) self.new) }
        ensures kept { IfErr result (λ _. AreRead (layers size) list done self.new) }
    {
        match list {
            LayerList::Vertical => {
                self.vertical.push(capacity(token)?)?;
                Ok(())
            }
            LayerList::Horizontal => {
                self.horizontal.push(capacity(token)?)?;
                Ok(())
            }
            LayerList::Widths => {
                self.widths.push(width(token)?)?;
                Ok(())
            }
            LayerList::Spacings => {
                let width = self.widths[done as usize];
                self.spacings.push(spacing(token, width)?)?;
                Ok(())
            }
            LayerList::Vias => {
                number(token)?;
                Ok(())
            }
        }
    }
}
