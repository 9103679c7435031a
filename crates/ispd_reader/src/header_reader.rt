//! The reader of what stands before the nets.

ghost use Rattle.ispd_reader.specs.HeaderStages.{IsStage};

use crate::header_stage::{HeaderStage, LayoutStage, ListStage, SizeStage};
use crate::header_steps::{
    behind_values, first_word, left_border, lower_border, second_word, size_token, tile_width,
};
use crate::layer_list::LayerList;
use crate::layer_lists::LayerLists;
use design_tokens::{CutToken, InputError, Wanted, side};
use grid_base::Size;
use grid_graph::GridParts;
use std::alloc::Global;
use std::mem;

/// What of it has been read.
#[derive(Debug, Drop)]
pub(crate) struct HeaderReader {
    alloc: Global,
    stage: HeaderStage,
    lists: LayerLists,
    pub ghost limits: { IsStage stage lists },
}

impl HeaderReader {
    ghost use Rattle.std.specs.Prelude.{◌≡◌, IfOk, IfSome};
    ghost use Rattle.grid_graph.specs.Layouts.{IsGridParts, layout_of_parts};
    ghost use Rattle.design_tokens.specs.Parsing.{Reading};
    ghost use Rattle.ispd_reader.specs.Header.{header_at};
    ghost use Rattle.ispd_reader.specs.HeaderLeft.{header_left};
    ghost use Rattle.design_tokens.specs.Steps.{ReadsNext, TakesNext, TakesOrEnds, IsMissing};
    ghost use Rattle.ispd_reader.specs.Views.{header_of};
    ghost use Rattle.ispd_reader.specs.declared.header_stage.HeaderStage.TheVariants.{List, Tiles};
    ghost use Rattle.ispd_reader.specs.declared.header_stage.ListStage.TheVariants.{Value};
    ghost use Rattle.ispd_reader.specs.declared.header_stage.LayoutStage.TheVariants.{Height};

    /// Nothing has been read.
    pub(crate) fn new(alloc: Global) -> Self
        ensures { (r : Reading) → header_left result r ≡ header_at r }
    {
        HeaderReader {
            alloc,
            stage: HeaderStage::Size(SizeStage::Grid),
            lists: LayerLists::new(alloc),
        }
    }

    /// The word, or number, that is next.
    pub(crate) fn wanted(&self) -> Wanted
        ensures { IsMissing result (header_left self.now) }
    {
        self.stage.wanted()
    }

    /// Takes the next token. With the last one it hands out what was read.
    #[inline(never)]
    pub(crate) fn take(&mut self, token: &CutToken) -> Result<Option<GridParts>, InputError>
        ensures takes { TakesOrEnds token.now (λ p. header_of (layout_of_parts p)) result (header_left self.old) (header_left self.new) }
        ensures limits { IfOk result (λ parts. IfSome parts IsGridParts) }
    {
        match self.stage {
            HeaderStage::Size(stage) => {
                self.stage = size_token(token, stage)?;
                Ok(None)
            }
            HeaderStage::List { size, list, stage } => {
                self.take_of_list(token, size, list, stage)?;
                Ok(None)
            }
            HeaderStage::Tiles { size, stage } => self.take_of_tiles(token, size, stage),
        }
    }

    /// Takes the next token of this list.
    fn take_of_list(
        &mut self,
        token: &CutToken,
        size: Size,
        list: LayerList,
        stage: ListStage,
    ) -> Result<(), InputError>
        requires { self.old.stage ≡ List size list stage }
        ensures { TakesNext token.now result (header_left self.old) (header_left self.new) }
    {
        match stage {
            ListStage::FirstWord => {
                self.stage = first_word(token, size, list)?;
                Ok(())
            }
            ListStage::SecondWord => {
                self.stage = second_word(token, size, list)?;
                Ok(())
            }
            ListStage::Value { done } => self.take_value(token, size, list, done),
        }
    }

    /// Takes the next token as a number of this list, of which `done` have been read.
    fn take_value(
        &mut self,
        token: &CutToken,
        size: Size,
        list: LayerList,
        done: u32,
    ) -> Result<(), InputError>
        requires { self.old.stage ≡ List size list (Value done) }
        ensures { TakesNext token.now result (header_left self.old) (header_left self.new) }
    {
        self.lists.take(token, size, list, done)?;
        self.stage = behind_values(size, list, done + 1);
        Ok(())
    }

    /// Takes the next of the numbers that say where the tiles lie.
    fn take_of_tiles(
        &mut self,
        token: &CutToken,
        size: Size,
        stage: LayoutStage,
    ) -> Result<Option<GridParts>, InputError>
        requires { self.old.stage ≡ Tiles size stage }
        ensures takes { TakesOrEnds token.now (λ p. header_of (layout_of_parts p)) result (header_left self.old) (header_left self.new) }
        ensures limits { IfOk result (λ parts. IfSome parts IsGridParts) }
    {
        match stage {
            LayoutStage::Left => {
                self.stage = left_border(token, size)?;
                Ok(None)
            }
            LayoutStage::Lower { left } => {
                self.stage = lower_border(token, size, left)?;
                Ok(None)
            }
            LayoutStage::Width { origin } => {
                self.stage = tile_width(token, size, origin)?;
                Ok(None)
            }
            LayoutStage::Height { origin, width } => {
                let parts = self.take_last(token, size, origin, width)?;
                Ok(Some(parts))
            }
        }
    }

    /// Takes the last token, and hands out what was read. Nothing has been read then.
    fn take_last(
        &mut self,
        token: &CutToken,
        size: Size,
        origin: (i64, i64),
        width: i64,
    ) -> Result<GridParts, InputError>
        requires { self.old.stage ≡ Tiles size (Height origin width) }
        ensures parts { ReadsNext token.now (λ p. header_of (layout_of_parts p)) result (header_left self.old) }
        ensures limits { IfOk result IsGridParts }
    {
        let height = side(token)?;
        let lists = mem::replace(&mut self.lists, LayerLists::new(self.alloc));
        self.stage = HeaderStage::Size(SizeStage::Grid);
        Ok(GridParts {
            size,
            vertical: lists.vertical,
            horizontal: lists.horizontal,
            widths: lists.widths,
            spacings: lists.spacings,
            origin,
            tile: (width, height),
        })
    }
}
