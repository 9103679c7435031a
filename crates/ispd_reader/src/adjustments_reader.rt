//! The reader of the adjustments, which makes each as soon as it is read.

ghost use Rattle.std.specs.Prelude.{◌≡◌, ◌≤◌, ◌+◌, IfOk, IfSome, IsNone, Ok, []};
ghost use Rattle.grid_base.specs.declared.piece.Piece.{Piece};
ghost use Rattle.grid_base.specs.declared.size.Size.{Size as GridSize};
ghost use Rattle.grid_base.specs.Numbers.{IsPiece};
ghost use Rattle.grid_graph.specs.Grids.{size_of};
ghost use Rattle.text_scan.specs.Reading.{tokens_left};
ghost use Rattle.design_tokens.specs.Parsing.{Reading, parts_at};
ghost use Rattle.ispd_reader.specs.Limits.{max_adjustments};
ghost use Rattle.ispd_reader.specs.Header.{Extent};
ghost use Rattle.ispd_reader.specs.Adjustments.{adjustment_at, adjustments_at};
ghost use Rattle.ispd_reader.specs.Adjusted.{adjustment_of, IsAdjustedBy};
ghost use Rattle.ispd_reader.specs.AdjustmentsLeft.{adjustments_left, alone, FitsSize, MakesNext, AdjustsNext};
ghost use Rattle.design_tokens.specs.Steps.{IsMissing};
ghost use Rattle.ispd_reader.specs.Views.{extent_of_size};

use crate::adjustment::Adjustment;
use crate::adjustment_stage::AdjustmentStage;
use crate::tile_stage::TileStage;
use design_tokens::{CutToken, InputError, Wanted, count};
use grid_base::Size;
use grid_graph::{Grid, MAX_CAPACITY};

/// The most adjustments of a design.
const MAX_ADJUSTMENTS: u32 = 1 << 23;

/// What of them has been read.
#[derive(Drop)]
pub(crate) enum AdjustmentsReader {
    /// Nothing: how many there are is next.
    Count,
    /// An adjustment is read, and so many are owed behind it.
    Adjustment {
        stage: AdjustmentStage,
        index: u32,
        owed: u32,
    },
    /// All of them: what comes now is ignored.
    Done,
}

impl AdjustmentsReader {
    /// Nothing has been read.
    pub(crate) fn new() -> Self
        ensures left { (extent : Extent) (r : Reading) → adjustments_left extent result r ≡ alone (adjustments_at extent r) }
        ensures fits { (size : GridSize) → FitsSize size result }
    {
        AdjustmentsReader::Count
    }

    /// What is missing where no token is left. The text may end where nothing is.
    pub(crate) fn wanted(&self) -> Option<Wanted>
        ensures some { IfSome result (λ w. (extent : Extent) → IsMissing w (adjustments_left extent self.now)) }
        ensures none { IsNone result → (extent : Extent) (r : Reading) → tokens_left r ≡ [] → adjustments_left extent self.now r ≡ Ok [] }
    {
        match self {
            AdjustmentsReader::Adjustment { .. } => Some(Wanted::Number),
            AdjustmentsReader::Count | AdjustmentsReader::Done => None,
        }
    }

    /// Takes the next token. Where an adjustment ends with it, the grid is adjusted.
    #[inline(never)]
    pub(crate) fn take(&mut self, grid: &mut Grid, token: &CutToken) -> Result<(), InputError>
        requires { FitsSize (size_of grid.old) self.old }
        ensures takes { AdjustsNext token.now result grid.old grid.new self.old self.new }
        ensures fits { IfOk result (λ _. FitsSize (size_of grid.new) self.new) }
    {
        match self.next(grid.size(), token)? {
            None => Ok(()),
            Some(adjustment) => {
                apply(grid, adjustment);
                Ok(())
            }
        }
    }

    /// Takes the next token, and hands out the adjustment that ends with it.
    fn next(&mut self, size: Size, token: &CutToken) -> Result<Option<Adjustment>, InputError>
        requires { FitsSize size self.old }
        ensures makes { MakesNext token.now result (adjustments_left (extent_of_size size) self.old) (adjustments_left (extent_of_size size) self.new) }
        ensures fits { IfOk result (λ _. FitsSize size self.new) }
        ensures edge { IfOk result (λ made. IfSome made (λ a. IfSome a.edge (λ e. IsPiece size (Piece.Edge e)))) }
        ensures level { IfOk result (λ made. IfSome made (λ a. a.level ≤ MAX_CAPACITY)) }
    {
        match *self {
            AdjustmentsReader::Count => {
                *self = AdjustmentsReader::before(0, count(token, MAX_ADJUSTMENTS)?);
                Ok(None)
            }
            AdjustmentsReader::Adjustment { stage, index, owed } => {
                let mut stage = stage;
                match stage.take(size, index, token)? {
                    None => {
                        *self = AdjustmentsReader::Adjustment { stage, index, owed };
                        Ok(None)
                    }
                    Some(adjustment) => {
                        *self = AdjustmentsReader::before(index + 1, owed);
                        Ok(Some(adjustment))
                    }
                }
            }
            AdjustmentsReader::Done => Ok(None),
        }
    }

    /// Before so many adjustments, of which the first has this index.
    fn before(index: u32, count: u32) -> Self
        requires { index + count ≤ max_adjustments }
        ensures left { (extent : Extent) (r : Reading) → adjustments_left extent result r ≡ alone (parts_at (adjustment_at extent) index count r) }
        ensures fits { (size : GridSize) → FitsSize size result }
    {
        if count == 0 {
            return AdjustmentsReader::Done;
        }
        AdjustmentsReader::Adjustment {
            stage: AdjustmentStage::From {
                tile: TileStage::Column,
            },
            index,
            owed: count - 1,
        }
    }
}

/// Adjusts one edge of the grid, or none.
fn apply(grid: &mut Grid, adjustment: Adjustment)
    requires edge { IfSome adjustment.edge (λ e. IsPiece (size_of grid.old) (Piece.Edge e)) }
    requires level { adjustment.level ≤ MAX_CAPACITY }
    ensures { IsAdjustedBy grid.old grid.new (adjustment_of adjustment) }
{
    if let Some(edge) = adjustment.edge {
        grid.adjust(edge, adjustment.level);
    }
}
