//! The stages in which a tile of an adjustment is read.

ghost use Rattle.std.specs.Prelude.{◌≡◌, IfOk, IfSome};
ghost use Rattle.grid_base.specs.Numbers.{IsInside};
ghost use Rattle.ispd_reader.specs.Adjustments.{place_in};
ghost use Rattle.ispd_reader.specs.AdjustmentsLeft.{tile_left};
ghost use Rattle.design_tokens.specs.Steps.{TakesOrEnds};
ghost use Rattle.ispd_reader.specs.Views.{extent_of_size};

use design_tokens::{CutToken, InputError, number};
use grid_base::{Place, Size};
use text_scan::Number;

/// Which number of a tile is next, and the numbers before it.
#[derive(Clone, Copy, Drop)]
pub(crate) enum TileStage {
    Column,
    Row { col: Number },
    Layer { col: Number, row: Number },
}

impl TileStage {
    /// Takes the next number. With the last one it hands out the tile, where it is inside the grid,
    /// and the place of that number.
    pub(crate) fn take(
        &mut self,
        size: Size,
        token: &CutToken,
    ) -> Result<Option<(Option<Place>, usize)>, InputError>
        ensures takes { TakesOrEnds token.now (λ x. x) result (tile_left (extent_of_size size) self.old) (tile_left (extent_of_size size) self.new) }
        ensures inside { IfOk result (λ read. IfSome read (λ x. IfSome x.0 (λ place. IsInside size place))) }
    {
        let number = number(token)?;
        match *self {
            TileStage::Column => *self = TileStage::Row { col: number },
            TileStage::Row { col } => *self = TileStage::Layer { col, row: number },
            TileStage::Layer { col, row } => {
                return Ok(Some((place_in(size, col, row, number), number.at)));
            }
        }
        Ok(None)
    }
}

/// The place at three numbers, where it is inside the grid.
#[tactic(auto, unfolding(crate::specs::Adjustments::place_in))]
fn place_in(size: Size, col: Number, row: Number, layer: Number) -> Option<Place>
    ensures place { result ≡ place_in (extent_of_size size) col.value row.value layer.value }
    ensures inside { IfSome result (λ place. IsInside size place) }
{
    let col = col.within(0, size.cols() - 1)?;
    let row = row.within(0, size.rows() - 1)?;
    let layer = layer.within(1, size.layers())? - 1;
    Some(Place { col, row, layer })
}
