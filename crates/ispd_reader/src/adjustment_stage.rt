//! The stages in which an adjustment is read.

ghost use Rattle.std.specs.Prelude.{◌≡◌, ◌≤◌, ℕ, IfOk, IfSome, option_map};
ghost use Rattle.grid_base.specs.declared.piece.Piece.{Piece};
ghost use Rattle.grid_base.specs.Numbers.{IsInside, IsPiece, distance};
ghost use Rattle.ispd_reader.specs.Adjustments.{edge_between, step_between};
ghost use Rattle.ispd_reader.specs.AdjustmentsLeft.{adjustment_left, FitsStage, BecomesNext};
ghost use Rattle.ispd_reader.specs.declared.adjustment_stage.AdjustmentStage.TheVariants as stages;
ghost use Rattle.ispd_reader.specs.Adjusted.{adjustment_of};
ghost use Rattle.design_tokens.specs.Steps.{TakesOrEnds};
ghost use Rattle.ispd_reader.specs.Views.{extent_of_size};

use crate::adjustment::Adjustment;
use crate::tile_stage::TileStage;
use design_tokens::{CutToken, InputError, InputFault, capacity};
use grid_base::{Axis, Edge, Place, Size};
use grid_graph::MAX_CAPACITY;

/// Which part of an adjustment is next, and what its parts before that are.
#[derive(Clone, Copy, Drop)]
pub(crate) enum AdjustmentStage {
    From {
        tile: TileStage,
    },
    To {
        from: Option<Place>,
        tile: TileStage,
    },
    Level {
        edge: Option<Edge>,
    },
}

impl AdjustmentStage {
    /// Takes the next number of the adjustment that has this index. With the last one it hands out
    /// the adjustment.
    pub(crate) fn take(
        &mut self,
        size: Size,
        index: u32,
        token: &CutToken,
    ) -> Result<Option<Adjustment>, InputError>
        requires { FitsStage size self.old }
        ensures takes { TakesOrEnds token.now adjustment_of result (adjustment_left (extent_of_size size) index self.old) (adjustment_left (extent_of_size size) index self.new) }
        ensures fits { IfOk result (λ _. FitsStage size self.new) }
        ensures edge { IfOk result (λ read. IfSome read (λ a. IfSome a.edge (λ e. IsPiece size (Piece.Edge e)))) }
        ensures level { IfOk result (λ read. IfSome read (λ a. a.level ≤ MAX_CAPACITY)) }
    {
        match *self {
            AdjustmentStage::From { tile } => {
                *self = behind_from(tile, size, token)?;
                Ok(None)
            }
            AdjustmentStage::To { from, tile } => {
                *self = behind_to(from, tile, size, index, token)?;
                Ok(None)
            }
            AdjustmentStage::Level { edge } => {
                let level = capacity(token)?;
                Ok(Some(Adjustment { edge, level }))
            }
        }
    }
}

/// What is next behind a number of the first tile.
fn behind_from(tile: TileStage, size: Size, token: &CutToken) -> Result<AdjustmentStage, InputError>
    ensures becomes { (index : ℕ) → BecomesNext token.now result (adjustment_left (extent_of_size size) index (stages.From tile)) (adjustment_left (extent_of_size size) index) }
    ensures fits { IfOk result (λ next. FitsStage size next) }
{
    let mut tile = tile;
    Ok(match tile.take(size, token)? {
        None => AdjustmentStage::From { tile },
        Some(read) => AdjustmentStage::To {
            from: read.0,
            tile: TileStage::Column,
        },
    })
}

/// What is next behind a number of the second tile.
fn behind_to(
    from: Option<Place>,
    tile: TileStage,
    size: Size,
    index: u32,
    token: &CutToken,
) -> Result<AdjustmentStage, InputError>
    requires { IfSome from (λ place. IsInside size place) }
    ensures becomes { BecomesNext token.now result (adjustment_left (extent_of_size size) index (stages.To from tile)) (adjustment_left (extent_of_size size) index) }
    ensures fits { IfOk result (λ next. FitsStage size next) }
{
    let mut tile = tile;
    Ok(match tile.take(size, token)? {
        None => AdjustmentStage::To { from, tile },
        Some(read) => {
            let edge = step_between(size, from, read.0).ok_or(InputFault::AdjustmentPlace {
                at: read.1,
                index,
            })?;
            AdjustmentStage::Level { edge }
        }
    })
}

/// The edge between two neighbours in the grid, if they are on one layer.
#[tactic(auto, unfolding(crate::specs::Adjustments::edge_between))]
fn edge_between(size: Size, a: Place, b: Place) -> Option<Edge>
    requires a { IsInside size a }
    requires b { IsInside size b }
    requires neighbours { distance a b ≡ 1 }
    ensures number { option_map (λ e. e.0) result ≡ edge_between (extent_of_size size) a b }
    ensures edge { IfSome result (λ e. IsPiece size (Piece.Edge e)) }
{
    if a.layer != b.layer {
        return None;
    }
    let near = Place {
        col: a.col.min(b.col),
        row: a.row.min(b.row),
        layer: a.layer,
    };
    let vertex = size.vertex_of(near).unwrap();
    let axis = if a.row == b.row { Axis::X } else { Axis::Y };
    Some(Edge::along(vertex, axis))
}

/// What lies between two tiles of the grid that are neighbours.
fn step_between(size: Size, a: Option<Place>, b: Option<Place>) -> Option<Option<Edge>>
    requires a { IfSome a (λ place. IsInside size place) }
    requires b { IfSome b (λ place. IsInside size place) }
    ensures step { option_map (λ edge. option_map (λ e. e.0) edge) result ≡ step_between (extent_of_size size) a b }
    ensures edge { IfSome result (λ edge. IfSome edge (λ e. IsPiece size (Piece.Edge e))) }
{
    let a = a?;
    let b = b?;
    let steps = u64::from(a.col.abs_diff(b.col))
        + u64::from(a.row.abs_diff(b.row))
        + u64::from(a.layer.abs_diff(b.layer));
    if steps != 1 {
        return None;
    }
    Some(edge_between(size, a, b))
}
