//! Flat grids.

ghost use Rattle.grid_graph.specs.Flat.{IsFlatOf};

use grid_base::Size;

/// The size of the flat grid: the same columns and rows with one layer.
pub fn flat_of(size: Size) -> Size
    ensures { IsFlatOf result size }
{
    Size::new(size.cols(), size.rows(), 1).unwrap()
}
