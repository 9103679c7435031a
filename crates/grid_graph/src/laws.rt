//! What the words of the contracts amount to. Nothing is computed here: the contract is a law.

ghost use Rattle.std.specs.Prelude.{ℕ};
ghost use Rattle.grid_base.specs.declared.piece.Piece.{Piece};
ghost use Rattle.grid_base.specs.Numbers.{IsVertex, IsPiece};
ghost use Rattle.grid_graph.specs.declared.grid.Grid.{Grid};
ghost use Rattle.grid_graph.specs.Layouts.{IsPosition};
ghost use Rattle.grid_graph.specs.declared.ground.Ground.{Ground};
ghost use Rattle.grid_graph.specs.Grids.{size_of, Allows, position_of};
ghost use Rattle.grid_graph.specs.Borders.{HasBordersInRange};

/// What a ground allows is a piece of the grid: no number that belongs to no piece, and so nothing that leads outside.
pub fn allowed_are_pieces()
    ensures { (g : Grid) (over : Ground) (p : Piece) → Allows g over p → IsPiece (size_of g) p }
{}

/// The position written for a vertex of a grid whose borders are in range is within that range too,
/// so that `Grid::position_of` may be called for each vertex of such a grid.
pub fn written_positions_fit()
    ensures x { (g : Grid) (v : ℕ) → HasBordersInRange g → IsVertex (size_of g) v → IsPosition (position_of g v).0 }
    ensures y { (g : Grid) (v : ℕ) → HasBordersInRange g → IsVertex (size_of g) v → IsPosition (position_of g v).1 }
{}
