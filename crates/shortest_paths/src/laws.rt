//! A law of tiles: the contract of a call that does nothing.

ghost use Rattle.std.specs.Prelude.{ℕ, ◌↔◌, List, All};
ghost use Rattle.grid_base.specs.declared.piece.Piece.{Piece};
ghost use Rattle.grid_base.specs.Numbers.{IsVertex};
ghost use Rattle.grid_base.specs.Walks.{Joins, InVertices};
ghost use Rattle.grid_graph.specs.Flat.{tile_of, HaveSameTiles};
ghost use Rattle.grid_graph.specs.TilePieces.{tiles_of, HasFreeVias, AreLeastBetweenTiles};
ghost use Rattle.grid_graph.specs.Weighed.{IsAllowed, WeighsOnlyPieces};
ghost use Rattle.label_search.specs.Sets.{IsLeastWeight, IsEither};

use grid_base::{Size, Vertex};

/// Where vias weigh nothing, vertices are joined just where their tiles are, and at the same least weight: that of sets of tile
/// edges, each of which weighs as much as the lightest edge over it.
pub fn least_weights_are_those_of_tiles(flat: &Size, size: &Size, terminals: &[Vertex])
    ensures joined { (pieces across : List (Piece × ℕ)) → HaveSameTiles flat.now size.now → WeighsOnlyPieces size.now pieces
        → HasFreeVias size.now pieces → AreLeastBetweenTiles size.now pieces across
        → All (λ v. IsVertex size.now v.0) terminals.now
        → Joins size.now (IsAllowed pieces) (InVertices terminals.now)
        ↔ Joins flat.now (IsAllowed across) (InVertices (tiles_of size.now terminals.now)) }
    ensures least { (pieces across : List (Piece × ℕ)) (least : ℕ) → HaveSameTiles flat.now size.now
        → WeighsOnlyPieces size.now pieces
        → HasFreeVias size.now pieces → AreLeastBetweenTiles size.now pieces across
        → All (λ v. IsVertex size.now v.0) terminals.now
        → IsLeastWeight size.now pieces (InVertices terminals.now) least
        ↔ IsLeastWeight flat.now across (InVertices (tiles_of size.now terminals.now)) least }
    ensures between { (pieces across : List (Piece × ℕ)) (a b least : ℕ) → HaveSameTiles flat.now size.now
        → WeighsOnlyPieces size.now pieces
        → HasFreeVias size.now pieces → AreLeastBetweenTiles size.now pieces across → IsVertex size.now a → IsVertex size.now b
        → IsLeastWeight size.now pieces (IsEither a b) least
        ↔ IsLeastWeight flat.now across (IsEither (tile_of size.now a) (tile_of size.now b)) least }
{}
