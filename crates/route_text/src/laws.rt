//! What the words of the contracts amount to. Nothing is computed here: each contract is a law.

ghost use Rattle.std.specs.Prelude.{◌≡◌, ◌<◌, ◌↔◌, ℕ, List, All, Contains, filter, length, Ok};
ghost use Rattle.grid_base.specs.declared.axis.Axis.{Axis};
ghost use Rattle.grid_base.specs.declared.piece.Piece.{Piece};
ghost use Rattle.grid_base.specs.declared.size.Size.{Size};
ghost use Rattle.grid_base.specs.Lines.{is_along};
ghost use Rattle.grid_graph.specs.declared.grid.Grid.{Grid};
ghost use Rattle.grid_graph.specs.declared.net_spec.NetSpec.{NetSpec};
ghost use Rattle.tree_set.specs.Order.{IsRising};
ghost use Rattle.tree_set.specs.Routings.{ArePieces};
ghost use Rattle.tree_set.specs.Runs.{IsLongestRun, runs};
ghost use Rattle.text_scan.specs.Reading.{Reading, left, past_blanks, is_next, past_byte};
ghost use Rattle.text_scan.specs.Until.{parts_within};
ghost use Rattle.route_text.specs.BlockPieces.{IsPieceOf};
ghost use Rattle.route_text.specs.Blocks.{segment_at, segments_at, is_at_end, block_at, blocks_at, blocks_of};
ghost use Rattle.grid_graph.specs.Borders.{HasBordersInRange};
ghost use Rattle.grid_graph.specs.Grids.{size_of};
ghost use Rattle.route_text.specs.ReadBack.{AreBlocksOf, IsNamed, IsSet};
ghost use Rattle.route_text.specs.RouteText.{routes_text};
ghost use Rattle.route_text.specs.Written.{written_block, written_blocks};

/// A route text that was written reads back as the very blocks that were written, one per net. They are, in order, of
/// the net's name, its id and the pieces of its set.
pub fn written_routes_read_back()
    ensures text { (g : Grid) (nets : List NetSpec) (trees : List (List Piece)) → HasBordersInRange g → All IsNamed nets → All (ArePieces (size_of g)) trees → blocks_of (routes_text g nets trees) ≡ Ok (written_blocks g nets trees) }
    ensures blocks { (g : Grid) (nets : List NetSpec) (trees : List (List Piece)) → length trees ≡ length nets → All (IsSet g) trees → AreBlocksOf g nets trees (written_blocks g nets trees) }
{}

/// The bounds that the words for reading a text carry never decide what is read, since each segment and each block takes
/// a byte at least: any bound above the number of bytes that are left reads the same.
pub fn no_bound_decides()
    ensures blocks { (r : Reading) (n : ℕ) → length (left r) < n → parts_within is_at_end past_blanks block_at n r ≡ blocks_at r }
    ensures segments { (r : Reading) (n : ℕ) → length (left r) < n → parts_within (is_next 33) (past_byte 33) segment_at n r ≡ segments_at r }
{}

/// The block that is written for a net with a set of pieces names the pieces of that set and no others.
pub fn segments_name_their_pieces()
    ensures pieces { (g : Grid) (n : NetSpec) (tree : List Piece) → IsRising tree → ArePieces (size_of g) tree → (p : Piece) → IsPieceOf g (written_block g n tree) p ↔ Contains tree p }
{}

/// A run goes as far as the set's edges go, at both ends.
pub fn runs_are_longest()
    ensures longest { (s : Size) (axis : Axis) (tree : List Piece) (ends : ℕ × ℕ) → IsRising tree → ArePieces s tree → Contains (runs s (filter (is_along axis) tree)) ends → IsLongestRun s axis tree ends }
{}
