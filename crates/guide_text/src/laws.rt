//! What the words of the contracts amount to. Nothing is computed here: each contract is a law.

ghost use Rattle.std.specs.Prelude.{◌≡◌, All, List, Ok, IsTrue, length};
ghost use Rattle.grid_base.specs.declared.piece.Piece.{Piece};
ghost use Rattle.grid_graph.specs.declared.grid.Grid.{Grid};
ghost use Rattle.grid_graph.specs.declared.net_spec.NetSpec.{NetSpec};
ghost use Rattle.grid_graph.specs.Borders.{HasBordersInRange};
ghost use Rattle.grid_graph.specs.Grids.{size_of};
ghost use Rattle.grid_graph.specs.Nets.{IsNet};
ghost use Rattle.text_scan.specs.Tokens.{is_word};
ghost use Rattle.tree_set.specs.Routings.{ArePieces};
ghost use Rattle.guide_text.specs.declared.guide.Guide.{Guide};
ghost use Rattle.guide_text.specs.Covering.{Covers, ShareNoTile};
ghost use Rattle.guide_text.specs.Guides.{IsGuideOf};
ghost use Rattle.guide_text.specs.GuideText.{guides_text};
ghost use Rattle.guide_text.specs.ReadBack.{IsGuideInRange};
ghost use Rattle.guide_text.specs.ReadGuides.{guides_in};

/// The guide of a net covers exactly the tiles of the net's route, and no tile lies in two of its rectangles.
pub fn guides_cover_their_routes()
    ensures covers { (g : Grid) (n : NetSpec) (tree : List Piece) (guide : Guide) → IsNet g n → ArePieces (size_of g) tree → IsGuideOf g n tree guide → Covers g n tree guide }
    ensures apart { (g : Grid) (n : NetSpec) (tree : List Piece) (guide : Guide) → IsGuideOf g n tree guide → ShareNoTile g guide.rects }
{}

/// The text of guides reads back as these very guides, where it can hold them; and it can hold the guides of a near design.
pub fn written_guides_read_back()
    ensures text { (guides : List Guide) → All IsGuideInRange guides → guides_in (guides_text guides) ≡ Ok guides }
    ensures near { (g : Grid) (n : NetSpec) (tree : List Piece) (guide : Guide) → HasBordersInRange g → IsNet g n → IsTrue (is_word n.name) → IsGuideOf g n tree guide → IsGuideInRange guide }
{}
