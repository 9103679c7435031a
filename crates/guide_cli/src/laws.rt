//! What the words of the contracts amount to. Nothing is computed here: each contract is a law.

ghost use Rattle.std.specs.Prelude.{◌≡◌, ℕ, List, Ok, length};
ghost use Rattle.grid_base.specs.declared.piece.Piece.{Piece};
ghost use Rattle.grid_graph.specs.declared.design.Design.{Design};
ghost use Rattle.grid_graph.specs.Borders.{HasBordersInRange};
ghost use Rattle.guide_text.specs.declared.guide.Guide.{Guide};
ghost use Rattle.guide_text.specs.Guides.{AreGuidesOf};
ghost use Rattle.guide_text.specs.GuideText.{guides_text};
ghost use Rattle.guide_text.specs.ReadGuides.{guides_in};
ghost use Rattle.ispd_reader.specs.Designs.{IsDesignOfText};

/// Where a text names a near design, the text of the guides of its nets reads back as these very guides, whatever the nets' sets are.
pub fn guides_of_designs_read_back()
    ensures { (text : List ℕ) (d : Design) (trees : List (List Piece)) (guides : List Guide) → IsDesignOfText text d → HasBordersInRange d.grid → length trees ≡ length d.nets → AreGuidesOf d.grid d.nets trees guides → guides_in (guides_text guides) ≡ Ok guides }
{}
