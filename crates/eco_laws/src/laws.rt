//! What the words of the contracts amount to. Nothing is computed here: each contract is a law.

ghost use Rattle.std.specs.Prelude.{ℕ, ◌≡◌, ◌↔◌, List};
ghost use Rattle.grid_graph.specs.Alike.{AreAlikeDesigns};
ghost use Rattle.grid_graph.specs.declared.design.Design.{Design};
ghost use Rattle.ispd_reader.specs.Designs.{IsDesignOfText};
ghost use Rattle.edit_text.specs.declared.edit.Edit.{Edit};
ghost use Rattle.eco_route.specs.declared.edit_fault.EditFault.{EditFault};
ghost use Rattle.eco_route.specs.EditRefusals.{IsRefusedFor};
ghost use Rattle.eco_route.specs.RoutedDesigns.{RoutedDesign};
ghost use Rattle.eco_laws.specs.EcoChains.{AreEcoSteps};
ghost use Rattle.eco_laws.specs.EditChains.{AreEdited, AreMade, IsFirstRefused};
ghost use Rattle.eco_laws.specs.TextEdits.{IsEditedText};

/// Where a text has a design, and another one has its header, its adjustments and its nets with some edits made on the list of
/// nets, this other text names the design that the edits make of the first. So whatever design is read of it is alike. The same
/// holds of the design that a list of eco steps ends with.
pub fn an_edited_text_names_the_edited_design()
    ensures named { (old new : List ℕ) (edits : List Edit) (d d' : Design)
        → IsDesignOfText old d → IsEditedText edits old new → AreEdited edits d d' → IsDesignOfText new d' }
    ensures alike { (old new : List ℕ) (edits : List Edit) (d d' e : Design)
        → IsDesignOfText old d → IsEditedText edits old new → AreEdited edits d d' → IsDesignOfText new e → AreAlikeDesigns e d' }
    ensures stepped { (old new : List ℕ) (edits : List Edit) (r r' : RoutedDesign)
        → IsDesignOfText old r.design → IsEditedText edits old new → AreEcoSteps edits r r' → IsDesignOfText new r'.design }
{}

/// What edits come to is the same on designs that are alike: what they make, which of them is refused first, and for what. Where
/// all are made on the one, none is refused on the other.
pub fn alike_designs_are_edited_alike()
    ensures edited { (edits : List Edit) (d e d' e' : Design) → AreAlikeDesigns d e → AreEdited edits d d' → AreEdited edits e e' → AreAlikeDesigns d' e' }
    ensures faults { (edit : Edit) (d e : Design) (fault : EditFault) → AreAlikeDesigns d e → IsRefusedFor d edit fault ↔ IsRefusedFor e edit fault }
    ensures refused { (edits : List Edit) (d e : Design) (k j : ℕ) (fault other : EditFault)
        → AreAlikeDesigns d e → IsFirstRefused edits d k fault → IsFirstRefused edits e j other → (k ≡ j) × (fault ≡ other) }
    ensures apart { (edits : List Edit) (d e d' : Design) (k : ℕ) (fault : EditFault)
        → AreAlikeDesigns d e → AreMade edits d d' → ¬ IsFirstRefused edits e k fault }
{}
