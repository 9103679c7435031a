//! What every design text keeps, and that it determines its design. Nothing is computed here: each
//! contract is a law.

ghost use Rattle.std.specs.Prelude.{◌≤◌, ℕ, List, All, IsTrue};
ghost use Rattle.text_scan.specs.Tokens.{is_word};
ghost use Rattle.grid_graph.specs.declared.design.Design.{Design};
ghost use Rattle.grid_graph.specs.Limits.{max_id};
ghost use Rattle.grid_graph.specs.Alike.{AreAlikeDesigns};
ghost use Rattle.ispd_reader.specs.Designs.{IsDesignOfText};

/// The name of each net of a design that a text names is a token, and its id is a number of 32 bits.
pub fn names_of_a_design()
    ensures word { (text : List ℕ) (d : Design) → IsDesignOfText text d → All (λ n. IsTrue (is_word n.name)) d.nets }
    ensures id { (text : List ℕ) (d : Design) → IsDesignOfText text d → All (λ n. n.id ≤ max_id) d.nets }
{}

/// A text determines its design: two designs that one text names differ in nothing that a promise speaks of.
pub fn designs_of_a_text_are_alike()
    ensures alike { (text : List ℕ) (d e : Design) → IsDesignOfText text d → IsDesignOfText text e → AreAlikeDesigns d e }
{}
