//! Laws of generated designs: each is the contract of a call that does nothing.

ghost use Rattle.std.specs.Prelude.{◌≡◌, ◌≤◌, ℕ, Ok, length};
ghost use Rattle.grid_base.specs.declared.axis.Axis.TheVariants.{X, Y};
ghost use Rattle.grid_base.specs.Lists.{At};
ghost use Rattle.grid_base.specs.Numbers.{layers};
ghost use Rattle.grid_graph.specs.declared.design.Design.{Design};
ghost use Rattle.grid_graph.specs.declared.ground.Ground.TheVariants.{Open, WithChoked};
ghost use Rattle.grid_graph.specs.declared.net_spec.NetSpec.{NetSpec};
ghost use Rattle.grid_graph.specs.Borders.{HasBordersInRange};
ghost use Rattle.grid_graph.specs.Grids.{size_of};
ghost use Rattle.grid_graph.specs.Grounds.{JoinsTerminals};
ghost use Rattle.gr_make.specs.MadeText.{made_text};
ghost use Rattle.gr_make.specs.Shapes.{IsShape};
ghost use Rattle.ispd_reader.specs.Designs.{contents_of, IsDesignOfText};
ghost use Rattle.ispd_reader.specs.Limits.{max_bytes};
ghost use Rattle.made_designs.specs.Layers.{AllowsAlong};
ghost use Rattle.made_designs.specs.MadeContents.{made_contents};

use gr_make::Shape;

/// The text of a generated design names a design, whatever the seed: nothing in it is refused, and it says the nets and the
/// adjustments that were made. That design is near, so that its routes can be written and read back, and none of its nets
/// is cut off: open and choked edges join each row of the first layer, open edges each column of the second one.
pub fn made_texts_are_designs(seed: u64, shape: Shape)
    requires { IsShape shape }
    ensures bytes { length (made_text seed shape) ≤ max_bytes }
    ensures contents { contents_of (made_text seed shape) ≡ Ok (made_contents seed shape) }
    ensures near { (d : Design) → IsDesignOfText (made_text seed shape) d → HasBordersInRange d.grid }
    ensures rows { (d : Design) → IsDesignOfText (made_text seed shape) d → AllowsAlong d.grid WithChoked X 0 }
    ensures columns { (d : Design) → IsDesignOfText (made_text seed shape) d → AllowsAlong d.grid Open Y 1 }
    ensures reachable { (d : Design) → IsDesignOfText (made_text seed shape) d → (k : ℕ) (n : NetSpec) → At d.nets k n → JoinsTerminals d.grid WithChoked n.terminals }
{}

/// Where open and choked edges join each row of the first layer and each column of the second one, every net is reachable:
/// vias lead from layer to layer everywhere.
pub fn rows_and_columns_reach_all_nets()
    ensures { (d : Design) → 2 ≤ layers (size_of d.grid) → AllowsAlong d.grid WithChoked X 0 → AllowsAlong d.grid WithChoked Y 1 → (k : ℕ) (n : NetSpec) → At d.nets k n → JoinsTerminals d.grid WithChoked n.terminals }
{}
