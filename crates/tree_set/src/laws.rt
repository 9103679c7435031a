//! What the words of the contracts amount to. Nothing is computed here: the contract is a law.

ghost use Rattle.std.specs.Prelude.{◌≡◌, ◌+◌, ℕ, List, [], ◌∷◌, ◌++◌};
ghost use Rattle.grid_base.specs.declared.piece.Piece.{Piece};
ghost use Rattle.grid_graph.specs.declared.grid.Grid.{Grid};
ghost use Rattle.grid_graph.specs.declared.net_spec.NetSpec.{NetSpec};
ghost use Rattle.tree_set.specs.Loads.{load, load_of_all};

/// The load of a list of routings is that of a list of one, and of two lists one after the other the
/// sum of theirs.
pub fn loads_add_up()
    ensures one { (g : Grid) (nets : List NetSpec) (trees : List (List Piece)) (e : ℕ)
        → load_of_all g nets (trees ∷ []) e ≡ load g nets trees e }
    ensures both { (g : Grid) (nets : List NetSpec) (a b : List (List (List Piece))) (e : ℕ)
        → load_of_all g nets (a ++ b) e ≡ load_of_all g nets a e + load_of_all g nets b e }
{}
