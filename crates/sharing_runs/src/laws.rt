//! What the words of the contracts amount to. Nothing is computed here: each contract is a law.

ghost use Rattle.std.specs.Prelude.{◌≡◌, ◌≤◌, ◌^◌, ℕ, List, [], ◌∷◌, length, take, None};
ghost use Rattle.grid_base.specs.declared.piece.Piece.{Piece};
ghost use Rattle.grid_graph.specs.declared.design.Design.{Design};
ghost use Rattle.grid_graph.specs.declared.net_spec.NetSpec.{NetSpec};
ghost use Rattle.grid_base.specs.Lists.{At};
ghost use Rattle.edge_prices.specs.Vectors.{IsLoadList};
ghost use Rattle.tree_set.specs.Loads.{load_list};
ghost use Rattle.sharing_runs.specs.NetSteps.{IsStep};
ghost use Rattle.sharing_runs.specs.SharingRuns.{IsSharingRun};

/// One worker in one phase: where each net's set is a step from the load of the sets before it, the sets are a sharing run.
pub fn steps_in_turn_are_a_run()
    ensures { (d : Design) (trees : List (List Piece))
        → length trees ≡ length d.nets
        → ((k : ℕ) → IsLoadList d.grid (load_list d.grid d.nets (take k trees)))
        → ((k : ℕ) (n : NetSpec) (tree : List Piece) → At d.nets k n → At trees k tree
        → IsStep d.grid n (load_list d.grid d.nets (take k trees)) 1 None tree)
        → IsSharingRun d 1 None (trees ∷ []) }
{}
