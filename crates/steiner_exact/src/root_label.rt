//! The number of a table at the root.

ghost use Rattle.std.specs.Prelude.{◌≡◌, ◌≤◌, All, length};
ghost use Rattle.grid_base.specs.Numbers.{IsVertex};
ghost use Rattle.shortest_paths.specs.LabelWords.{labels_size, masks_of, label_of};
ghost use Rattle.steiner_tables.specs.Masks.{few_terminals, all_but_root};
ghost use Rattle.label_search.specs.Stamped.{far};
ghost use Rattle.steiner_tables.specs.Tables.{answer_at};
ghost use Rattle.steiner_exact.specs.Roots.{root_of};

use grid_base::Vertex;
use shortest_paths::Labels;
use steiner_tables::all_but_root_of;

/// The number of all terminals but the root, at the root.
pub(crate) fn root_label(labels: &Labels, terminals: &[Vertex]) -> Option<u64>
    requires terminals { All (λ v. IsVertex (labels_size labels.now) v.0) terminals.now }
    requires two { 2 ≤ length terminals.now }
    requires few { length terminals.now ≤ few_terminals }
    requires room { all_but_root terminals.now ≤ masks_of labels.now }
    ensures { result ≡ answer_at far (label_of labels.now (all_but_root terminals.now) (root_of terminals.now).0) }
{
    labels.label(
        all_but_root_of(terminals.len()),
        terminals[terminals.len() - 1],
    )
}
