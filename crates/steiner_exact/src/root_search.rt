//! The search for the least weight of a set that joins terminals.

ghost use Rattle.std.specs.Prelude.{◌≡◌, ◌≤◌, ◌<◌, All, length};
ghost use Rattle.grid_base.specs.Numbers.{IsVertex};
ghost use Rattle.grid_base.specs.Walks.{Joins, InVertices};
ghost use Rattle.grid_graph.specs.Weighed.{IsAllowed};
ghost use Rattle.shortest_paths.specs.LabelWords.{labels_size, masks_of, label_of};
ghost use Rattle.label_search.specs.Stamped.{most};
ghost use Rattle.steiner_tables.specs.Masks.{few_terminals, all_but_root};
ghost use Rattle.steiner_exact.specs.Roots.{IsLeastAtRoot, IsAttempt};

use crate::limits::MOST;
use crate::root_label::root_label;
use grid_base::Vertex;
use grid_graph::Weights;
use shortest_paths::{Family, Labels};
use steiner_tables::all_but_root_of;

/// The least weight of a set that joins the terminals, with the table that tells it. The search begins under this limit,
/// which is raised by the slack, and each time by twice as much, until there is a set within it.
pub fn least_at_root<W: Weights, F: Family>(
    weights: &W,
    family: &F,
    terminals: &[Vertex],
    limit: u64,
    slack: u64,
    labels: &mut Labels,
) -> u64
    requires size { labels_size labels.old ≡ W.size weights.now }
    requires family_size { F.size family.now ≡ W.size weights.now }
    requires family { F.pieces family.now ≡ W.pieces weights.now }
    requires family_terminals { F.terminals family.now ≡ terminals.now }
    requires terminals { All (λ v. IsVertex (W.size weights.now) v.0) terminals.now }
    requires two { 2 ≤ length terminals.now }
    requires few { length terminals.now ≤ few_terminals }
    requires room { all_but_root terminals.now ≤ masks_of labels.old }
    requires joined { Joins (W.size weights.now) (IsAllowed (W.pieces weights.now)) (InVertices terminals.now) }
    ensures least { IsLeastAtRoot (W.size weights.now) (W.pieces weights.now) terminals.now (label_of labels.new) result }
    ensures size { labels_size labels.new ≡ labels_size labels.old }
    ensures masks { masks_of labels.new ≡ masks_of labels.old }
{
    let mut within = limit.min(MOST);
    let mut more = slack.max(1).min(MOST);
    let mut found = attempt(weights, family, terminals, within, labels);
    while found.is_none() {
        within = (within + more).min(MOST);
        more = (2 * more).min(MOST);
        found = attempt(weights, family, terminals, within, labels);
    }
    found.unwrap()
}

/// The least weight of a set that joins the terminals, if it is within the limit.
fn attempt<W: Weights, F: Family>(
    weights: &W,
    family: &F,
    terminals: &[Vertex],
    limit: u64,
    labels: &mut Labels,
) -> Option<u64>
    requires size { labels_size labels.old ≡ W.size weights.now }
    requires family_size { F.size family.now ≡ W.size weights.now }
    requires family { F.pieces family.now ≡ W.pieces weights.now }
    requires family_terminals { F.terminals family.now ≡ terminals.now }
    requires terminals { All (λ v. IsVertex (W.size weights.now) v.0) terminals.now }
    requires two { 2 ≤ length terminals.now }
    requires few { length terminals.now ≤ few_terminals }
    requires room { all_but_root terminals.now ≤ masks_of labels.old }
    requires joined { Joins (W.size weights.now) (IsAllowed (W.pieces weights.now)) (InVertices terminals.now) }
    requires limit { limit ≤ most }
    ensures found { IsAttempt (W.size weights.now) (W.pieces weights.now) terminals.now limit (label_of labels.new) result }
    ensures size { labels_size labels.new ≡ labels_size labels.old }
    ensures masks { masks_of labels.new ≡ masks_of labels.old }
{
    let last = all_but_root_of(terminals.len());
    labels.pruned(weights, family, terminals, last, limit);
    root_label(labels, terminals)
}
