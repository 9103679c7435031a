//! Labels for the searches of net bounds.

use shortest_paths::Labels;
use steiner_exact::TreeLabels;

/// Labels of the flat grid, which serve where a piece alone costs nothing, or those of trees, where it costs something.
#[derive(Drop)]
pub(crate) enum BoundLabels {
    Tiles(Labels),
    Trees(TreeLabels),
}
