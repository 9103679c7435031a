//! The least weight that joins a few terminals, by one search over the sets of these and the vertices of a flat grid.
//!
//! A table of all sets finds one row after the other under a limit that was guessed. Here all rows grow at once: a set of terminals,
//! as a mask, is taken out at a vertex in the order of the sum of its number and of what is still to go for the other terminals
//! (Hougardy, Silvanus and Vygen, "Dijkstra meets Steiner", 2017). So none is taken out for which that is above the least weight, and
//! nothing has to be guessed.
//!
//! ```text
//! let mut labels = MaskLabels::new(alloc, flat)?.unwrap();
//! let least = least_over_masks(&weights, &family, &terminals, &mut labels);
//! ```
//!
//! The grid stands on top of itself, a layer for each mask, so that a mask at a vertex is a vertex of this stack (`Stack`), and one
//! `Row` of `label_search` is the search. It stands on that, on `steiner_tables` for families and masks, on `grid_graph` for
//! `Weights`, and on `grid_base` for vertices. A search takes no memory.
//!
//! Promised: the number is exactly the least weight of a set of allowed pieces that joins the terminals, whatever family led the
//! search. How much that leaves out no clause says.
#![tactic(auto)]

mod limits;
mod mask_labels;
mod merging;
mod relaxing;
mod rest_on_stack;
mod search;
mod stack;

pub use mask_labels::MaskLabels;
pub use search::least_over_masks;
