//! One search for a net: a cheap way from all that is joined to the nearest of some terminals, at the loads of all others.
//!
//! ```text
//! let tables = LayerTables::of(alloc, &grid)?;
//! let mut search = NetSearch::new(alloc, &grid)?;
//! let plan = Plan::of(&grid, &tables, field, over, &net, margin);
//! search.lay_own(&own, true);
//! let target = Target::of(Site::of(plan.size(), terminal), root);
//! let found = search.nearest(&plan, &[target], &[root])?;
//! ```
//!
//! A* after Hart, Nilsson and Raphael (1968): what is still to go is bounded by the pieces that a way has at least, by the layers
//! on which edges lead into the target's tile and what these cost, and by distances from a landmark (Goldberg and Harrelson, 2005).
//! A search keeps to a box, which grows where nothing is found.
//!
//! It stands on `layer_ways` for which way layers lead, on `bucket_queue` for what waits, on `grid_graph` for grids and nets, on
//! `tree_set` for sets, and on `grid_base` for vertices and pieces.
//!
//! Promised: what is found is a target, an edge of a kind that a net may not use has no weight, none weighs less than a wire, no
//! edge's kind changes, and what is still to go is at most what is counted to each target. That a way is cheap isn't promised, nor
//! that it leads back: what rests on a search tests the ways that it finds.
#![tactic(auto)]

mod bound;
mod entry;
mod field;
mod frame;
mod goal;
mod label;
mod labels;
mod layers;
mod plan;
mod road;
mod search;
mod side;
mod site;
mod stage;
mod target;
mod view;
mod wave;
mod weights;

pub use field::Field;
pub use layer_ways::LayerTables;
pub use plan::Plan;
pub use search::NetSearch;
pub use site::Site;
pub use stage::Stage;
pub use target::Target;
