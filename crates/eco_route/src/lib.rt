//! Edits of a routed design: nets go, come and change, and all others keep their sets.
//!
//! ```text
//! let mut eco = Eco::open(alloc, design, trees)?;
//! for edit in &read_edits(alloc, bytes)? {
//!     eco.apply(edit)?;
//! }
//! write_routes(desk, Port::RoutesOut, eco.design(), eco.trees())?;
//! ```
//!
//! It stands on `edit_text` for edits, on `price_workers` for the set of one net, on `edge_prices` for the prices that follow
//! the loads, and on `sharing_runs`, `steiner_exact`, `tree_set`, `grid_graph`, `grid_base` and `lists`.
//!
//! Promised: each applied edit is an eco step (`IsEcoStep`). The loads are those of the sets as they now stand, kept and never
//! summed anew. An edit is refused for the first fault that applies, and then nothing has changed. But for that a net that
//! goes moves those behind it up in their lists, an edit costs what its own net costs, as long as the greatest load for its
//! capacity stays: neither the nets nor the grid are passed over.

#![tactic(auto)]

mod eco;
mod edit_fault;
mod edit_refusal;
mod net_index;
mod net_lists;
mod net_router;
mod opening;
mod pins;
mod wiring;

pub use eco::Eco;
pub use edit_fault::EditFault;
pub use edit_refusal::EditRefusal;
pub use edit_text::{Edit, EditTextError, Pin, Pins, read_edits};
