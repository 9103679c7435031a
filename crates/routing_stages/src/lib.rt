//! What a run is asked for, what its stages hand on, and what its workers wait at.
//!
//! ```text
//! Settings    what a run is asked for
//! Shared      the sets of all phases, as sharing hands them on
//! Chosen      one set for each net, as the pick hands them on
//! Routed      the result, as repair hands it on
//! Gate        what each worker calls before the turn of a net
//! ```
//!
//! It stands on `load_table` and `load_core` for the shared loads, on `edge_prices` for budgets, and on `tree_set`,
//! `grid_graph` and `grid_base`.
//!
//! Promised: the words in which a stage says that what it hands on is whole for its design. The load of all sets is copied
//! from the one share at one place, [`write_shares`].
#![tactic(auto)]

mod chosen;
mod gate;
mod phases;
mod routed;
mod settings;
mod shared;
mod shares;
mod trees;

pub use chosen::Chosen;
pub use gate::{Gate, OpenGate};
pub use phases::Phases;
pub use routed::Routed;
pub use settings::Settings;
pub use shared::Shared;
pub use shares::write_shares;
pub use trees::Trees;
