//! The judge: whether routes, and a certificate of them, meet a design, whoever made them.
//!
//! ```text
//! let grounds = design.grounds()?;
//! let blocks = read_block_list(alloc, routes)?;                // or read_routes(alloc, routes)?, and blocks.as_slice()
//! match judge_routes(alloc, &design, grounds.as_slice(), &blocks)? {
//!     Checked::Yes { measure, beyond } => ..    // overflow, wirelength, peak; nets beyond their grounds
//!     Checked::No(reason) => ..                 // Reason::NotJoined { id: 7 }
//! }
//! let cert = read_cert(alloc, certificate)?;
//! let verdict = judge(&rt, alloc, &design, grounds.as_slice(), &blocks, &cert)?;
//! let loads = loads_of(alloc, &design, grounds.as_slice(), &blocks)?;    // the edges' loads, of routes
//! let trees = trees_of(alloc, &design, &blocks)?;    // and the nets' sets
//! match judge_sets(alloc, &design, &blocks)? {       // judged and kept at once
//!     CheckedSets::Yes(trees) => ..
//!     CheckedSets::No(reason) => ..
//! }
//! match sets_of_blocks(alloc, &design, &blocks)? {   // where nets may lack a block
//!     CheckedBlocks::Yes(sets) => ..            // the sets, and which nets need a block and have none
//!     CheckedBlocks::No(reason) => ..
//! }
//! ```
//!
//! It stands on `route_text` and `cert_text` for what was read, on `straight_runs` for blocks as straight runs, on `tree_set` for
//! sets and measures, on `dual_bound` and `edge_prices` for the bound at a certificate's prices, and on `grid_graph` and
//! `grid_base`. It knows nothing of how routes are found.
//!
//! Promised: the reason is that of the first objection that applies, in the order of `specs/Orders.antt`, and there is none
//! exactly where the answer is a yes. A yes has the measure of the sets that the blocks give the nets, each of which joins its
//! net's terminals inside the grid and without walls; and no mixture of routings uses every resource less than the certificate
//! that was accepted states as its bound.

#![tactic(auto)]

mod beyond;
mod block_sets;
mod blocks;
mod bounds;
mod checked;
mod checked_blocks;
mod checked_sets;
mod claims;
mod counted;
mod joining;
mod judging;
mod kept_sets;
mod laws;
mod lines;
mod listing;
mod measured;
mod missing;
mod net_places;
mod net_sets;
mod placing;
mod reason;
mod routes;
mod running_measure;
mod segments;
mod stop;
mod summing;
mod taken;
mod tested;
mod verdict;

pub use block_sets::{BlockSets, sets_of_blocks};
pub use checked::Checked;
pub use checked_blocks::CheckedBlocks;
pub use checked_sets::CheckedSets;
pub use claims::{forced_count, open_count};
pub use counted::Counted;
pub use judging::judge;
pub use kept_sets::judge_sets;
pub use laws::{one_reason_is_found, short_texts_can_be_judged};
pub use listing::listed_prices;
pub use reason::Reason;
pub use routes::{judge_routes, loads_of, trees_of};
pub use verdict::Verdict;
