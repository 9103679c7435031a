//! Better bounds: prices that climb, turn after turn; and proofs of net bounds that anybody can check.
//!
//! ```text
//! let climbed = climb(&rt, alloc, &design, grounds.as_slice(), prices, budget, loads, 4)?;
//! // climbed.bound is at least the bound at the given prices, and is the bound at climbed.prices
//! let proof = prove_net(alloc, &grid, &net, ground, prices, 0, &mut labels)?;
//! let checked = check_net(alloc, &grid, &net, ground, prices, 0, &proof, &mut labels)?;
//! // the net bound, which is at most what every set costs that joins the net's terminals
//! ```
//!
//! It stands on `dual_bound` for bounds of designs, on `edge_prices` for prices of loads, on `steiner_exact` and `steiner_span` for
//! the steps of nets, on `price_workers` for loads of sets, on `even_parts` and `rayon` for threads; and for proofs of net bounds on
//! `brought_bounds` for tables and moats, on `lower_bound` for net bounds, and on `shortest_paths` for searches.
//!
//! Promised: `climb` answers the first of the price lists of greatest bound among the given one and the price vectors of the
//! loads, to which in each turn come those of a step for each net at the prices of the loads before it. A proof of a net bound is
//! accepted exactly where its table and its moats hold, its number is then at most the cost of every set that joins the net's
//! terminals, and the number of a proof that is made here is the net bound.

#![tactic(auto)]

mod checking;
mod climb_loads;
mod climb_sight;
mod climb_turn;
mod climbed;
mod climbing;
mod label_rows;
mod net_proof;
mod proving;
mod tabled;

pub use checking::check_net;
pub use climbed::Climbed;
pub use climbing::climb;
pub use net_proof::NetProof;
pub use proving::prove_net;
