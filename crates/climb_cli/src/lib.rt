//! The command `climb`: further turns of prices, at which the bound of a certificate may be greater.
//!
//! ```text
//! let status = climb(&rt, alloc, &request, desk);    // climb a.gr a.routes a.cert b.cert --turns 4
//! // turn 2
//! // bound 1/2
//! ```
//!
//! It stands on `judge_cli` and `route_judge` to read and to judge, on `bound_climb` for the climb, on
//! `judge_laws` for the prices that a certificate lists and for the law that the new one is accepted, on
//! `command_runs` for how every run ends, on `route_text` and `cert_text` for texts, on `command_words` for
//! the request, on `gr_desk`, and on `edge_prices`, `tree_set`, `grid_graph` and `grid_base`.
//!
//! Promised, in the words of `specs/ClimbRun.antt`: where the status is 0, the judge accepts the routes with the given certificate and
//! with the new one, whose bound is not below the given one and is that of the first best price list of a climb from the routes'
//! loads; and else a run ends as that of any command does.

#![tactic(auto)]

mod block_loads;
mod climb_answer;
mod climbed_cert;
mod climbing;
mod lines;
mod new_cert;

pub use climbing::climb;
