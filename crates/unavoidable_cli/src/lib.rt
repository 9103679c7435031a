//! What no routing of a design on its nets' grounds avoids: price lists that show how full some edge is in each, and how much
//! overflow each has.
//!
//! ```text
//! let status = run_unavoidable(&rt, alloc, &words, desk);    // words: box.gr box.routes box.new
//! // bound 3/2
//! // bottleneck 2
//! // (15,5,1)-(25,5,1) 32768
//! // (15,15,1)-(25,15,1) 32768
//! // overflow 2
//! // cut 2
//! // (15,5,1)-(25,5,1) 32768
//! // (15,15,1)-(25,15,1) 32768
//! // routes 2
//! ```
//!
//! The routes are any router's, and have to be accepted by the judge, alone or with a certificate. Their loads show where the
//! design is full; prices there, and 0 elsewhere, show what can't be avoided, whoever made them. The new certificate has the
//! greater bound and the prices that show it, so anybody can judge it again.
//!
//! It stands on `command_runs` for how every run ends, on `judge_cli` and `route_judge` to read and to judge, on `hot_cuts` for
//! price lists, on `dual_bound` and `overflow_bounds` for what they show, on `judge_laws` for the prices that a certificate lists
//! and for the laws that the new one is accepted, on `route_text` and `cert_text` for texts, on `tree_set`, `edge_prices`,
//! `grid_graph` and `grid_base`, on `command_words` for what a name of a file is, and on `gr_desk`.
//!
//! Promised, in the words of `specs/UnavoidableRuns.antt`, which is the page to begin with: where the status is 0, the judge
//! accepts the new certificate, whose bound is not below a given one and holds of every routing, whole or mixed, that keeps
//! to its nets' grounds; no such routing of whole routes has less overflow than is reported; and the printed edges and prices
//! show both, but for a bound that was given. Routes that go beyond their grounds may have less. Every other status but 8,
//! want of memory, has its cause, and the new file is created only when all is found. How much is found no clause says.

#![tactic(auto)]

mod finding;
mod found;
mod given;
mod improved;
mod names;
mod outcome;
mod price_lists;
mod priced_edge;
mod report;
mod routes_alone;
mod show;
mod shown_list;
mod shown_overflow;
mod top;
mod usage;
mod words;

pub use finding::Finding;
pub use priced_edge::PricedEdge;
pub use top::run_unavoidable;
