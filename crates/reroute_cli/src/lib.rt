//! Routes that a designer would take: a design, from any routes or from none, routed by negotiation.
//!
//! ```text
//! let status = run_reroute(&rt, alloc, &words, desk);    // words: cut.gr cut.routes new.routes --rounds 0
//! // nets 3
//! // forced 0
//! // routed 0
//! // rerouted 1
//! // rounds 0
//! // overflow 2
//! // wirelength 3
//! // peak 2/1
//! // given 2 5
//! ```
//!
//! It stands on `negotiation` for the new routes, on `command_runs` for how every run ends, on `judge_cli` and `route_judge` to read
//! routes and to judge them, on `route_text` and `cert_text` for texts, on `routing_state` and `tree_set` for measures, on `grid_graph`
//! and `grid_base`, on `judge_laws` for the law that what is written is accepted, on `command_words`, and on `gr_desk`.
//!
//! Promised, in the words of `specs/RerouteRuns.antt`, which is the page to begin with: where the status is 0, the new routes
//! join all nets without a wall, and the judge accepts them; a set that is not that of the given routes lies in its net's
//! ground; where the given routes lack no net, overflow and wirelength are at most theirs, overflow first; and all numbers of
//! the report but `rounds` are those of the design, of the new routes and of the given ones. Every other status but 8, want of
//! memory, has its cause, and the new file is created only when all is computed. How good the new routes are no clause says.

#![tactic(auto)]

mod changes;
mod copies;
mod given;
mod marks;
mod new_routes;
mod outcome;
mod report;
mod reroute_report;
mod rerouted;
mod rerouting;
mod top;
mod usage;

pub use new_routes::NewRoutes;
pub use reroute_report::RerouteReport;
pub use top::run_reroute;
