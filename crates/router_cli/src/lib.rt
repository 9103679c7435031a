//! All that the program does: words, a desk and a gate in, a status out.
//!
//! ```text
//! let status = run(&rt, alloc, &words, desk, &OpenGate);    // words: route one_net.gr one_net.routes one_net.cert
//! // nets 1
//! // forced 0
//! // rounded 0
//! // rounds 0
//! // overflow 0
//! // wirelength 2
//! // peak 1/2
//! // bound 1/2
//! ```
//!
//! It stands on `command_words` for the words, `command_runs` for reading designs and how runs end, `judge_cli`, `guide_cli`,
//! `eco_cli` and `climb_cli` for other commands, `sharing_phases`, `rounding_pick` and `ripup_repair` for routes and prices,
//! `tree_set` for measures, `dual_bound` for the bound, `route_text` and `cert_text` for texts, `route_judge` for a trial's verdict,
//! `gr_make`, `judge_laws` and `made_designs` for designs that are made and why a trial never fails, `gr_desk` to read and write.
//!
//! Promised, in the words of `specs/Runs.antt`, which is the page to begin with: where the status is 0, the routes that were
//! written join their nets' pins inside the grid, and are the result of a run of phases, picks and rounds of repair; the printed
//! numbers are those of these routes and of this run, and the printed bound is at most the greatest load/capacity of every
//! routing; every other status but 8, want of memory, has its cause, and but for 7 no file is touched.
//!
//! `measure` and `judge` write no file: they say what is measured of routes that are accepted, with the bound of their
//! certificate, which then holds of every routing; or the first reason against them, with status 1. Of routes that are accepted
//! `guide` writes the guides, `eco` the routes of an edited design, and `climb` another certificate. `make` writes the design of a
//! seed, and `trial` sees one through and never finds a no.

#![tactic(auto)]

mod certificate;
mod laws;
mod make;
mod outputs;
mod prepared;
mod report;
mod route;
mod routed_design;
mod top;
mod trial;
mod trial_texts;

pub use laws::{
    repair_adds_no_overflow, routes_of_designs_read_back, texts_of_runs_meet_their_design,
};
pub use top::run;
