//! The command `eco`: a routed design is edited, and only the nets that the edits name are routed anew.
//!
//! ```text
//! let status = eco(alloc, &request, desk);    // eco a.gr a.routes a.edits b.routes
//! // nets 3, forced 0, kept 2, routed 1, overflow 4, wirelength 6, peak 3/2, a line each
//! ```
//!
//! It stands on `judge_cli` for what is read and said of routes, on `route_judge` for their sets, on `edit_text` and `eco_route` for
//! the edits, on `eco_laws` for what lists of edits come to, on `command_runs` for how every run ends, on `command_words` for the
//! request, on `gr_desk`, and on `tree_set`, `grid_graph` and `grid_base`.
//!
//! Promised, in the words of `specs/EcoRun.antt`: where the status is 0, nothing can be objected to the routes, the file that was
//! made holds the routes of an eco step for each edit in order, and the report is theirs; the status is 9 exactly where an edit
//! is refused; and else a run ends as that of any command does.

#![tactic(auto)]

mod eco_answer;
mod eco_command;
mod eco_files;
mod eco_input;
mod eco_report;
mod edit_stop;
mod edited_routes;
mod editing;
mod judged_input;
mod judged_routes;
mod refused_edit;
mod reporting;
mod routed_nets;

pub use eco_command::eco;
