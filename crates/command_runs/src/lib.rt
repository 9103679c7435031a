//! What every run of a program does that reads files, makes others and says something on the report.
//!
//! ```text
//! match read_grounded(alloc, desk, "one_net.gr") {
//!     Ok(grounded) => ..                       // the design with its nets' grounds
//!     Err(refusal) => refuse(desk, refusal),   // refused 3 11 139 number
//! }
//! ```
//!
//! It stands on `ispd_reader` for the design, `grid_graph` for the nets' grounds, `route_text`, `cert_text` and `edit_text` for
//! what the texts of routes, certificates and edits say, `gr_desk` to read from and write to, `tree_set` for budgets, `text_scan`
//! and `grid_base`. It knows nothing of how routes are found, judged or edited.
//!
//! Promised, in the words of `specs/CommandRun.antt`: a run of a command has one status for each way to end, every status but 8, want
//! of memory, has its cause, files are made only by a run that has all it will write, and nothing else is touched.

#![tactic(auto)]

mod design_source;
mod grounded_design;
mod lines;
mod outputs;
mod refusal;
mod refusing;
mod said;
mod saying;
mod sources;
mod statuses;
mod text_fault;

pub use design_source::read_design_source;
pub use grounded_design::GroundedDesign;
pub use lines::{put_budget, put_fields, put_line};
pub use outputs::{make_cert, make_routes};
pub use refusal::Refusal;
pub use refusing::refuse;
pub use said::{Said, say, try_to_say};
pub use saying::say_unwritten;
pub use sources::{grounded, read_grounded, read_source};
pub use text_fault::TextFault;
