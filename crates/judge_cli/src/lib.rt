//! The commands that judge: a desk and names in, a status out.
//!
//! ```text
//! let status = judge(&rt, alloc, &request, desk);    // request: one_net.gr one_net.routes one_net.cert
//! // yes
//! // nets 1
//! // forced 0
//! // beyond 0
//! // overflow 0
//! // wirelength 2
//! // peak 1/2
//! // bound 1/2
//! let status = measure(alloc, &request, desk);       // the same of routes alone: no yes, and no bound
//! ```
//!
//! It stands on `command_runs` for what every run does, `command_words` for the requests, `ispd_reader` for the design, `grid_graph`
//! for the nets' grounds, `route_text` and `cert_text` for the texts, `route_judge` for the verdict on them, `tree_set` for
//! measures, `gr_desk` to write to, and `grid_base`. It knows nothing of how routes are found, so whoever trusts `judge` alone
//! reads the definitions of these crates and of those that `route_judge` leads to (`edge_prices`, `dual_bound`, `lower_bound`,
//! `label_search`, `steiner_tables`), and no others.
//!
//! Promised, in the words of `specs/MeasureRun.antt` and `specs/JudgeRun.antt` and of `CommandRun` of `command_runs`: where the
//! status is 0, nothing can be objected to what was read, and the report says what is measured of it; where it is 1, the report has
//! the first objection that applies; every other status but 8, want of memory, has its cause, and no file is ever touched. The bound
//! of a certificate that was accepted holds of every routing, whole or mixed.
//!
//! Other programs that judge what they read stand on the same calls: `read_certified` to read, and an `Answer` to say a reason.

#![tactic(auto)]

mod answer;
mod answer_lines;
mod certified_input;
mod judged_files;
mod judging;
mod measuring;
mod routed_input;
mod routes_report;

pub use answer::Answer;
pub use certified_input::CertifiedInput;
pub use judged_files::{read_blocks, read_certificate, read_certified, read_routed};
pub use judging::judge;
pub use measuring::{answer_on_routes, measure};
pub use routed_input::RoutedInput;
pub use routes_report::RoutesReport;
