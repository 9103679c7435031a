//! The command `guide`: routes are judged as by `measure`, and guides for a detailed router written for those that are accepted.
//!
//! ```text
//! let status = guide(alloc, &request, desk);    // guide one_net.gr one_net.routes one_net.guide
//! // guides 1
//! ```
//!
//! It stands on `judge_cli` for what is read and said of routes, on `guide_text` for the guides and their text, on `route_judge`
//! for the sets of routes, on `command_runs` for how every run ends, on `ispd_reader` for the design, on `command_words` for the
//! request, and on `gr_desk`.
//!
//! Promised, in the words of `specs/GuideRun.antt`: where the status is 0, nothing can be objected to the routes, and the file
//! that was made holds the guides of these very routes; a design that is not near is refused with status 3, and no other one; and
//! else a run ends as that of any command does. The text of the guides of a near design reads back, by the law of `laws.rt`.

#![tactic(auto)]

mod far;
mod guide_answer;
mod guided_files;
mod guided_input;
mod guided_routes;
mod guiding;
mod laws;
mod near_design;
mod outputs;

pub use guiding::guide;
pub use laws::guides_of_designs_read_back;
