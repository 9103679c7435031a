//! Maps of the congestion that routes make: names in, a picture or a table out.
//!
//! ```text
//! let status = run_map(alloc, &words, desk);    // words: few_exits.gr few_exits.routes few_exits.svg --cut few_exits_cut.cert
//! // nets 8
//! // ..
//! // peak 3/2
//! ```
//!
//! It stands on `command_words` for what the words ask for, on `command_runs` for how every run ends, on `judge_cli` and
//! `route_judge` to read and to judge routes, on `congestion_cells` and `congestion_picture` for the maps, and on `cert_text`,
//! `tree_set`, `grid_graph`, `grid_base` and `gr_desk`.
//!
//! Promised, in the words of `specs/MapRuns.antt`, which is the page to begin with: where the status is 0, the routes are routes of
//! the design, the map's file has exactly the picture or the table of their loads, and the report is that of `measure`. Every other
//! status but 8, want of memory, has its cause, and the file is created only when all is found.

#![tactic(auto)]

mod drawing;
mod drawn;
mod map_file;
mod map_input;
mod no_layer;
mod outcome;
mod show;
mod top;
mod usage;

pub use top::run_map;
