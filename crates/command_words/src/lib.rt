//! Which words of a command line are a command, and what the command asks for.
//!
//! ```text
//! // the program's arguments: grouter route a.gr a.routes a.cert --workers 4 --seed 7
//! let words = words_of(alloc, env::args(&rt))?;
//! let command = command_of(alloc, words.as_slice())?;
//! // Command::Route(RouteRequest { input: "a.gr", workers: 4, phases: 4, rounds: 4, seed: 7, budget: None, .. })
//! ```
//!
//! It stands on the kit's `clap`, which gives the values, the defaults and the ranges, and on `thiserror`. The shape of
//! the words is tested before `clap` sees them, since `clap` also takes `--workers=2`, signs, `--help` and `--`.
//!
//! Promised: the words are all arguments but the first, and none where they are not text. Words that are a command are
//! answered with what they ask for, or fail for want of memory alone; all others are refused, or fail for want of memory.
//! `specs/CommandLine.antt` says which words are a command and what they ask for, with no word on how they are read. The
//! programs `reroute` and `congestion_map` have one command each, which no word names: `reroute_of` and `map_of` read it, by
//! `specs/RerouteLine.antt` and `specs/MapLine.antt`.
#![tactic(auto)]

mod arguments;
mod clap_command;
mod climb_request;
mod command;
mod congestion_map;
mod eco_request;
mod guide_request;
mod judge_request;
mod kind;
mod make_request;
mod map_form;
mod map_option;
mod map_request;
mod measure_request;
mod name_form;
mod option_name;
mod picture;
mod read;
mod read_words;
mod requests;
mod reroute;
mod reroute_request;
mod route_request;
mod shape;
mod table;
mod trial_request;
mod verb;
mod word;
mod words_error;

pub use arguments::words_of;
pub use climb_request::ClimbRequest;
pub use command::Command;
pub use congestion_map::map_of;
pub use eco_request::EcoRequest;
pub use guide_request::GuideRequest;
pub use judge_request::JudgeRequest;
pub use make_request::MakeRequest;
pub use map_form::MapForm;
pub use map_request::MapRequest;
pub use measure_request::MeasureRequest;
pub use picture::Picture;
pub use read::command_of;
pub use reroute::reroute_of;
pub use reroute_request::RerouteRequest;
pub use route_request::RouteRequest;
pub use table::Table;
pub use trial_request::TrialRequest;
pub use words_error::WordsError;
