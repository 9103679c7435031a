//! Whole runs of the programs beside `grouter`: what becomes of designs that a reader can work out by hand, and how they refuse.
//!
//! It stands on `reroute_cli`, `unavoidable_cli` and `congestion_cli`, on `judge_cli` and `command_words` for the judge that accepts
//! new certificates, and on `run_tables`. Nothing stands on it.

#![tactic(auto)]

#[cfg(test)]
mod map_refused_tests;
#[cfg(test)]
mod map_tests;
#[cfg(test)]
mod programs;
#[cfg(test)]
mod reroute_refused_tests;
#[cfg(test)]
mod reroute_tests;
#[cfg(test)]
mod runs;
#[cfg(test)]
mod unavoidable_refused_tests;
#[cfg(test)]
mod unavoidable_tests;
