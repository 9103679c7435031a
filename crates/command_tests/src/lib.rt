//! The tests of whole runs of `grouter`: each command on its worked rows, over a desk in memory.
//!
//! It stands on `router_cli`, and on `run_tables` for what a table tells of a run. Nothing stands on it.

#![tactic(auto)]

#[cfg(test)]
mod climb_run_tests;
#[cfg(test)]
mod eco_run_tests;
#[cfg(test)]
mod guide_run_tests;
#[cfg(test)]
mod judge_run_tests;
#[cfg(test)]
mod make_tests;
#[cfg(test)]
mod run_tests;
#[cfg(test)]
mod runs;
#[cfg(test)]
mod trial_tests;
