//! The tests of what goes wrong, and of what may go one way or another: each call of a run that fails, texts that end early, and
//! workers that wait for each other.
//!
//! It stands on `router_cli` and `unavoidable_cli` for the runs, on `run_tables` for what a table tells of one, on
//! `worked_designs` for designs, and on `routing_stages` for gates. Nothing stands on it.

#![tactic(auto)]

#[cfg(test)]
mod call_tests;
#[cfg(test)]
mod cut_tests;
#[cfg(test)]
mod few_exits;
#[cfg(test)]
mod runs;
#[cfg(test)]
mod schedule;
#[cfg(test)]
mod schedule_tests;
