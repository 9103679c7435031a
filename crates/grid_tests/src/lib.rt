//! The tests of `grid_base`, `tree_set`, `edge_prices`, `straight_runs`, `load_core`, `load_table`, and of the tables of
//! tests.
//!
//! They stand apart from what they test, since a crate with tests is proved once alone and once more with them. Nothing stands
//! on it.

#![tactic(auto)]

#[cfg(test)]
mod event_tests;
#[cfg(test)]
mod load_table_tests;
#[cfg(test)]
mod number_tests;
#[cfg(test)]
mod price_tests;
#[cfg(test)]
mod row_tests;
#[cfg(test)]
mod set_tests;
#[cfg(test)]
mod straight_run_tests;
