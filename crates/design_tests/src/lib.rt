//! The tests that need a whole design: what is read of it, what its nets are routed with, and what is measured and written
//! then.
//!
//! It stands on every library that these tests call. Nothing stands on it.

#![tactic(auto)]

#[cfg(test)]
mod design_grid_tests;
#[cfg(test)]
mod design_text_tests;
#[cfg(test)]
mod guide_tests;
#[cfg(test)]
mod reader_tests;
#[cfg(test)]
mod route_text_tests;
#[cfg(test)]
mod size_tests;
#[cfg(test)]
mod tree_tests;
#[cfg(test)]
mod trees;
