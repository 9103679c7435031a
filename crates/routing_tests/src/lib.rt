//! The tests of workers, phases and bounds on whole designs.
//!
//! They stand apart from the other tests of designs, so that both are proved side by side. Nothing stands on it.

#![tactic(auto)]

#[cfg(test)]
mod bound_tests;
#[cfg(test)]
mod brought_tests;
#[cfg(test)]
mod cut_tests;
#[cfg(test)]
mod meeting;
#[cfg(test)]
mod pick_tests;
#[cfg(test)]
mod repair_tests;
#[cfg(test)]
mod routings;
#[cfg(test)]
mod settings;
#[cfg(test)]
mod share_tests;
#[cfg(test)]
mod shown_tests;
#[cfg(test)]
mod worker_tests;
