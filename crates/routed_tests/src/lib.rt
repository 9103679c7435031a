//! The tests of what is done with a routed design: edits, and climbs to a better bound, with proofs of net bounds.
//!
//! They stand apart from `eco_route` and `bound_climb`, so that these are proved once. Nothing stands on it.

#![tactic(auto)]

#[cfg(test)]
mod climb_tests;
#[cfg(test)]
mod edit_tests;
#[cfg(test)]
mod net_proof_tests;
#[cfg(test)]
mod text_tests;
