//! The tests of the judge on whole texts: routes, and certificates of them, with the answer that each of them has to get.
//!
//! They stand apart from the other tests of designs, so that all are proved side by side. Nothing stands on it.

#![tactic(auto)]

#[cfg(test)]
mod answers;
#[cfg(test)]
mod cert_tests;
#[cfg(test)]
mod reading;
#[cfg(test)]
mod route_tests;
