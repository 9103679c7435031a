//! The tests of `text_scan`, `cert_text`, `command_words`, `gr_desk`, `seed_streams` and `gr_make`.
//!
//! They stand apart from what they test, since a crate with tests is proved once alone and once more with them. Nothing stands
//! on it.

#![tactic(auto)]

#[cfg(test)]
mod certificate_tests;
#[cfg(test)]
mod command_line_tests;
#[cfg(test)]
mod desk_tests;
#[cfg(test)]
mod made_text_tests;
#[cfg(test)]
mod seed_tests;
#[cfg(test)]
mod text_fields;
#[cfg(test)]
mod token_tests;
