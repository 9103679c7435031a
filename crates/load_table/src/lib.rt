//! Words that several threads add to at once, each the sum of what they have put there, with no lock round them.
//!
//! A [`LoadTable`] has the words. A thread works on it through a [`Share`], which may be split for another thread and
//! joined again:
//!
//! ```text
//! let (table, mut share) = LoadTable::open(alloc, 2)?;
//! let mut other = share.split(&table, 1 << 61, &[0, 0])?;
//! other.add(&table, 1, 5);
//! let found = share.load(&table, 1);   // 5
//! share.join(&table, other);
//! ```
//!
//! It stands on `load_core` for what its words mean, on `grid_base` for the error type, and on the kit's `atomic_table`.
//!
//! Promised: between any two steps of whatever threads, the words with the parties of all shares are a sound core of
//! `load_core` ([`tables_are_sound_between_steps`]), and each call of a share makes the one event of its name on its own
//! party, `reload` that of `load` for each of its words. So a load finds at least what the share itself has there, and no
//! more above it than the other allotments leave room for. No call waits.
#![tactic(auto)]

mod found;
mod handing;
mod laws;
mod reloaded;
mod reloading;
mod rule;
mod share;
mod steps;
mod table;

pub use laws::tables_are_sound_between_steps;
pub use reloaded::Reloaded;
pub use rule::Sums;
pub use share::Share;
pub use table::LoadTable;
