//! Words that several parties add to, as a plain value: who has what of each word, and the events that move it.
//!
//! A core has words, which are numbers, and parties. Each party has a share of every word and an allotment, above which
//! none of its shares goes. A party adds to a word or takes away from it, by which its share and the word move together;
//! it loads a word, and keeps what it found; it splits a part of what it has off as a new party; and it joins with
//! another. A core is sound where each word is the sum of the shares and the allotments sum to 2^62, so that no word
//! ever overflows.
//!
//! ```text
//! let mut core = Core::new(alloc, 1)?;                                     // one word, party 0 with all of 2^62
//! let given = Amounts::of(vec![in alloc; 0]?);
//! core.step(&Event::Split { party: 0, allot: 1 << 61, given })?;           // party 1
//! core.step(&Event::Add { party: 1, word: 0, amount: 5 })?;                // true: the word is 5
//! core.step(&Event::Sub { party: 0, word: 0, amount: 1 })?;                // false: party 0 has nothing of it
//! ```
//!
//! It stands on `grid_base` for its one error, want of memory, which a load, a split and a join alone can meet.
//!
//! Promised: `step` answers true exactly where the event is lawful and then makes exactly its effect
//! (`specs/Events.antt`), and otherwise changes nothing; `run` stops at the first event that isn't lawful. By the laws of
//! `laws.rt` every list of lawful events keeps a sound core sound, in whatever order the parties make them, and what a
//! load finds is at least the party's own share, and above it by no more than the allotments of the others.
#![tactic(auto)]

mod amounts;
mod core_state;
mod effects;
mod event;
mod history;
mod lawful;
mod laws;
mod loaded;
mod parties;
mod party;

pub use amounts::{Amounts, lower, raise};
pub use core_state::Core;
pub use event::Event;
pub use history::History;
pub use laws::{every_order_of_events_is_sound, loads_are_close};
pub use loaded::Loaded;
pub use parties::Parties;
pub use party::{Party, WHOLE_ALLOTMENT};
