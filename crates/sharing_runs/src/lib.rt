//! What a run of the router is: steps, readings, turns, phases and rounds of repair, as definitions, and a law of them.
//!
//! ```text
//! a step          a set of pieces for one net that is light at the prices of the loads that are seen
//! a sharing run   a step for each net in each phase, by one worker or several
//! a repair run    rounds in which each net whose set holds an overfull edge gives it up for a step
//! ```
//!
//! It stands on `edge_prices` for prices and weights, on `shortest_paths` for distances, and on `tree_set` for routes and
//! loads. No thread, word of memory or label occurs in the definitions, and no code stands here.
#![tactic(auto)]

mod laws;

pub use laws::steps_in_turn_are_a_run;
