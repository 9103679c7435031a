//! Tables with a number for each set of a few terminals and each vertex (Dreyfus and Wagner 1971).
//!
//! The rows of a table are found one by one, those of smaller sets first: a search begins with what the rows before make of a
//! set's row, and its numbers are kept.
//!
//! ```text
//! for mask in 1..last + 1 {
//!     fill(&mut row, &mut rows, &weights, &family, terminals, mask, limit);
//! }
//! ```
//!
//! The row of a terminal alone asks for no other row: `fill_alone` finds it by itself. A mask is made and read by `single_of`,
//! `all_of`, `all_but_root_of`, `has_terminal`, `are_parts` and `is_part`.
//!
//! A `Family` of lower bounds says what the other terminals cost at least (Hougardy, Silvanus and Vygen 2017), and what
//! is above a limit together with them is left out; `NoFamily` leaves nothing out. `RestOf` makes one bound of it, of what is
//! still to go to the terminals of one mask.
//!
//! It stands on `label_search` for searches, on `grid_graph` for `Weights`, and on `grid_base` for vertices and pieces.
//!
//! Promised, as laws: where a table holds, whoever made it, none of its numbers is above a joining set's weight; and a
//! table that was pruned holds when it is completed by its bounds, so what it kept is a least weight.
#![tactic(auto)]

mod family;
mod filling;
mod kept_row;
mod kept_rows;
mod laws;
mod limits;
mod no_family;
mod rest_of;
mod seeds;
mod terminal_masks;

pub use family::Family;
pub use filling::{fill, fill_alone};
pub use kept_rows::KeptRows;
pub use laws::{holding_tables_bound_sets, pruned_tables_hold_completed};
pub use limits::{FEW_TERMINALS, LONE_MASKS, PROPER_MASKS, ROOTED_MASKS};
pub use no_family::NoFamily;
pub use rest_of::RestOf;
pub use terminal_masks::{all_but_root_of, all_of, are_parts, has_terminal, is_part, single_of};
