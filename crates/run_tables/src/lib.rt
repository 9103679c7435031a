//! Whole runs over a desk in memory, as tables tell them.
//!
//! A table has a paragraph for each run, maybe with a comment in front of it. The first line has the words, and maybe a bar and a
//! call that fails. The second line has the texts that the desk has: a design, and behind a bar each the routes, the certificate
//! and the edits, as far as there are any; or `-` where it has no file. The third has the status, with a word behind it where the
//! desk strayed or starved. Then come the texts that are left: the report, the routes, the certificate, the design, the guides
//! and the map. There `-` is nothing, `?` is not known, and of lines that lack at the end nothing was written. `;` is a line end
//! within a text.
//!
//! ```text
//! measure a.gr a.routes
//! ROW|a 0;(5,5,1)-(25,5,1);!;
//! 0
//! nets 1;forced 0;beyond 0;overflow 0;wirelength 2;peak 1/2;
//! ```
//!
//! It stands on `worked_designs`, `test_rows` and `gr_desk`. The tests of whole runs stand on it, each over its own program.
//!
//! Promised: nothing. A paragraph that tells no run is refused.

#![tactic(auto)]

mod calls;
mod left;
mod told;

pub use calls::{failing_call, failing_of, port_of};
pub use left::{Left, left_agrees, left_of};
pub use told::{Told, desk_by_steps, desk_of, told_of, words_of};
