//! Balls around terminals.
//!
//! A least tree of a grid weighs more than one of its flat grid, at each terminal that it leaves: by the vias from there, and by
//! what the edges around it weigh beyond the tile edges under them. Balls tell how much at least. They grow from all terminals at
//! once, each around its own, and what they tell may be added to any lower bound by tile edges:
//!
//! ```text
//! let mut balls = TerminalBalls::new(alloc, size)?;
//! balls.grow(&weights, &terminals);
//! let beyond = balls.shares(mask, v);
//! ```
//!
//! It stands on `shortest_paths` for a search that its caller leads, on `label_search` for what stands for no number, on
//! `steiner_tables` for masks, and on `grid_graph` and `grid_base`. A growth takes no memory.
//!
//! Promised: along no piece what any terminals have together rises by more than the piece weighs beyond its tile edge, and no
//! terminal has anything at itself. How great the balls get no clause says.
#![tactic(auto)]

mod beyond;
mod cut;
mod growth;
mod limits;
mod sums;
mod terminal_balls;

pub use terminal_balls::TerminalBalls;
