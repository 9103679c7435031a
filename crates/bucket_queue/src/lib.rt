//! A queue for searches whose keys are small whole numbers: items in buckets by their keys.
//!
//! ```text
//! let mut queue = BucketQueue::new(alloc)?;
//! queue.push(7, item)?;
//! let first = queue.pop();
//! ```
//!
//! To put an item in and to take one out costs the same however many wait, beside the empty buckets that are passed over
//! (Dial, "Algorithm 360: shortest-path forest with topological ordering", 1969). Of the items of one bucket the last comes
//! out first, so that a search which is led by a bound runs straight to its goal.
//!
//! Promised: what is put in waits in the bucket of its key, and what comes out is the last item of the first bucket with any.
//!
//! It stands on `grid_base` for the error.
#![tactic(auto)]

mod queue;

pub use queue::BucketQueue;
