//! Numbers from 0 on in groups, which are united two by two.
//!
//! ```text
//! let mut groups = Groups::single(alloc, 3)?;
//! groups.unite(0, 2);
//! let together = groups.root(0) == groups.root(2);
//! ```
//!
//! It stands on `grid_base` for want of memory, which only `single` meets.
//!
//! Promised: whatever holds between any two that are united, and is symmetric and transitive, holds between each number and
//! the root of its group.

#![tactic(auto)]

mod union_find;

pub use union_find::Groups;
