//! Lists whose makers see them as the plain list of their items.
//!
//! A contract sees a `Vec` as its buffer, and so a list of structs that hold one as records of buffers. It sees `Items` as
//! the list itself, and `Kept` likewise, whose list in addition obeys a rule as long as it stands.
//!
//! ```text
//! pub type Name = Items<u8>;
//! pub type Terms = Kept<Vertex, Distinct>;
//!
//! let name = Name::of(bytes);
//! let first = name.list()[0];
//! ```
//!
//! It stands on nothing. `Items::push` and `append` alone can want memory.
//!
//! Promised: a list is the one that it was made of, and a kept one obeys its rule.

#![tactic(auto)]

mod items;
mod kept;

pub use items::Items;
pub use kept::{Kept, Rule};
