//! Parts of a list, of which no two differ by more than one item.
//!
//! ```text
//! let from = part_start(parts, items, part);
//! let to = part_start(parts, items, part + 1);
//! ```
//!
//! It stands on nothing, and takes no memory.
//!
//! Promised: each part ends where the next begins. That together they are the whole list is a lemma.

#![tactic(auto)]

ghost use Rattle.std.specs.Prelude.{◌≡◌, ◌≤◌, ◌<◌, ◌^◌};
ghost use Rattle.even_parts.specs.EvenParts as words;

/// The place of the first item of a part, or where the parts end, for the number of parts.
pub fn part_start(parts: usize, items: usize, part: usize) -> usize
    requires parts { 1 ≤ parts }
    requires items { items < 2 ^ 32 }
    requires part { part < 2 ^ 32 }
    ensures start { result ≡ words.part_start parts items part }
{
    part * items / parts
}
