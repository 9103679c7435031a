//! What may happen to a core.

use crate::amounts::Amounts;

/// An event of a core. Parties and words are counted from 0; `amount`, `allot` and `given` are in the units of the words.
#[derive(Debug, Drop)]
pub enum Event {
    Add {
        party: u32,
        word: u32,
        amount: u64,
    },
    Sub {
        party: u32,
        word: u32,
        amount: u64,
    },
    Load {
        party: u32,
        word: u32,
    },
    Split {
        party: u32,
        allot: u64,
        given: Amounts,
    },
    Join {
        into: u32,
        from: u32,
    },
}
