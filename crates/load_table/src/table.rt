//! The table.

ghost use Rattle.std.specs.Prelude.{◌≡◌, ◌<◌, IfOk};
ghost use Rattle.load_core.specs.Parties.{first_party};
ghost use Rattle.load_table.specs.Holdings.{Holding, held};

use crate::found::Found;
use crate::rule::Sums;
use crate::share::Share;
use atomic_table::Table;
use grid_base::NoMemory;
use load_core::Party;
use std::alloc::Global;
use std::marker::Model;

/// Words that start at 0 and change by the steps of shares alone. Contracts see which table it is, with the number of its
/// words. Threads share it by reference.
#[derive(Drop)]
pub struct LoadTable {
    pub(crate) table: Table<u8, Party, u64, Sums, Global>,
}

impl Model for LoadTable {
    ghost use Rattle.std.specs.Prelude.{◌≡◌, ◌<◌};
    ghost use Rattle.atomic_table.specs.Seated.{TableId};

    ghost Value = { TableId };

    ghost view = { λ t. t.table.shared.table_id };

    ghost invariant = { λ t. (t.table.shared.key ≡ t.table.shared.table_id.words) × (0 < t.table.shared.table_id.words) };
}

impl LoadTable {
    /// A table of so many words, all 0, and the one share of it, whose allotment is the whole, 2^62.
    pub fn open(alloc: Global, words: u32) -> Result<(LoadTable, Share), NoMemory>
        requires words { 0 < words }
        ensures words { IfOk result (λ r. r.0.words ≡ words) }
        ensures share { IfOk result (λ r. r.1 ≡ held r.0 (first_party words)) }
    {
        let zeros = vec![in alloc; 0u64; words as usize]?;
        let last = Found::zeros(alloc, words as usize)?;
        let (table, seat) = Table::<u8, Party, u64, Sums, Global>::of_words(
            alloc,
            &zeros,
            &(words as u64),
        )?;
        Ok((LoadTable { table }, Share::whole(seat, zeros, last)))
    }
}
