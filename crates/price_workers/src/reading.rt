//! Readings of all loads.

ghost use Rattle.std.specs.Prelude.{◌≡◌, ◌+◌, ◌*◌, ◌/◌, ◌≤◌, ◌<◌, ℕ, slice_index, slice_set};
ghost use Rattle.edge_prices.specs.KeptLists.{grid_of, loads_of, KeepsSetting};
ghost use Rattle.grid_graph.specs.Grids.{entries};
ghost use Rattle.grid_graph.specs.Limits.{max_load};
ghost use Rattle.load_table.specs.Holdings.{held, IsShare};
ghost use Rattle.load_table.specs.Runs.{LoadsBetween};
ghost use Rattle.price_workers.specs.Marks.{entries_per_mark, IsFoundBetween, KeepsFound, MarksChanges};
ghost use Rattle.price_workers.specs.Readings.{after_reading, AreCloseTo};

use crate::changes::Changes;
use edge_prices::KeptPrices;
use grid_graph::Grid;
use load_table::{LoadTable, Share};

/// Loads every word of the table, in rising order of its number, so that the kept loads are what was found.
///
/// Where no mark is set, the kept loads are what was found last. So a block of words there that are all as they were, as most are,
/// costs no look at what is kept.
pub(crate) fn read_all(
    share: &mut Share,
    kept: &mut KeptPrices<'_>,
    changes: &Changes,
    table: &LoadTable,
    grid: &Grid,
)
    requires grid { grid_of kept.old ≡ grid.now }
    requires table { share.old.table ≡ table.now }
    requires words { table.now.words ≡ entries grid.now }
    requires changes { MarksChanges grid.now changes.now.marks.items share.old.party.last (loads_of kept.old) }
    ensures reading { share.new ≡ held table.now (after_reading share.old.party (loads_of kept.new)) }
    ensures close { AreCloseTo share.new.party (loads_of kept.new) }
    ensures valid { IsShare share.new }
    ensures setting { KeepsSetting kept.old kept.new }
{
    let words = 2 * grid.size().vertices() + 1;
    load_all(share, kept, table, words);
    settle_all(share, kept, changes, words);
}

/// Loads these words, in rising order. What was kept as it was found last still is.
fn load_all(share: &mut Share, kept: &mut KeptPrices<'_>, table: &LoadTable, words: u32)
    requires table { share.old.table ≡ table.now }
    requires some { 0 < words }
    requires words { words ≤ table.now.words }
    requires entries { words ≤ entries (grid_of kept.old) }
    ensures read { LoadsBetween 0 words share.old.party share.new.party }
    ensures limit { (e : ℕ) → e < words → slice_index share.new.party.last e ≤ max_load }
    ensures keeps { KeepsFound share.old.party.last (loads_of kept.old) share.new.party.last (loads_of kept.new) }
    ensures table { share.new.table ≡ share.old.table }
    ensures valid { IsShare share.new }
    ensures setting { KeepsSetting kept.old kept.new }
{
    let mut word = 0;
    while word < words {
        word = load_some(share, kept, table, word, words);
    }
}

/// Loads words from this one on, as `reload` does, and answers the next one. The kept loads of those that may have changed become
/// what was found.
fn load_some(
    share: &mut Share,
    kept: &mut KeptPrices<'_>,
    table: &LoadTable,
    first: u32,
    words: u32,
) -> u32
    requires table { share.old.table ≡ table.now }
    requires some { first < words }
    requires words { words ≤ table.now.words }
    requires entries { words ≤ entries (grid_of kept.old) }
    ensures next { (first < result) × (result ≤ words) }
    ensures read { LoadsBetween first result share.old.party share.new.party }
    ensures limit { (e : ℕ) → first ≤ e → e < result → slice_index share.new.party.last e ≤ max_load }
    ensures keeps { KeepsFound share.old.party.last (loads_of kept.old) share.new.party.last (loads_of kept.new) }
    ensures table { share.new.table ≡ share.old.table }
    ensures valid { IsShare share.new }
    ensures setting { KeepsSetting kept.old kept.new }
{
    let found = share.reload(table, first, words);
    settle_each(share, kept, found.since, found.next);
    found.next
}

/// The kept loads of these words become what was found last: where nothing is marked they are.
fn settle_all(share: &Share, kept: &mut KeptPrices<'_>, changes: &Changes, words: u32)
    requires words { words ≤ share.now.table.words }
    requires entries { words ≡ entries (grid_of kept.old) }
    requires limit { (e : ℕ) → e < words → slice_index share.now.party.last e ≤ max_load }
    requires changes { MarksChanges (grid_of kept.old) changes.now.marks.items share.now.party.last (loads_of kept.old) }
    ensures found { IsFoundBetween 0 words share.now.party.last (loads_of kept.new) }
    ensures setting { KeepsSetting kept.old kept.new }
{
    let mut word = 0;
    while word < words {
        let end = changes.next_after(word).min(words);
        settle_run(share, kept, changes, word, end);
        word = end;
    }
}

/// The kept loads of these words, which share a mark, become what was found last: where it isn't set they are.
fn settle_run(share: &Share, kept: &mut KeptPrices<'_>, changes: &Changes, first: u32, end: u32)
    requires some { first < end }
    requires run { end ≤ (first / entries_per_mark + 1) * entries_per_mark }
    requires words { end ≤ share.now.table.words }
    requires entries { end ≤ entries (grid_of kept.old) }
    requires limit { (e : ℕ) → first ≤ e → e < end → slice_index share.now.party.last e ≤ max_load }
    requires changes { MarksChanges (grid_of kept.old) changes.now.marks.items share.now.party.last (loads_of kept.old) }
    ensures found { IsFoundBetween first end share.now.party.last (loads_of kept.new) }
    ensures keeps { KeepsFound share.now.party.last (loads_of kept.old) share.now.party.last (loads_of kept.new) }
    ensures setting { KeepsSetting kept.old kept.new }
{
    if !changes.may_be_at(first) {
        return;
    }
    settle_each(share, kept, first, end);
}

/// The kept loads of these words become what was found last.
fn settle_each(share: &Share, kept: &mut KeptPrices<'_>, first: u32, end: u32)
    requires order { first ≤ end }
    requires words { end ≤ share.now.table.words }
    requires entries { end ≤ entries (grid_of kept.old) }
    requires limit { (e : ℕ) → first ≤ e → e < end → slice_index share.now.party.last e ≤ max_load }
    ensures found { IsFoundBetween first end share.now.party.last (loads_of kept.new) }
    ensures keeps { KeepsFound share.now.party.last (loads_of kept.old) share.now.party.last (loads_of kept.new) }
    ensures setting { KeepsSetting kept.old kept.new }
{
    for word in first..end {
        settle(kept, word, share.last_of(word));
    }
}

/// The kept load of a word becomes this one.
fn settle(kept: &mut KeptPrices<'_>, word: u32, load: u64)
    requires word { word < entries (grid_of kept.old) }
    requires load { load ≤ max_load }
    ensures loads { loads_of kept.new ≡ slice_set (loads_of kept.old) word load }
    ensures setting { KeepsSetting kept.old kept.new }
{
    if load != kept.load(word) {
        kept.set_load(word, load);
    }
}
