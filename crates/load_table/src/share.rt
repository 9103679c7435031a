//! A share of a table.

ghost use Rattle.std.specs.Prelude.{◌≡◌, ◌<◌, ◌≤◌, ◌+◌, ◌⊎◌, ℕ, [], replicate, slice_index, true, IfOk, OnErr};
ghost use Rattle.load_core.specs.Events.{MayAdd, MayLoad, MaySub};
ghost use Rattle.load_core.specs.Parties.{IsPart, added, first_party, joined, kept_after_split, loaded, share_at, split_off, taken, whole_allotment};
ghost use Rattle.load_core.specs.Soundness.{IsCloseTo};
ghost use Rattle.load_table.specs.Blocks.{block_len};
ghost use Rattle.load_table.specs.Holdings.{IsShare, held};
ghost use Rattle.load_table.specs.Runs.{LoadsBetween};

use crate::found::{BLOCK, Found};
use crate::reloaded::Reloaded;
use crate::reloading::load_block;
use crate::table::LoadTable;
use crate::{handing, steps};
use atomic_table::Seat;
use grid_base::NoMemory;
use load_core::{Party, WHOLE_ALLOTMENT, lower, raise};
use std::marker::Model;

/// What one party has of the words of a table, what it may have of a word at most, and what it last found there. Contracts
/// see the party of the core, with the history of all that it loaded; the history takes no memory. A share may be moved to
/// another thread. One that is dropped leaves what it has in the words. Amounts and allotments are in the units of the
/// words.
#[derive(Drop)]
pub struct Share {
    seat: Seat<u8, Party>,
    allotment: u64,
    shares: Vec<u64>,
    last: Found,
}

impl Model for Share {
    ghost use Rattle.load_table.specs.Holdings.{Holding, IsHolding, held};

    ghost Value = { Holding };

    ghost view = { λ s. held s.seat.table_id s.seat.me.0 };

    ghost invariant = { λ s. IsHolding s.seat.table_id s.seat.me s.allotment s.shares.items s.last };
}

impl Share {
    /// The one share of a new table, from two lists of as many zeros as the table has words.
    pub(crate) fn whole(seat: Seat<u8, Party>, shares: Vec<u64>, last: Found) -> Share
        requires party { seat.me ≡ (first_party seat.table_id.words, []) }
        requires zeros { (shares.items ≡ replicate seat.table_id.words 0) × (last ≡ replicate seat.table_id.words 0) }
        ensures held { result ≡ held seat.table_id seat.me.0 }
    {
        Share {
            seat,
            allotment: WHOLE_ALLOTMENT,
            shares,
            last,
        }
    }

    /// How much of the word is this share's.
    pub fn share_of(&self, word: u32) -> u64
        requires word { word < self.now.table.words }
        ensures amount { result ≡ share_at word self.now.party }
        ensures share { IsShare self.now }
    {
        self.shares[word as usize]
    }

    /// What the last load of the word found, 0 where there was none.
    pub fn last_of(&self, word: u32) -> u64
        requires word { word < self.now.table.words }
        ensures last { result ≡ slice_index self.now.party.last word }
        ensures share { IsShare self.now }
    {
        self.last.at(word as usize)
    }

    /// The most that this share may have of a word.
    pub fn allotment(&self) -> u64
        ensures allotment { result ≡ self.now.party.allot }
        ensures share { IsShare self.now }
    {
        self.allotment
    }

    /// Adds to a word, in one step: the core's Add.
    pub fn add(&mut self, table: &LoadTable, word: u32, amount: u64)
        requires table { self.old.table ≡ table.now }
        requires word { word < table.now.words }
        requires room { share_at word self.old.party + amount ≤ self.old.party.allot }
        ensures lawful { MayAdd table.now.words self.old.party word amount }
        ensures event { self.new ≡ held self.old.table (added self.old.party word amount) }
        ensures share { IsShare self.new }
    {
        steps::add(&table.table.shared, &mut self.seat, word as usize, amount);
        self.shares[word as usize] += amount;
    }

    /// Takes from a word, in one step: the core's Sub.
    pub fn sub(&mut self, table: &LoadTable, word: u32, amount: u64)
        requires table { self.old.table ≡ table.now }
        requires word { word < table.now.words }
        requires had { amount ≤ share_at word self.old.party }
        ensures lawful { MaySub table.now.words self.old.party word amount }
        ensures event { self.new ≡ held self.old.table (taken self.old.party word amount) }
        ensures share { IsShare self.new }
    {
        steps::sub(&table.table.shared, &mut self.seat, word as usize, amount);
        self.shares[word as usize] -= amount;
    }

    /// What is in a word, read in one step: the core's Load.
    pub fn load(&mut self, table: &LoadTable, word: u32) -> u64
        requires table { self.old.table ≡ table.now }
        requires word { word < table.now.words }
        ensures close { IsCloseTo self.old.party word result }
        ensures whole { result ≤ whole_allotment }
        ensures lawful { MayLoad table.now.words self.old.party word }
        ensures event { self.new ≡ held self.old.table (loaded self.old.party word result) }
        ensures share { IsShare self.new }
    {
        let found = steps::load(&table.table.shared, &mut self.seat, word as usize);
        self.last.put(word as usize, found);
        found
    }

    /// Loads words one after another, each as `load` does: from `first` on, through the first block of eight that isn't known to
    /// be as it was found last, or up to `end`, which isn't loaded.
    pub fn reload(&mut self, table: &LoadTable, first: u32, end: u32) -> Reloaded
        requires table { self.old.table ≡ table.now }
        requires some { first < end }
        requires words { end ≤ table.now.words }
        ensures next { (first < result.next) × (result.next ≤ end) }
        ensures since { (first ≤ result.since) × (result.since ≤ result.next) }
        ensures few { result.next ≤ result.since + block_len }
        ensures far { (first + block_len ≤ result.next) ⊎ (result.next ≡ end) }
        ensures lawful { (w : ℕ) → first ≤ w → w < result.next → MayLoad table.now.words self.old.party w }
        ensures read { LoadsBetween first result.next self.old.party self.new.party }
        ensures whole { (w : ℕ) → first ≤ w → w < result.next → slice_index self.new.party.last w ≤ whole_allotment }
        ensures before { (w : ℕ) → w < result.since → slice_index self.new.party.last w ≡ slice_index self.old.party.last w }
        ensures behind { (w : ℕ) → result.next ≤ w → slice_index self.new.party.last w ≡ slice_index self.old.party.last w }
        ensures table { self.new.table ≡ self.old.table }
        ensures share { IsShare self.new }
    {
        let mut word = first;
        while end - word >= BLOCK as u32 {
            let next = word + BLOCK as u32;
            if !self.reload_block(table, word) {
                return Reloaded { since: word, next };
            }
            word = next;
        }
        if word < end {
            self.load_each(table, word, end);
        }
        Reloaded {
            since: word,
            next: end,
        }
    }

    /// Loads the words of a block that begins here, and answers whether all are known to be as they were found last.
    #[inline(always)]
    fn reload_block(&mut self, table: &LoadTable, first: u32) -> bool
        requires table { self.old.table ≡ table.now }
        requires words { first + block_len ≤ table.now.words }
        ensures read { LoadsBetween first (first + block_len) self.old.party self.new.party }
        ensures whole { (w : ℕ) → first ≤ w → w < first + block_len → slice_index self.new.party.last w ≤ whole_allotment }
        ensures behind { (w : ℕ) → first + block_len ≤ w → slice_index self.new.party.last w ≡ slice_index self.old.party.last w }
        ensures same { result ≡ true → self.new.party.last ≡ self.old.party.last }
        ensures table { self.new.table ≡ self.old.table }
        ensures share { IsShare self.new }
    {
        let found = load_block(&table.table.shared, &mut self.seat, first);
        let same = self.last.has_block(first, &found);
        if !same {
            self.last.put_block(first, &found);
        }
        same
    }

    /// Loads the words from `first` up to `end` one after another, each as `load` does.
    fn load_each(&mut self, table: &LoadTable, first: u32, end: u32)
        requires table { self.old.table ≡ table.now }
        requires some { first < end }
        requires words { end ≤ table.now.words }
        ensures read { LoadsBetween first end self.old.party self.new.party }
        ensures whole { (w : ℕ) → first ≤ w → w < end → slice_index self.new.party.last w ≤ whole_allotment }
        ensures behind { (w : ℕ) → end ≤ w → slice_index self.new.party.last w ≡ slice_index self.old.party.last w }
        ensures table { self.new.table ≡ self.old.table }
        ensures share { IsShare self.new }
    {
        for word in first..end {
            self.load(table, word);
        }
    }

    /// Splits off a new share with this allotment and these amounts, one per word: the core's Split. Its cost is linear in
    /// the words.
    pub fn split(&mut self, table: &LoadTable, allot: u64, given: &[u64]) -> Result<Share, NoMemory>
        requires table { self.old.table ≡ table.now }
        requires part { IsPart table.now.words self.old.party allot given.now }
        ensures lawful { self.old.party.live ≡ true }
        ensures other { IfOk result (λ other. other ≡ held self.old.table (split_off allot given.now)) }
        ensures event { IfOk result (λ _. self.new ≡ held self.old.table (kept_after_split self.old.party allot given.now)) }
        ensures no_memory { OnErr result (self.new ≡ self.old) }
    {
        let alloc = *self.shares.allocator();
        let shares = given.to_vec(alloc)?;
        let last = Found::zeros(alloc, given.len())?;
        let seat = handing::split(&table.table.shared, &mut self.seat, allot, given);
        self.allotment -= allot;
        lower(&mut self.shares, given);
        Ok(Share {
            seat,
            allotment: allot,
            shares,
            last,
        })
    }

    /// Takes in all that another share has, and its history after this one's own: the core's Join. Its cost is linear in
    /// the words.
    pub fn join(&mut self, table: &LoadTable, other: Share)
        requires table { (self.old.table ≡ table.now) × (other.table ≡ table.now) }
        ensures lawful { (self.old.party.live ≡ true) × (other.party.live ≡ true) }
        ensures event { self.new ≡ held self.old.table (joined self.old.party other.party) }
    {
        let Share {
            seat,
            allotment,
            shares,
            last: _,
        } = other;
        handing::join(&table.table.shared, &mut self.seat, seat);
        // The join itself doesn't tell that the sum of the allotments fits: a look at the table does.
        steps::look(&table.table.shared, &mut self.seat);
        self.allotment += allotment;
        raise(&mut self.shares, &shares);
    }
}
