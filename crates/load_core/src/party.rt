//! A party.

ghost use Rattle.std.specs.Prelude.{◌≡◌, ◌<◌, ◌≤◌, ◌+◌, ◌^◌, ℕ, length, OnOk, OnErr, IfOk, IsTrue, ◌↔◌};
ghost use Rattle.load_core.specs.Parties.{IsPart, added, joined, kept_after_split, loaded, nobody, share_at, spent, split_off, taken, whole_allotment};

use crate::amounts::Amounts;
use crate::history::History;
use crate::loaded::Loaded;
use grid_base::NoMemory;
use std::alloc::Global;

/// What the allotments of all parties of a core sum to.
pub const WHOLE_ALLOTMENT: u64 = 1 << 62;

/// One party: what it may have of a word at most, what it has of each, and what it loaded. `shares` and `last` have one
/// entry per word; `last` is 0 where nothing was loaded.
#[derive(Debug, Drop)]
pub struct Party {
    pub live: bool,
    pub allot: u64,
    pub shares: Amounts,
    pub last: Amounts,
    pub history: History,
}

impl Party {
    // No party, which takes no memory.
    pub(crate) fn nobody(alloc: Global) -> Party
        ensures { result ≡ nobody }
    {
        Party {
            live: false,
            allot: 0,
            shares: Amounts::of(Vec::new(alloc)),
            last: Amounts::of(Vec::new(alloc)),
            history: History::of(Vec::new(alloc)),
        }
    }

    // The new party of a split.
    pub(crate) fn split_off(alloc: Global, allot: u64, given: &[u64]) -> Result<Party, NoMemory>
        ensures { IfOk result (λ party. party ≡ split_off allot given.now) }
    {
        let shares = Amounts::copy_of(alloc, given)?;
        let last = Amounts::zeros(alloc, given.len())?;
        Ok(Party {
            live: true,
            allot,
            shares,
            last,
            history: History::of(Vec::new(alloc)),
        })
    }

    pub(crate) fn share(&self, word: usize) -> u64
        ensures { result ≡ share_at word self.now }
    {
        self.shares.get(word)
    }

    pub(crate) fn add(&mut self, word: usize, amount: u64)
        requires word { word < length self.old.shares }
        requires room { share_at word self.old + amount < 2 ^ 64 }
        ensures { self.new ≡ added self.old word amount }
    {
        let share = self.shares.get(word);
        self.shares.set(word, share + amount);
    }

    pub(crate) fn sub(&mut self, word: usize, amount: u64)
        requires word { word < length self.old.shares }
        requires had { amount ≤ share_at word self.old }
        ensures { self.new ≡ taken self.old word amount }
    {
        let share = self.shares.get(word);
        self.shares.set(word, share - amount);
    }

    pub(crate) fn load(&mut self, word: u32, value: u64) -> Result<(), NoMemory>
        requires word { word < length self.old.last }
        ensures loaded { OnOk result (self.new ≡ loaded self.old word value) }
        ensures no_memory { OnErr result (self.new ≡ self.old) }
    {
        self.history.push(Loaded { word, value })?;
        self.last.set(word as usize, value);
        Ok(())
    }

    // Whether a split may give this.
    pub(crate) fn may_give(&self, allot: u64, given: &[u64]) -> bool
        requires { length given.now ≡ length self.now.shares }
        ensures { IsTrue result ↔ IsPart (length given.now) self.now allot given.now }
    {
        if allot > self.allot {
            return false;
        }
        let left = self.allot - allot;
        for (at, amount) in given.iter().enumerate() {
            let share = self.shares.get(at);
            if *amount > share || *amount > allot || share - *amount > left {
                return false;
            }
        }
        true
    }

    // The old party of a split gives this away.
    pub(crate) fn give(&mut self, allot: u64, given: &[u64])
        requires part { IsPart (length self.old.shares) self.old allot given.now }
        ensures { self.new ≡ kept_after_split self.old allot given.now }
    {
        self.shares.fall(given);
        self.allot -= allot;
    }

    // Takes all of the other, but its last values.
    pub(crate) fn join(&mut self, other: &mut Party) -> Result<(), NoMemory>
        requires long { length other.old.shares ≡ length self.old.shares }
        requires allots { self.old.allot + other.old.allot ≤ whole_allotment }
        requires shares { (k : ℕ) → share_at k self.old + share_at k other.old ≤ whole_allotment }
        ensures joined { OnOk result ((self.new ≡ joined self.old other.old) × (other.new ≡ spent other.old)) }
        ensures no_memory { OnErr result ((self.new ≡ self.old) × (other.new ≡ other.old)) }
    {
        self.history.append(&mut other.history)?;
        self.shares.rise(other.shares.list());
        self.allot += other.allot;
        other.live = false;
        other.allot = 0;
        other.shares.clear();
        Ok(())
    }
}
