//! What was found last.

ghost use Rattle.std.specs.Prelude.{◌≡◌, ◌<◌, ◌≤◌, ◌+◌, ℕ, length, replicate, slice_index, slice_set, vec_capacity, true, IfOk};
ghost use Rattle.load_core.specs.Parties.{whole_allotment};
ghost use Rattle.load_table.specs.Blocks.{ArePut, block_len};
ghost use Rattle.load_table.specs.Shortened.{HavePlaces, found_values};

use grid_base::NoMemory;
use std::alloc::Global;
use std::marker::Model;

/// So many words are loaded and compared at once.
pub(crate) const BLOCK: usize = 8;

/// What the last load of each word found. Contracts see the list of these values.
///
/// For each word there is its value and 1 in 32 bits, or 0 where that doesn't fit: nearly all do, so a pass over all words reads
/// less memory. Behind them is room for the values that don't, of which the first so many are in use, up to the last word that
/// ever had one: the system gives memory to what is written alone.
#[derive(Drop)]
pub(crate) struct Found {
    short: Vec<u32>,
    wide: Vec<u64>,
}

impl Model for Found {
    ghost use Rattle.std.specs.Prelude.{List, ℕ, ◌≤◌, length, vec_capacity};
    ghost use Rattle.load_table.specs.Shortened.{HavePlaces, found_values};

    ghost Value = { List ℕ };

    ghost view = { λ f. found_values f.short.items f.wide.items };

    ghost invariant = { λ f. HavePlaces f.short.items f.wide.items × (length f.short.items ≤ vec_capacity f.wide) };
}

impl Found {
    /// Zeros for so many words.
    pub(crate) fn zeros(alloc: Global, words: usize) -> Result<Found, NoMemory>
        ensures zeros { IfOk result (λ f. f ≡ replicate words 0) }
    {
        let short = vec![in alloc; ZERO; words]?;
        let wide = Vec::with_capacity(alloc, words)?;
        Ok(Found { short, wide })
    }

    /// What was found last in a word.
    pub(crate) fn at(&self, word: usize) -> u64
        requires word { word < length self.now }
        ensures value { result ≡ slice_index self.now word }
    {
        value_at(self.short.as_slice(), self.wide.as_slice(), word)
    }

    /// What was found last in a word becomes this value.
    pub(crate) fn put(&mut self, word: usize, value: u64)
        requires word { word < length self.old }
        ensures value { self.new ≡ slice_set self.old word value }
    {
        if value < u64::from(u32::MAX) {
            self.short[word] = value as u32 + 1;
            return;
        }
        widen(&mut self.wide, word + 1);
        self.wide[word] = value;
        self.short[word] = 0;
    }

    /// Whether these values are what was found last in the words of a block that begins here. A yes is sure. It says no wherever
    /// a value, old or new, doesn't fit 32 bits.
    #[inline(always)]
    pub(crate) fn has_block(&self, first: u32, values: &[u64; BLOCK]) -> bool
        requires block { first + block_len ≤ length self.now }
        requires values { (k : ℕ) → slice_index values.now k ≤ whole_allotment }
        ensures same { result ≡ true → (k : ℕ) → k < block_len → slice_index self.now (first + k) ≡ slice_index values.now k }
    {
        stand_for(self.short.as_slice(), first as usize, values)
    }

    /// What was found last in the words of a block that begins here becomes these values.
    pub(crate) fn put_block(&mut self, first: u32, values: &[u64; BLOCK])
        requires block { first + block_len ≤ length self.old }
        ensures put { ArePut first block_len values.now self.old self.new }
    {
        for k in 0..BLOCK {
            self.put(first as usize + k, values[k]);
        }
    }
}

/// What stands for the value 0.
const ZERO: u32 = 1;

/// Takes so many words of the room into use, where fewer are.
fn widen(wide: &mut Vec<u64>, words: usize)
    requires room { words ≤ vec_capacity wide.old }
    ensures same { (k : ℕ) → slice_index wide.new.items k ≡ slice_index wide.old.items k }
    ensures words { words ≤ length wide.new.items }
    ensures longer { length wide.old.items ≤ length wide.new.items }
    ensures capacity { vec_capacity wide.new ≡ vec_capacity wide.old }
{
    while wide.len() < words {
        wide.push_reserved(0);
    }
}

/// The value of a word, by the short values and by those that are not short.
fn value_at(short: &[u32], wide: &[u64], word: usize) -> u64
    requires places { HavePlaces short.now wide.now }
    requires word { word < length short.now }
    ensures value { result ≡ slice_index (found_values short.now wide.now) word }
{
    let stood = short[word];
    if stood == 0 {
        wide[word]
    } else {
        u64::from(stood) - 1
    }
}

/// Whether the short values of a block that begins here stand for these, compared without a jump for each.
#[inline(always)]
fn stand_for(short: &[u32], first: usize, values: &[u64; BLOCK]) -> bool
    requires block { first + block_len ≤ length short.now }
    requires values { (k : ℕ) → slice_index values.now k ≤ whole_allotment }
    ensures each { result ≡ true → (k : ℕ) → k < block_len → slice_index short.now (first + k) ≡ slice_index values.now k + 1 }
{
    let mut same = true;
    for k in 0..BLOCK {
        same &= u64::from(short[first + k]) == values[k] + 1;
    }
    same
}
