//! A queue of buckets.

ghost use Rattle.std.specs.Prelude.{◌≡◌, ◌<◌, length, slice_index};
ghost use Rattle.bucket_queue.specs.Waiting.{bucket_for, AreEmptied, KeepsEmpty};

use grid_base::NoMemory;
use std::alloc::Global;

/// How many buckets there are.
const BUCKETS: usize = 1 << 15;

/// Below this each key has a bucket of its own.
const FINE: u64 = 1 << 14;

/// As many greater keys share a bucket. All keys that are too great for any other bucket share the last one.
const COARSE: u64 = 32;

/// Stands for no entry.
const NO_ENTRY: u32 = u32::MAX;

/// To empty so many buckets in a row takes as long as to empty one by its number.
const RUN: usize = 16;

/// An item, the entry below it in its bucket, and the number of the bucket.
#[derive(Clone, Copy)]
struct Entry<T> {
    item: T,
    below: u32,
    bucket: u32,
}

/// Items by their keys: what was put in last comes out first of those of one bucket.
#[derive(Drop)]
pub struct BucketQueue<T> {
    /// The last entry of each bucket.
    tops: Vec<u32>,
    /// What was put in since the queue was cleared.
    entries: Vec<Entry<T>>,
    /// No bucket below this has an entry.
    low: usize,
    /// Nor has one from here on.
    end: usize,
}

impl<T: Copy> BucketQueue<T> {
    ghost use Rattle.std.specs.Prelude.{◌≡◌, ◌<◌, ◌≤◌, ◌-◌, ◌^◌, ◌∷◌, ℕ, List, [], length, slice_index, IfOk, IfSome, IfNone};
    ghost use Rattle.bucket_queue.specs.Waiting.{Holds, TakesFirst, KeepsEmpty, bucket_for, with_bucket};

    /// An empty queue.
    pub fn new(alloc: Global) -> Result<BucketQueue<T>, NoMemory>
        ensures empty { IfOk result (λ queue. Holds queue (λ _. [])) }
    {
        Ok(BucketQueue {
            tops: vec![in alloc; NO_ENTRY; BUCKETS]?,
            entries: Vec::new(alloc),
            low: BUCKETS,
            end: 0,
        })
    }

    /// Takes all items out. What it costs grows with the span of the keys or with the items that were put in, whichever is
    /// less, not with the buckets.
    pub fn clear(&mut self)
        ensures empty { (waiting : ℕ → List T) → Holds self.old waiting → Holds self.new (λ _. []) }
    {
        let end = self.end.min(self.tops.len());
        if end.saturating_sub(self.low) / RUN > self.entries.len() {
            empty_entered(&self.entries, &mut self.tops);
        } else {
            self.empty_span(end);
        }
        self.entries.clear();
        self.low = BUCKETS;
        self.end = 0;
    }

    /// Empties the buckets from the first one with an entry up to this one.
    fn empty_span(&mut self, end: usize)
        requires { end ≤ length self.old.tops.items }
        ensures span { (b : ℕ) → self.old.low ≤ b → b < end → slice_index self.new.tops.items b ≡ 4294967295 }
        ensures kept { KeepsEmpty self.old.tops.items self.new.tops.items }
    {
        if self.low < end {
            self.tops.as_mut_slice()[self.low..end].fill(NO_ENTRY);
        }
    }

    /// Puts an item in, unless 2^32 - 1 were since the queue was cleared.
    #[inline(always)]
    pub fn push(&mut self, key: u64, item: T) -> Result<(), NoMemory>
        ensures put { IfOk result (λ _. (waiting : ℕ → List T) → Holds self.old waiting → length self.old.entries.items < 2 ^ 32 - 1 → Holds self.new (with_bucket waiting (bucket_for key) (item ∷ waiting (bucket_for key)))) }
        ensures full { 2 ^ 32 - 1 ≤ length self.old.entries.items → self.new ≡ self.old }
    {
        let bucket = bucket_of(key);
        let at = bucket as usize;
        if at < self.tops.len() && self.entries.len() < NO_ENTRY as usize {
            let top = self.entries.len() as u32;
            self.entries.push(Entry {
                item,
                below: self.tops[at],
                bucket,
            })?;
            self.tops[at] = top;
            self.low = self.low.min(at);
            self.end = self.end.max(at + 1);
        }
        Ok(())
    }

    /// Takes out the last item of the first bucket that has one.
    #[inline(always)]
    pub fn pop(&mut self) -> Option<T>
        ensures same { IfNone result (self.new ≡ self.old) }
        ensures none { IfNone result ((waiting : ℕ → List T) → Holds self.old waiting → (b : ℕ) → waiting b ≡ []) }
        ensures first { IfSome result (λ item. (waiting : ℕ → List T) → Holds self.old waiting → TakesFirst waiting item self.new) }
    {
        let end = self.end.min(self.tops.len());
        for bucket in self.low..end {
            let top = self.tops[bucket] as usize;
            if top < self.entries.len() {
                let Entry { item, below, .. } = self.entries[top];
                self.tops[bucket] = below;
                self.low = bucket;
                return Some(item);
            }
        }
        None
    }
}

/// Empties each bucket into which an item was put.
fn empty_entered<T: Copy>(entries: &[Entry<T>], tops: &mut Vec<u32>)
    ensures emptied { AreEmptied entries.now (length entries.now) tops.new.items }
    ensures kept { KeepsEmpty tops.old.items tops.new.items }
{
    for entry in entries {
        empty(tops, entry.bucket as usize);
    }
}

/// Empties a bucket.
fn empty(tops: &mut Vec<u32>, bucket: usize)
    ensures emptied { bucket < length tops.old.items → slice_index tops.new.items bucket ≡ 4294967295 }
    ensures kept { KeepsEmpty tops.old.items tops.new.items }
{
    if bucket < tops.len() {
        tops[bucket] = NO_ENTRY;
    }
}

/// The bucket of a key.
#[inline(always)]
fn bucket_of(key: u64) -> u32
    ensures { result ≡ bucket_for key }
{
    if key < FINE {
        return key as u32;
    }
    let coarse = (key - FINE) / COARSE;
    coarse.saturating_add(FINE).min(BUCKETS as u64 - 1) as u32
}
