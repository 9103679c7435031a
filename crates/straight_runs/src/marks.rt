//! Sets of small numbers.

ghost use Rattle.std.specs.Prelude.{◌≡◌, ◌≤◌, All, IfOk, IfSome};
ghost use Rattle.straight_runs.specs.Marks.{is_marked};

use grid_base::NoMemory;
use std::alloc::Global;

/// A set of numbers below a limit, in rows of words: the first row has a bit for each number, and each other row one for each
/// word of the row before it, which is set where that word has a bit.
///
/// A step goes through the rows: one up to 64 numbers, two up to 4,096, four up to 16 million.
#[derive(Drop)]
pub(crate) struct Marks {
    rows: Vec<Vec<u64>>,
}

impl Marks {
    /// No number, where all are below a limit.
    pub fn none(alloc: Global, limit: usize) -> Result<Marks, NoMemory>
        ensures { IfOk result (λ marks. All (λ row. All (λ word. word ≡ 0) row.items) marks.rows.items) }
    {
        let mut rows = Vec::new(alloc);
        let mut last = limit;
        for _ in 0..u64::BITS {
            last /= 64;
            rows.push(vec![in alloc; 0u64; last + 1]?)?;
            if last == 0 {
                break;
            }
        }
        Ok(Marks { rows })
    }

    /// Whether the number is in the set.
    pub fn contains(&self, number: usize) -> bool
        ensures { result ≡ is_marked self.now number }
    {
        let Some(words) = self.rows.first() else {
            return false;
        };
        let word = words.get(number / 64).copied().unwrap_or(0);
        word & 1 << (number % 64) != 0
    }

    /// Puts a number into the set.
    pub fn insert(&mut self, number: usize) {
        let mut place = number;
        for words in &mut self.rows {
            if let Some(word) = words.get_mut(place / 64) {
                *word |= 1 << (place % 64);
            }
            place /= 64;
        }
    }

    /// Takes a number out of the set.
    pub fn remove(&mut self, number: usize) {
        let mut place = number;
        for words in &mut self.rows {
            let Some(word) = words.get_mut(place / 64) else {
                return;
            };
            *word &= !(1 << (place % 64));
            if *word != 0 {
                return;
            }
            place /= 64;
        }
    }

    /// The least number of the set from one on.
    pub fn next(&self, from: usize) -> Option<usize>
        ensures { IfSome result (λ number. from ≤ number) }
    {
        next_in(&self.rows, from)
    }
}

/// The first bit from one on that is set in the first of some rows.
fn next_in(rows: &[Vec<u64>], from: usize) -> Option<usize>
    ensures { IfSome result (λ number. from ≤ number) }
{
    let (words, above) = rows.split_first()?;
    let rest = *words.get(from / 64)? >> (from % 64);
    if rest != 0 {
        return from.checked_add(rest.trailing_zeros() as usize);
    }
    let place = next_in(above, from / 64 + 1)?;
    let first = words.get(place)?.trailing_zeros() as usize;
    place.checked_mul(64)?.checked_add(first)
}
