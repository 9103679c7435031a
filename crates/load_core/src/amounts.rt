//! A list of numbers.

ghost use Rattle.std.specs.Prelude.{◌≡◌, ◌<◌, ◌≤◌, ◌+◌, ◌^◌, ℕ, List, length, slice_index, slice_set, replicate, IfOk};
ghost use Rattle.load_core.specs.Entries.{plus, minus};

use grid_base::NoMemory;
use std::alloc::Global;
use std::marker::Model;

/// Numbers, one per word.
#[derive(Debug, Drop)]
pub struct Amounts {
    amounts: Vec<u64>,
}

impl Model for Amounts {
    ghost Value = { List ℕ };

    ghost view = { λ s. s.amounts.items };
}

impl Amounts {
    /// These numbers.
    pub fn of(amounts: Vec<u64>) -> Self
        ensures { result ≡ amounts.items }
    {
        Amounts { amounts }
    }

    /// The numbers.
    pub fn list(&self) -> &[u64]
        ensures { result.now ≡ self.now }
    {
        self.amounts.as_slice()
    }

    /// The numbers, taken out.
    pub fn into_list(self) -> Vec<u64>
        ensures { result.items ≡ self }
    {
        self.amounts
    }

    pub(crate) fn zeros(alloc: Global, len: usize) -> Result<Amounts, NoMemory>
        ensures { IfOk result (λ zeros. zeros ≡ replicate len 0) }
    {
        Ok(Amounts {
            amounts: vec![in alloc; 0u64; len]?,
        })
    }

    pub(crate) fn copy_of(alloc: Global, amounts: &[u64]) -> Result<Amounts, NoMemory>
        ensures { IfOk result (λ copy. copy ≡ amounts.now) }
    {
        let mut copy = Vec::new(alloc);
        copy.extend_from_slice(amounts)?;
        Ok(Amounts { amounts: copy })
    }

    // Where the list gets its memory.
    pub(crate) fn allocator(&self) -> Global {
        *self.amounts.allocator()
    }

    // The number at this place, 0 where there is none.
    pub(crate) fn get(&self, at: usize) -> u64
        ensures { result ≡ slice_index self.now at }
    {
        self.amounts.get(at).copied().unwrap_or(0)
    }

    pub(crate) fn set(&mut self, at: usize, value: u64)
        requires { at < length self.old }
        ensures { self.new ≡ slice_set self.old at value }
    {
        self.amounts[at] = value;
    }

    // Each number rises by the one at its place.
    pub(crate) fn rise(&mut self, more: &[u64])
        requires long { length more.now ≡ length self.old }
        requires room { (k : ℕ) → slice_index self.old k + slice_index more.now k < 2 ^ 64 }
        ensures { self.new ≡ plus self.old more.now }
    {
        raise(self.amounts.as_mut_slice(), more);
    }

    // Each number falls by the one at its place.
    pub(crate) fn fall(&mut self, less: &[u64])
        requires long { length less.now ≡ length self.old }
        requires had { (k : ℕ) → slice_index less.now k ≤ slice_index self.old k }
        ensures { self.new ≡ minus self.old less.now }
    {
        lower(self.amounts.as_mut_slice(), less);
    }

    pub(crate) fn clear(&mut self)
        ensures { self.new ≡ replicate (length self.old) 0 }
    {
        self.amounts.fill(0);
    }
}

/// Each number rises by the one in its place.
pub fn raise(amounts: &mut [u64], more: &[u64])
    requires long { length more.now ≡ length amounts.old }
    requires room { (k : ℕ) → slice_index amounts.old k + slice_index more.now k < 2 ^ 64 }
    ensures { amounts.new ≡ plus amounts.old more.now }
{
    for (at, amount) in more.iter().enumerate() {
        amounts[at] += *amount;
    }
}

/// Each number falls by the one in its place.
pub fn lower(amounts: &mut [u64], less: &[u64])
    requires long { length less.now ≡ length amounts.old }
    requires had { (k : ℕ) → slice_index less.now k ≤ slice_index amounts.old k }
    ensures { amounts.new ≡ minus amounts.old less.now }
{
    for (at, amount) in less.iter().enumerate() {
        amounts[at] -= *amount;
    }
}
