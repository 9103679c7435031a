//! The numbers of a search.

ghost use Rattle.std.specs.Prelude.{◌≡◌, ◌≤◌, ℕ, length, get_or, vec_capacity};
ghost use Rattle.grid_base.specs.Numbers.{vertices};
ghost use Rattle.label_search.specs.RowParts.{ArePartsOfRow};
ghost use Rattle.label_search.specs.Stamped.{far};

use crate::found::Found;
use crate::heap::Heap;
use crate::padding::pad_to;
use grid_base::{NoMemory, Size, Spot, Vertex};
use std::alloc::Global;

/// The greatest number of a vertex. A set of least weight weighs no more.
pub const MOST: u64 = FAR - 1;

/// Stands for the number of a vertex that has none.
pub const FAR: u64 = 1 << 61;

/// The numbers of the vertices that a search has found, and those that wait, in the order of their keys.
///
/// Numbers stand by index, so that the state of a search is dense; the first of them that are found are in use. The list is
/// as long as the widest search so far needed, with room for all vertices.
#[derive(Drop)]
pub struct Row {
    found: Found,
    numbers: Vec<u64>,
    heap: Heap,
    pub ghost parts: { ArePartsOfRow found numbers.items heap },
    pub ghost numbers_room: { vertices found.size ≤ vec_capacity numbers },
}

impl Row {
    ghost use Rattle.std.specs.Prelude.{◌≡◌, ◌≢◌, ◌<◌, ◌≤◌, ◌+◌, ◌⊎◌, ℕ, true, false, None, IfOk, IfSome, IfNone, take};
    ghost use Rattle.grid_base.specs.Numbers.{IsVertex, vertices};
    ghost use Rattle.grid_base.specs.Spots.{IsSpot};
    ghost use Rattle.label_search.specs.Founds.{index_in, FindsMore};
    ghost use Rattle.label_search.specs.Held.{IsHeld};
    ghost use Rattle.label_search.specs.Rows.{size_in, number_in, IsWaiting, Waits, total, IsLeastWaiting};

    /// No vertex of a grid of this size has a number.
    pub fn new(alloc: Global, size: Size) -> Result<Row, NoMemory>
        ensures size { IfOk result (λ r. size_in r ≡ size) }
        ensures none { IfOk result (λ r. r.found.len ≡ 0) }
    {
        let vertices = size.vertices();
        let found = Found::new(alloc, size)?;
        let numbers = Vec::with_capacity(alloc, vertices as usize)?;
        let heap = Heap::new(alloc, vertices)?;
        Ok(Row {
            found,
            numbers,
            heap,
        })
    }

    /// Begins a search: nothing is found.
    pub fn forget(&mut self)
        ensures size { size_in self.new ≡ size_in self.old }
        ensures count { self.new.found.len ≡ 0 }
        ensures none { (v : ℕ) → number_in self.new v ≡ far }
        ensures idle { (v key : ℕ) → ¬ IsWaiting self.new v key }
    {
        self.clear();
        self.found.forget();
    }

    /// Takes all numbers away. What is found stays so.
    pub fn clear(&mut self)
        ensures found { self.new.found ≡ self.old.found }
        ensures erased { (i : ℕ) → get_or self.new.numbers.items i far ≡ far }
        ensures idle { (i key : ℕ) → ¬ IsHeld self.new.heap i key }
    {
        erase(self.numbers.as_mut_slice(), self.found.len() as usize);
        self.heap.clear();
    }

    /// The size of the grid.
    pub fn size(&self) -> Size
        ensures { result ≡ size_in self.now }
    {
        self.found.size()
    }

    /// The allocator of the lists.
    pub fn allocator(&self) -> Global {
        *self.numbers.allocator()
    }

    /// How many vertices are found.
    pub fn len(&self) -> u32
        ensures { result ≡ self.now.found.len }
    {
        self.found.len()
    }

    /// The found vertex with this index.
    pub fn spot(&self, index: u32) -> Spot
        requires { index < self.now.found.len }
        ensures spot { IsSpot (size_in self.now) result }
        ensures index { index_in self.now.found result.vertex.0 ≡ index }
    {
        self.found.spot(index)
    }

    /// The index of a vertex, if it is found.
    pub fn index_of(&self, v: Vertex) -> Option<u32>
        requires { IsVertex (size_in self.now) v.0 }
        ensures some { IfSome result (λ i. (i ≡ index_in self.now.found v.0) × (i < self.now.found.len)) }
        ensures none { IfNone result (index_in self.now.found v.0 ≡ vertices (size_in self.now)) }
    {
        self.found.index_of(v)
    }

    /// The numbers of the found vertices, by index.
    pub fn numbers(&self) -> &[u64]
        ensures { result.now ≡ take self.now.found.len self.now.numbers.items }
    {
        &self.numbers[..self.found.len() as usize]
    }

    /// The number of a vertex, or `FAR`.
    pub fn number(&self, v: Vertex) -> u64
        requires { IsVertex (size_in self.now) v.0 }
        ensures number { result ≡ number_in self.now v.0 }
        ensures limit { result ≤ FAR }
    {
        match self.found.index_of(v) {
            Some(index) => self.numbers[index as usize],
            None => FAR,
        }
    }

    /// Whether a vertex waits.
    pub fn is_waiting(&self) -> bool
        ensures some { result ≡ true → 0 < self.now.heap.len }
        ensures none { result ≡ false → (v key : ℕ) → ¬ IsWaiting self.now v key }
    {
        !self.heap.is_empty()
    }

    /// The least key.
    pub fn least(&self) -> Option<u64>
        ensures some { IfSome result (λ _. 0 < self.now.heap.len) }
        ensures least { IfSome result (λ x. (v k : ℕ) → IsWaiting self.now v k → x ≤ k) }
        ensures none { IfNone result ((v k : ℕ) → ¬ IsWaiting self.now v k) }
    {
        match self.heap.least() {
            Some(key) => Some(key),
            None => None,
        }
    }

    /// The key under which a vertex waits.
    pub fn key(&self, v: Vertex) -> Option<u64>
        requires { IsVertex (size_in self.now) v.0 }
        ensures some { IfSome result (λ key. IsWaiting self.now v.0 key) }
        ensures only { IfSome result (λ key. (k : ℕ) → IsWaiting self.now v.0 k → key ≤ k) }
        ensures none { result ≡ None → (key : ℕ) → ¬ IsWaiting self.now v.0 key }
    {
        let index = self.found.index_of(v)?;
        self.heap.key(index)
    }

    /// Finds a vertex, if it isn't found yet, and gives it no number.
    pub fn find(&mut self, to: Spot)
        requires spot { IsSpot (size_in self.old) to }
        ensures found { FindsMore self.old.found self.new.found }
        ensures here { index_in self.new.found to.vertex.0 < self.new.found.len }
        ensures others { (v : ℕ) → index_in self.new.found v < self.new.found.len → (v ≡ to.vertex.0) ⊎ (index_in self.old.found v < self.old.found.len) }
        ensures numbers { (v : ℕ) → number_in self.new v ≡ number_in self.old v }
        ensures waits { (v key : ℕ) → IsWaiting self.new v key → IsWaiting self.old v key }
    {
        let index = self.found.find(to);
        pad_to(&mut self.numbers, index as usize, FAR);
    }

    /// Gives a vertex this number, with which it waits under this key.
    pub fn lower(&mut self, to: Spot, number: u64, key: u64)
        requires spot { IsSpot (size_in self.old) to }
        requires less { number < number_in self.old to.vertex.0 }
        requires key { (k : ℕ) → IsWaiting self.old to.vertex.0 k → key ≤ k }
        ensures found { FindsMore self.old.found self.new.found }
        ensures number { number_in self.new to.vertex.0 ≡ number }
        ensures others { (u : ℕ) → u ≢ to.vertex.0 → number_in self.new u ≡ number_in self.old u }
        ensures total { total self.new + number_in self.old to.vertex.0 ≡ total self.old + number }
        ensures count { self.new.heap.len ≤ self.old.heap.len + 1 }
        ensures placed { IsWaiting self.new to.vertex.0 key }
        ensures kept { (u k : ℕ) → u ≢ to.vertex.0 → IsWaiting self.old u k → IsWaiting self.new u k }
        ensures only { (u k : ℕ) → IsWaiting self.new u k → ((u ≡ to.vertex.0) × (k ≡ key)) ⊎ ((u ≢ to.vertex.0) × IsWaiting self.old u k) }
    {
        let index = self.found.find(to);
        pad_to(&mut self.numbers, index as usize, FAR);
        self.numbers[index as usize] = number;
        self.heap.lower(index, key);
    }

    /// Takes a vertex of least key out of those that wait.
    pub fn take(&mut self) -> Spot
        requires { 0 < self.old.heap.len }
        ensures found { self.new.found ≡ self.old.found }
        ensures numbers { (v : ℕ) → number_in self.new v ≡ number_in self.old v }
        ensures total { total self.new ≡ total self.old }
        ensures count { self.new.heap.len + 1 ≡ self.old.heap.len }
        ensures spot { IsSpot (size_in self.old) result }
        ensures least { IsLeastWaiting self.old result.vertex.0 }
        ensures kept { (u k : ℕ) → u ≢ result.vertex.0 → IsWaiting self.old u k → IsWaiting self.new u k }
        ensures only { (u k : ℕ) → IsWaiting self.new u k → (u ≢ result.vertex.0) × IsWaiting self.old u k }
    {
        let index = self.heap.take();
        self.found.spot(index)
    }
}

/// Takes the first numbers away.
fn erase(numbers: &mut [u64], len: usize)
    requires room { len ≤ length numbers.old }
    requires beyond { (i : ℕ) → len ≤ i → get_or numbers.old i far ≡ far }
    ensures length { length numbers.new ≡ length numbers.old }
    ensures erased { (i : ℕ) → get_or numbers.new i far ≡ far }
{
    for i in 0..len {
        numbers[i] = FAR;
    }
}
