//! A heap of indices.

ghost use Rattle.std.specs.Prelude.{◌≤◌, length, vec_capacity};
ghost use Rattle.grid_base.specs.Limits.{max_vertices};
ghost use Rattle.label_search.specs.Heaps.{IsIndexed, AreOrdered};

use crate::padding::pad_to;
use crate::sift::{sift_down, sift_up};
use grid_base::NoMemory;
use std::alloc::Global;

/// Indices of found vertices with keys, each at most once. A key is lowered in place, and no call but `new` takes memory.
///
/// The first `len` of `keys` and `vertices` are in use, and `places` has the place of each vertex that is there. Of
/// other vertices it has any number, or none, so nothing has to be cleared. The lists are as long as the widest search so
/// far needed, with room for all vertices below `room`.
#[derive(Drop)]
pub(crate) struct Heap {
    room: u32,
    keys: Vec<u64>,
    vertices: Vec<u32>,
    places: Vec<u32>,
    len: usize,
    pub ghost indexed: { IsIndexed keys.items vertices.items places.items len },
    pub ghost ordered: { AreOrdered keys.items len },
    pub ghost limit: { room ≤ max_vertices },
    pub ghost placed: { length places.items ≤ room },
    pub ghost keys_room: { room ≤ vec_capacity keys },
    pub ghost vertices_room: { room ≤ vec_capacity vertices },
    pub ghost places_room: { room ≤ vec_capacity places },
}

impl Heap {
    ghost use Rattle.std.specs.Prelude.{◌≡◌, ◌≢◌, ◌<◌, ◌≤◌, ◌+◌, ◌⊎◌, ℕ, true, false, Some, None, IfOk, IfSome, IfNone, slice_index};
    ghost use Rattle.grid_base.specs.Limits.{max_vertices};
    ghost use Rattle.label_search.specs.Held.{IsHeld, IsLeastHeld, heap_room};

    /// An empty heap with room for the vertices below this number.
    pub(crate) fn new(alloc: Global, vertices: u32) -> Result<Heap, NoMemory>
        requires { vertices ≤ max_vertices }
        ensures room { IfOk result (λ h. heap_room h ≡ vertices) }
        ensures empty { IfOk result (λ h. h.len ≡ 0) }
    {
        let keys = Vec::with_capacity(alloc, vertices as usize)?;
        let entered = Vec::with_capacity(alloc, vertices as usize)?;
        let places = Vec::with_capacity(alloc, vertices as usize)?;
        Ok(Heap {
            room: vertices,
            keys,
            vertices: entered,
            places,
            len: 0,
        })
    }

    /// Takes all out.
    pub(crate) fn clear(&mut self)
        ensures room { heap_room self.new ≡ heap_room self.old }
        ensures empty { self.new.len ≡ 0 }
        ensures none { (v key : ℕ) → ¬ IsHeld self.new v key }
    {
        self.len = 0;
    }

    /// Puts a vertex in with this key, or lowers its key to this.
    pub(crate) fn lower(&mut self, index: u32, key: u64)
        requires vertex { index < heap_room self.old }
        requires lower { (k : ℕ) → IsHeld self.old index k → key ≤ k }
        ensures room { heap_room self.new ≡ heap_room self.old }
        ensures count { self.new.len ≤ self.old.len + 1 }
        ensures placed { IsHeld self.new index key }
        ensures kept { (u k : ℕ) → u ≢ index → IsHeld self.old u k → IsHeld self.new u k }
        ensures only { (u k : ℕ) → IsHeld self.new u k → ((u ≡ index) × (k ≡ key)) ⊎ ((u ≢ index) × IsHeld self.old u k) }
    {
        let gap = self.place_for(index);
        pad_to(&mut self.keys, gap, 0);
        pad_to(&mut self.vertices, gap, 0);
        pad_to(&mut self.places, index as usize, 0);
        self.len = self.len.max(gap + 1);
        sift_up(
            self.keys.as_mut_slice(),
            self.vertices.as_mut_slice(),
            self.places.as_mut_slice(),
            self.len,
            gap,
            index,
            key,
        );
    }

    /// Whether nothing is in the heap.
    pub(crate) fn is_empty(&self) -> bool
        ensures none { result ≡ true → (u key : ℕ) → ¬ IsHeld self.now u key }
        ensures some { result ≡ false → 0 < self.now.len }
    {
        self.len == 0
    }

    /// The key of a vertex, if it is in the heap.
    pub(crate) fn key(&self, index: u32) -> Option<u64>
        requires vertex { index < heap_room self.now }
        ensures some { IfSome result (λ key. IsHeld self.now index key) }
        ensures only { IfSome result (λ key. (k : ℕ) → IsHeld self.now index k → key ≤ k) }
        ensures none { result ≡ None → (key : ℕ) → ¬ IsHeld self.now index key }
    {
        let place = self.place_for(index);
        if place < self.len {
            Some(self.keys[place])
        } else {
            None
        }
    }

    /// The least key.
    pub(crate) fn least(&self) -> Option<u64>
        ensures some { IfSome result (λ _. 0 < self.now.len) }
        ensures least { IfSome result (λ x. (u k : ℕ) → IsHeld self.now u k → x ≤ k) }
        ensures none { IfNone result ((u k : ℕ) → ¬ IsHeld self.now u k) }
    {
        if self.len == 0 {
            return None;
        }
        Some(self.keys[0])
    }

    /// Takes a vertex of least key out.
    pub(crate) fn take(&mut self) -> u32
        requires { 0 < self.old.len }
        ensures room { heap_room self.new ≡ heap_room self.old }
        ensures count { self.new.len + 1 ≡ self.old.len }
        ensures least { IsLeastHeld self.old result }
        ensures kept { (u k : ℕ) → u ≢ result → IsHeld self.old u k → IsHeld self.new u k }
        ensures only { (u k : ℕ) → IsHeld self.new u k → (u ≢ result) × IsHeld self.old u k }
    {
        let least = self.vertices[0];
        self.len -= 1;
        if self.len > 0 {
            let vertex = self.vertices[self.len];
            let key = self.keys[self.len];
            sift_down(
                self.keys.as_mut_slice(),
                self.vertices.as_mut_slice(),
                self.places.as_mut_slice(),
                self.len,
                0,
                vertex,
                key,
            );
        }
        least
    }

    /// The place of a vertex, or the one behind all others where it isn't in the heap.
    fn place_for(&self, index: u32) -> usize
        ensures within { result ≤ self.now.len }
        ensures here { result < self.now.len → slice_index self.now.vertices.items result ≡ index }
        ensures others { (j : ℕ) → j < self.now.len → j ≢ result → slice_index self.now.vertices.items j ≢ index }
    {
        if index as usize >= self.places.len() {
            return self.len;
        }
        let place = self.places[index as usize] as usize;
        if place < self.len && self.vertices[place] == index {
            place
        } else {
            self.len
        }
    }
}
