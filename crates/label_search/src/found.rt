//! The vertices that a search has found.

ghost use Rattle.std.specs.Prelude.{◌≡◌, ◌≤◌, ℕ, length, get_or, vec_capacity};
ghost use Rattle.grid_base.specs.Numbers.{vertices};
ghost use Rattle.label_search.specs.Finding.{AreFound, unset};

use crate::padding::pad_to;
use grid_base::{NoMemory, Size, Spot, Vertex};
use std::alloc::Global;

/// Where a vertex stands among those found, under the stamp of the search that found it.
#[derive(Clone, Copy)]
pub(crate) struct Slot {
    pub(crate) stamp: u32,
    pub(crate) index: u32,
}

/// The vertices that the present search has found with their places, each by an index in the order of finding.
///
/// The first `len` of `spots` are in use. The list is as long as the widest search so far needed, with room for all
/// vertices. A slot counts only under the stamp of the present search, so that a search clears nothing.
#[derive(Drop)]
pub(crate) struct Found {
    size: Size,
    slots: Vec<Slot>,
    spots: Vec<Spot>,
    len: u32,
    present: u32,
    pub ghost found: { AreFound size slots.items spots.items len present },
    pub ghost room: { vertices size ≤ vec_capacity spots },
}

impl Found {
    ghost use Rattle.std.specs.Prelude.{◌≡◌, ◌≢◌, ◌<◌, ◌≤◌, ◌+◌, ◌⊎◌, ℕ, None, IfOk, IfSome};
    ghost use Rattle.grid_base.specs.Numbers.{vertices, IsVertex};
    ghost use Rattle.grid_base.specs.Spots.{IsSpot};
    ghost use Rattle.label_search.specs.Founds.{index_in, FindsMore};

    /// None of the vertices of a grid of this size is found.
    pub(crate) fn new(alloc: Global, size: Size) -> Result<Found, NoMemory>
        ensures size { IfOk result (λ f. f.size ≡ size) }
        ensures none { IfOk result (λ f. f.len ≡ 0) }
    {
        let vertices = size.vertices() as usize;
        let slots = vec![in alloc; Slot { stamp: 0, index: 0 }; vertices]?;
        let spots = Vec::with_capacity(alloc, vertices)?;
        Ok(Found {
            size,
            slots,
            spots,
            len: 0,
            present: 1,
        })
    }

    /// Begins a search: no vertex is found.
    pub(crate) fn forget(&mut self)
        ensures size { self.new.size ≡ self.old.size }
        ensures none { self.new.len ≡ 0 }
    {
        if self.present == u32::MAX {
            clear_stamps(self.slots.as_mut_slice());
            self.present = 0;
        }
        self.present += 1;
        self.len = 0;
    }

    /// The size of the grid.
    pub(crate) fn size(&self) -> Size
        ensures { result ≡ self.now.size }
    {
        self.size
    }

    /// How many vertices are found.
    pub(crate) fn len(&self) -> u32
        ensures { result ≡ self.now.len }
    {
        self.len
    }

    /// The index of a vertex, if it is found.
    pub(crate) fn index_of(&self, v: Vertex) -> Option<u32>
        requires { IsVertex self.now.size v.0 }
        ensures some { IfSome result (λ i. (i ≡ index_in self.now v.0) × (i < self.now.len)) }
        ensures none { result ≡ None → index_in self.now v.0 ≡ vertices self.now.size }
    {
        let slot = self.slots[v.0 as usize];
        if slot.stamp == self.present {
            Some(slot.index)
        } else {
            None
        }
    }

    /// The vertex with this index, and its place.
    pub(crate) fn spot(&self, index: u32) -> Spot
        requires { index < self.now.len }
        ensures spot { IsSpot self.now.size result }
        ensures index { index_in self.now result.vertex.0 ≡ index }
    {
        self.spots[index as usize]
    }

    /// Finds a vertex, if it isn't found yet, and answers its index.
    pub(crate) fn find(&mut self, to: Spot) -> u32
        requires { IsSpot self.old.size to }
        ensures more { FindsMore self.old self.new }
        ensures index { index_in self.new to.vertex.0 ≡ result }
        ensures inside { result < self.new.len }
        ensures others { (u : ℕ) → u ≢ to.vertex.0 → index_in self.new u ≡ index_in self.old u }
        ensures before { (index_in self.old to.vertex.0 ≡ result) ⊎ ((self.old.len ≡ result) × (index_in self.old to.vertex.0 ≡ vertices self.old.size)) }
    {
        match self.index_of(to.vertex) {
            Some(index) => index,
            None => self.enter(to),
        }
    }

    /// Finds one more vertex, and answers its index.
    fn enter(&mut self, to: Spot) -> u32
        requires spot { IsSpot self.old.size to }
        requires other { self.old.len ≤ index_in self.old to.vertex.0 }
        ensures size { self.new.size ≡ self.old.size }
        ensures index { result ≡ self.old.len }
        ensures count { self.new.len ≡ self.old.len + 1 }
        ensures entered { index_in self.new to.vertex.0 ≡ self.old.len }
        ensures others { (u : ℕ) → u ≢ to.vertex.0 → index_in self.new u ≡ index_in self.old u }
    {
        let index = self.len;
        self.slots[to.vertex.0 as usize] = Slot {
            stamp: self.present,
            index,
        };
        pad_to(&mut self.spots, index as usize, to);
        self.spots[index as usize] = to;
        self.len += 1;
        index
    }
}

/// Puts every stamp before the first search.
fn clear_stamps(slots: &mut [Slot])
    ensures stamps { (v : ℕ) → (get_or slots.new v unset).stamp ≡ 0 }
    ensures length { length slots.new ≡ length slots.old }
{
    for each in slots.iter_mut() {
        each.stamp = 0;
    }
}
