//! Searches that their caller leads.

ghost use Rattle.std.specs.Prelude.{◌≡◌, ◌≤◌, ℕ, All};
ghost use Rattle.grid_base.specs.Numbers.{IsVertex};
ghost use Rattle.label_search.specs.Founds.{AreFoundFirst};
ghost use Rattle.label_search.specs.Rows.{size_in, number_in, IsWaiting};

use crate::labels::Labels;
use grid_base::{Spot, Vertex};
use label_search::Row;
use std::alloc::Global;

impl Labels {
    ghost use Rattle.std.specs.Prelude.{◌≡◌, ◌<◌, ◌≤◌, ◌↔◌, ℕ, None, All, IfSome, IsTrue};
    ghost use Rattle.grid_base.specs.Numbers.{IsVertex};
    ghost use Rattle.grid_base.specs.Spots.{IsSpot};
    ghost use Rattle.shortest_paths.specs.LabelWords.{labels_size, masks_of, labels_number};
    ghost use Rattle.shortest_paths.specs.LedSearches.{HasKey, AreFirst, IsFirst, Lowers, IsTakenOut, found_of};
    ghost use Rattle.label_search.specs.Stamped.{far};

    /// Begins a search that the caller leads, in which no vertex has a number. These vertices are found first; how many
    /// they are is the answer, by which `is_first` knows them.
    pub fn begin(&mut self, first: &[Vertex]) -> u32
        requires { All (λ v. IsVertex (labels_size self.old) v.0) first.now }
        ensures size { labels_size self.new ≡ labels_size self.old }
        ensures masks { masks_of self.new ≡ masks_of self.old }
        ensures first { AreFirst first.now result self.new }
        ensures none { (v : ℕ) → labels_number self.new v ≡ far }
        ensures idle { (v key : ℕ) → ¬ HasKey self.new v key }
    {
        self.rows.forget();
        self.row.forget();
        find_first(&mut self.row, first)
    }

    /// Whether a vertex is one of the first so many that were found.
    pub fn is_first(&self, count: u32, v: Vertex) -> bool
        requires count { count ≤ found_of self.now }
        requires vertex { IsVertex (labels_size self.now) v.0 }
        ensures { IsTrue result ↔ IsFirst self.now count v.0 }
    {
        match self.row.index_of(v) {
            Some(index) => index < count,
            None => false,
        }
    }

    /// The number of a vertex, or 2^61 where it has none.
    pub fn number(&self, v: Vertex) -> u64
        requires { IsVertex (labels_size self.now) v.0 }
        ensures number { result ≡ labels_number self.now v.0 }
        ensures limit { result ≤ far }
    {
        self.row.number(v)
    }

    /// The key under which a vertex waits.
    pub fn key(&self, v: Vertex) -> Option<u64>
        requires { IsVertex (labels_size self.now) v.0 }
        ensures some { IfSome result (λ key. HasKey self.now v.0 key) }
        ensures only { IfSome result (λ key. (k : ℕ) → HasKey self.now v.0 k → key ≤ k) }
        ensures none { result ≡ None → (key : ℕ) → ¬ HasKey self.now v.0 key }
    {
        self.row.key(v)
    }

    /// Gives a vertex a lower number, with which it waits under this key.
    pub fn lower(&mut self, to: Spot, number: u64, key: u64)
        requires spot { IsSpot (labels_size self.old) to }
        requires less { number < labels_number self.old to.vertex.0 }
        requires key { (k : ℕ) → HasKey self.old to.vertex.0 k → key ≤ k }
        ensures { Lowers self.old self.new to.vertex.0 number key }
    {
        self.row.lower(to, number, key);
    }

    /// Takes out a vertex of least key, if some vertex waits.
    pub fn next(&mut self) -> Option<Spot>
        ensures spot { IfSome result (λ at. IsSpot (labels_size self.old) at) }
        ensures next { IfSome result (λ at. IsTakenOut self.old self.new at.vertex.0) }
        ensures none { result ≡ None → (v key : ℕ) → ¬ HasKey self.old v key }
        ensures same { result ≡ None → self.new ≡ self.old }
    {
        if self.row.is_waiting() {
            Some(self.row.take())
        } else {
            None
        }
    }

    /// The allocator of the lists.
    pub fn allocator(&self) -> Global {
        self.row.allocator()
    }
}

/// Finds vertices, before all others, and answers how many they are.
fn find_first(row: &mut Row, vertices: &[Vertex]) -> u32
    requires none { row.old.found.len ≡ 0 }
    requires vertices { All (λ v. IsVertex (size_in row.old) v.0) vertices.now }
    ensures size { size_in row.new ≡ size_in row.old }
    ensures first { AreFoundFirst vertices.now result row.new.found }
    ensures numbers { (v : ℕ) → number_in row.new v ≡ number_in row.old v }
    ensures waits { (v key : ℕ) → IsWaiting row.new v key → IsWaiting row.old v key }
{
    for vertex in vertices {
        let at = Spot::of(row.size(), *vertex);
        row.find(at);
    }
    row.len()
}
