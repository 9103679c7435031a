//! Least costs that are kept.

ghost use Rattle.std.specs.Prelude.{◌<◌, length};

use grid_base::{NoMemory, Vertex};
use std::alloc::Global;

/// So many costs are kept.
const ENTRIES: usize = 4096;

/// A few tiles, and what they cost at least. There are always five, of which the first may stand there again.
#[derive(Clone, Copy)]
pub(crate) struct KeptCost {
    pub(crate) tiles: [Vertex; 5],
    pub(crate) cost: Option<u64>,
}

impl KeptCost {
    const NONE: KeptCost = KeptCost {
        tiles: [Vertex(0); 5],
        cost: None,
    };
}

/// Least costs of a few tiles, each at a place that the tiles tell. A later one takes the place of an earlier one.
#[derive(Drop)]
pub struct KeptCosts {
    entries: Vec<KeptCost>,
    puts: u32,
    ghost some: { 0 < length entries.items },
}

impl KeptCosts {
    ghost use Rattle.std.specs.Prelude.{ℕ, List, IfOk, IfSome};
    ghost use Rattle.grid_base.specs.declared.piece.Piece.{Piece};
    ghost use Rattle.grid_base.specs.declared.size.Size.{Size};
    ghost use Rattle.grid_base.specs.Walks.{InVertices};
    ghost use Rattle.label_search.specs.Sets.{IsLeastWeight};
    ghost use Rattle.least_weights.specs.KeptCosts.{AreKeptCosts};

    /// Nothing is kept yet.
    pub fn new(alloc: Global) -> Result<KeptCosts, NoMemory> {
        let mut entries = vec![in alloc; KeptCost::NONE; ENTRIES]?;
        Ok(KeptCosts { entries, puts: 0 })
    }

    /// Keeps nothing any more.
    pub fn forget(&mut self)
        ensures { (s : Size) (pieces : List (Piece × ℕ)) → AreKeptCosts s pieces self.new.entries.items }
    {
        for place in 0..self.entries.len() {
            self.entries[place] = KeptCost::NONE;
        }
        self.puts = 0;
    }

    /// The least cost of these tiles, if it is kept.
    pub(crate) fn get(&self, tiles: &[Vertex; 5]) -> Option<u64>
        ensures { (s : Size) (pieces : List (Piece × ℕ)) → AreKeptCosts s pieces self.now.entries.items
            → IfSome result (λ cost. IsLeastWeight s pieces (InVertices tiles.now) cost) }
    {
        let entry = &self.entries[self.place_of(tiles)];
        if entry.tiles == *tiles {
            entry.cost
        } else {
            None
        }
    }

    /// Keeps the least cost of these tiles.
    pub(crate) fn put(&mut self, tiles: [Vertex; 5], cost: u64)
        ensures { (s : Size) (pieces : List (Piece × ℕ)) → AreKeptCosts s pieces self.old.entries.items
            → IsLeastWeight s pieces (InVertices tiles) cost → AreKeptCosts s pieces self.new.entries.items }
    {
        let place = self.place_of(&tiles);
        self.entries[place] = KeptCost {
            tiles,
            cost: Some(cost),
        };
        self.puts = self.puts.saturating_add(1);
    }

    /// How many costs were put since nothing was kept.
    pub fn puts(&self) -> u32 {
        self.puts
    }

    /// The place of these tiles.
    fn place_of(&self, tiles: &[Vertex; 5]) -> usize
        ensures { result < length self.now.entries.items }
    {
        let mut sum: u64 = 0;
        for tile in tiles {
            sum = sum.wrapping_mul(1_000_003).wrapping_add(u64::from(tile.0));
        }
        (sum % self.entries.len() as u64) as usize
    }
}
