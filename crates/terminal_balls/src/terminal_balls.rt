//! Balls around the terminals of a net.

use crate::limits::{MASKS, MOST_TERMINALS, VERTICES_EACH};
use crate::sums::sums_of;
use grid_base::{NoMemory, Size, Vertex};
use grid_graph::FlooredWeights;
use shortest_paths::Labels;
use std::alloc::Global;

/// Balls in a grid: each vertex that was found has a number, its distance from the terminal of its ball, and each terminal the
/// radius of its own. Of a mask's terminals the sum of radii is kept.
#[derive(Drop)]
pub struct TerminalBalls {
    pub(crate) labels: Labels,
    pub(crate) owners: Vec<u8>,
    pub(crate) radii: [u64; MOST_TERMINALS],
    pub(crate) sums: [u64; MASKS],
}

impl TerminalBalls {
    ghost use Rattle.std.specs.Prelude.{◌≡◌, ◌≤◌, ◌<◌, All, IfOk, length, slice_index};
    ghost use Rattle.grid_base.specs.declared.size.Size.{Size};
    ghost use Rattle.grid_base.specs.Numbers.{IsVertex};
    ghost use Rattle.shortest_paths.specs.LabelWords.{labels_size};
    ghost use Rattle.steiner_tables.specs.Masks.{few_terminals};
    ghost use Rattle.terminal_balls.specs.Balls.{AreBalls, AreInGrid, balls_of, radii_sum, shares};

    /// Room for balls in a grid of this size.
    pub fn new(alloc: Global, size: Size) -> Result<TerminalBalls, NoMemory>
        ensures { IfOk result (λ balls. AreInGrid size balls) }
    {
        Ok(TerminalBalls {
            labels: Labels::new(alloc, size, 1)?,
            owners: vec![in alloc; 0u8; size.vertices() as usize]?,
            radii: [0; MOST_TERMINALS],
            sums: [0; MASKS],
        })
    }

    /// Lets balls grow around at most five terminals, in place of those that were there.
    pub fn grow<W: FlooredWeights>(&mut self, weights: &W, terminals: &[Vertex])
        requires grid { AreInGrid (W.size weights.now) self.old }
        requires terminals { All (λ v. IsVertex (W.size weights.now) v.0) terminals.now }
        requires few { length terminals.now ≤ few_terminals }
        ensures balls { AreBalls (W.size weights.now) (W.pieces weights.now) (W.over weights.now) terminals.now (balls_of self.new) }
        ensures grid { AreInGrid (W.size weights.now) self.new }
    {
        self.clear();
        self.begin(terminals);
        for _ in 0..VERTICES_EACH * terminals.len() {
            self.advance(weights);
        }
        self.end();
        self.sums = sums_of(&self.radii);
    }

    /// What the terminals of a mask have together at a vertex.
    pub fn shares(&self, mask: u32, v: Vertex) -> u64
        requires mask { mask < 32 }
        requires vertex { IsVertex (labels_size self.now.labels) v.0 }
        requires grid { AreInGrid (labels_size self.now.labels) self.now }
        ensures { result ≡ shares (balls_of self.now) mask v.0 }
    {
        let whole = self.sums[mask as usize];
        if whole == 0 {
            return 0;
        }
        let owner = u32::from(self.owners[v.0 as usize]);
        if (mask >> owner) % 2 == 0 {
            return whole;
        }
        let radius = self.radii[owner as usize];
        whole - (radius - radius.min(self.labels.number(v)))
    }

    /// What the terminals of a mask have together outside of all balls.
    pub fn radii_of(&self, mask: u32) -> u64
        requires mask { mask < 32 }
        ensures { (s : Size) → AreInGrid s self.now → result ≡ radii_sum (slice_index self.now.radii) mask few_terminals }
    {
        self.sums[mask as usize]
    }
}
