//! The growth of balls.

use crate::beyond::weight_beyond;
use crate::cut::cut_at;
use crate::limits::{MOST_TERMINALS, WIDEST};
use crate::terminal_balls::TerminalBalls;
use grid_base::{Spot, Vertex, spot_steps};
use grid_graph::FlooredWeights;
use label_search::FAR;

impl TerminalBalls {
    ghost use Rattle.std.specs.Prelude.{ℕ, List, ◌≡◌, ◌+◌, ◌≤◌, ◌<◌, All, length, slice_index};
    ghost use Rattle.grid_base.specs.declared.piece.Piece.{Piece};
    ghost use Rattle.grid_base.specs.declared.size.Size.{Size};
    ghost use Rattle.grid_base.specs.declared.vertex.Vertex.{Vertex};
    ghost use Rattle.grid_base.specs.Numbers.{IsVertex, Connects};
    ghost use Rattle.grid_base.specs.Spots.{IsSpot};
    ghost use Rattle.grid_graph.specs.Weighed.{Weighs};
    ghost use Rattle.shortest_paths.specs.LabelWords.{labels_size, labels_number};
    ghost use Rattle.steiner_tables.specs.Masks.{few_terminals};
    ghost use Rattle.terminal_balls.specs.Balls.{AreBalls, AreInGrid, balls_of, beyond, widest};
    ghost use Rattle.terminal_balls.specs.Growths.{AreKept, AreBegun, AreGrowing, GrowOn, IsMet, IsRelaxed, IsSame, IsWithin};

    /// Forgets all balls.
    pub(crate) fn clear(&mut self)
        requires grid { AreInGrid (labels_size self.old.labels) self.old }
        ensures size { labels_size self.new.labels ≡ labels_size self.old.labels }
        ensures kept { AreKept self.new }
        ensures begun { (terminals : List Vertex) → AreBegun terminals 0 self.new }
    {
        self.labels.begin(&[]);
        self.radii = [0; MOST_TERMINALS];
    }

    /// Begins the ball of each terminal.
    pub(crate) fn begin(&mut self, terminals: &[Vertex])
        requires kept { AreKept self.old }
        requires few { length terminals.now ≤ few_terminals }
        requires vertices { All (λ v. IsVertex (labels_size self.old.labels) v.0) terminals.now }
        requires begun { AreBegun terminals.now 0 self.old }
        ensures size { labels_size self.new.labels ≡ labels_size self.old.labels }
        ensures kept { AreKept self.new }
        ensures growing { (s : Size) (pieces : List (Piece × ℕ)) (over : ℕ → ℕ) → AreGrowing s pieces over terminals.now self.new }
    {
        for place in 0..terminals.len() {
            self.begin_ball(terminals, place);
        }
    }

    /// Begins the ball of the terminal at a place. It has none where an earlier terminal has the same vertex.
    fn begin_ball(&mut self, terminals: &[Vertex], place: usize)
        requires kept { AreKept self.old }
        requires few { place < few_terminals }
        requires terminal { place < length terminals.now }
        requires vertices { All (λ v. IsVertex (labels_size self.old.labels) v.0) terminals.now }
        requires begun { AreBegun terminals.now place self.old }
        ensures size { labels_size self.new.labels ≡ labels_size self.old.labels }
        ensures kept { AreKept self.new }
        ensures begun { AreBegun terminals.now (place + 1) self.new }
    {
        let at = Spot::of(self.labels.size(), terminals[place]);
        if self.labels.number(at.vertex) > 0 {
            self.owners[at.vertex.0 as usize] = place as u8;
            self.radii[place] = WIDEST;
            self.labels.lower(at, 0, 0);
        }
    }

    /// Takes out the vertex of least number, if one waits, and relaxes its pieces.
    pub(crate) fn advance<W: FlooredWeights>(&mut self, weights: &W)
        requires size { labels_size self.old.labels ≡ W.size weights.now }
        requires kept { AreKept self.old }
        ensures size { labels_size self.new.labels ≡ W.size weights.now }
        ensures kept { AreKept self.new }
        ensures growing { (terminals : List Vertex)
            → AreGrowing (W.size weights.now) (W.pieces weights.now) (W.over weights.now) terminals self.old
            → AreGrowing (W.size weights.now) (W.pieces weights.now) (W.over weights.now) terminals self.new }
    {
        if let Some(at) = self.labels.next() {
            self.relax(weights, at);
        }
    }

    /// Offers each neighbour of a vertex what it gets from there, if the vertex is within its ball.
    fn relax<W: FlooredWeights>(&mut self, weights: &W, from: Spot)
        requires size { labels_size self.old.labels ≡ W.size weights.now }
        requires kept { AreKept self.old }
        requires from { IsSpot (W.size weights.now) from }
        ensures kept { AreKept self.new }
        ensures grow_on { GrowOn self.old self.new }
        ensures relaxed { IsWithin (balls_of self.new) from.vertex.0
            → IsRelaxed (W.size weights.now) (W.pieces weights.now) (W.over weights.now) (balls_of self.new) from.vertex.0 }
    {
        let reached = self.labels.number(from.vertex);
        let owner = self.owners[from.vertex.0 as usize];
        if reached < self.radii[usize::from(owner)] {
            self.offer_each(weights, from, owner, reached);
        }
    }

    /// Offers each neighbour of a vertex, for the terminal that owns it, what it gets from there.
    fn offer_each<W: FlooredWeights>(&mut self, weights: &W, from: Spot, owner: u8, reached: u64)
        requires size { labels_size self.old.labels ≡ W.size weights.now }
        requires kept { AreKept self.old }
        requires from { IsSpot (W.size weights.now) from }
        requires owner { owner < few_terminals }
        requires small { reached ≤ widest }
        requires number { labels_number self.old.labels from.vertex.0 ≤ reached }
        ensures kept { AreKept self.new }
        ensures grow_on { GrowOn self.old self.new }
        ensures same { IsSame (balls_of self.old) (balls_of self.new) from.vertex.0 }
        ensures met { (p : Piece) (k b : ℕ) → Weighs (W.pieces weights.now) p k → Connects (W.size weights.now) p from.vertex.0 b
            → IsMet (balls_of self.new) owner (reached + beyond (W.size weights.now) (W.over weights.now) p k) b }
    {
        let size = self.labels.size();
        for step in &spot_steps(size, from) {
            if let Some((to, by)) = *step {
                if weights.allows(by) {
                    let offered = reached + weight_beyond(weights, size, by);
                    self.offer(to, owner, offered);
                }
            }
        }
    }

    /// Offers a vertex a number from a terminal's ball, if that reaches so far. Where the vertex is of another ball this one ends.
    fn offer(&mut self, to: Spot, owner: u8, offered: u64)
        requires kept { AreKept self.old }
        requires to { IsSpot (labels_size self.old.labels) to }
        requires owner { owner < few_terminals }
        ensures kept { AreKept self.new }
        ensures grow_on { GrowOn self.old self.new }
        ensures same { (v : ℕ) → labels_number self.old.labels v ≤ offered → IsSame (balls_of self.old) (balls_of self.new) v }
        ensures met { IsMet (balls_of self.new) owner offered to.vertex.0 }
    {
        if offered >= self.radii[usize::from(owner)] {
            return;
        }
        let reached = self.labels.number(to.vertex);
        if reached < FAR && self.owners[to.vertex.0 as usize] != owner {
            self.radii[usize::from(owner)] = offered;
        } else if offered < reached {
            self.owners[to.vertex.0 as usize] = owner;
            self.labels.lower(to, offered, offered);
        }
    }

    /// Ends all balls at the least number of those that wait, so that each vertex within one is relaxed.
    pub(crate) fn end(&mut self)
        requires kept { AreKept self.old }
        ensures size { labels_size self.new.labels ≡ labels_size self.old.labels }
        ensures kept { AreKept self.new }
        ensures balls { (s : Size) (pieces : List (Piece × ℕ)) (over : ℕ → ℕ) (terminals : List Vertex)
            → AreGrowing s pieces over terminals self.old → AreBalls s pieces over terminals (balls_of self.new) }
    {
        if let Some(at) = self.labels.next() {
            let least = self.labels.number(at.vertex);
            self.radii = cut_at(&self.radii, least);
        }
    }
}
