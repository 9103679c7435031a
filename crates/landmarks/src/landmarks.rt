//! Numbers of vertices by landmarks.

use crate::beyond_floors::BeyondFloors;
use crate::distances::{FARTHEST, number_of, search_from};
use grid_base::{NoMemory, Size, Vertex};
use grid_graph::{FlooredWeights, Floors, Weights};
use shortest_paths::Labels;
use std::alloc::Global;

/// So many landmarks are used.
pub const LANDMARKS: usize = 4;

/// Floors of weights, and for each vertex of a grid its distances from the landmarks by what pieces weigh beyond the floors, as
/// far as numbers reach.
#[derive(Drop)]
pub struct Landmarks {
    pub(crate) floors: Floors,
    pub(crate) numbers: Vec<[u32; LANDMARKS]>,
}

/// Floors that say nothing.
const NO_FLOORS: Floors = Floors {
    along_x: 0,
    along_y: 0,
    via: 0,
};

impl Landmarks {
    ghost use Rattle.std.specs.Prelude.{◌≡◌, ◌≢◌, ◌≤◌, ◌<◌, ◌^◌, ℕ, List, IfOk, length, slice_index};
    ghost use Rattle.grid_base.specs.declared.piece.Piece.{Piece};
    ghost use Rattle.grid_base.specs.declared.size.Size.{Size};
    ghost use Rattle.grid_base.specs.Numbers.{IsVertex, vertices};
    ghost use Rattle.shortest_paths.specs.LabelWords.{labels_size, masks_of};
    ghost use Rattle.landmarks.specs.Numbers.{landmark_count, known_number, number_by, RiseSlowly, AreLandmarks};

    /// Landmarks of a grid of this size that say nothing.
    pub fn new(alloc: Global, size: Size) -> Result<Landmarks, NoMemory>
        ensures { IfOk result (λ l. (pieces : List (Piece × ℕ)) → AreLandmarks size pieces l) }
    {
        let numbers = vec![in alloc; [0; LANDMARKS]; size.vertices() as usize]?;
        Ok(Landmarks {
            floors: NO_FLOORS,
            numbers,
        })
    }

    /// Takes the floors of these weights, and no distances.
    pub fn reset<W: FlooredWeights>(&mut self, weights: &W)
        requires long { length self.old.numbers.items ≡ vertices (W.size weights.now) }
        ensures { AreLandmarks (W.size weights.now) (W.pieces weights.now) self.new }
    {
        self.floors = weights.floors();
        for v in 0..self.numbers.len() {
            self.numbers[v] = [0; LANDMARKS];
        }
    }

    /// Takes the floors of these weights, and the distances beyond them. Each landmark but the first is a vertex that is as far
    /// from those before as any that they reach.
    pub fn renew<W: FlooredWeights>(&mut self, weights: &W, labels: &mut Labels)
        requires long { length self.old.numbers.items ≡ vertices (W.size weights.now) }
        requires size { labels_size labels.old ≡ W.size weights.now }
        requires room { 1 ≤ masks_of labels.old }
        ensures landmarks { AreLandmarks (W.size weights.now) (W.pieces weights.now) self.new }
        ensures size { labels_size labels.new ≡ labels_size labels.old }
        ensures masks { masks_of labels.new ≡ masks_of labels.old }
    {
        self.floors = weights.floors();
        let beyond = BeyondFloors::new(weights, self.floors);
        self.measure(&beyond, labels);
    }

    /// Takes the distances at these weights.
    fn measure<W: Weights>(&mut self, weights: &W, labels: &mut Labels)
        requires long { length self.old.numbers.items ≡ vertices (W.size weights.now) }
        requires size { labels_size labels.old ≡ W.size weights.now }
        requires room { 1 ≤ masks_of labels.old }
        ensures long { length self.new.numbers.items ≡ length self.old.numbers.items }
        ensures floors { self.new.floors ≡ self.old.floors }
        ensures rise { RiseSlowly (W.size weights.now) (W.pieces weights.now) landmark_count self.new.numbers.items }
        ensures size { labels_size labels.new ≡ labels_size labels.old }
        ensures masks { masks_of labels.new ≡ masks_of labels.old }
    {
        let size = labels.size();
        for landmark in 0..LANDMARKS {
            let from = self.farthest(size, landmark);
            search_from(weights, &[from, from], labels);
            self.write(size, landmark, labels);
        }
    }

    /// The number of a vertex by a landmark.
    pub(crate) fn number(&self, v: Vertex, landmark: usize) -> u32
        requires vertex { v.0 < length self.now.numbers.items }
        requires landmark { landmark < landmark_count }
        ensures { result ≡ number_by self.now.numbers.items landmark v.0 }
    {
        self.numbers[v.0 as usize][landmark]
    }

    /// Writes the numbers by one landmark.
    fn write(&mut self, size: Size, landmark: usize, labels: &Labels)
        requires long { length self.old.numbers.items ≡ vertices size }
        requires landmark { landmark < landmark_count }
        requires size { labels_size labels.now ≡ size }
        requires room { 1 ≤ masks_of labels.now }
        ensures long { length self.new.numbers.items ≡ length self.old.numbers.items }
        ensures floors { self.new.floors ≡ self.old.floors }
        ensures written { (v : ℕ) → IsVertex size v → number_by self.new.numbers.items landmark v ≡ known_number labels.now v }
        ensures others { (k v : ℕ) → k ≢ landmark → number_by self.new.numbers.items k v ≡ number_by self.old.numbers.items k v }
    {
        for v in 0..size.vertices() {
            self.numbers[v as usize][landmark] = number_of(labels, Vertex(v));
        }
    }

    /// The least number of a vertex by the first landmarks.
    fn nearest(&self, v: u32, landmarks: usize) -> u32
        requires vertex { v < length self.now.numbers.items }
        requires landmarks { landmarks ≤ landmark_count }
    {
        let mut least = FARTHEST;
        for landmark in 0..landmarks {
            least = least.min(self.numbers[v as usize][landmark]);
        }
        least
    }

    /// The vertex whose nearest one of the first landmarks is farthest, of those that any of them reaches. Where all that these
    /// reach lies at a landmark, it is another vertex, if there is one.
    fn farthest(&self, size: Size, landmarks: usize) -> Vertex
        requires long { length self.now.numbers.items ≡ vertices size }
        requires landmarks { landmarks ≤ landmark_count }
        ensures { IsVertex size result.0 }
    {
        let mut reached = 0;
        let mut distance = 0;
        let mut beyond = 0;
        for v in 0..size.vertices() {
            let near = self.nearest(v, landmarks);
            if near == FARTHEST {
                beyond = v;
            } else if near > distance {
                distance = near;
                reached = v;
            }
        }
        Vertex(if distance == 0 { beyond } else { reached })
    }
}
