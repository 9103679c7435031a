//! Lower bounds by landmarks.

ghost use Rattle.std.specs.Prelude.{◌≡◌, ◌≤◌, All, length};
ghost use Rattle.grid_base.specs.Numbers.{IsVertex};
ghost use Rattle.steiner_tables.specs.Masks.{few_terminals};
ghost use Rattle.steiner_tables.specs.Tables.{IsFamily};
ghost use Rattle.steiner_exact.specs.Boxes.{AreBoxes};
ghost use Rattle.landmarks.specs.Numbers.{AreLandmarks};
ghost use Rattle.landmarks.specs.Spans.{AreSpans, landmark_low};

use crate::landmarks::{LANDMARKS, Landmarks};
use crate::spans::{SPANS, all_spans};
use grid_base::{Place, Size, Vertex};
use grid_graph::Weights;
use label_search::FAR;
use shortest_paths::Family;
use steiner_exact::{Extent, MASKS, TerminalBox, boxes_of};

/// How far the terminals of a mask and a vertex reach: their box, each step at its floor, and what they span by one of the
/// landmarks beyond that.
#[derive(Drop)]
pub struct LandmarkFamily<'a, W: Weights> {
    weights: &'a W,
    size: Size,
    terminals: &'a [Vertex],
    landmarks: &'a Landmarks,
    boxes: [TerminalBox; MASKS],
    spans: [Extent; SPANS],
    ghost vertices: { All (λ v. IsVertex size v.0) terminals.now },
    ghost few: { length terminals.now ≤ few_terminals },
    ghost led: { AreLandmarks size (W.pieces weights.now) landmarks.now },
    ghost boxed: { AreBoxes size terminals.now boxes },
    ghost spanned: { AreSpans landmarks.now.numbers.items terminals.now spans },
    ghost holds: { IsFamily size (W.pieces weights.now) terminals.now (landmark_low size landmarks.now.floors landmarks.now.numbers.items terminals.now) },
}

impl<'a, W: Weights> LandmarkFamily<'a, W> {
    ghost use Rattle.std.specs.Prelude.{◌≡◌, ◌≤◌, ◌<◌, ◌^◌, All, length};
    ghost use Rattle.grid_base.specs.Numbers.{IsVertex};
    ghost use Rattle.steiner_tables.specs.Masks.{few_terminals};
    ghost use Rattle.landmarks.specs.Numbers.{landmark_count, AreLandmarks};
    ghost use Rattle.landmarks.specs.Spans.{widest_span};

    /// The bounds for at most five terminals, by landmarks of these weights.
    pub fn new(
        weights: &'a W,
        size: Size,
        terminals: &'a [Vertex],
        landmarks: &'a Landmarks,
    ) -> LandmarkFamily<'a, W>
        requires size { size ≡ W.size weights.now }
        requires vertices { All (λ v. IsVertex size v.0) terminals.now }
        requires few { length terminals.now ≤ few_terminals }
        requires landmarks { AreLandmarks size (W.pieces weights.now) landmarks.now }
        ensures size { result.size ≡ size }
        ensures weights { result.weights.now ≡ weights.now }
        ensures terminals { result.terminals.now ≡ terminals.now }
    {
        LandmarkFamily {
            weights,
            size,
            terminals,
            landmarks,
            boxes: boxes_of(size, terminals),
            spans: all_spans(landmarks, terminals),
        }
    }

    /// How far the terminals of a mask and a vertex reach at most by a landmark.
    fn beyond(&self, mask: u32, v: Vertex) -> u32
        requires mask { mask < 2 ^ length self.now.terminals.now }
        requires vertex { IsVertex self.now.size v.0 }
        ensures { result ≡ widest_span self.now.landmarks.now.numbers.items self.now.terminals.now mask v.0 landmark_count }
    {
        let first = mask as usize * LANDMARKS;
        let mut widest: u32 = 0;
        for landmark in 0..LANDMARKS {
            let span = self.spans[first + landmark];
            widest = widest.max(span.width_with(self.landmarks.number(v, landmark)));
        }
        widest
    }
}

impl<W: Weights> Family for LandmarkFamily<'_, W> {
    ghost use Rattle.landmarks.specs.Spans.{landmark_low};

    ghost size = { λ x. x.size };

    ghost pieces = { λ x. W.pieces x.weights.now };

    ghost terminals = { λ x. x.terminals.now };

    ghost low = { λ x. landmark_low x.size x.landmarks.now.floors x.landmarks.now.numbers.items x.terminals.now };

    ghost holds = { λ x. x.holds };

    fn low(&self, mask: u32, v: Vertex, place: Place) -> u64 {
        let reach = self.boxes[mask as usize].distance(self.size, self.landmarks.floors, place);
        (reach + u64::from(self.beyond(mask, v))).min(FAR)
    }
}
