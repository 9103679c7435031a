//! What terminals span by the numbers of landmarks.

ghost use Rattle.std.specs.Prelude.{◌≡◌, ◌≤◌, ◌<◌, All, length};
ghost use Rattle.steiner_tables.specs.Masks.{few_terminals};
ghost use Rattle.landmarks.specs.Numbers.{landmark_count};
ghost use Rattle.landmarks.specs.Spans.{span_of, AreSpans};

use crate::landmarks::{LANDMARKS, Landmarks};
use grid_base::Vertex;
use steiner_exact::{Extent, MASKS};
use steiner_tables::{all_of, has_terminal};

/// So many spans have all masks by all landmarks.
pub(crate) const SPANS: usize = MASKS * LANDMARKS;

/// What the terminals of each mask span by each landmark; the spans of a mask stand behind one another.
pub(crate) fn all_spans(landmarks: &Landmarks, terminals: &[Vertex]) -> [Extent; SPANS]
    requires terminals { All (λ v. v.0 < length landmarks.now.numbers.items) terminals.now }
    requires few { length terminals.now ≤ few_terminals }
    ensures { AreSpans landmarks.now.numbers.items terminals.now result }
{
    let mut spans = [Extent::NONE; SPANS];
    for place in 0..(all_of(terminals.len()) as usize + 1) * LANDMARKS {
        let mask = (place / LANDMARKS) as u32;
        spans[place] = span_of(landmarks, terminals, mask, place % LANDMARKS);
    }
    spans
}

/// What the terminals of a mask span by a landmark.
fn span_of(landmarks: &Landmarks, terminals: &[Vertex], mask: u32, landmark: usize) -> Extent
    requires terminals { All (λ v. v.0 < length landmarks.now.numbers.items) terminals.now }
    requires few { length terminals.now ≤ few_terminals }
    requires landmark { landmark < landmark_count }
    ensures { result ≡ span_of landmarks.now.numbers.items terminals.now mask (length terminals.now) landmark }
{
    let mut span = Extent::NONE;
    for place in 0..terminals.len() {
        if has_terminal(mask, place as u32) {
            span = span.with(landmarks.number(terminals[place], landmark));
        }
    }
    span
}
