//! Lower bounds by distances.

ghost use Rattle.std.specs.Prelude.{◌≡◌, ◌≤◌, ◌<◌, ◌-◌, ℕ, length};
ghost use Rattle.label_search.specs.Stamped.{most};
ghost use Rattle.shortest_paths.specs.LabelWords.{labels_size, masks_of, label_of};
ghost use Rattle.steiner_tables.specs.LoneRows.{IsLeadingRow};
ghost use Rattle.steiner_tables.specs.Masks.{few_terminals, lone_masks};
ghost use Rattle.steiner_tables.specs.Tables.{IsFamily};
ghost use Rattle.terminal_distances.specs.DistanceLows.{distance_low};

use grid_base::{Place, Vertex};
use shortest_paths::{Family, Labels};
use steiner_tables::{all_of, has_terminal, single_of};

/// The bounds of a family, raised to the distance from each terminal of the mask that is at a place from `first` to before
/// `end`. These distances were found under the family itself; where none was kept, the least that is above their limit together
/// with the bound for the other terminals counts.
#[derive(Drop)]
pub struct DistanceFamily<'a, B: Family> {
    bounds: &'a B,
    labels: &'a Labels,
    count: usize,
    first: u32,
    end: u32,
    limit: u64,
    ghost counted: { count ≡ length (B.terminals bounds.now) },
    ghost several: { 2 ≤ count },
    ghost few: { count ≤ few_terminals },
    ghost places: { end ≤ count },
    ghost labelled: { labels_size labels.now ≡ B.size bounds.now },
    ghost room: { lone_masks ≤ masks_of labels.now },
    ghost within: { limit ≤ most },
    ghost rows: { (place : ℕ) → first ≤ place → place < end → IsLeadingRow (B.size bounds.now) (B.pieces bounds.now) (B.terminals bounds.now) (B.low bounds.now) limit (label_of labels.now) place },
    ghost holds: { IsFamily (B.size bounds.now) (B.pieces bounds.now) (B.terminals bounds.now) (distance_low (B.terminals bounds.now) (B.low bounds.now) limit (label_of labels.now) first (end - first)) },
}

impl<'a, B: Family> DistanceFamily<'a, B> {
    ghost use Rattle.std.specs.Prelude.{◌≡◌, ◌≤◌, ◌<◌, ℕ, length};
    ghost use Rattle.grid_base.specs.Numbers.{IsVertex, place_at};
    ghost use Rattle.label_search.specs.Stamped.{most, far};
    ghost use Rattle.shortest_paths.specs.LabelWords.{labels_size, masks_of, label_of};
    ghost use Rattle.steiner_tables.specs.LoneRows.{IsLeadingRow, lone};
    ghost use Rattle.steiner_tables.specs.Masks.{few_terminals, lone_masks};

    /// The bounds of this family of so many terminals, by labels which are the distances that were found by it under this limit.
    pub fn new(
        bounds: &'a B,
        labels: &'a Labels,
        count: usize,
        first: u32,
        end: u32,
        limit: u64,
    ) -> DistanceFamily<'a, B>
        requires count { count ≡ length (B.terminals bounds.now) }
        requires several { 2 ≤ count }
        requires few { count ≤ few_terminals }
        requires end { end ≤ count }
        requires labels { labels_size labels.now ≡ B.size bounds.now }
        requires room { lone_masks ≤ masks_of labels.now }
        requires limit { limit ≤ most }
        requires rows { (place : ℕ) → first ≤ place → place < end → IsLeadingRow (B.size bounds.now) (B.pieces bounds.now) (B.terminals bounds.now) (B.low bounds.now) limit (label_of labels.now) place }
        ensures bounds { result.bounds.now ≡ bounds.now }
        ensures labels { result.labels.now ≡ labels.now }
        ensures first { result.first ≡ first }
        ensures end { result.end ≡ end }
        ensures limit { result.limit ≡ limit }
    {
        DistanceFamily {
            bounds,
            labels,
            count,
            first,
            end,
            limit,
        }
    }

    /// What the row of a terminal, by its place in the list, tells of its distance from a vertex, which stands at this place.
    fn distance(&self, terminal: u32, v: Vertex, place: Place) -> u64
        requires first { self.now.first ≤ terminal }
        requires end { terminal < self.now.end }
        requires vertex { IsVertex (B.size self.now.bounds.now) v.0 }
        requires place { place ≡ place_at (B.size self.now.bounds.now) v.0 }
        ensures value { result ≡ lone (B.terminals self.now.bounds.now) (B.low self.now.bounds.now) self.now.limit (label_of self.now.labels.now) terminal v.0 }
        ensures limit { result ≤ far }
    {
        let mask = single_of(terminal);
        match self.labels.label(mask, v) {
            Some(kept) => kept,
            None => {
                let rest = self.bounds.low(all_of(self.count) - mask, v, place);
                (self.limit + 1).saturating_sub(rest)
            }
        }
    }
}

impl<'a, B: Family> Family for DistanceFamily<'a, B> {
    ghost use Rattle.std.specs.Prelude.{◌-◌};
    ghost use Rattle.shortest_paths.specs.LabelWords.{label_of};
    ghost use Rattle.terminal_distances.specs.DistanceLows.{distance_low};

    ghost size = { λ x. B.size x.bounds.now };

    ghost pieces = { λ x. B.pieces x.bounds.now };

    ghost terminals = { λ x. B.terminals x.bounds.now };

    ghost low = { λ x. distance_low (B.terminals x.bounds.now) (B.low x.bounds.now) x.limit (label_of x.labels.now) x.first (x.end - x.first) };

    ghost holds = { λ x. x.holds };

    fn low(&self, mask: u32, v: Vertex, place: Place) -> u64 {
        let mut low = self.bounds.low(mask, v, place);
        for terminal in self.first..self.end {
            if has_terminal(mask, terminal) {
                low = low.max(self.distance(terminal, v, place));
            }
        }
        low
    }
}
