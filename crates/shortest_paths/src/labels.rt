//! Labels of vertices by a search.

ghost use Rattle.shortest_paths.specs.LabelParts.{ArePartsOfLabels};

use grid_base::{NoMemory, Piece, Size, Vertex, steps};
use grid_graph::Weights;
use label_search::{Bound, FAR, MOST, NoBound, Row, exhaust, settle, settle_each, start_each};
use std::alloc::Global;
use steiner_tables::{Family, KeptRows, NoFamily, fill, fill_alone};

/// Above each number with what is still to go: no offer is refused for this limit.
pub(crate) const NO_LIMIT: u64 = 1 << 62;

/// Numbers of the vertices of a grid by the latest search: after `distances`, `distance_between` or `distance_past`
/// distances from a source, after `subsets` or `pruned` least weights of trees, after `distances_from_each` distances from
/// terminals, by their masks.
///
/// After the first three other vertices than those asked for may have a number too, which is at least their distance.
#[derive(Drop)]
pub struct Labels {
    pub(crate) source: Vertex,
    pub(crate) row: Row,
    pub(crate) rows: KeptRows,
    pub ghost parts: { ArePartsOfLabels row rows },
}

impl Labels {
    ghost use Rattle.std.specs.Prelude.{◌≡◌, ◌≢◌, ◌<◌, ◌≤◌, ◌+◌, ◌-◌, ◌↔◌, ◌⊎◌, ℕ, List, [], All, IfOk, IfSome, IsSome, IsTrue, length, min};
    ghost use Rattle.grid_base.specs.declared.piece.Piece.{Piece};
    ghost use Rattle.grid_base.specs.Numbers.{IsVertex, Connects};
    ghost use Rattle.shortest_paths.specs.LabelWords.{labels_size, masks_of, source_of, labels_number, distance_of, label_of, HasDistance, LeadsBack};
    ghost use Rattle.steiner_tables.specs.LoneRows.{IsLoneRow};
    ghost use Rattle.steiner_tables.specs.Masks.{proper_masks, lone_masks, few_terminals, all_of, all_but_root};
    ghost use Rattle.label_search.specs.Paths.{IsPath, IsStepBack, IsPieceBack, NoneWeighsNothing};
    ghost use Rattle.label_search.specs.Rows.{number_in, IsWaiting};
    ghost use Rattle.label_search.specs.Runs.{IsSearch};
    ghost use Rattle.label_search.specs.Searches.{IsLow, known};
    ghost use Rattle.label_search.specs.Sets.{RisesSlowly};
    ghost use Rattle.label_search.specs.Starts.{IsStarted};
    ghost use Rattle.shortest_paths.specs.Sources.{IsFromAny};
    ghost use Rattle.label_search.specs.Stamped.{most, far};
    ghost use Rattle.steiner_tables.specs.Tables.{IsPrunedTable, IsLabel, IsReachedExactly, answer_at};

    /// Labels of a grid of this size. Searches take no further memory. `masks` says for how many sets of terminals
    /// there shall be room.
    pub fn new(alloc: Global, size: Size, masks: u32) -> Result<Labels, NoMemory>
        requires least { 1 ≤ masks }
        requires most { masks ≤ proper_masks }
        ensures size { IfOk result (λ l. labels_size l ≡ size) }
        ensures masks { IfOk result (λ l. masks_of l ≡ masks) }
    {
        let row = Row::new(alloc, size)?;
        let rows = KeptRows::new(alloc, masks, size.vertices())?;
        Ok(Labels {
            source: Vertex(0),
            row,
            rows,
        })
    }

    /// The size of the grid that they are of.
    pub fn size(&self) -> Size
        ensures { result ≡ labels_size self.now }
    {
        self.row.size()
    }

    /// For how many sets of terminals there is room.
    pub fn masks(&self) -> u32
        ensures { result ≡ masks_of self.now }
    {
        self.rows.masks()
    }

    /// Searches from a source until the distance of each vertex of `stop` is known, or of all vertices where `stop` is
    /// empty.
    pub fn distances<W: Weights>(&mut self, weights: &W, source: Vertex, stop: &[Vertex])
        requires size { labels_size self.old ≡ W.size weights.now }
        requires source { IsVertex (W.size weights.now) source.0 }
        requires stop { All (λ v. IsVertex (W.size weights.now) v.0) stop.now }
        ensures size { labels_size self.new ≡ labels_size self.old }
        ensures masks { masks_of self.new ≡ masks_of self.old }
        ensures source { source_of self.new ≡ source.0 }
        ensures stops { All (λ v. HasDistance (W.size weights.now) (W.pieces weights.now) self.new v.0) stop.now }
        ensures all { stop.now ≡ [] → (v : ℕ) → IsVertex (W.size weights.now) v → HasDistance (W.size weights.now) (W.pieces weights.now) self.new v }
        ensures back { LeadsBack (W.size weights.now) (W.pieces weights.now) self.new }
    {
        let bound = NoBound { weights };
        self.start(&bound, &[source]);
        self.source = source;
        if stop.is_empty() {
            exhaust(&mut self.row, weights, &bound, NO_LIMIT);
        } else {
            settle_each(&mut self.row, weights, &bound, NO_LIMIT, stop);
        }
    }

    /// Searches from a source until the distance of the goal is known, led by a bound of what is still to go.
    pub fn distance_between<W: Weights, B: Bound>(
        &mut self,
        weights: &W,
        bound: &B,
        source: Vertex,
        goal: Vertex,
    )
        requires size { labels_size self.old ≡ W.size weights.now }
        requires bound_size { B.size bound.now ≡ W.size weights.now }
        requires bound { B.pieces bound.now ≡ W.pieces weights.now }
        requires source { IsVertex (W.size weights.now) source.0 }
        requires goal { IsVertex (W.size weights.now) goal.0 }
        ensures size { labels_size self.new ≡ labels_size self.old }
        ensures masks { masks_of self.new ≡ masks_of self.old }
        ensures source { source_of self.new ≡ source.0 }
        ensures goal { HasDistance (W.size weights.now) (W.pieces weights.now) self.new goal.0 }
        ensures back { LeadsBack (W.size weights.now) (W.pieces weights.now) self.new }
    {
        self.distance_past(weights, bound, source, goal, 0);
    }

    /// The same search, which goes on until no waiting key is below the goal's number and the slack together. That sum is
    /// the answer, as far as numbers reach: with it `SearchBound` knows what is still to go to the source.
    pub fn distance_past<W: Weights, B: Bound>(
        &mut self,
        weights: &W,
        bound: &B,
        source: Vertex,
        goal: Vertex,
        slack: u64,
    ) -> u64
        requires size { labels_size self.old ≡ W.size weights.now }
        requires bound_size { B.size bound.now ≡ W.size weights.now }
        requires bound { B.pieces bound.now ≡ W.pieces weights.now }
        requires source { IsVertex (W.size weights.now) source.0 }
        requires goal { IsVertex (W.size weights.now) goal.0 }
        requires slack { slack ≤ far }
        ensures size { labels_size self.new ≡ labels_size self.old }
        ensures masks { masks_of self.new ≡ masks_of self.old }
        ensures source { source_of self.new ≡ source.0 }
        ensures goal { HasDistance (W.size weights.now) (W.pieces weights.now) self.new goal.0 }
        ensures back { LeadsBack (W.size weights.now) (W.pieces weights.now) self.new }
        ensures start { labels_number self.new source.0 ≡ 0 }
        ensures past { result ≡ min (labels_number self.new goal.0 + slack) far }
        ensures known { RisesSlowly (W.size weights.now) (W.pieces weights.now)
            (known (labels_number self.new) (B.rest bound.now) result) }
    {
        self.start(bound, &[source]);
        self.source = source;
        settle(&mut self.row, weights, bound, NO_LIMIT, goal, slack);
        (self.row.number(goal) + slack).min(FAR)
    }

    /// Searches from several sources at once until the goal's distance from the nearest of them is known, led by a bound
    /// of what is still to go. Each other vertex with a number has one too that is a path's from a source, or more.
    pub fn distance_from_any<W: Weights, B: Bound>(
        &mut self,
        weights: &W,
        bound: &B,
        sources: &[Vertex],
        goal: Vertex,
    )
        requires size { labels_size self.old ≡ W.size weights.now }
        requires bound_size { B.size bound.now ≡ W.size weights.now }
        requires bound { B.pieces bound.now ≡ W.pieces weights.now }
        requires sources { All (λ v. IsVertex (W.size weights.now) v.0) sources.now }
        requires goal { IsVertex (W.size weights.now) goal.0 }
        ensures size { labels_size self.new ≡ labels_size self.old }
        ensures masks { masks_of self.new ≡ masks_of self.old }
        ensures low { All (λ source. IsLow (W.size weights.now) (W.pieces weights.now) source.0 (labels_number self.new) goal.0) sources.now }
        ensures from { (v : ℕ) → labels_number self.new v < far → IsFromAny (W.size weights.now) (W.pieces weights.now) sources.now v (labels_number self.new v) }
    {
        self.start(bound, sources);
        settle(&mut self.row, weights, bound, NO_LIMIT, goal, 0);
    }

    /// The distance of a vertex that the latest search asked for; `None` where no walk of allowed pieces leads there.
    pub fn distance(&self, v: Vertex) -> Option<u64>
        requires { IsVertex (labels_size self.now) v.0 }
        ensures { result ≡ distance_of self.now v.0 }
    {
        let number = self.row.number(v);
        if number < FAR { Some(number) } else { None }
    }

    /// A walk of allowed pieces from the source of the latest search to a vertex that it asked for, whose pieces weigh
    /// as much as the distance. `weights` are those of the search.
    pub fn path_to<W: Weights>(&self, weights: &W, v: Vertex) -> Result<Vec<Piece>, NoMemory>
        requires vertex { IsVertex (W.size weights.now) v.0 }
        requires joined { IsSome (distance_of self.now v.0) }
        requires distance { HasDistance (W.size weights.now) (W.pieces weights.now) self.now v.0 }
        requires back { LeadsBack (W.size weights.now) (W.pieces weights.now) self.now }
        requires positive { NoneWeighsNothing (W.pieces weights.now) }
        ensures { IfOk result (λ path. IfSome (distance_of self.now v.0) (λ d. IsPath (W.size weights.now) (W.pieces weights.now) (source_of self.now) v.0 d path.items)) }
    {
        let mut path = Vec::new(self.row.allocator());
        let mut here = v;
        while here != self.source {
            let (before, by) = self.step_back(weights, here).unwrap();
            path.push(by)?;
            here = before;
        }
        path.reverse();
        Ok(path)
    }

    /// A neighbour whose number is smaller by the weight of the piece between, with that piece.
    fn step_back<W: Weights>(&self, weights: &W, here: Vertex) -> Option<(Vertex, Piece)>
        requires back { LeadsBack (W.size weights.now) (W.pieces weights.now) self.now }
        requires vertex { IsVertex (W.size weights.now) here.0 }
        requires found { labels_number self.now here.0 ≤ most }
        requires other { here.0 ≢ source_of self.now }
        ensures found { IsSome result }
        ensures step { IfSome result (λ x. IsStepBack (W.size weights.now) (W.pieces weights.now) (labels_number self.now) here.0 x.0.0 x.1) }
    {
        let number = self.row.number(here);
        for step in &steps(self.row.size(), here) {
            if let Some((before, by)) = *step {
                if self.reaches(weights, before, by, number) {
                    return Some((before, by));
                }
            }
        }
        None
    }

    /// Whether a vertex gets at most this number from a neighbour, by the piece between.
    fn reaches<W: Weights>(&self, weights: &W, before: Vertex, by: Piece, number: u64) -> bool
        requires { IsVertex (labels_size self.now) before.0 }
        ensures { IsTrue result ↔ IsPieceBack (W.pieces weights.now) by (labels_number self.now before.0) number }
    {
        weights.allows(by) && self.row.number(before) + weights.weight(by) <= number
    }

    /// The least weight of a set of allowed pieces that joins a vertex and the terminals of a mask, by the latest
    /// search. It is `None` where there is no such set, or none that was light enough for `pruned` or `distances_from_each`.
    pub fn label(&self, mask: u32, v: Vertex) -> Option<u64>
        requires some { 0 < mask }
        requires mask { mask ≤ masks_of self.now }
        requires vertex { IsVertex (labels_size self.now) v.0 }
        ensures { result ≡ answer_at far (label_of self.now mask v.0) }
    {
        let index = self.row.index_of(v)?;
        let number = self.rows.number(mask, index);
        if number < FAR { Some(number) } else { None }
    }

    /// Finds the labels of the masks up to the last one at all vertices, but for those that together with the family's
    /// bound for the other terminals are above the limit.
    pub fn pruned<W: Weights, F: Family>(
        &mut self,
        weights: &W,
        family: &F,
        terminals: &[Vertex],
        last: u32,
        limit: u64,
    )
        requires size { labels_size self.old ≡ W.size weights.now }
        requires family_size { F.size family.now ≡ W.size weights.now }
        requires family { F.pieces family.now ≡ W.pieces weights.now }
        requires family_terminals { F.terminals family.now ≡ terminals.now }
        requires terminals { All (λ v. IsVertex (W.size weights.now) v.0) terminals.now }
        requires some { 1 ≤ length terminals.now }
        requires few { length terminals.now ≤ few_terminals }
        requires room { last ≤ masks_of self.old }
        requires last { last < all_of terminals.now }
        requires limit { limit ≤ most }
        ensures size { labels_size self.new ≡ labels_size self.old }
        ensures masks { masks_of self.new ≡ masks_of self.old }
        ensures table { IsPrunedTable (W.size weights.now) (W.pieces weights.now) terminals.now last (F.low family.now) limit far (label_of self.new) }
    {
        self.rows.forget();
        self.row.forget();
        for mask in 1..last + 1 {
            fill(
                &mut self.row,
                &mut self.rows,
                weights,
                family,
                terminals,
                mask,
                limit,
            );
        }
    }

    /// Finds the distances from each of some terminals, those at the places from `first` to before `end`, as labels of the mask
    /// of that terminal alone: but for those that together with the family's bound for the other terminals are above the limit.
    pub fn distances_from_each<W: Weights, F: Family>(
        &mut self,
        weights: &W,
        family: &F,
        terminals: &[Vertex],
        first: u32,
        end: u32,
        limit: u64,
    )
        requires size { labels_size self.old ≡ W.size weights.now }
        requires family_size { F.size family.now ≡ W.size weights.now }
        requires family { F.pieces family.now ≡ W.pieces weights.now }
        requires family_terminals { F.terminals family.now ≡ terminals.now }
        requires terminals { All (λ v. IsVertex (W.size weights.now) v.0) terminals.now }
        requires several { 2 ≤ length terminals.now }
        requires few { length terminals.now ≤ few_terminals }
        requires end { end ≤ length terminals.now }
        requires room { lone_masks ≤ masks_of self.old }
        requires limit { limit ≤ most }
        ensures size { labels_size self.new ≡ labels_size self.old }
        ensures masks { masks_of self.new ≡ masks_of self.old }
        ensures rows { (place : ℕ) → first ≤ place → place < end → IsLoneRow (W.size weights.now) (W.pieces weights.now) terminals.now (F.low family.now) limit (label_of self.new) place }
    {
        self.rows.forget();
        self.row.forget();
        for place in first..end {
            fill_alone(
                &mut self.row,
                &mut self.rows,
                weights,
                family,
                terminals,
                place,
                limit,
            );
        }
    }

    /// Finds the labels of all sets of the terminals without the last one, which is the root, at all vertices.
    pub fn subsets<W: Weights>(&mut self, weights: &W, terminals: &[Vertex])
        requires size { labels_size self.old ≡ W.size weights.now }
        requires terminals { All (λ v. IsVertex (W.size weights.now) v.0) terminals.now }
        requires some { 1 ≤ length terminals.now }
        requires few { length terminals.now ≤ few_terminals }
        requires room { all_but_root terminals.now ≤ masks_of self.old }
        ensures size { labels_size self.new ≡ labels_size self.old }
        ensures masks { masks_of self.new ≡ masks_of self.old }
        ensures table { IsPrunedTable (W.size weights.now) (W.pieces weights.now) terminals.now (all_but_root terminals.now) (λ _ _. 0) most far (label_of self.new) }
        ensures reached { (mask v : ℕ) → 0 < mask → mask ≤ all_but_root terminals.now → label_of self.new mask v < far → IsReachedExactly (W.size weights.now) (W.pieces weights.now) terminals.now (label_of self.new) mask v }
        ensures labels { (mask v : ℕ) → 0 < mask → mask ≤ all_but_root terminals.now → IsVertex (W.size weights.now) v → IsLabel (W.size weights.now) (W.pieces weights.now) terminals.now mask v (answer_at far (label_of self.new mask v)) }
    {
        let last = (1 << (terminals.len() as u32 - 1)) - 1;
        let family = NoFamily { weights, terminals };
        self.pruned(weights, &family, terminals, last, MOST);
    }

    /// Begins a search: each source has the number 0 and waits, and no other vertex has a number.
    fn start<B: Bound>(&mut self, bound: &B, sources: &[Vertex])
        requires size { B.size bound.now ≡ labels_size self.old }
        requires sources { All (λ v. IsVertex (labels_size self.old) v.0) sources.now }
        ensures size { labels_size self.new ≡ labels_size self.old }
        ensures masks { masks_of self.new ≡ masks_of self.old }
        ensures search { IsSearch (B.rest bound.now) NO_LIMIT self.new.row }
        ensures started { IsStarted sources.now self.new.row }
        ensures zero { All (λ v. labels_number self.new v.0 ≡ 0) sources.now }
    {
        self.rows.forget();
        self.row.forget();
        start_each(&mut self.row, bound, NO_LIMIT, sources);
    }
}
