//! The spread of terminals.

ghost use Rattle.std.specs.Prelude.{◌≡◌, ◌<◌, ◌≤◌, ℕ, List, All, length, take, slice_get, min};
ghost use Rattle.grid_base.specs.declared.vertex.Vertex.{Vertex};
ghost use Rattle.grid_base.specs.Limits.{max_vertices};
ghost use Rattle.grid_base.specs.Numbers as numbers;
ghost use Rattle.grid_base.specs.Numbers.{IsVertex, place_at};
ghost use Rattle.lower_bound.specs.Spread as spread;
ghost use Rattle.lower_bound.specs.Spread.{IsNext, IsSpread, IsSpreadFive};

use grid_base::{Place, Size, Vertex};

/// How many terminals are chosen at most.
const MOST_CHOSEN: usize = 5;

/// The grid distance of two places.
fn distance(one: Place, other: Place) -> u32
    requires one { (one.col < max_vertices) × (one.row < max_vertices) × (one.layer < max_vertices) }
    requires other { (other.col < max_vertices) × (other.row < max_vertices) × (other.layer < max_vertices) }
    ensures { result ≡ numbers.distance one other }
{
    one.col.abs_diff(other.col) + one.row.abs_diff(other.row) + one.layer.abs_diff(other.layer)
}

/// The grid distance of two vertices.
fn between(size: Size, one: Vertex, other: Vertex) -> u32
    requires one { IsVertex size one.0 }
    requires other { IsVertex size other.0 }
    ensures { result ≡ numbers.distance (place_at size one.0) (place_at size other.0) }
{
    distance(size.place_of(one), size.place_of(other))
}

/// The least grid distance to those chosen, which is above all distances where none is.
fn nearest(size: Size, chosen: &[Vertex], v: Vertex) -> u32
    requires vertex { IsVertex size v.0 }
    requires chosen { All (λ c. IsVertex size c.0) chosen.now }
    ensures { result ≡ spread.nearest size chosen.now v.0 }
{
    let far = size.cols() + size.rows() + size.layers();
    chosen
        .iter()
        .fold(far, |least, c| least.min(between(size, v, *c)))
}

/// The terminal that is chosen next.
fn next(size: Size, terminals: &[Vertex], chosen: &[Vertex]) -> Vertex
    requires some { 0 < length terminals.now }
    requires vertices { All (λ v. IsVertex size v.0) terminals.now }
    requires chosen { All (λ c. IsVertex size c.0) chosen.now }
    ensures vertex { IsVertex size result.0 }
    ensures next { IsNext size terminals.now chosen.now result }
{
    let mut best = terminals[0];
    let mut reach = nearest(size, chosen, best);
    for place in 1..terminals.len() {
        let other = nearest(size, chosen, terminals[place]);
        if other > reach {
            best = terminals[place];
            reach = other;
        }
    }
    best
}

/// The chosen ones, of which those past the number of terminals mean nothing.
pub(crate) fn choose(size: Size, terminals: &[Vertex]) -> [Vertex; MOST_CHOSEN]
    requires vertices { All (λ v. IsVertex size v.0) terminals.now }
    ensures long { length result ≡ spread.most_chosen }
    ensures spread { IsSpread size terminals.now (take (min spread.most_chosen (length terminals.now)) result) }
{
    let mut chosen = [Vertex(0); MOST_CHOSEN];
    let count = terminals.len().min(MOST_CHOSEN);
    for place in 0..count {
        chosen[place] = next(size, terminals, &chosen[..place]);
    }
    chosen
}

/// The answer at a place: what was chosen there, and none past it.
fn at(chosen: &[Vertex], place: usize) -> Option<Vertex>
    ensures { result ≡ slice_get chosen.now place }
{
    chosen.get(place).copied()
}

/// Five terminals that are far apart, in order: first the first one, then each time the one whose least grid distance to
/// those before is greatest, the earlier one at a tie. `None` stands past the number of terminals.
pub fn spread_five(size: Size, terminals: &[Vertex]) -> [Option<Vertex>; 5]
    requires vertices { All (λ v. IsVertex size v.0) terminals.now }
    ensures { IsSpreadFive size terminals.now result }
{
    let chosen = choose(size, terminals);
    let chosen = &chosen[..terminals.len().min(MOST_CHOSEN)];
    [
        at(chosen, 0),
        at(chosen, 1),
        at(chosen, 2),
        at(chosen, 3),
        at(chosen, 4),
    ]
}
