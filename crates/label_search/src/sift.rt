//! Moving a gap of a heap to where an entry belongs.

ghost use Rattle.std.specs.Prelude.{◌≡◌, ◌<◌, ◌≤◌, ◌≢◌, ◌+◌, ◌⊎◌, ℕ, length, slice_index, slice_set};
ghost use Rattle.label_search.specs.Heaps.{IsIndexed, HasGap, Holds, HoldsBeside, FillsGap, AreOrdered, MayRise, MaySink};

/// An entry has up to so many others below it.
pub(crate) const CHILDREN: usize = 4;

/// Puts an entry at the gap, or further up where its key belongs.
pub(crate) fn sift_up(
    keys: &mut [u64],
    vertices: &mut [u32],
    places: &mut [u32],
    len: usize,
    gap: usize,
    vertex: u32,
    key: u64,
)
    requires gap { HasGap keys.old vertices.old places.old len gap vertex }
    requires order { MayRise keys.old len gap key }
    ensures indexed { IsIndexed keys.new vertices.new places.new len }
    ensures filled { FillsGap keys.old vertices.old keys.new vertices.new len gap vertex key }
    ensures ordered { AreOrdered keys.new len }
{
    if gap > 0 {
        let above = (gap - 1) / CHILDREN;
        if key < keys[above] {
            pull(keys, vertices, places, len, gap, above, vertex);
            sift_up(keys, vertices, places, len, above, vertex, key);
            return;
        }
    }
    put(keys, vertices, places, len, gap, vertex, key);
}

/// Puts an entry at the gap, or further down where its key belongs.
pub(crate) fn sift_down(
    keys: &mut [u64],
    vertices: &mut [u32],
    places: &mut [u32],
    len: usize,
    gap: usize,
    vertex: u32,
    key: u64,
)
    requires gap { HasGap keys.old vertices.old places.old len gap vertex }
    requires order { MaySink keys.old len gap key }
    ensures indexed { IsIndexed keys.new vertices.new places.new len }
    ensures filled { FillsGap keys.old vertices.old keys.new vertices.new len gap vertex key }
    ensures ordered { AreOrdered keys.new len }
{
    let first = CHILDREN * gap + 1;
    if first < len {
        let child = least_of(keys, first, len.min(first + CHILDREN));
        if keys[child] < key {
            pull(keys, vertices, places, len, gap, child, vertex);
            sift_down(keys, vertices, places, len, child, vertex, key);
            return;
        }
    }
    put(keys, vertices, places, len, gap, vertex, key);
}

/// The place of a least key from `first` on and before `end`.
fn least_of(keys: &[u64], first: usize, end: usize) -> usize
    requires some { first < end }
    requires within { end ≤ length keys.now }
    ensures from { first ≤ result }
    ensures before { result < end }
    ensures least { (j : ℕ) → first ≤ j → j < end → slice_index keys.now result ≤ slice_index keys.now j }
{
    if end - first == CHILDREN {
        return least_of_four(keys, first);
    }
    let mut least = first;
    for j in first + 1..end {
        if keys[j] < keys[least] {
            least = j;
        }
    }
    least
}

/// The place of a least key of the four from `first` on: the lesser one of those of two pairs. Which one that is decides
/// no jump, so a processor has nothing to guess wrong.
fn least_of_four(keys: &[u64], first: usize) -> usize
    requires within { first + 4 ≤ length keys.now }
    ensures from { first ≤ result }
    ensures before { result < first + 4 }
    ensures least { (j : ℕ) → first ≤ j → j < first + 4 → slice_index keys.now result ≤ slice_index keys.now j }
{
    let low = lesser(keys, first, first + 1);
    let high = lesser(keys, first + 2, first + 3);
    lesser(keys, low, high)
}

/// The one of two places that has the lesser key, or the first.
fn lesser(keys: &[u64], one: usize, other: usize) -> usize
    requires one { one < length keys.now }
    requires other { other < length keys.now }
    ensures place { (result ≡ one) ⊎ (result ≡ other) }
    ensures one { slice_index keys.now result ≤ slice_index keys.now one }
    ensures other { slice_index keys.now result ≤ slice_index keys.now other }
{
    if keys[other] < keys[one] { other } else { one }
}

/// Moves the entry at another place into the gap, which is then at that place.
fn pull(
    keys: &mut [u64],
    vertices: &mut [u32],
    places: &mut [u32],
    len: usize,
    gap: usize,
    from: usize,
    vertex: u32,
)
    requires gap { HasGap keys.old vertices.old places.old len gap vertex }
    requires inside { from < len }
    requires other { from ≢ gap }
    ensures gap { HasGap keys.new vertices.new places.new len from vertex }
    ensures kept { (u k : ℕ) → HoldsBeside keys.old vertices.old len gap u k → HoldsBeside keys.new vertices.new len from u k }
    ensures only { (u k : ℕ) → HoldsBeside keys.new vertices.new len from u k → HoldsBeside keys.old vertices.old len gap u k }
    ensures keys { keys.new ≡ slice_set keys.old gap (slice_index keys.old from) }
{
    let moved = vertices[from];
    keys[gap] = keys[from];
    vertices[gap] = moved;
    places[moved as usize] = gap as u32;
}

/// Writes an entry at the gap.
fn put(
    keys: &mut [u64],
    vertices: &mut [u32],
    places: &mut [u32],
    len: usize,
    gap: usize,
    vertex: u32,
    key: u64,
)
    requires { HasGap keys.old vertices.old places.old len gap vertex }
    ensures indexed { IsIndexed keys.new vertices.new places.new len }
    ensures filled { FillsGap keys.old vertices.old keys.new vertices.new len gap vertex key }
    ensures keys { keys.new ≡ slice_set keys.old gap key }
{
    keys[gap] = key;
    vertices[gap] = vertex;
    places[vertex as usize] = gap as u32;
}
