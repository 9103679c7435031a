//! What pieces join, by merging marks.

ghost use Rattle.std.specs.Prelude.{◌≡◌, ◌↔◌, ◌<◌, ℕ, [], All, IfOk, IsTrue, if◌then◌else◌, ◌==◌, length, slice_index};
ghost use Rattle.std.specs.List.{range_with_len};
ghost use Rattle.grid_base.specs.Numbers.{vertices, IsVertex, IsPiece};
ghost use Rattle.grid_base.specs.Walks.{JoinsList};
ghost use Rattle.reference_programs.specs.Marks.{AreMarks};

use grid_base::{NoMemory, Piece, Size, Vertex};
use std::alloc::{AllocError, Global};

/// Whether the pieces join the terminals.
///
/// At first each vertex has a mark of its own. Each piece gives all vertices that are marked as its one end the mark of
/// its other end. Then what has one mark is joined.
pub fn joins_by_merging(
    alloc: Global,
    size: Size,
    pieces: &[Piece],
    terminals: &[Vertex],
) -> Result<bool, NoMemory>
    requires pieces { All (IsPiece size) pieces.now }
    requires vertices { All (λ t. IsVertex size t.0) terminals.now }
    ensures { IfOk result (λ joined. IsTrue joined ↔ JoinsList size pieces.now terminals.now) }
{
    let marks = merged_marks(alloc, size, pieces)?;
    let Some(first) = terminals.first() else {
        return Ok(true);
    };
    let mark = marks[first.0 as usize];
    Ok(all_have_mark(marks.as_slice(), terminals, mark))
}

/// Whether all these vertices have the mark.
fn all_have_mark(marks: &[u32], vertices: &[Vertex], mark: u32) -> bool
    requires { All (λ v. v.0 < length marks.now) vertices.now }
    ensures { IsTrue result ↔ All (λ v. slice_index marks.now v.0 ≡ mark) vertices.now }
{
    vertices.iter().all(|v| marks[v.0 as usize] == mark)
}

/// A mark for each vertex, such that those that the pieces join have the same.
fn merged_marks(alloc: Global, size: Size, pieces: &[Piece]) -> Result<Vec<u32>, NoMemory>
    requires { All (IsPiece size) pieces.now }
    ensures { IfOk result (λ marks. AreMarks size pieces.now marks.items) }
{
    let mut marks = own_marks(alloc, size.vertices())?;
    for p in pieces {
        let (near, far) = size.ends_of(*p);
        let (old, new) = (marks[near.0 as usize], marks[far.0 as usize]);
        merge(marks.as_mut_slice(), old, new);
    }
    Ok(marks)
}

/// The numbers from 0 on, of which each is the mark of its own vertex.
fn own_marks(alloc: Global, count: u32) -> Result<Vec<u32>, AllocError>
    ensures { IfOk result (λ marks. marks.items ≡ range_with_len 0 count) }
{
    (0..count).collect(alloc)
}

/// Puts the new mark in place of the old one.
fn merge(marks: &mut [u32], old: u32, new: u32)
    ensures { (k : ℕ) → k < length marks.old → slice_index marks.new k
        ≡ (if slice_index marks.old k == old then new else slice_index marks.old k) }
{
    for mark in marks.iter_mut() {
        if *mark == old {
            *mark = new;
        }
    }
}
