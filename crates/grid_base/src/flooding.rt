//! The search of all that a set of pieces joins to a vertex.

ghost use Rattle.std.specs.Prelude.{◌≡◌, ◌≤◌, ℕ, ◌+◌, Option, IsSome, OnOk};
ghost use Rattle.grid_base.specs.Flood.{IsClosed, IsFlooded, IsFlooding};
ghost use Rattle.grid_base.specs.Lists.{At};
ghost use Rattle.grid_base.specs.Numbers.{vertices, IsVertex, Connects};

use crate::marks::Marks;
use crate::no_memory::NoMemory;
use crate::piece::Piece;
use crate::piece_set::PieceSet;
use crate::sides::steps;
use crate::size::Size;
use crate::vertex::Vertex;

/// Marks the vertex and all that the pieces join to it, breadth first. A vertex that has a mark keeps it, and nothing is
/// done where the start has one.
///
/// Asks for six pieces at each vertex that it marks. What `met` has before is let go; it is a parameter so that many
/// floods can use one list.
pub fn flood<P: PieceSet, M: Marks>(
    size: Size,
    pieces: &P,
    marks: &mut M,
    start: Vertex,
    met: &mut Vec<Vertex>,
) -> Result<(), NoMemory>
    requires start { IsVertex size start.0 }
    requires limit { vertices size ≤ M.limit marks.old }
    requires closed { IsClosed size (P.pieces pieces.now) (M.mark_of marks.old) }
    ensures flooded { OnOk result (IsFlooded size (P.pieces pieces.now) (M.mark_of marks.old) (M.mark_of marks.new) (M.next_mark marks.old) start.0) }
    ensures next { OnOk result (M.next_mark marks.new ≡ M.next_mark marks.old) }
    ensures limit { OnOk result (M.limit marks.new ≡ M.limit marks.old) }
{
    met.clear();
    if !marks.mark(start)? {
        return Ok(());
    }
    met.push(start)?;
    let mut done = 0;
    while done < met.len() {
        let from = met[done];
        spread(size, pieces, marks, from, met)?;
        done += 1;
    }
    Ok(())
}

/// Marks all that the pieces link to a vertex, and lists what had no mark behind the vertices met before.
fn spread<P: PieceSet, M: Marks>(
    size: Size,
    pieces: &P,
    marks: &mut M,
    from: Vertex,
    met: &mut Vec<Vertex>,
) -> Result<(), NoMemory>
    requires from { IsVertex size from.0 }
    requires limit { vertices size ≤ M.limit marks.old }
    ensures flooding { OnOk result ((before : ℕ → Option ℕ) (start n : ℕ) → At met.old.items n from
        → IsFlooding size (P.pieces pieces.now) before (M.mark_of marks.old) (M.next_mark marks.old) start met.old.items n
        → IsFlooding size (P.pieces pieces.now) before (M.mark_of marks.new) (M.next_mark marks.old) start met.new.items (n + 1)) }
    ensures next { OnOk result (M.next_mark marks.new ≡ M.next_mark marks.old) }
    ensures limit { OnOk result (M.limit marks.new ≡ M.limit marks.old) }
{
    for step in &steps(size, from) {
        if let Some((to, by)) = *step {
            visit(size, pieces, marks, from, to, by, met)?;
        }
    }
    Ok(())
}

/// Marks the other end of a piece, if the piece is in the set, and lists it if it had no mark.
fn visit<P: PieceSet, M: Marks>(
    size: Size,
    pieces: &P,
    marks: &mut M,
    from: Vertex,
    to: Vertex,
    by: Piece,
    met: &mut Vec<Vertex>,
) -> Result<(), NoMemory>
    requires connects { Connects size by from.0 to.0 }
    requires limit { vertices size ≤ M.limit marks.old }
    ensures flooding { OnOk result ((before : ℕ → Option ℕ) (start n : ℕ) → At met.old.items n from
        → IsFlooding size (P.pieces pieces.now) before (M.mark_of marks.old) (M.next_mark marks.old) start met.old.items n
        → IsFlooding size (P.pieces pieces.now) before (M.mark_of marks.new) (M.next_mark marks.old) start met.new.items n) }
    ensures listed { OnOk result ((n : ℕ) → At met.old.items n from → At met.new.items n from) }
    ensures visited { OnOk result (P.pieces pieces.now by → IsSome (M.mark_of marks.new to.0)) }
    ensures kept { OnOk result ((v : ℕ) → IsSome (M.mark_of marks.old v) → IsSome (M.mark_of marks.new v)) }
    ensures next { OnOk result (M.next_mark marks.new ≡ M.next_mark marks.old) }
    ensures limit { OnOk result (M.limit marks.new ≡ M.limit marks.old) }
{
    if pieces.allows(by) && marks.mark(to)? {
        met.push(to)?;
    }
    Ok(())
}
