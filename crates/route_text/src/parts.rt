//! The small parts of a route text: marks, numbers, points and segments.

ghost use Rattle.std.specs.Prelude.{◌≡◌, ◌≤ℤ◌, IfOk};
ghost use Rattle.grid_graph.specs.Layouts.{IsPosition};
ghost use Rattle.text_scan.specs.Moves.{Moves};
ghost use Rattle.route_text.specs.Blocks.{mark_at, coordinate_at, token_number_at, point_at, segment_at};
ghost use Rattle.route_text.specs.ReadLimits.{IsPointInRange, IsSegmentInRange};
ghost use Rattle.route_text.specs.Reads.{IsRouteReadAs};

use crate::point::Point;
use crate::route_error::RouteError;
use crate::segment::Segment;
use grid_graph::MAX_NUMBER;
use text_scan::Scanner;

/// The byte `b`, after blanks.
fn mark(scanner: &mut Scanner<'_>, b: u8) -> Result<(), RouteError>
    ensures mark { IsRouteReadAs (λ _. tt) result scanner.new (mark_at b scanner.old) }
    ensures passed { IfOk result (λ _. Moves 1 scanner.old scanner.new) }
{
    if scanner.mark(b) {
        Ok(())
    } else {
        Err(RouteError::Syntax {
            at: scanner.place(),
        })
    }
}

/// A number of a point, which may end without a blank.
fn coordinate(scanner: &mut Scanner<'_>) -> Result<i64, RouteError>
    ensures number { IsRouteReadAs (λ x. x) result scanner.new (coordinate_at scanner.old) }
    ensures passed { IfOk result (λ _. Moves 1 scanner.old scanner.new) }
    ensures range { IfOk result (λ x. IsPosition x) }
{
    let value = scanner.digits(i128::from(-MAX_NUMBER), i128::from(MAX_NUMBER))?;
    Ok(value as i64)
}

/// A number from `lo` to `hi` that is a whole token.
pub(crate) fn token_number(scanner: &mut Scanner<'_>, lo: i64, hi: i64) -> Result<i64, RouteError>
    ensures number { IsRouteReadAs (λ x. x) result scanner.new (token_number_at lo hi scanner.old) }
    ensures passed { IfOk result (λ _. Moves 1 scanner.old scanner.new) }
    ensures range { IfOk result (λ x. (lo ≤ℤ x) × (x ≤ℤ hi)) }
{
    Ok(scanner.number(lo, hi)?.value)
}

/// `(`, x, `,`, y, `,`, layer, `)`.
#[tactic(auto, unfolding(crate::specs::Blocks::point_at))]
fn point(scanner: &mut Scanner<'_>) -> Result<Point, RouteError>
    ensures point { IsRouteReadAs (λ p. p) result scanner.new (point_at scanner.old) }
    ensures passed { IfOk result (λ _. Moves 1 scanner.old scanner.new) }
    ensures range { IfOk result IsPointInRange }
{
    mark(scanner, b'(')?;
    let x = coordinate(scanner)?;
    mark(scanner, b',')?;
    let y = coordinate(scanner)?;
    mark(scanner, b',')?;
    let layer = coordinate(scanner)?;
    mark(scanner, b')')?;
    Ok(Point { x, y, layer })
}

/// A point, `-`, a point.
#[tactic(auto, unfolding(crate::specs::Blocks::segment_at))]
pub(crate) fn segment(scanner: &mut Scanner<'_>) -> Result<Segment, RouteError>
    ensures segment { IsRouteReadAs (λ s. s) result scanner.new (segment_at scanner.old) }
    ensures passed { IfOk result (λ _. Moves 1 scanner.old scanner.new) }
    ensures range { IfOk result IsSegmentInRange }
{
    let from = point(scanner)?;
    mark(scanner, b'-')?;
    let to = point(scanner)?;
    Ok(Segment { from, to })
}
