//! What sets of pieces load, measure and keep to.

use crate::trees::Sets;
use std::test::Fail;
use test_rows::check_rows;

/// Designs, the set of each net, and what is measured: the overflow, the wirelength and the peak.
///
/// A cycle counts each edge once, vias load no edge, without open edges there is no peak, and a choked edge overflows and
/// has no part in the peak.
const MEASURES: &str = "ROW|e0 e2|measure|0 2 1/2
CROWDED_ROW|e0 e2|measure|4 6 3/2
ROW 119 144 0;|e0 e2|measure|0 0 0/1
SQUARE|e0 e3 e1 e4 e0|measure|0 4 1/1
STACK|v0|measure|0 1 none
STACK_OF_TWO|v0|measure|0 1 0/1
ROW 142 144 1;0 0 1 1 0 1 0;|e0 e2|measure|2 2 1/2
STAR|e5 e15 e20 e22 e24 e25 e26 e35 v12|measure|0 9 1/4
WIDE_WIRES|v0 e8 e10 e12 v3|measure|0 5 1/4";

#[test]
fn sets_have_the_measures_that_were_worked_out(rt: HostRuntime) -> Result<(), Fail> {
    check_rows(rt.alloc(), MEASURES, &Sets)
}

/// What a set loads, from edge to edge: the demand is added once on each. And sets of pieces of the row whose edge 0 is choked, edge
/// 2 open, and edge 1 a wall: what they are inside of.
const FIRST_SETS: &str = "WIDE_WIRES|e2 v0 e8 e2|load| 0 0 4 0 0 0 0 0 3 0 0 0 0 0 0 0
ROW 142 144 1;0 0 1 1 0 1 0;||inside|open choked
ROW 142 144 1;0 0 1 1 0 1 0;|e2|inside|open choked
ROW 142 144 1;0 0 1 1 0 1 0;|e0 e2|inside|choked
ROW 142 144 1;0 0 1 1 0 1 0;|e0 e1|inside|";

#[test]
fn a_set_loads_its_edges_once_and_is_inside_where_every_piece_is_allowed(
    rt: HostRuntime,
) -> Result<(), Fail> {
    check_rows(rt.alloc(), FIRST_SETS, &Sets)
}
