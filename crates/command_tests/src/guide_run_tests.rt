//! Whole runs of `guide`.

use crate::runs::runs_agree;
use std::test::Fail;

/// Guides that were worked out by hand: the row, wide wires that go up and down at both ends, and a net in one tile. A net
/// whose pins lie in one tile needs no block, and has a guide all the same.
const GUIDED: &str = "guide a.gr a.routes a.guide
ROW|a 0;(5,5,1)-(25,5,1);!;
0
guides 1;
-
-
-
a 0;(;0 0 30 10 1;);

guide a.gr a.routes a.guide
WIDE_WIRES|a 0;(5,5,2)-(35,5,2);(5,5,1)-(5,5,2);(35,5,1)-(35,5,2);!;
0
guides 1;
-
-
-
a 0;(;0 0 10 10 1;30 0 40 10 1;0 0 40 10 2;);

guide a.gr a.routes a.guide
ROW 135 141 7 3 1|a 0;!;
0
guides 1;
-
-
-
a 0;(;0 0 10 10 1;);

guide a.gr a.routes a.guide
ROW 135 141 7 3 1|
0
guides 1;
-
-
-
a 0;(;0 0 10 10 1;);

guide a.gr a.routes a.guide
CROWDED_ROW|b 1 (5,5,1)-(25,5,1)! a 0 (5,5,1)-(25,5,1)! c 2 (25,5,1)-(5,5,1)!
0
guides 3;
-
-
-
a 0;(;0 0 30 10 1;);b 1;(;0 0 30 10 1;);c 2;(;0 0 30 10 1;);

guide a.gr a.routes a.guide
ROW 110 142 ;num net 0;|
0
guides 0;";

#[test]
fn guides_are_those_of_the_routes(rt: HostRuntime) -> Result<(), Fail> {
    runs_agree(&rt, rt.alloc(), GUIDED)
}

/// A design is refused that is not near: before its grounds, and before the routes are read. Its right border may lie at 2^40,
/// and no further.
const REFUSED: &str = "guide a.gr a.routes a.guide
ROW 101 142 1099511627776 0 10 10;num net 0;|
3
refused 3 23;

guide a.gr a.routes a.guide
ROW 101 142 1099511627747 0 10 10;num net 0;|nothing
3
refused 3 23;

guide a.gr a.routes a.guide
ROW 51 142 0;minimum width 1;minimum spacing 1;via spacing 1;1099511627747 0 10 10;num net 1;a 0 2 1;1099511627752 5 1;1099511627772 5 1;0;|
3
refused 3 23;

guide a.gr a.routes a.guide
ROW 51 142 0;minimum width 1;minimum spacing 1;via spacing 1;1099511627746 0 10 10;num net 1;a 0 2 1;1099511627751 5 1;1099511627771 5 1;0;|
5
refused 5 4 0 1;

guide a.gr a.routes a.guide
ROW 101 142 0 1099511627767 10 10;num net 0;|
3
refused 3 23;

guide a.gr a.routes a.guide
ROW 101 142 1099511627746 1099511627766 10 10;num net 0;|
0
guides 0;

guide a.gr a.routes a.guide
ROW 0 4 grit|a 0;(5,5,1)-(25,5,1);!;
3
refused 3 11 0 grid;

guide a.gr a.routes a.guide
ROW 51 52 0|a 0;(5,5,1)-(25,5,1);!;
5
refused 5 4 0 1;

guide a.gr a.routes a.guide
ROW|a 0 (5,5,1)
4
refused 4 31 11;

guide a.gr a.routes a.guide
ROW|
1
no 43 0;

guide a.gr a.routes a.guide|GuideOut Create
ROW|a 0;(5,5,1)-(25,5,1);!;
7
refused 7;

guide a.gr a.routes a.guide|RoutesIn Read
ROW|a 0;(5,5,1)-(25,5,1);!;
6
refused 6;

guide a.gr a.routes a.gr
ROW|a 0;(5,5,1)-(25,5,1);!;
2
refused 2;usage: grouter route|measure|judge|make|trial|eco|climb|guide;";

#[test]
fn guides_are_refused_for_the_first_cause(rt: HostRuntime) -> Result<(), Fail> {
    runs_agree(&rt, rt.alloc(), REFUSED)
}
