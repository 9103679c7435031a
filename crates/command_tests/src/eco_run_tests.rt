//! Whole runs of `eco`.

use crate::runs::runs_agree;
use std::test::Fail;

/// Edits of three nets on one row of three tiles, whose routes all take the two edges, which have room for two of them. Who goes leaves its load, who
/// comes behind the others has only one way, and a change keeps place and name.
const EDITED: &str = "eco a.gr a.routes a.edits b.routes
CROWDED_ROW|a 0 (5,5,1)-(25,5,1)! b 1 (5,5,1)-(25,5,1)! c 2 (5,5,1)-(25,5,1)!||edits 1 drop 1
0
nets 2;forced 0;kept 2;routed 0;overflow 0;wirelength 4;peak 1/1;
a 0;(5,5,1)-(25,5,1);!;c 2;(5,5,1)-(25,5,1);!;

eco a.gr a.routes a.edits b.routes
CROWDED_ROW|a 0 (5,5,1)-(25,5,1)! b 1 (5,5,1)-(25,5,1)! c 2 (5,5,1)-(25,5,1)!||edits 2 drop 1 add d 1 2 1 5 5 1 25 5 1
0
nets 3;forced 0;kept 2;routed 1;overflow 4;wirelength 6;peak 3/2;
a 0;(5,5,1)-(25,5,1);!;c 2;(5,5,1)-(25,5,1);!;d 1;(5,5,1)-(25,5,1);!;

# a net that is changed twice counts once, and one that is added and dropped again doesn't count
eco a.gr a.routes a.edits b.routes
CROWDED_ROW|c 2 (25,5,1)-(5,5,1)! b 1 (5,5,1)-(25,5,1)! a 0 (5,5,1)-(25,5,1)!||edits 4 change 1 2 1 5 5 1 15 5 1 add d 3 2 1 5 5 1 15 5 1 drop 3 change 1 1 1 5 5 1
0
nets 3;forced 0;kept 2;routed 1;overflow 0;wirelength 4;peak 1/1;
a 0;(5,5,1)-(25,5,1);!;b 1;!;c 2;(5,5,1)-(25,5,1);!;

# without edits the routes stay, in the program's own form
eco a.gr a.routes a.edits b.routes
CROWDED_ROW|c 2 (25,5,1)-(15,5,1) (15,5,1)-(5,5,1)! b 1 (5,5,1)-(25,5,1)! a 0 (5,5,1)-(25,5,1)!||edits 0
0
nets 3;forced 0;kept 3;routed 0;overflow 4;wirelength 6;peak 3/2;
a 0;(5,5,1)-(25,5,1);!;b 1;(5,5,1)-(25,5,1);!;c 2;(5,5,1)-(25,5,1);!;

# the last net may go
eco a.gr a.routes a.edits b.routes
ROW|a 0 (5,5,1)-(25,5,1)!||edits 1 drop 0
0
nets 0;forced 0;kept 0;routed 0;overflow 0;wirelength 0;peak 0/1;";

#[test]
fn edits_are_made_in_order(rt: HostRuntime) -> Result<(), Fail> {
    runs_agree(&rt, rt.alloc(), EDITED)
}

/// An edit that is refused ends the run, and nothing is written. The table of all numbers, alone and behind an edit that was made,
/// is that of `routed_tests`; a limit on nets or pins is too large for a row.
const REFUSED: &str = "eco a.gr a.routes a.edits b.routes
CROWDED_ROW|a 0 (5,5,1)-(25,5,1)! b 1 (5,5,1)-(25,5,1)! c 2 (5,5,1)-(25,5,1)!||edits 1 drop 9
9
refused 9 62 0 9;

eco a.gr a.routes a.edits b.routes
CROWDED_ROW|a 0 (5,5,1)-(25,5,1)! b 1 (5,5,1)-(25,5,1)! c 2 (5,5,1)-(25,5,1)!||edits 2 drop 1 change 1 0 1
9
refused 9 62 1 1;

eco a.gr a.routes a.edits b.routes
CROWDED_ROW|a 0 (5,5,1)-(25,5,1)! b 1 (5,5,1)-(25,5,1)! c 2 (5,5,1)-(25,5,1)!||edits 1 add d 2 0 1
9
refused 9 63 0 2;

eco a.gr a.routes a.edits b.routes
CROWDED_ROW|a 0 (5,5,1)-(25,5,1)! b 1 (5,5,1)-(25,5,1)! c 2 (5,5,1)-(25,5,1)!||edits 2 add d 3 0 1 add e 3 0 1
9
refused 9 63 1 3;

eco a.gr a.routes a.edits b.routes
CROWDED_ROW|a 0 (5,5,1)-(25,5,1)! b 1 (5,5,1)-(25,5,1)! c 2 (5,5,1)-(25,5,1)!||edits 2 drop 1 add d 3 3 1 5 5 1 31 5 9 5 11 1
9
refused 9 64 1 1;

eco a.gr a.routes a.edits b.routes
CROWDED_ROW|a 0 (5,5,1)-(25,5,1)! b 1 (5,5,1)-(25,5,1)! c 2 (5,5,1)-(25,5,1)!||edits 1 change 2 2 1 5 5 0 5 5 2
9
refused 9 65 0 0;

eco a.gr a.routes a.edits b.routes
CROWDED_ROW|a 0 (5,5,1)-(25,5,1)! b 1 (5,5,1)-(25,5,1)! c 2 (5,5,1)-(25,5,1)!||edits 2 drop 0 change 2 0 1023
9
refused 9 67 1;";

#[test]
fn an_edit_that_is_refused_ends_the_run(rt: HostRuntime) -> Result<(), Fail> {
    runs_agree(&rt, rt.alloc(), REFUSED)
}

/// A run ends for the first cause: the design, its grounds, the routes, the reasons against them, and only then the edits.
const ENDED: &str = "eco a.gr a.routes a.edits b.routes
CROWDED_ROW|a 0 (5,5,1)-(25,5,1)! b 1 (5,5,1)-(25,5,1)! c 2 (5,5,1)-(25,5,1)!||edits 1 drop
4
refused 4 61 12;

# the routes are not accepted, so the edits are not read
eco a.gr a.routes a.edits b.routes
CROWDED_ROW|a 0 (5,5,1)-(25,5,1)! b 1 (5,5,1)-(25,5,1)!||edits 1 drop
1
no 43 2;

eco a.gr a.routes a.edits b.routes
CROWDED_ROW|a 0 (5,5||edits 1 drop
4
refused 4 31 8;

eco a.gr a.routes a.edits b.routes
ROW 0 4 gird|a 0 (5,5||edits 1 drop
3
refused 3 11 0 grid;

eco a.gr a.routes a.edits b.routes|EditsIn Open
CROWDED_ROW|a 0 (5,5,1)-(25,5,1)! b 1 (5,5,1)-(25,5,1)! c 2 (5,5,1)-(25,5,1)!||edits 1 drop 1
6
refused 6;

eco a.gr a.routes a.edits b.routes|EditsIn Read
CROWDED_ROW|a 0 (5,5,1)-(25,5,1)! b 1 (5,5,1)-(25,5,1)! c 2 (5,5,1)-(25,5,1)!||edits 1 drop 1
6
refused 6;

eco a.gr a.routes a.edits b.routes|RoutesOut Create
CROWDED_ROW|a 0 (5,5,1)-(25,5,1)! b 1 (5,5,1)-(25,5,1)! c 2 (5,5,1)-(25,5,1)!||edits 1 drop 1
7
refused 7;

eco a.gr a.routes a.edits b.routes|Report Write
CROWDED_ROW|a 0 (5,5,1)-(25,5,1)! b 1 (5,5,1)-(25,5,1)! c 2 (5,5,1)-(25,5,1)!||edits 1 drop 1
7
-
a 0;(5,5,1)-(25,5,1);!;c 2;(5,5,1)-(25,5,1);!;

# the status of a refused edit stays where its line can't be written
eco a.gr a.routes a.edits b.routes|Report Write
CROWDED_ROW|a 0 (5,5,1)-(25,5,1)! b 1 (5,5,1)-(25,5,1)! c 2 (5,5,1)-(25,5,1)!||edits 1 drop 9
9

eco a.gr a.routes a.edits a.gr
CROWDED_ROW|-||edits 0
2
refused 2;usage: grouter route|measure|judge|make|trial|eco|climb|guide;";

#[test]
fn a_run_of_edits_ends_for_the_first_cause(rt: HostRuntime) -> Result<(), Fail> {
    runs_agree(&rt, rt.alloc(), ENDED)
}
