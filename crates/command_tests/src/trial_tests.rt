//! Whole runs of `trial`.

use crate::runs::runs_agree;
use std::test::Fail;

/// The net that seed 7 gives has a pin in each of the four tiles of the lower layer, which has wires along x alone. A set that
/// joins them has three of the four edges: both of the lower layer with one of the upper one between two vias, or one of the lower
/// layer with both of the upper one and four vias. The first phase takes one of the former, the second the other of these, which
/// has an edge without load. Now the edges of the lower layer have a load of 4 and those of the upper one of 2, so the third
/// phase takes one of the latter, and the fourth the other one, whose edge of the lower layer has a load of 4 and not of 6. So
/// in the end all four have a load of 6 of 8 and one price, and three of them cost 6/32 of what the capacities cost. Seed 7
/// picks the fourth phase for the first net (an independent ChaCha8 says so): three edges and four vias.
///
/// No port of a file is written to, and since the desk expects no name there, an opened or created one would be a stray.
const TRIED: &str = "trial 7 --nets 1 --cols 2 --rows 2 --layers 2
-
0
nets 1;forced 0;rounded 0;rounds 0;overflow 0;wirelength 7;peak 1/4;bound 3/16;judge yes;

trial 18446744073709551615 --nets 0 --cols 4 --rows 4
-
0
nets 0;forced 0;rounded 0;rounds 0;overflow 0;wirelength 0;peak 0/1;bound 0/1;judge yes;

trial 7 --nets 1 --cols 2 --rows 2 --layers 2|Report Write
-
7

trial|Report Write
-
2

trial
-
2
refused 2;usage: grouter route|measure|judge|make|trial|eco|climb|guide;

trial seven
-
2
refused 2;usage: grouter route|measure|judge|make|trial|eco|climb|guide;

trial 18446744073709551616
-
2
refused 2;usage: grouter route|measure|judge|make|trial|eco|climb|guide;

trial 7 8
-
2
refused 2;usage: grouter route|measure|judge|make|trial|eco|climb|guide;

trial 7 --cols 1
-
2
refused 2;usage: grouter route|measure|judge|make|trial|eco|climb|guide;

trial 7 --rows 1025
-
2
refused 2;usage: grouter route|measure|judge|make|trial|eco|climb|guide;

trial 7 --layers 1
-
2
refused 2;usage: grouter route|measure|judge|make|trial|eco|climb|guide;

trial 7 --nets 1048577
-
2
refused 2;usage: grouter route|measure|judge|make|trial|eco|climb|guide;

trial 7 --seed 8
-
2
refused 2;usage: grouter route|measure|judge|make|trial|eco|climb|guide;";

#[test]
fn a_made_design_is_tried_in_memory(rt: HostRuntime) -> Result<(), Fail> {
    runs_agree(&rt, rt.alloc(), TRIED)
}
