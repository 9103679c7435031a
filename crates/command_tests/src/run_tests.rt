//! Whole runs of `route`: the worked examples, and that memory suffices for them.

use crate::runs::{after_run, runs_agree};
use run_tables::Left;
use std::alloc::Global;
use std::test::Fail;
use std::thread::Threads;
use worked_designs::{LAYERED, crowd, vast};

/// The numbers of the first part were worked out by hand. In the second part every net has only one set of least weight, and
/// one phase gives each net a set at the prices of the nets before it.
///
/// Where nothing is used yet all open edges have the same price, so the net with the wide wires goes up to the layer on
/// which they are narrower. The edges of the first net in the shared layers then have a load of 2 of 12, which is one whole
/// eighth and one step of the price, from 12446 to 12758. That is more than two vias, and so the second net goes up, and
/// the third, which finds both layers alike, does not. In the shared row they have a load of 8 of 2, which is 32 steps: two
/// edges at 12758 weigh more than four at 5777, and so the second net goes round, and the third does not. Repair changes none of
/// these routes.
///
/// Of two nets along a side the first one goes round in the first round: without it its two edges have the load 2 of 2, which is
/// 128 steps at the scale of repair, and the four edges round have none. Where there is room for no net on the way round, each
/// round adds overflow, and the routes before all rounds are written. Prices and bound are those of the one phase in each case:
/// the short way has a load of 4 of 2, which is 16 steps, from 8587 to 12758.
const ROUTED: &str = "route a.gr a.routes a.cert
ROW
0
nets 1;forced 0;rounded 0;rounds 0;overflow 0;wirelength 2;peak 1/2;bound 1/2;
a 0;(5,5,1)-(25,5,1);!;
grouter certificate 1;nets 1;forced 0;overflow 0;wirelength 2;peak 1/2;bound 1/2;prices 2;12758;12758;

route a.gr a.routes a.cert
ROW 119 144 0;0;
0
nets 0;forced 0;rounded 0;rounds 0;overflow 0;wirelength 0;peak 0/1;bound 0/1;
-
grouter certificate 1;nets 0;forced 0;overflow 0;wirelength 0;peak 0/1;bound 0/1;prices 2;12758;12758;

route a.gr a.routes a.cert
CROWDED_ROW
0
nets 3;forced 0;rounded 4;rounds 4;overflow 4;wirelength 6;peak 3/2;bound 3/2;
a 0;(5,5,1)-(25,5,1);!;b 1;(5,5,1)-(25,5,1);!;c 2;(5,5,1)-(25,5,1);!;
grouter certificate 1;nets 3;forced 0;overflow 4;wirelength 6;peak 3/2;bound 3/2;prices 2;12758;12758;

route a.gr a.routes a.cert --rounds 0
CROWDED_ROW
0
nets 3;forced 0;rounded 4;rounds 0;overflow 4;wirelength 6;peak 3/2;bound 3/2;
a 0;(5,5,1)-(25,5,1);!;b 1;(5,5,1)-(25,5,1);!;c 2;(5,5,1)-(25,5,1);!;
grouter certificate 1;nets 3;forced 0;overflow 4;wirelength 6;peak 3/2;bound 3/2;prices 2;12758;12758;

route a.gr a.routes a.cert
ROW 135 142 7 3 1;
0
nets 1;forced 0;rounded 0;rounds 0;overflow 0;wirelength 0;peak 0/1;bound 0/1;
a 0;!;
grouter certificate 1;nets 1;forced 0;overflow 0;wirelength 0;peak 0/1;bound 0/1;prices 2;12758;12758;

route a.gr a.routes a.cert
ROW 135 137 30
0
nets 1;forced 0;rounded 0;rounds 0;overflow 0;wirelength 2;peak 1/2;bound 1/2;
a 0;(5,5,1)-(25,5,1);!;
grouter certificate 1;nets 1;forced 0;overflow 0;wirelength 2;peak 1/2;bound 1/2;prices 2;12758;12758;

route a.gr a.routes a.cert --phases 2
SQUARE
0
nets 1;forced 0;rounded 0;rounds 0;overflow 0;wirelength 2;peak 1/1;bound 1/2;
?
grouter certificate 1;nets 1;forced 0;overflow 0;wirelength 2;peak 1/1;bound 1/2;prices 4;12758;12758;12758;12758;

route a.gr a.routes a.cert --phases 1
SQUARE
0
nets 1;forced 0;rounded 0;rounds 0;overflow 0;wirelength 2;peak 1/1;bound 5234/11613;
?
?

route a.gr a.routes a.cert
ROW 142 144 1;0 0 1 1 0 1 0;
0
nets 1;forced 1;rounded 2;rounds 4;overflow 2;wirelength 2;peak 1/2;bound 1/2;
a 0;(5,5,1)-(25,5,1);!;
grouter certificate 1;nets 1;forced 1;overflow 2;wirelength 2;peak 1/2;bound 1/2;prices 1;12758;

route a.gr a.routes a.cert --rounds 0
ROW 142 144 1;0 0 1 1 0 1 0;
0
nets 1;forced 1;rounded 2;rounds 0;overflow 2;wirelength 2;peak 1/2;bound 1/2;
a 0;(5,5,1)-(25,5,1);!;
grouter certificate 1;nets 1;forced 1;overflow 2;wirelength 2;peak 1/2;bound 1/2;prices 1;12758;

route a.gr a.routes a.cert
ROW 142 144 2;0 0 1 1 0 1 0;0 0 1 1 0 1 8;
0
nets 1;forced 0;rounded 0;rounds 0;overflow 0;wirelength 2;peak 1/2;bound 11613/33694;
a 0;(5,5,1)-(25,5,1);!;
grouter certificate 1;nets 1;forced 0;overflow 0;wirelength 2;peak 1/2;bound 11613/33694;prices 2;10468;12758;

route a.gr a.routes a.cert --phases 1
STAR
0
nets 1;forced 0;rounded 0;rounds 0;overflow 0;wirelength 9;peak 1/4;bound 6071/244072;
a 0;(5,25,1)-(45,25,1);(25,5,1)-(25,45,1);(25,25,1)-(25,25,2);!;
?

route a.gr a.routes a.cert
SIX_IN_A_ROW
0
nets 1;forced 0;rounded 0;rounds 0;overflow 0;wirelength 5;peak 1/2;bound 1/2;
a 0;(5,5,1)-(55,5,1);!;
grouter certificate 1;nets 1;forced 0;overflow 0;wirelength 5;peak 1/2;bound 1/2;prices 5;12758;12758;12758;12758;12758;

route a.gr a.routes a.cert --phases 1
WIDE_WIRES
0
nets 1;forced 0;rounded 0;rounds 0;overflow 0;wirelength 5;peak 1/4;bound 6379/49800;
a 0;(5,5,2)-(35,5,2);(5,5,1)-(5,5,2);(35,5,1)-(35,5,2);!;
grouter certificate 1;nets 1;forced 0;overflow 0;wirelength 5;peak 1/4;bound 6379/49800;prices 6;12142;12142;12142;12758;12758;12758;

route a.gr a.routes a.cert
ROW 142 144
0
nets 1;forced 0;rounded 0;rounds 0;overflow 0;wirelength 2;peak 1/2;bound 1/2;
a 0;(5,5,1)-(25,5,1);!;
grouter certificate 1;nets 1;forced 0;overflow 0;wirelength 2;peak 1/2;bound 1/2;prices 2;12758;12758;

route a.gr a.routes a.cert
CRLF
0
nets 1;forced 0;rounded 0;rounds 0;overflow 0;wirelength 2;peak 1/2;bound 1/2;
a 0;(-5,-5,1)-(15,-5,1);!;
grouter certificate 1;nets 1;forced 0;overflow 0;wirelength 2;peak 1/2;bound 1/2;prices 2;12758;12758;

route a.gr a.routes a.cert --phases 1
LAYERED
0
nets 1;forced 0;rounded 0;rounds 0;overflow 0;wirelength 6;peak 1/5;bound 6223/94125;
?
?

route a.gr a.routes a.cert
STACK
0
nets 1;forced 0;rounded 0;rounds 0;overflow 0;wirelength 1;peak none;bound none;
a 0;(5,5,1)-(5,5,2);!;
grouter certificate 1;nets 1;forced 0;overflow 0;wirelength 1;peak none;bound none;prices 0;

route a.gr a.routes a.cert
STACK_OF_TWO
0
nets 1;forced 0;rounded 0;rounds 0;overflow 0;wirelength 1;peak 0/1;bound 0/1;
a 0;(5,5,1)-(5,5,2);!;
?

route a.gr a.routes a.cert --budget 4
ROW
0
nets 1;forced 0;rounded 0;rounds 0;overflow 0;wirelength 2;peak 1/2;bound 1/2;budget 4;
a 0;(5,5,1)-(25,5,1);!;
grouter certificate 2;nets 1;forced 0;overflow 0;wirelength 2;peak 1/2;bound 1/2;budget 4 12758;prices 2;12758;12758;

route a.gr a.routes a.cert --budget 1
ROW
0
nets 1;forced 0;rounded 0;rounds 0;overflow 0;wirelength 2;peak 2/1;bound 20528/21919;budget 1;
a 0;(5,5,1)-(25,5,1);!;
grouter certificate 2;nets 1;forced 0;overflow 0;wirelength 2;peak 2/1;bound 20528/21919;budget 1 12758;prices 2;3885;3885;

route a.gr a.routes a.cert --workers 8 --seed 7
ROW
0
nets 1;forced 0;rounded 0;rounds 0;overflow 0;wirelength 2;peak 1/2;bound 1/2;
a 0;(5,5,1)-(25,5,1);!;
grouter certificate 1;nets 1;forced 0;overflow 0;wirelength 2;peak 1/2;bound 1/2;prices 2;12758;12758;

route a.gr a.routes a.cert
ROW 29 30 4
0
nets 1;forced 0;rounded 0;rounds 0;overflow 0;wirelength 2;peak 1/2;bound 1/2;
a 0;(5,5,1)-(25,5,1);!;
?

route a.gr a.routes a.cert
ROW 125 142 1 1;5 5 1;
0
nets 1;forced 0;rounded 0;rounds 0;overflow 0;wirelength 0;peak 0/1;bound 0/1;
a 0;!;
?

route a.gr a.routes a.cert
ROW 125 142 0 1;
0
nets 1;forced 0;rounded 0;rounds 0;overflow 0;wirelength 0;peak 0/1;bound 0/1;
a 0;!;
?

route a.gr a.routes a.cert
ROW 125 142 3 1;5 5 1;7 3 1;25 5 1;
0
nets 1;forced 0;rounded 0;rounds 0;overflow 0;wirelength 2;peak 1/2;bound 1/2;
a 0;(5,5,1)-(25,5,1);!;
grouter certificate 1;nets 1;forced 0;overflow 0;wirelength 2;peak 1/2;bound 1/2;prices 2;12758;12758;

route a.gr a.routes a.cert --phases 1
CHOKED_SQUARE
0
?
a 0;(5,15,1)-(15,15,1);(5,5,1)-(5,15,1);(15,5,1)-(15,15,1);!;
?

route a.gr a.routes a.cert --phases 1
ROUND
0
?
a 0;(5,15,1)-(25,15,1);(5,5,1)-(5,15,1);(25,5,1)-(25,15,1);!;b 1;(5,15,1)-(25,15,1);(5,5,1)-(5,15,1);(25,5,1)-(25,15,1);!;c 2;(5,25,1)-(25,25,1);!;d 3;(15,5,1)-(25,5,1);!;
?

route a.gr a.routes a.cert --phases 1
FORCED
0
?
a 0;(5,5,1)-(25,5,1);!;b 1;(5,15,1)-(15,15,1);(15,5,1)-(15,15,1);!;c 2;(5,5,1)-(5,15,1);!;
?

route a.gr a.routes a.cert --phases 1
SHARED_LAYERS
0
?
a 0;(5,5,1)-(35,5,1);!;b 1;(5,5,2)-(35,5,2);(5,5,1)-(5,5,2);(35,5,1)-(35,5,2);!;c 2;(5,5,1)-(35,5,1);!;
?

route a.gr a.routes a.cert --phases 1
SHARED_ROW
0
?
a 0;(5,5,1)-(25,5,1);!;b 1;(5,15,1)-(25,15,1);(5,5,1)-(5,15,1);(25,5,1)-(25,15,1);!;c 2;(5,5,1)-(25,5,1);!;
?

route a.gr a.routes a.cert --phases 1
TWO_ALONG
0
nets 2;forced 0;rounded 4;rounds 1;overflow 0;wirelength 6;peak 1/1;bound 51032/68451;
a 0;(5,15,1)-(25,15,1);(5,5,1)-(5,15,1);(25,5,1)-(25,15,1);!;b 1;(5,5,1)-(25,5,1);!;
grouter certificate 1;nets 2;forced 0;overflow 0;wirelength 6;peak 1/1;bound 51032/68451;prices 7;12758;8587;12758;8587;8587;8587;8587;

route a.gr a.routes a.cert --rounds 0 --phases 1
TWO_ALONG
0
nets 2;forced 0;rounded 4;rounds 0;overflow 4;wirelength 4;peak 2/1;bound 51032/68451;
a 0;(5,5,1)-(25,5,1);!;b 1;(5,5,1)-(25,5,1);!;
grouter certificate 1;nets 2;forced 0;overflow 4;wirelength 4;peak 2/1;bound 51032/68451;prices 7;12758;8587;12758;8587;8587;8587;8587;

route a.gr a.routes a.cert --phases 1
NO_WAY_ROUND
0
nets 2;forced 0;rounded 2;rounds 4;overflow 2;wirelength 2;peak 2/1;bound 51032/51277;
a 0;(5,5,1)-(15,5,1);!;b 1;(5,5,1)-(15,5,1);!;
grouter certificate 1;nets 2;forced 0;overflow 2;wirelength 2;peak 2/1;bound 51032/51277;prices 4;12758;8587;8587;8587;";

#[test]
fn a_design_is_routed(rt: HostRuntime) -> Result<(), Fail> {
    runs_agree(&rt, rt.alloc(), ROUTED)
}

/// Texts that are no design, and designs with a net that no route can join.
const REFUSED: &str = "route a.gr a.routes a.cert
ROW 139 144
3
refused 3 11 139 number;

route a.gr a.routes a.cert
ROW 101 144 1099511627777
3
refused 3 12 101;

route a.gr a.routes a.cert
ROW 0 144 grid 2048 2048 3
3
refused 3 14 15;

route a.gr a.routes a.cert
ROW 105 144 0 10
3
refused 3 15 105;

route a.gr a.routes a.cert
ROW 29 144 262145
3
refused 3 16 29;

route a.gr a.routes a.cert
ROW 67 144 1024
3
refused 3 17 67;

route a.gr a.routes a.cert
ROW 119 144 4194305
3
refused 3 18 119;

route a.gr a.routes a.cert
ROW 119 144 2;a 0 2 1;5 5 1;25 5 1;b 0 2 1;
3
refused 3 19 144 0;

route a.gr a.routes a.cert
ROW 135 144 31 5 1;0;
3
refused 3 20 135 0 1;

route a.gr a.routes a.cert
ROW 140 144 2;0;
3
refused 3 21 140 0 1;

route a.gr a.routes a.cert
ROW 142 144 1;0 0 1 2 0 1 3;
3
refused 3 22 154 0;

route a.gr a.routes a.cert
ROW 125 144 3 1;5 5 1;15 5 1;25 5 1;1;0 0 1 2 0 1 3;
3
refused 3 22 161 0;

route a.gr a.routes a.cert
WALLED 119 119 1;a 0 2 1;5 5 1;25 5 1;
5
refused 5 4 0 1;

route a.gr a.routes a.cert
WALLED 119 119 2;a 0 2 1;5 5 1;7 3 1;b 7 2 1;5 5 1;25 5 1;
5
refused 5 4 7 1;

route a.gr a.routes a.cert
WALLED 119 119 2;a 9 2 1;5 5 1;15 5 1;b 7 2 1;5 5 1;25 5 1;
5
refused 5 4 9 1;

route a.gr a.routes a.cert
WALLED 119 119 1;a 0 3 1;5 5 1;15 5 1;25 5 1;
5
refused 5 4 0 1;

route a.gr a.routes a.cert
ROW 0 144
3
refused 3 11 0 grid;";

#[test]
fn a_text_is_refused(rt: HostRuntime) -> Result<(), Fail> {
    runs_agree(&rt, rt.alloc(), REFUSED)
}

/// Words that are no command, a name under which nothing stands, and calls that fail. A refusal that can't be written keeps
/// its status, and the files of the routes and of the certificate keep what was written before. A name that the desk does
/// not expect makes it stray.
const ENDED: &str = "-
ROW
2
refused 2;usage: grouter route|measure|judge|make|trial|eco|climb|guide;

route
ROW
2
refused 2;usage: grouter route|measure|judge|make|trial|eco|climb|guide;

route a.gr a.gr a.cert
ROW
2
refused 2;usage: grouter route|measure|judge|make|trial|eco|climb|guide;

route a.gr  a.cert
ROW
2
refused 2;usage: grouter route|measure|judge|make|trial|eco|climb|guide;

route a.gr -r a.cert
ROW
2
refused 2;usage: grouter route|measure|judge|make|trial|eco|climb|guide;

route a.gr a.routes a.cert --phases
ROW
2
refused 2;usage: grouter route|measure|judge|make|trial|eco|climb|guide;

route a.gr a.routes a.cert --phases=2
ROW
2
refused 2;usage: grouter route|measure|judge|make|trial|eco|climb|guide;

route a.gr a.routes a.cert --phases 17
ROW
2
refused 2;usage: grouter route|measure|judge|make|trial|eco|climb|guide;

route a.gr a.routes a.cert --budget 0
ROW
2
refused 2;usage: grouter route|measure|judge|make|trial|eco|climb|guide;

judge a.gr a.routes
ROW
2
refused 2;usage: grouter route|measure|judge|make|trial|eco|climb|guide;

route b.gr a.routes a.cert
ROW
6 strayed
refused 6;

route a.gr a.routes a.cert|In Open
ROW
6
refused 6;

route a.gr a.routes a.cert|In Read
ROW
6
refused 6;

route a.gr a.routes a.cert|RoutesOut Create
ROW
7
refused 7;

route a.gr a.routes a.cert|RoutesOut Write
ROW
7
refused 7;

route a.gr a.routes a.cert|CertOut Create
ROW
7
refused 7;
a 0;(5,5,1)-(25,5,1);!;

route a.gr a.routes a.cert|CertOut Write
ROW
7
refused 7;
a 0;(5,5,1)-(25,5,1);!;

route a.gr a.routes a.cert|Report Write
ROW
7
-
a 0;(5,5,1)-(25,5,1);!;
grouter certificate 1;nets 1;forced 0;overflow 0;wirelength 2;peak 1/2;bound 1/2;prices 2;12758;12758;

route|Report Write
ROW
2

route a.gr a.routes a.cert|Report Write
ROW 51 52 -1
3

route a.gr a.routes a.cert|Report Write
ROW 51 52 0
5";

#[test]
fn words_are_refused_and_a_call_that_fails_has_its_status(rt: HostRuntime) -> Result<(), Fail> {
    runs_agree(&rt, rt.alloc(), ENDED)
}

const ONE_PHASE: &str = "route a.gr a.routes a.cert --phases 1";

/// The net of the layered grid climbs in one of three columns, and its sets of pieces are of the same weight.
const LAYERED_ROUTES: [&str; 3] = [
    "a 0\n(15,35,1)-(35,35,1)\n(15,15,2)-(15,35,2)\n(15,15,1)-(15,15,2)\n(15,35,1)-(15,35,2)\n!\n",
    "a 0\n(15,15,1)-(25,15,1)\n(25,35,1)-(35,35,1)\n(25,15,2)-(25,35,2)\n(25,15,1)-(25,15,2)\n(25,35,1)-(25,35,2)\n!\n",
    "a 0\n(15,15,1)-(35,15,1)\n(35,15,2)-(35,35,2)\n(35,15,1)-(35,15,2)\n(35,35,1)-(35,35,2)\n!\n",
];

/// What a run on these words leaves, where a file has the text of a design.
fn after_files<R: Threads + Sync>(
    rt: &R,
    alloc: Global,
    line: &str,
    design: &[u8],
) -> Result<Left, Fail> {
    let mut texts = Vec::new(alloc);
    texts.push(Vec::from_slice(alloc, design)?)?;
    after_run(rt, alloc, line, Vec::new(alloc), texts)
}

/// No edge leads along y on the first layer of the layered grid, so the net takes two edges along x there, two along y on
/// the second layer, and a via up and one down. A thousand nets are routed too, by eight workers, and a net of two thousand
/// pins.
#[test]
fn a_net_takes_the_layers_that_it_needs(rt: HostRuntime) -> Result<(), Fail> {
    let alloc = rt.alloc();
    let left = after_files(&rt, alloc, ONE_PHASE, LAYERED)?;
    let routes = left.texts.get(1).ok_or("routes")?.as_slice();
    assert!(rt; left.status.as_str() == "0");
    assert!(rt;
        LAYERED_ROUTES
            .iter()
            .any(|least| routes == least.as_bytes())
    );
    let many = vast(alloc, 1000)?;
    let words = "route a.gr a.routes a.cert --workers 8";
    let left = after_files(&rt, alloc, words, many.as_slice())?;
    let routes = left.texts.get(1).ok_or("routes")?.as_slice();
    assert!(rt; left.status.as_str() == "0");
    assert!(rt; routes.starts_with(b"n 0\n(5,5,1)-(5,5,2)\n!\nn 1\n"));
    let wide = crowd(alloc, 2000)?;
    let left = after_files(&rt, alloc, ONE_PHASE, wide.as_slice())?;
    let routes = left.texts.get(1).ok_or("routes")?.as_slice();
    assert!(rt; left.status.as_str() == "0");
    assert!(rt; routes.starts_with(b"n 0\n("));
    Ok(())
}
