//! Whole runs of `climb`.

use crate::runs::runs_agree;
use std::test::Fail;

/// Two ways round a square, of which the routes take one. At the routes' own loads the given prices come up again, so one turn finds
/// nothing better; the first turn takes the other way, and then all four edges cost the same, which shows that some edge is half
/// full in every mixture. No bound is greater, so the first list that shows it is answered, however many turns follow.
const CLIMBED: &str = "climb a.gr a.routes a.cert b.cert --turns 1
SQUARE|a 0 (5,5,1)-(15,5,1) (15,5,1)-(15,15,1) !|grouter certificate 1 nets 1 forced 0 overflow 0 wirelength 2 peak 1/1 bound 5234/11613 prices 4 12758 10468 12758 10468
0
turn 0;bound 5234/11613;
-
grouter certificate 1;nets 1;forced 0;overflow 0;wirelength 2;peak 1/1;bound 5234/11613;prices 4;12758;10468;12758;10468;

climb a.gr a.routes a.cert b.cert --turns 2
SQUARE|a 0 (5,5,1)-(15,5,1) (15,5,1)-(15,15,1) !|grouter certificate 1 nets 1 forced 0 overflow 0 wirelength 2 peak 1/1 bound 5234/11613 prices 4 12758 10468 12758 10468
0
turn 2;bound 1/2;
-
grouter certificate 1;nets 1;forced 0;overflow 0;wirelength 2;peak 1/1;bound 1/2;prices 4;12758;12758;12758;12758;

climb a.gr a.routes a.cert b.cert
SQUARE|a 0 (5,5,1)-(15,5,1) (15,5,1)-(15,15,1) !|grouter certificate 1 nets 1 forced 0 overflow 0 wirelength 2 peak 1/1 bound 5234/11613 prices 4 12758 10468 12758 10468
0
turn 2;bound 1/2;
-
grouter certificate 1;nets 1;forced 0;overflow 0;wirelength 2;peak 1/1;bound 1/2;prices 4;12758;12758;12758;12758;

# a stated bound may be below what its own prices show
climb a.gr a.routes a.cert b.cert --turns 1
SQUARE|a 0 (5,5,1)-(15,5,1) (15,5,1)-(15,15,1) !|grouter certificate 1 nets 1 forced 0 overflow 0 wirelength 2 peak 1/1 bound 0/1 prices 4 12758 10468 12758 10468
0
turn 0;bound 5234/11613;
-
grouter certificate 1;nets 1;forced 0;overflow 0;wirelength 2;peak 1/1;bound 5234/11613;prices 4;12758;10468;12758;10468;

# without an open edge there is no bound
climb a.gr a.routes a.cert b.cert
STACK|a 0 (5,5,1)-(5,5,2) !|grouter certificate 1 nets 1 forced 0 overflow 0 wirelength 1 peak none bound none prices 0
0
turn 0;bound none;
-
grouter certificate 1;nets 1;forced 0;overflow 0;wirelength 1;peak none;bound none;prices 0;";

#[test]
fn climbs_come_to_the_first_best_prices(rt: HostRuntime) -> Result<(), Fail> {
    runs_agree(&rt, rt.alloc(), CLIMBED)
}

/// The judge comes first, and nothing is written unless it says yes.
const ENDED: &str = "climb a.gr a.routes a.cert b.cert
SQUARE|a 0 (5,5,1)-(15,5,1) (15,5,1)-(15,15,1) !|grouter certificate 1 nets 1 forced 0 overflow 0 wirelength 2 peak 1/1 bound 5235/11613 prices 4 12758 10468 12758 10468
1
no 52 1745/3871 5234/11613;

climb a.gr a.routes a.cert b.cert
SQUARE|a 0 (5,5,1)-(15,5,1) !|grouter certificate 1 nets 1 forced 0 overflow 0 wirelength 2 peak 1/1 bound 1/2 prices 4 1 1 1 1
1
no 47 0;

climb a.gr a.routes a.cert b.cert
SQUARE|a 0 !|grouter certificat 1
4
refused 4 32 8;

climb a.gr a.routes a.cert b.cert|CertIn Open
SQUARE|a 0 !|grouter
6
refused 6;

climb a.gr a.routes a.cert b.cert|CertOut Create
SQUARE|a 0 (5,5,1)-(15,5,1) (15,5,1)-(15,15,1) !|grouter certificate 1 nets 1 forced 0 overflow 0 wirelength 2 peak 1/1 bound 5234/11613 prices 4 12758 10468 12758 10468
7
refused 7;

climb a.gr a.routes a.cert b.cert --turns 1|Report Write
SQUARE|a 0 (5,5,1)-(15,5,1) (15,5,1)-(15,15,1) !|grouter certificate 1 nets 1 forced 0 overflow 0 wirelength 2 peak 1/1 bound 5234/11613 prices 4 12758 10468 12758 10468
7
-
-
grouter certificate 1;nets 1;forced 0;overflow 0;wirelength 2;peak 1/1;bound 5234/11613;prices 4;12758;10468;12758;10468;

climb a.gr a.routes a.cert b.cert --turns 0
-
2
refused 2;usage: grouter route|measure|judge|make|trial|eco|climb|guide;

climb a.gr a.routes a.cert b.cert --turns 17
-
2
refused 2;usage: grouter route|measure|judge|make|trial|eco|climb|guide;

climb a.gr a.routes a.cert b.cert --workers 2
-
2
refused 2;usage: grouter route|measure|judge|make|trial|eco|climb|guide;

climb a.gr a.routes a.cert a.cert
-
2
refused 2;usage: grouter route|measure|judge|make|trial|eco|climb|guide;";

#[test]
fn a_climb_ends_for_the_first_cause(rt: HostRuntime) -> Result<(), Fail> {
    runs_agree(&rt, rt.alloc(), ENDED)
}
