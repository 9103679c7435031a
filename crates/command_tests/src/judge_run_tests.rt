//! Whole runs of `measure` and `judge`, and that memory suffices for them.

use crate::runs::runs_agree;
use std::test::Fail;

/// What is measured was counted by hand: a wire takes 2 of the capacity of an edge, and a bound at prices is the sum of the
/// nets' least costs by the sum of price times capacity. With a budget for the wirelength at price 1 and all other prices 0 it is
/// the least wirelength by the budget.
const SAID: &str = "judge a.gr a.routes a.cert
ROW|a 0;(5,5,1)-(25,5,1);!;|grouter certificate 1;nets 1;forced 0;overflow 0;wirelength 2;peak 1/2;bound 1/2;prices 2;12758;12758;
0
yes;nets 1;forced 0;beyond 0;overflow 0;wirelength 2;peak 1/2;bound 1/2;

measure a.gr a.routes
ROW|a 0;(5,5,1)-(25,5,1);!;
0
nets 1;forced 0;beyond 0;overflow 0;wirelength 2;peak 1/2;

measure a.gr a.routes
SQUARE|a 0 9;(5,5,1)-(15,5,1);(15,5,1)-(15,15,1);(5,5,1)-(5,15,1);(5,15,1)-(15,15,1);(5,5,1)-(15,5,1);!;
0
nets 1;forced 0;beyond 0;overflow 0;wirelength 4;peak 1/1;

measure a.gr a.routes
CHOKED_SQUARE|a 0 (5,5,1)-(15,5,1)!
0
nets 1;forced 0;beyond 1;overflow 2;wirelength 1;peak 0/1;

measure a.gr a.routes
ROW 142 144 1;0 0 1 1 0 1 0;|a 0;(5,5,1)-(25,5,1);!;
0
nets 1;forced 1;beyond 0;overflow 2;wirelength 2;peak 1/2;

judge a.gr a.routes a.cert
ROW|a 0;(5,5,1)-(25,5,1);!;|grouter certificate 2;nets 1;forced 0;overflow 0;wirelength 2;peak 2/1;bound 2/1;budget 1 1;prices 2;0;0;
0
yes;nets 1;forced 0;beyond 0;overflow 0;wirelength 2;peak 2/1;bound 2/1;budget 1;

judge a.gr a.routes a.cert
STACK|a 0;(5,5,1)-(5,5,2);!;|grouter certificate 2;nets 1;forced 0;overflow 0;wirelength 1;peak 1/1;bound 1/1;budget 1 1;prices 0;
0
yes;nets 1;forced 0;beyond 0;overflow 0;wirelength 1;peak 1/1;bound 1/1;budget 1;

judge a.gr a.routes a.cert
STACK|a 0;(5,5,1)-(5,5,2);!;|grouter certificate 1;nets 1;forced 0;overflow 0;wirelength 1;peak none;bound none;prices 0;
0
yes;nets 1;forced 0;beyond 0;overflow 0;wirelength 1;peak none;bound none;

judge a.gr a.routes a.cert
ROW|a 0;(5,5,1)-(25,5,1);!;|grouter certificate 1 nets 1 forced 0 overflow 0 wirelength 2 peak 2/4 bound 0/7 prices 2 0 0
0
yes;nets 1;forced 0;beyond 0;overflow 0;wirelength 2;peak 1/2;bound 0/1;

measure a.gr a.routes
ROW|b 7 !
1
no 41 0;

measure a.gr a.routes
ROW|a 0;(5,5,1)-(25,5,1);!;a 0;!;
1
no 42 0;

measure a.gr a.routes
ROW|
1
no 43 0;

measure a.gr a.routes
ROW|a 0 (5,5,1)-(25,5,1) (5,5,1)-(31,5,1)!
1
no 44 0 1;

measure a.gr a.routes
SQUARE|a 0 (5,5,1)-(15,15,1)!
1
no 45 0 0;

measure a.gr a.routes
LAYERED|a 0 (15,15,1)-(15,25,1)!
1
no 46 0 0;

judge a.gr a.routes a.cert
WIDE_WIRES|a 0;(5,5,2)-(35,5,2);(5,5,1)-(5,5,2);!;|grouter certificate 1;nets 1;forced 0;overflow 0;wirelength 5;peak 1/4;bound 6379/49800;prices 6;12142;12142;12142;12758;12758;12758;
1
no 47 0;

judge a.gr a.routes a.cert
ROW|a 0;(5,5,1)-(25,5,1);!;|grouter certificate 1;nets 1;forced 0;overflow 1;wirelength 2;peak 1/2;bound 1/2;prices 2;12758;12758;
1
no 48 1 0;

judge a.gr a.routes a.cert
ROW|a 0;(5,5,1)-(25,5,1);!;|grouter certificate 1;nets 1;forced 0;overflow 0;wirelength 3;peak 1/2;bound 1/2;prices 2;12758;12758;
1
no 49 3 2;

judge a.gr a.routes a.cert
ROW|a 0;(5,5,1)-(25,5,1);!;|grouter certificate 2;nets 1;forced 0;overflow 0;wirelength 2;peak 1/2;bound 2/1;budget 1 1;prices 2;0;0;
1
no 50 1/2 2/1;

judge a.gr a.routes a.cert
ROW|a 0;(5,5,1)-(25,5,1);!;|grouter certificate 1;nets 2;forced 0;overflow 0;wirelength 2;peak 1/2;bound 1/2;prices 2;12758;12758;
1
no 51 nets 2 1;

judge a.gr a.routes a.cert
ROW|a 0;(5,5,1)-(25,5,1);!;|grouter certificate 1;nets 1;forced 1;overflow 0;wirelength 2;peak 1/2;bound 1/2;prices 2;12758;12758;
1
no 51 forced 1 0;

judge a.gr a.routes a.cert
ROW|a 0;(5,5,1)-(25,5,1);!;|grouter certificate 1;nets 1;forced 0;overflow 0;wirelength 2;peak 1/2;bound 1/2;prices 1;12758;
1
no 51 prices 1 2;

judge a.gr a.routes a.cert
ROW|a 0;(5,5,1)-(25,5,1);!;|grouter certificate 1;nets 1;forced 0;overflow 0;wirelength 2;peak 1/2;bound 5/1;prices 2;0;0;
1
no 52 5/1 none;

judge a.gr a.routes a.cert
ROW|a 0;(5,5,1)-(25,5,1);!;|grouter certificate 1;nets 1;forced 0;overflow 0;wirelength 2;peak 1/2;bound 5/1;prices 2;12758;12758;
1
no 52 5/1 1/2;

judge a.gr a.routes a.cert
ROW|a 0;(5,5,1)-(25,5,1);!;|grouter certificate 2;nets 1;forced 0;overflow 0;wirelength 2;peak 2/1;bound 3/1;budget 1 1;prices 2;0;0;
1
no 52 3/1 2/1;

measure a.gr
ROW|a 0;(5,5,1)-(25,5,1);!;
2
refused 2;usage: grouter route|measure|judge|make|trial|eco|climb|guide;

measure a.gr a.routes a.cert
ROW|a 0;(5,5,1)-(25,5,1);!;|grouter certificate 1;nets 1;forced 0;overflow 0;wirelength 2;peak 1/2;bound 1/2;prices 2;12758;12758;
2
refused 2;usage: grouter route|measure|judge|make|trial|eco|climb|guide;

judge a.gr a.routes a.cert --seed 1
ROW|a 0;(5,5,1)-(25,5,1);!;|grouter certificate 1;nets 1;forced 0;overflow 0;wirelength 2;peak 1/2;bound 1/2;prices 2;12758;12758;
2
refused 2;usage: grouter route|measure|judge|make|trial|eco|climb|guide;

judge a.gr a.routes a.cert
ROW 0 144|a 0!
3
refused 3 11 0 grid;

measure a.gr a.routes
ROW|a 0!
4
refused 4 31 2;

judge a.gr a.routes a.cert
ROW|a 0 |
4
refused 4 31 4;

judge a.gr a.routes a.cert
ROW|a 0;(5,5,1)-(25,5,1);!;|grouter certificate 3;nets 1;
4
refused 4 32 20;

judge a.gr a.routes a.cert
ROW|a 0;(5,5,1)-(25,5,1);!;|grouter certificate 1;nets 1;forced 0;overflow 0;wirelength 2;peak 1/2;bound 1/2;prices 2;40000;12758;
4
refused 4 33 90;

judge a.gr a.routes a.cert
ROW|b 7 !|grouter certificate 2;nets 1;forced 0;overflow 0;wirelength 2;peak 2/1;bound 2/1;budget 0 1;prices 2;0;0;
4
refused 4 34 88;

judge a.gr a.routes a.cert
ROW 51 52 0|a 0!
5
refused 5 4 0 1;

judge a.gr a.routes a.cert|CertIn Open
ROW|a 0;(5,5,1)-(25,5,1);!;|grouter certificate 1;nets 1;forced 0;overflow 0;wirelength 2;peak 1/2;bound 1/2;prices 2;12758;12758;
6
refused 6;

measure a.gr a.routes|RoutesIn Read
ROW|a 0;(5,5,1)-(25,5,1);!;
6
refused 6;

judge a.gr a.routes a.cert|CertIn Open
ROW|a 0!|grouter certificate 1;nets 1;forced 0;overflow 0;wirelength 2;peak 1/2;bound 1/2;prices 2;12758;12758;
4
refused 4 31 2;

judge a.gr a.routes a.cert|Report Write
ROW|a 0;(5,5,1)-(25,5,1);!;|grouter certificate 1;nets 1;forced 0;overflow 0;wirelength 2;peak 1/2;bound 1/2;prices 2;12758;12758;
7

measure a.gr a.routes|Report Write
ROW|
1";

#[test]
fn routes_are_measured_and_judged(rt: HostRuntime) -> Result<(), Fail> {
    runs_agree(&rt, rt.alloc(), SAID)
}
