//! Runs that make no map, or not all of it. No file is opened behind one that is refused: the desk expects no name there.

use crate::programs::Program;
use crate::runs::runs_agree;
use std::test::Fail;

/// Words that are no command.
const NO_COMMAND: &str = "0 -
CUT|a 0;(5,5,1)-(15,5,1);!;b 1;(5,5,1)-(15,5,1);!;c 2;(5,15,1)-(15,15,1);!;|
2
refused 2;usage: congestion_map IN ROUTES MAP [--cut CERT] [--layer L] [--layers] [--greater];

0 a.gr a.routes a.png
CUT|a 0;(5,5,1)-(15,5,1);!;b 1;(5,5,1)-(15,5,1);!;c 2;(5,15,1)-(15,15,1);!;|
2
refused 2;usage: congestion_map IN ROUTES MAP [--cut CERT] [--layer L] [--layers] [--greater];

0 a.gr a.routes a.svg --layers
CUT|a 0;(5,5,1)-(15,5,1);!;b 1;(5,5,1)-(15,5,1);!;c 2;(5,15,1)-(15,15,1);!;|
2
refused 2;usage: congestion_map IN ROUTES MAP [--cut CERT] [--layer L] [--layers] [--greater];

0 a.gr a.routes a.csv --cut a.cert
CUT|a 0;(5,5,1)-(15,5,1);!;b 1;(5,5,1)-(15,5,1);!;c 2;(5,15,1)-(15,15,1);!;|
2
refused 2;usage: congestion_map IN ROUTES MAP [--cut CERT] [--layer L] [--layers] [--greater];

0 a.gr a.routes a.svg --cut a.gr
CUT|a 0;(5,5,1)-(15,5,1);!;b 1;(5,5,1)-(15,5,1);!;c 2;(5,15,1)-(15,15,1);!;|
2
refused 2;usage: congestion_map IN ROUTES MAP [--cut CERT] [--layer L] [--layers] [--greater];";

#[test]
fn words_that_ask_for_no_map_are_refused(rt: HostRuntime) -> Result<(), Fail> {
    runs_agree(Program::CongestionMap, &rt, rt.alloc(), NO_COMMAND)
}

/// Objections, a text that is refused, and calls that fail.
const UNDRAWN: &str = "# The last net has no edge.
2 a.gr a.routes a.csv
CUT|a 0;(5,5,1)-(15,5,1);!;b 1;(5,5,1)-(15,5,1);!;c 2;!;|
1
no 47 2;

# The design has four open edges, and the certificate three prices.
3 a.gr a.routes a.svg --cut a.cert
CUT|a 0;(5,5,1)-(15,5,1);!;b 1;(5,5,1)-(15,5,1);!;c 2;(5,15,1)-(15,15,1);!;|grouter certificate 1;nets 3;forced 0;overflow 2;wirelength 3;peak 2/1;bound 3/10;prices 3;1;1;1;
1
no 51 prices 3 4;

# The design has one layer.
2 a.gr a.routes a.csv --layer 2
CUT|a 0;(5,5,1)-(15,5,1);!;b 1;(5,5,1)-(15,5,1);!;c 2;(5,15,1)-(15,15,1);!;|
1
no 53 2 1;

# What the certificate states of the routes is not judged, but its text is.
3 a.gr a.routes a.svg --cut a.cert
CUT|a 0;(5,5,1)-(15,5,1);!;b 1;(5,5,1)-(15,5,1);!;c 2;(5,15,1)-(15,15,1);!;|grouter certificate 3
4
refused 4 32 20;

3 a.gr a.routes a.csv|MapOut Create
CUT|a 0;(5,5,1)-(15,5,1);!;b 1;(5,5,1)-(15,5,1);!;c 2;(5,15,1)-(15,15,1);!;|
7
refused 7;

3 a.gr a.routes a.csv|MapOut Write
CUT|a 0;(5,5,1)-(15,5,1);!;b 1;(5,5,1)-(15,5,1);!;c 2;(5,15,1)-(15,15,1);!;|
7
refused 7;

3 a.gr a.routes a.csv|Report Write
CUT|a 0;(5,5,1)-(15,5,1);!;b 1;(5,5,1)-(15,5,1);!;c 2;(5,15,1)-(15,15,1);!;|
7
-
-
-
-
-
column,row,direction,load,capacity;0,0,x,4,2;0,0,y,0,8;1,0,y,0,8;0,1,x,2,2;

2 a.gr a.routes a.csv --layer 2|Report Write
CUT|a 0;(5,5,1)-(15,5,1);!;b 1;(5,5,1)-(15,5,1);!;c 2;(5,15,1)-(15,15,1);!;|
1";

#[test]
fn no_map_is_made_where_one_cannot_be(rt: HostRuntime) -> Result<(), Fail> {
    runs_agree(Program::CongestionMap, &rt, rt.alloc(), UNDRAWN)
}
