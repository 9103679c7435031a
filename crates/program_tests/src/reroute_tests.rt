//! What becomes of nets. All routes were worked out by hand: in each case no others have so little overflow and, with this
//! overflow, so little wirelength.

use crate::programs::Program;
use crate::runs::runs_agree;
use std::test::Fail;

/// Three nets go over two edges with room for one each, so one has an overflow of 2. The shortest way of each is one edge.
const NONE_GIVEN: &str =
    "# All three are in the first batch, and none sees another one: each takes its edge, and no pass finds better.
2 a.gr new.routes --rounds 0
CUT
0
nets 3;forced 0;routed 3;rerouted 0;rounds 0;overflow 2;wirelength 3;peak 2/1;given 0 0;
a 0;(5,5,1)-(15,5,1);!;b 1;(5,5,1)-(15,5,1);!;c 2;(5,15,1)-(15,15,1);!;

# Other workers write the same.
2 a.gr new.routes --workers 4 --rounds 0
CUT
0
nets 3;forced 0;routed 3;rerouted 0;rounds 0;overflow 2;wirelength 3;peak 2/1;given 0 0;
a 0;(5,5,1)-(15,5,1);!;b 1;(5,5,1)-(15,5,1);!;c 2;(5,15,1)-(15,15,1);!;

# No way leads round, so the net goes over the choked edge, and thirty rounds find nothing better.
2 a.gr new.routes
ROW 142 144 1;0 0 1 1 0 1 0;
0
nets 1;forced 1;routed 1;rerouted 0;rounds 30;overflow 2;wirelength 2;peak 1/2;given 0 0;
a 0;(5,5,1)-(25,5,1);!;

# A net with one terminal has nothing to join.
2 a.gr new.routes
ROW 119 144 1;a 0 1 1;5 5 1;0;
0
nets 1;forced 0;routed 0;rerouted 0;rounds 0;overflow 0;wirelength 0;peak 0/1;given 0 0;
a 0;!;";

#[test]
fn nets_without_routes_get_them(rt: HostRuntime) -> Result<(), Fail> {
    runs_agree(Program::RerouteFromNone, &rt, rt.alloc(), NONE_GIVEN)
}

const GIVEN: &str =
    "# The second net goes round without need. No round of negotiation is made: the descent brings it back.
3 a.gr a.routes new.routes --rounds 0
CUT|a 0;(5,5,1)-(15,5,1);!;b 1;(5,5,1)-(5,15,1);(5,15,1)-(15,15,1);(15,5,1)-(15,15,1);!;c 2;(5,15,1)-(15,15,1);!;|
0
nets 3;forced 0;routed 0;rerouted 1;rounds 0;overflow 2;wirelength 3;peak 2/1;given 2 5;
a 0;(5,5,1)-(15,5,1);!;b 1;(5,5,1)-(15,5,1);!;c 2;(5,15,1)-(15,15,1);!;

# Without a pass there is no descent either: the given routes come back.
3 a.gr a.routes new.routes --rounds 0 --passes 0
CUT|a 0;(5,5,1)-(15,5,1);!;b 1;(5,5,1)-(5,15,1);(5,15,1)-(15,15,1);(15,5,1)-(15,15,1);!;c 2;(5,15,1)-(15,15,1);!;|
0
nets 3;forced 0;routed 0;rerouted 0;rounds 0;overflow 2;wirelength 5;peak 2/1;given 2 5;
a 0;(5,5,1)-(15,5,1);!;b 1;(5,15,1)-(15,15,1);(5,5,1)-(5,15,1);(15,5,1)-(15,15,1);!;c 2;(5,15,1)-(15,15,1);!;

# The second net has no block, and so it is no net whose set changed.
3 a.gr a.routes new.routes --rounds 0
CUT|c 2;(5,15,1)-(15,15,1);!;a 0;(5,5,1)-(15,5,1);!;|
0
nets 3;forced 0;routed 1;rerouted 0;rounds 0;overflow 2;wirelength 3;peak 2/1;given 0 2;
a 0;(5,5,1)-(15,5,1);!;b 1;(5,5,1)-(15,5,1);!;c 2;(5,15,1)-(15,15,1);!;

# All ways round are full: whatever a round of negotiation tries, the given routes are better, and come back byte for byte.
3 a.gr a.routes new.routes --rounds 3
NO_WAY_ROUND|a 0;(5,5,1)-(15,5,1);!;b 1;(5,5,1)-(15,5,1);!;|
0
nets 2;forced 0;routed 0;rerouted 0;rounds 3;overflow 2;wirelength 2;peak 2/1;given 2 2;
a 0;(5,5,1)-(15,5,1);!;b 1;(5,5,1)-(15,5,1);!;

# And with other workers and another seed too.
3 a.gr a.routes new.routes --rounds 3 --workers 4 --seed 7
NO_WAY_ROUND|a 0;(5,5,1)-(15,5,1);!;b 1;(5,5,1)-(15,5,1);!;|
0
nets 2;forced 0;routed 0;rerouted 0;rounds 3;overflow 2;wirelength 2;peak 2/1;given 2 2;
a 0;(5,5,1)-(15,5,1);!;b 1;(5,5,1)-(15,5,1);!;

# Without overflow there is nothing to negotiate, and the only way round that is free is the one that is taken.
3 a.gr a.routes new.routes
TWO_ALONG|a 0;(5,5,1)-(25,5,1);!;b 1;(5,15,1)-(25,15,1);(5,5,1)-(5,15,1);(25,5,1)-(25,15,1);!;|
0
nets 2;forced 0;routed 0;rerouted 0;rounds 0;overflow 0;wirelength 6;peak 1/1;given 0 6;
a 0;(5,5,1)-(25,5,1);!;b 1;(5,15,1)-(25,15,1);(5,5,1)-(5,15,1);(25,5,1)-(25,15,1);!;";

#[test]
fn given_routes_are_never_made_worse(rt: HostRuntime) -> Result<(), Fail> {
    runs_agree(Program::RerouteWithRoutes, &rt, rt.alloc(), GIVEN)
}

/// The first of these runs, where a call fails.
const CUT_SHORT: &str = "3 a.gr a.routes new.routes --rounds 3|RoutesOut Create
NO_WAY_ROUND|a 0;(5,5,1)-(15,5,1);!;b 1;(5,5,1)-(15,5,1);!;|
7
refused 7;

3 a.gr a.routes new.routes --rounds 3|RoutesOut Write
NO_WAY_ROUND|a 0;(5,5,1)-(15,5,1);!;b 1;(5,5,1)-(15,5,1);!;|
7
refused 7;

3 a.gr a.routes new.routes --rounds 3|Report Write
NO_WAY_ROUND|a 0;(5,5,1)-(15,5,1);!;b 1;(5,5,1)-(15,5,1);!;|
7
-
a 0;(5,5,1)-(15,5,1);!;b 1;(5,5,1)-(15,5,1);!;";

#[test]
fn new_routes_are_cut_short_where_a_write_fails(rt: HostRuntime) -> Result<(), Fail> {
    runs_agree(Program::RerouteWithRoutes, &rt, rt.alloc(), CUT_SHORT)
}
