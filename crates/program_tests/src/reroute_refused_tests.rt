//! Runs that create no file. No file is opened behind one that is refused: the desk expects no name there.

use crate::programs::Program;
use crate::runs::runs_agree;
use std::test::Fail;

/// Words that are no command.
const NO_COMMAND: &str = "0 -
CUT
2
refused 2;usage: reroute IN [ROUTES] NEW;

0 a.gr
CUT
2
refused 2;usage: reroute IN [ROUTES] NEW;

0 a.gr a.gr
CUT
2
refused 2;usage: reroute IN [ROUTES] NEW;

0 a.gr a.routes a.routes
CUT
2
refused 2;usage: reroute IN [ROUTES] NEW;

0 a.gr new.routes --workers 9
CUT
2
refused 2;usage: reroute IN [ROUTES] NEW;

0 a.gr new.routes --rounds 401
CUT
2
refused 2;usage: reroute IN [ROUTES] NEW;";

#[test]
fn words_that_are_no_command_are_refused(rt: HostRuntime) -> Result<(), Fail> {
    runs_agree(Program::RerouteFromNone, &rt, rt.alloc(), NO_COMMAND)
}

/// Of each reason against routes but the want of a block.
const OBJECTED: &str = "2 a.gr a.routes new.routes
CUT|z 9;!;|
1
no 41 0;

2 a.gr a.routes new.routes
CUT|b 1;(5,5,1)-(15,5,1);!;b 1;(5,5,1)-(15,5,1);!;|
1
no 42 1;

2 a.gr a.routes new.routes
CUT|b 1;(5,5,1)-(15,5,2);!;|
1
no 44 0 0;

2 a.gr a.routes new.routes
CUT|a 0;(5,5,1)-(15,5,1);(5,5,1)-(15,15,1);!;|
1
no 45 0 1;

2 a.gr a.routes new.routes
LAYERED_WALLS|a 7;(15,25,1)-(15,35,1);!;|
1
no 46 0 0;

2 a.gr a.routes new.routes
CUT|a 0;(5,5,1)-(15,5,1);!;c 2;!;|
1
no 47 2;

2 a.gr a.routes new.routes
CUT|a 0!|
4
refused 4 31 2;

2 a.gr a.routes new.routes|RoutesIn Read
CUT|a 0;(5,5,1)-(15,5,1);!;|
6
refused 6;";

#[test]
fn routes_are_refused_for_the_first_reason(rt: HostRuntime) -> Result<(), Fail> {
    runs_agree(Program::RerouteWithRoutes, &rt, rt.alloc(), OBJECTED)
}

/// The last design is a row without capacity.
const REFUSED: &str = "1 a.gr new.routes
ROW 0 144
3
refused 3 11 0 grid;

1 a.gr new.routes|In Open
CUT
6
refused 6;

1 a.gr new.routes
WALLED 119 119 1;a 7 2 1;5 5 1;25 5 1;0;
5
refused 5 4 7 1;";

#[test]
fn designs_are_refused(rt: HostRuntime) -> Result<(), Fail> {
    runs_agree(Program::RerouteFromNone, &rt, rt.alloc(), REFUSED)
}
