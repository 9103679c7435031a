//! Runs that create no file. No file is opened behind one that is refused: the desk expects no name there.

use crate::programs::Program;
use crate::runs::runs_agree;
use std::test::Fail;

/// Words that are no command.
const NO_COMMAND: &str = "0 -
CUT|a 0;(5,5,1)-(15,5,1);!;b 1;(5,5,1)-(15,5,1);!;c 2;(5,15,1)-(15,15,1);!;|grouter certificate 1;nets 3;forced 0;overflow 2;wirelength 3;peak 2/1;bound 3/10;prices 4;1;1;1;1;
2
refused 2;usage: unavoidable IN ROUTES [CERT] NEW;

0 a.gr new.cert
CUT|a 0;(5,5,1)-(15,5,1);!;b 1;(5,5,1)-(15,5,1);!;c 2;(5,15,1)-(15,15,1);!;|
2
refused 2;usage: unavoidable IN ROUTES [CERT] NEW;

0 a.gr a.routes a.gr
CUT|a 0;(5,5,1)-(15,5,1);!;b 1;(5,5,1)-(15,5,1);!;c 2;(5,15,1)-(15,15,1);!;|
2
refused 2;usage: unavoidable IN ROUTES [CERT] NEW;

0 a.gr a.routes a.routes
CUT|a 0;(5,5,1)-(15,5,1);!;b 1;(5,5,1)-(15,5,1);!;c 2;(5,15,1)-(15,15,1);!;|
2
refused 2;usage: unavoidable IN ROUTES [CERT] NEW;

0 a.gr  new.cert
CUT|a 0;(5,5,1)-(15,5,1);!;b 1;(5,5,1)-(15,5,1);!;c 2;(5,15,1)-(15,15,1);!;|
2
refused 2;usage: unavoidable IN ROUTES [CERT] NEW;

0 a.gr a.routes -new
CUT|a 0;(5,5,1)-(15,5,1);!;b 1;(5,5,1)-(15,5,1);!;c 2;(5,15,1)-(15,15,1);!;|
2
refused 2;usage: unavoidable IN ROUTES [CERT] NEW;

0 a.gr a.routes a.cert new.cert b.cert
CUT|a 0;(5,5,1)-(15,5,1);!;b 1;(5,5,1)-(15,5,1);!;c 2;(5,15,1)-(15,15,1);!;|grouter certificate 1;nets 3;forced 0;overflow 2;wirelength 3;peak 2/1;bound 3/10;prices 4;1;1;1;1;
2
refused 2;usage: unavoidable IN ROUTES [CERT] NEW;

0 a.gr a.routes a.cert a.cert
CUT|a 0;(5,5,1)-(15,5,1);!;b 1;(5,5,1)-(15,5,1);!;c 2;(5,15,1)-(15,15,1);!;|grouter certificate 1;nets 3;forced 0;overflow 2;wirelength 3;peak 2/1;bound 3/10;prices 4;1;1;1;1;
2
refused 2;usage: unavoidable IN ROUTES [CERT] NEW;

0 a.gr a.routes a.cert a.gr
CUT|a 0;(5,5,1)-(15,5,1);!;b 1;(5,5,1)-(15,5,1);!;c 2;(5,15,1)-(15,15,1);!;|grouter certificate 1;nets 3;forced 0;overflow 2;wirelength 3;peak 2/1;bound 3/10;prices 4;1;1;1;1;
2
refused 2;usage: unavoidable IN ROUTES [CERT] NEW;

0 a.gr a.gr a.cert new.cert
CUT|a 0;(5,5,1)-(15,5,1);!;b 1;(5,5,1)-(15,5,1);!;c 2;(5,15,1)-(15,15,1);!;|grouter certificate 1;nets 3;forced 0;overflow 2;wirelength 3;peak 2/1;bound 3/10;prices 4;1;1;1;1;
2
refused 2;usage: unavoidable IN ROUTES [CERT] NEW;

0 a.gr a.routes  new.cert
CUT|a 0;(5,5,1)-(15,5,1);!;b 1;(5,5,1)-(15,5,1);!;c 2;(5,15,1)-(15,15,1);!;|grouter certificate 1;nets 3;forced 0;overflow 2;wirelength 3;peak 2/1;bound 3/10;prices 4;1;1;1;1;
2
refused 2;usage: unavoidable IN ROUTES [CERT] NEW;

0 a.gr a.routes a.cert -new
CUT|a 0;(5,5,1)-(15,5,1);!;b 1;(5,5,1)-(15,5,1);!;c 2;(5,15,1)-(15,15,1);!;|grouter certificate 1;nets 3;forced 0;overflow 2;wirelength 3;peak 2/1;bound 3/10;prices 4;1;1;1;1;
2
refused 2;usage: unavoidable IN ROUTES [CERT] NEW;

0 -a.gr a.routes a.cert new.cert
CUT|a 0;(5,5,1)-(15,5,1);!;b 1;(5,5,1)-(15,5,1);!;c 2;(5,15,1)-(15,15,1);!;|grouter certificate 1;nets 3;forced 0;overflow 2;wirelength 3;peak 2/1;bound 3/10;prices 4;1;1;1;1;
2
refused 2;usage: unavoidable IN ROUTES [CERT] NEW;

0 a.gr a.routes a.cert new.cert --rounds 3
CUT|a 0;(5,5,1)-(15,5,1);!;b 1;(5,5,1)-(15,5,1);!;c 2;(5,15,1)-(15,15,1);!;|grouter certificate 1;nets 3;forced 0;overflow 2;wirelength 3;peak 2/1;bound 3/10;prices 4;1;1;1;1;
2
refused 2;usage: unavoidable IN ROUTES [CERT] NEW;";

#[test]
fn words_that_are_no_command_are_refused(rt: HostRuntime) -> Result<(), Fail> {
    runs_agree(Program::Unavoidable, &rt, rt.alloc(), NO_COMMAND)
}

/// Routes without the last net's edge and without any net; a certificate that states 3/2, where at its prices the nets cost 6
/// and the capacities 20; and texts that are refused. The last design is a row without capacity.
const REFUSED: &str = "3 a.gr a.routes a.cert new.cert
CUT|a 0;(5,5,1)-(15,5,1);!;b 1;(5,5,1)-(15,5,1);!;c 2;!;|grouter certificate 1;nets 3;forced 0;overflow 2;wirelength 3;peak 2/1;bound 3/10;prices 4;1;1;1;1;
1
no 47 2;

3 a.gr a.routes a.cert new.cert
CUT||grouter certificate 1;nets 3;forced 0;overflow 2;wirelength 3;peak 2/1;bound 3/10;prices 4;1;1;1;1;
1
no 43 0;

3 a.gr a.routes a.cert new.cert
CUT|a 0;(5,5,1)-(15,5,1);!;b 1;(5,5,1)-(15,5,1);!;c 2;(5,15,1)-(15,15,1);!;|grouter certificate 1;nets 3;forced 0;overflow 2;wirelength 3;peak 2/1;bound 3/2;prices 4;1;1;1;1;
1
no 52 3/2 3/10;

1 a.gr a.routes a.cert new.cert
ROW 0 144|a 0!|
3
refused 3 11 0 grid;

1 a.gr a.routes a.cert new.cert
ROW 0 144 grid 2 2 17|a 0;(5,5,1)-(15,5,1);!;b 1;(5,5,1)-(15,5,1);!;c 2;(5,15,1)-(15,15,1);!;|grouter certificate 1;nets 3;forced 0;overflow 2;wirelength 3;peak 2/1;bound 3/10;prices 4;1;1;1;1;
3
refused 3 14 9;

2 a.gr a.routes a.cert new.cert
CUT|a 0!|grouter certificate 1;nets 3;forced 0;overflow 2;wirelength 3;peak 2/1;bound 3/10;prices 4;1;1;1;1;
4
refused 4 31 2;

2 a.gr a.routes a.cert new.cert
CUT|a 0!|
4
refused 4 31 2;

3 a.gr a.routes a.cert new.cert
CUT|a 0;(5,5,1)-(15,5,1);!;b 1;(5,5,1)-(15,5,1);!;c 2;(5,15,1)-(15,15,1);!;|grouter certificate 3
4
refused 4 32 20;

3 a.gr a.routes a.cert new.cert
CUT|a 0;(5,5,1)-(15,5,1);!;b 1;(5,5,1)-(15,5,1);!;c 2;!;|grouter certificate 1 nets +3
4
refused 4 32 27;

1 a.gr a.routes a.cert new.cert
WALLED 119 119 1;a 7 2 1;5 5 1;25 5 1;0;|a 0!|grouter certificate 1;nets 3;forced 0;overflow 2;wirelength 3;peak 2/1;bound 3/10;prices 4;1;1;1;1;
5
refused 5 4 7 1;";

#[test]
fn texts_are_refused_in_their_order(rt: HostRuntime) -> Result<(), Fail> {
    runs_agree(Program::Unavoidable, &rt, rt.alloc(), REFUSED)
}

/// The objections of `measure`, in routes that are given alone, and texts that are refused.
const REFUSED_ALONE: &str = "3 a.gr a.routes new.cert
CUT|a 9;!;
1
no 41 0;

3 a.gr a.routes new.cert
CUT|a 0;(5,5,1)-(15,5,1);!;b 0;(5,5,1)-(15,5,1);!;
1
no 42 0;

3 a.gr a.routes new.cert
CUT|a 0;(5,5,1)-(15,5,1);!;b 1;(5,5,1)-(15,5,1);!;
1
no 43 2;

3 a.gr a.routes new.cert
CUT|a 0;(5,5,1)-(15,5,1);(5,5,1)-(95,5,1);!;
1
no 44 0 1;

3 a.gr a.routes new.cert
CUT|a 0;(5,5,1)-(15,15,1);!;
1
no 45 0 0;

3 a.gr a.routes new.cert
LAYERED|a 0;(15,15,1)-(15,25,1);!;
1
no 46 0 0;

3 a.gr a.routes new.cert
CUT|a 0;(5,5,1)-(15,5,1);!;b 1;(5,5,1)-(15,5,1);!;c 2;!;
1
no 47 2;

1 a.gr a.routes new.cert
ROW 0 144|a 0!
3
refused 3 11 0 grid;

2 a.gr a.routes new.cert
CUT|a 0!|
4
refused 4 31 2;

1 a.gr a.routes new.cert
WALLED 119 119 1;a 7 2 1;5 5 1;25 5 1;0;|a 0!
5
refused 5 4 7 1;";

#[test]
fn routes_alone_are_refused_as_measure_refuses_them(rt: HostRuntime) -> Result<(), Fail> {
    runs_agree(Program::Unavoidable, &rt, rt.alloc(), REFUSED_ALONE)
}

/// A file that is missing is the same as one that can't be opened.
const UNREAD: &str = "1 a.gr a.routes a.cert new.cert|In Open
CUT|a 0;(5,5,1)-(15,5,1);!;b 1;(5,5,1)-(15,5,1);!;c 2;(5,15,1)-(15,15,1);!;|grouter certificate 1;nets 3;forced 0;overflow 2;wirelength 3;peak 2/1;bound 3/10;prices 4;1;1;1;1;
6
refused 6;

1 a.gr a.routes a.cert new.cert|In Read
CUT|a 0;(5,5,1)-(15,5,1);!;b 1;(5,5,1)-(15,5,1);!;c 2;(5,15,1)-(15,15,1);!;|grouter certificate 1;nets 3;forced 0;overflow 2;wirelength 3;peak 2/1;bound 3/10;prices 4;1;1;1;1;
6
refused 6;

2 a.gr a.routes a.cert new.cert|RoutesIn Open
CUT|a 0;(5,5,1)-(15,5,1);!;b 1;(5,5,1)-(15,5,1);!;c 2;(5,15,1)-(15,15,1);!;|grouter certificate 1;nets 3;forced 0;overflow 2;wirelength 3;peak 2/1;bound 3/10;prices 4;1;1;1;1;
6
refused 6;

2 a.gr a.routes a.cert new.cert|RoutesIn Read
CUT|a 0;(5,5,1)-(15,5,1);!;b 1;(5,5,1)-(15,5,1);!;c 2;(5,15,1)-(15,15,1);!;|grouter certificate 1;nets 3;forced 0;overflow 2;wirelength 3;peak 2/1;bound 3/10;prices 4;1;1;1;1;
6
refused 6;

3 a.gr a.routes a.cert new.cert|CertIn Open
CUT|a 0;(5,5,1)-(15,5,1);!;b 1;(5,5,1)-(15,5,1);!;c 2;(5,15,1)-(15,15,1);!;|grouter certificate 1;nets 3;forced 0;overflow 2;wirelength 3;peak 2/1;bound 3/10;prices 4;1;1;1;1;
6
refused 6;

3 a.gr a.routes a.cert new.cert|CertIn Read
CUT|a 0;(5,5,1)-(15,5,1);!;b 1;(5,5,1)-(15,5,1);!;c 2;(5,15,1)-(15,15,1);!;|grouter certificate 1;nets 3;forced 0;overflow 2;wirelength 3;peak 2/1;bound 3/10;prices 4;1;1;1;1;
6
refused 6;

2 a.gr a.routes new.cert|RoutesIn Read
CUT|a 0;(5,5,1)-(15,5,1);!;b 1;(5,5,1)-(15,5,1);!;c 2;(5,15,1)-(15,15,1);!;|
6
refused 6;

2 a.gr b.routes a.cert new.cert
CUT|a 0;(5,5,1)-(15,5,1);!;b 1;(5,5,1)-(15,5,1);!;c 2;(5,15,1)-(15,15,1);!;|grouter certificate 1;nets 3;forced 0;overflow 2;wirelength 3;peak 2/1;bound 3/10;prices 4;1;1;1;1;
6
refused 6;";

#[test]
fn a_file_that_is_not_read_ends_the_run(rt: HostRuntime) -> Result<(), Fail> {
    runs_agree(Program::Unavoidable, &rt, rt.alloc(), UNREAD)
}

/// The status stays where the report can't be written.
const UNHEARD: &str = "0 a.gr|Report Write
CUT|a 0;(5,5,1)-(15,5,1);!;b 1;(5,5,1)-(15,5,1);!;c 2;(5,15,1)-(15,15,1);!;|grouter certificate 1;nets 3;forced 0;overflow 2;wirelength 3;peak 2/1;bound 3/10;prices 4;1;1;1;1;
2

3 a.gr a.routes a.cert new.cert|Report Write
CUT|a 0;(5,5,1)-(15,5,1);!;b 1;(5,5,1)-(15,5,1);!;c 2;!;|grouter certificate 1;nets 3;forced 0;overflow 2;wirelength 3;peak 2/1;bound 3/10;prices 4;1;1;1;1;
1

2 a.gr a.routes a.cert new.cert|Report Write
CUT|a 0!|grouter certificate 1;nets 3;forced 0;overflow 2;wirelength 3;peak 2/1;bound 3/10;prices 4;1;1;1;1;
4";

#[test]
fn a_refusal_that_is_not_said_keeps_its_status(rt: HostRuntime) -> Result<(), Fail> {
    runs_agree(Program::Unavoidable, &rt, rt.alloc(), UNHEARD)
}
