//! Certificates of routes of worked designs, and what the judge answers of them.

use crate::answers::verdict_text;
use crate::reading::blocks_of;
use cert_text::read_cert;
use grid_graph::Design;
use route_judge::judge;
use std::alloc::Global;
use std::test::Fail;
use std::thread::Threads;
use test_rows::{agree, four_fields, rows_of, two_fields};
use worked_designs::design_of;

/// Fails where the judge answers something else of these routes and a certificate of them.
fn is_answered<R: Threads + Sync>(
    rt: &R,
    alloc: Global,
    design: &Design,
    routes: &str,
    certificate: &str,
    answer: &str,
) -> Result<(), Fail> {
    let grounds = design.grounds()?;
    let blocks = blocks_of(alloc, routes.as_bytes())?;
    let cert = read_cert(alloc, certificate.as_bytes())?;
    let verdict = judge(
        rt,
        alloc,
        design,
        grounds.as_slice(),
        blocks.as_slice(),
        &cert,
    )?;
    agree(certificate, verdict_text(alloc, verdict)?.as_str(), answer)
}

/// The routes of the row.
const ROW_ROUTES: &str = "a 0\n(5,5,1)-(25,5,1)\n!\n";

/// A certificate of the routes of the row, and the answer. Both edges have a load of 2 of 4, and at any prices but 0 the net
/// costs half of what the capacities do.
const OF_THE_ROW: &str = "# what is measured of the routes
grouter certificate 1 nets 1 forced 0 overflow 0 wirelength 2 peak 1/2 bound 1/2 prices 2 12758 12758|yes 0 2 1/2 0
grouter certificate 1 nets 1 forced 0 overflow 1 wirelength 2 peak 1/2 bound 1/2 prices 2 12758 12758|no 48 1 0
grouter certificate 1 nets 1 forced 0 overflow 9223372036854775807 wirelength 2 peak 1/2 bound 1/2 prices 2 12758 12758|no 48 9223372036854775807 0
grouter certificate 1 nets 1 forced 0 overflow 0 wirelength 1 peak 1/2 bound 1/2 prices 2 12758 12758|no 49 1 2
grouter certificate 1 nets 1 forced 0 overflow 0 wirelength 3 peak 1/2 bound 1/2 prices 2 12758 12758|no 49 3 2
# a peak is a value, in any terms
grouter certificate 1 nets 1 forced 0 overflow 0 wirelength 2 peak 2/4 bound 1/2 prices 2 12758 12758|yes 0 2 1/2 0
grouter certificate 1 nets 1 forced 0 overflow 0 wirelength 2 peak 72057594037927936/144115188075855872 bound 1/2 prices 2 12758 12758|yes 0 2 1/2 0
grouter certificate 1 nets 1 forced 0 overflow 0 wirelength 2 peak 72057594037927935/144115188075855872 bound 1/2 prices 2 12758 12758|no 50 72057594037927935/144115188075855872 1/2
grouter certificate 1 nets 1 forced 0 overflow 0 wirelength 2 peak 72057594037927937/144115188075855872 bound 1/2 prices 2 12758 12758|no 50 72057594037927937/144115188075855872 1/2
grouter certificate 1 nets 1 forced 0 overflow 0 wirelength 2 peak 1180591620717411303423/1 bound 1/2 prices 2 12758 12758|no 50 1180591620717411303423/1 1/2
grouter certificate 1 nets 1 forced 0 overflow 0 wirelength 2 peak 2/6 bound 1/2 prices 2 12758 12758|no 50 1/3 1/2
grouter certificate 1 nets 1 forced 0 overflow 0 wirelength 2 peak 0/4 bound 1/2 prices 2 12758 12758|no 50 0/1 1/2
grouter certificate 1 nets 1 forced 0 overflow 0 wirelength 2 peak none bound 1/2 prices 2 12758 12758|no 50 none 1/2
# what is counted
grouter certificate 1 nets 0 forced 0 overflow 0 wirelength 2 peak 1/2 bound 1/2 prices 2 12758 12758|no 51 nets 0 1
grouter certificate 1 nets 2 forced 0 overflow 0 wirelength 2 peak 1/2 bound 1/2 prices 2 12758 12758|no 51 nets 2 1
grouter certificate 1 nets 1 forced 1 overflow 0 wirelength 2 peak 1/2 bound 1/2 prices 2 12758 12758|no 51 forced 1 0
grouter certificate 1 nets 1 forced 0 overflow 0 wirelength 2 peak 1/2 bound 1/2 prices 0|no 51 prices 0 2
grouter certificate 1 nets 1 forced 0 overflow 0 wirelength 2 peak 1/2 bound 1/2 prices 1 12758|no 51 prices 1 2
grouter certificate 1 nets 1 forced 0 overflow 0 wirelength 2 peak 1/2 bound 1/2 prices 3 12758 12758 0|no 51 prices 3 2
# the bound is what was found, or less
grouter certificate 1 nets 1 forced 0 overflow 0 wirelength 2 peak 1/2 bound 2/4 prices 2 12758 12758|yes 0 2 1/2 0
grouter certificate 1 nets 1 forced 0 overflow 0 wirelength 2 peak 1/2 bound 499/1000 prices 2 12758 12758|yes 0 2 1/2 0
grouter certificate 1 nets 1 forced 0 overflow 0 wirelength 2 peak 1/2 bound 501/1000 prices 2 12758 12758|no 52 501/1000 1/2
grouter certificate 1 nets 1 forced 0 overflow 0 wirelength 2 peak 1/2 bound 72057594037927936/144115188075855872 prices 2 12758 12758|yes 0 2 1/2 0
grouter certificate 1 nets 1 forced 0 overflow 0 wirelength 2 peak 1/2 bound 72057594037927937/144115188075855872 prices 2 12758 12758|no 52 72057594037927937/144115188075855872 1/2
grouter certificate 1 nets 1 forced 0 overflow 0 wirelength 2 peak 1/2 bound 1180591620717411303423/1 prices 2 12758 12758|no 52 1180591620717411303423/1 1/2
grouter certificate 1 nets 1 forced 0 overflow 0 wirelength 2 peak 1/2 bound 5/1 prices 2 12758 12758|no 52 5/1 1/2
grouter certificate 1 nets 1 forced 0 overflow 0 wirelength 2 peak 1/2 bound 0/1 prices 2 12758 12758|yes 0 2 1/2 0
grouter certificate 1 nets 1 forced 0 overflow 0 wirelength 2 peak 1/2 bound 0/7 prices 2 12758 12758|yes 0 2 1/2 0
grouter certificate 1 nets 1 forced 0 overflow 0 wirelength 2 peak 1/2 bound none prices 2 12758 12758|no 52 none 1/2
# prices that show another bound, or none
grouter certificate 1 nets 1 forced 0 overflow 0 wirelength 2 peak 1/2 bound 1/2 prices 2 0 32768|yes 0 2 1/2 0
grouter certificate 1 nets 1 forced 0 overflow 0 wirelength 2 peak 1/2 bound 3/5 prices 2 1 0|no 52 3/5 1/2
grouter certificate 1 nets 1 forced 0 overflow 0 wirelength 2 peak 1/2 bound 5/1 prices 2 0 0|no 52 5/1 none
grouter certificate 1 nets 1 forced 0 overflow 0 wirelength 2 peak 1/2 bound 1/144115188075855872 prices 2 0 0|no 52 1/144115188075855872 none
grouter certificate 1 nets 1 forced 0 overflow 0 wirelength 2 peak 1/2 bound 0/1 prices 2 0 0|yes 0 2 1/2 0
grouter certificate 1 nets 1 forced 0 overflow 0 wirelength 2 peak 1/2 bound none prices 2 0 0|no 52 none none
# of two reasons the first
grouter certificate 1 nets 2 forced 1 overflow 1 wirelength 3 peak 1/3 bound 5/1 prices 1 12758|no 48 1 0
grouter certificate 1 nets 2 forced 1 overflow 0 wirelength 3 peak 1/3 bound 5/1 prices 1 12758|no 49 3 2
grouter certificate 1 nets 2 forced 1 overflow 0 wirelength 2 peak 1/3 bound 5/1 prices 1 12758|no 50 1/3 1/2
grouter certificate 1 nets 2 forced 1 overflow 0 wirelength 2 peak 1/2 bound 5/1 prices 1 12758|no 51 nets 2 1
grouter certificate 1 nets 1 forced 1 overflow 0 wirelength 2 peak 1/2 bound 5/1 prices 1 12758|no 51 forced 1 0
grouter certificate 1 nets 1 forced 0 overflow 0 wirelength 2 peak 1/2 bound 5/1 prices 1 12758|no 51 prices 1 2
# with a budget the wirelength has a part in the peak and in the bound
grouter certificate 2 nets 1 forced 0 overflow 0 wirelength 2 peak 2/1 bound 2/1 budget 1 1 prices 2 0 0|yes 0 2 2/1 0
grouter certificate 2 nets 1 forced 0 overflow 0 wirelength 2 peak 2/1 bound 3/1 budget 1 1 prices 2 0 0|no 52 3/1 2/1
grouter certificate 2 nets 1 forced 0 overflow 0 wirelength 2 peak 1/2 bound 2/1 budget 1 1 prices 2 0 0|no 50 1/2 2/1
grouter certificate 2 nets 1 forced 0 overflow 0 wirelength 2 peak 2/3 bound 2/3 budget 3 1 prices 2 0 0|yes 0 2 2/3 0
grouter certificate 2 nets 1 forced 0 overflow 0 wirelength 2 peak 1/2 bound 2/3 budget 3 1 prices 2 0 0|no 50 1/2 2/3
grouter certificate 2 nets 1 forced 0 overflow 0 wirelength 2 peak 1/2 bound 1/4 budget 8 1 prices 2 0 0|yes 0 2 1/2 0
grouter certificate 2 nets 1 forced 0 overflow 0 wirelength 2 peak 1/2 bound 1/3 budget 8 1 prices 2 0 0|no 52 1/3 1/4
grouter certificate 2 nets 1 forced 0 overflow 0 wirelength 2 peak 1/4 bound 1/4 budget 8 1 prices 2 0 0|no 50 1/4 1/2
grouter certificate 2 nets 1 forced 0 overflow 0 wirelength 2 peak 2/1 bound 20528/21919 budget 1 12758 prices 2 3885 3885|yes 0 2 2/1 0
grouter certificate 2 nets 1 forced 0 overflow 0 wirelength 2 peak 2/1 bound 20529/21919 budget 1 12758 prices 2 3885 3885|no 52 20529/21919 20528/21919
grouter certificate 2 nets 1 forced 0 overflow 0 wirelength 2 peak 2/1 bound 1/2 budget 1 0 prices 2 12758 12758|yes 0 2 2/1 0
grouter certificate 2 nets 1 forced 0 overflow 0 wirelength 2 peak 2/1 bound 2/1 budget 1 0 prices 2 12758 12758|no 52 2/1 1/2
grouter certificate 2 nets 1 forced 0 overflow 0 wirelength 2 peak 2/1 bound 2/1 budget 1 0 prices 2 0 0|no 52 2/1 none
grouter certificate 2 nets 1 forced 0 overflow 0 wirelength 2 peak 2/1 bound 0/1 budget 1 0 prices 2 0 0|yes 0 2 2/1 0
grouter certificate 2 nets 1 forced 0 overflow 0 wirelength 2 peak 1/2 bound 2/4398046511104 budget 4398046511104 1 prices 2 0 0|yes 0 2 1/2 0
grouter certificate 2 nets 1 forced 0 overflow 0 wirelength 2 peak 1/2 bound 3/4398046511104 budget 4398046511104 1 prices 2 0 0|no 52 3/4398046511104 1/2199023255552";

#[test]
fn certificates_of_the_row_have_the_answers_that_were_worked_out(
    rt: HostRuntime,
) -> Result<(), Fail> {
    let design = design_of(rt.alloc(), "ROW")?;
    for row in rows_of(rt.alloc(), OF_THE_ROW)? {
        let (certificate, answer) = two_fields(row)?;
        is_answered(&rt, rt.alloc(), &design, ROW_ROUTES, certificate, answer)?;
    }
    Ok(())
}

/// A design, routes, a certificate of them, and the answer. The prices of the star are those of the edges of its tree, and
/// the others two indices below.
const OF_DESIGNS: &str = "# a reason against the routes comes before all others
ROW||grouter certificate 1 nets 1 forced 0 overflow 1 wirelength 2 peak 1/2 bound 1/2 prices 2 12758 12758|no 43 0
ROW|a 0 (5,5,1)-(15,5,1) !|grouter certificate 1 nets 1 forced 0 overflow 0 wirelength 2 peak 1/2 bound 5/1 prices 2 12758 12758|no 47 0
# no net, and one whose pins lie in one tile
ROW 119 144 0;0;||grouter certificate 1 nets 0 forced 0 overflow 0 wirelength 0 peak 0/1 bound 0/1 prices 2 12758 12758|yes 0 0 0/1 0
ROW 119 144 0;0;||grouter certificate 1 nets 0 forced 0 overflow 0 wirelength 0 peak none bound 0/1 prices 2 12758 12758|no 50 none 0/1
ROW 119 144 0;0;||grouter certificate 1 nets 0 forced 0 overflow 0 wirelength 0 peak 0/1 bound 1/9 prices 2 12758 12758|no 52 1/9 0/1
ROW 119 144 0;0;||grouter certificate 1 nets 0 forced 0 overflow 0 wirelength 0 peak 0/1 bound none prices 2 12758 12758|no 52 none 0/1
ROW 135 141 7 3 1||grouter certificate 1 nets 1 forced 0 overflow 0 wirelength 0 peak 0/1 bound 0/1 prices 2 12758 12758|yes 0 0 0/1 0
ROW 135 141 7 3 1|a 0 !|grouter certificate 1 nets 1 forced 0 overflow 0 wirelength 0 peak 0/1 bound 0/1 prices 2 12758 12758|yes 0 0 0/1 0
# both edges of the row have two units too many
CROWDED_ROW|a 0 (5,5,1)-(25,5,1) ! b 1 (5,5,1)-(25,5,1) ! c 2 (5,5,1)-(25,5,1) !|grouter certificate 1 nets 3 forced 0 overflow 4 wirelength 6 peak 3/2 bound 3/2 prices 2 12758 12758|yes 4 6 3/2 0
CROWDED_ROW|a 0 (5,5,1)-(25,5,1) ! b 1 (5,5,1)-(25,5,1) ! c 2 (5,5,1)-(25,5,1) !|grouter certificate 1 nets 3 forced 0 overflow 3 wirelength 6 peak 3/2 bound 3/2 prices 2 12758 12758|no 48 3 4
CROWDED_ROW|a 0 (5,5,1)-(25,5,1) ! b 1 (5,5,1)-(25,5,1) ! c 2 (5,5,1)-(25,5,1) !|grouter certificate 1 nets 3 forced 0 overflow 5 wirelength 6 peak 3/2 bound 3/2 prices 2 12758 12758|no 48 5 4
CROWDED_ROW|a 0 (5,5,1)-(25,5,1) ! b 1 (5,5,1)-(25,5,1) ! c 2 (5,5,1)-(25,5,1) !|grouter certificate 1 nets 2 forced 0 overflow 4 wirelength 6 peak 3/2 bound 3/2 prices 2 12758 12758|no 51 nets 2 3
CROWDED_ROW|a 0 (5,5,1)-(25,5,1) ! b 1 (5,5,1)-(25,5,1) ! c 2 (5,5,1)-(25,5,1) !|grouter certificate 1 nets 3 forced 0 overflow 4 wirelength 6 peak 3/2 bound 2/1 prices 2 12758 12758|no 52 2/1 3/2
# a net is forced over a choked edge, which has no price
ROW 142 144 1;0 0 1 1 0 1 0;|a 0 (5,5,1)-(25,5,1) !|grouter certificate 1 nets 1 forced 1 overflow 2 wirelength 2 peak 1/2 bound 1/2 prices 1 12758|yes 2 2 1/2 0
ROW 142 144 1;0 0 1 1 0 1 0;|a 0 (5,5,1)-(25,5,1) !|grouter certificate 1 nets 1 forced 0 overflow 2 wirelength 2 peak 1/2 bound 1/2 prices 1 12758|no 51 forced 0 1
ROW 142 144 1;0 0 1 1 0 1 0;|a 0 (5,5,1)-(25,5,1) !|grouter certificate 1 nets 1 forced 2 overflow 2 wirelength 2 peak 1/2 bound 1/2 prices 1 12758|no 51 forced 2 1
ROW 142 144 1;0 0 1 1 0 1 0;|a 0 (5,5,1)-(25,5,1) !|grouter certificate 1 nets 1 forced 1 overflow 2 wirelength 2 peak 1/2 bound 1/2 prices 2 12758 12758|no 51 prices 2 1
ROW 142 144 1;0 0 1 1 0 1 0;|a 0 (5,5,1)-(25,5,1) !|grouter certificate 1 nets 1 forced 1 overflow 0 wirelength 2 peak 1/2 bound 1/2 prices 1 12758|no 48 0 2
# two nets are forced, and the one between them goes where its ground does not: the bound speaks of its ground
FORCED|a 0 (5,5,1)-(25,5,1) ! b 1 (5,15,1)-(5,5,1) (5,5,1)-(15,5,1) ! c 2 (5,15,1)-(5,5,1) !|grouter certificate 1 nets 3 forced 2 overflow 8 wirelength 5 peak 1/2 bound 3/20 prices 10 1 1 1 1 1 1 1 1 1 1|yes 8 5 1/2 1
FORCED|a 0 (5,5,1)-(25,5,1) ! b 1 (5,15,1)-(5,5,1) (5,5,1)-(15,5,1) ! c 2 (5,15,1)-(5,5,1) !|grouter certificate 1 nets 3 forced 2 overflow 8 wirelength 5 peak 1/2 bound 1/5 prices 10 1 1 1 1 1 1 1 1 1 1|no 52 1/5 3/20
FORCED|a 0 (5,5,1)-(25,5,1) ! b 1 (5,15,1)-(5,5,1) (5,5,1)-(15,5,1) ! c 2 (5,15,1)-(5,5,1) !|grouter certificate 1 nets 3 forced 3 overflow 8 wirelength 5 peak 1/2 bound 3/20 prices 10 1 1 1 1 1 1 1 1 1 1|no 51 forced 3 2
# prices belong to the open edges in their order
ROW 142 144 2;0 0 1 1 0 1 0;0 0 1 1 0 1 8;|a 0 (5,5,1)-(25,5,1) !|grouter certificate 1 nets 1 forced 0 overflow 0 wirelength 2 peak 1/2 bound 11613/33694 prices 2 10468 12758|yes 0 2 1/2 0
ROW 142 144 2;0 0 1 1 0 1 0;0 0 1 1 0 1 8;|a 0 (5,5,1)-(25,5,1) !|grouter certificate 1 nets 1 forced 0 overflow 0 wirelength 2 peak 1/2 bound 11613/33694 prices 2 12758 10468|no 52 11613/33694 11613/35984
SQUARE|a 0 (5,5,1)-(15,5,1) (15,5,1)-(15,15,1) !|grouter certificate 1 nets 1 forced 0 overflow 0 wirelength 2 peak 1/1 bound 1/2 prices 4 12758 12758 12758 12758|yes 0 2 1/1 0
SQUARE|a 0 (5,5,1)-(15,5,1) (15,5,1)-(15,15,1) !|grouter certificate 1 nets 1 forced 0 overflow 0 wirelength 2 peak 1/1 bound 5234/11613 prices 4 12758 10468 12758 10468|yes 0 2 1/1 0
SQUARE|a 0 (5,5,1)-(15,5,1) (15,5,1)-(15,15,1) !|grouter certificate 1 nets 1 forced 0 overflow 0 wirelength 2 peak 1/1 bound 5235/11613 prices 4 12758 10468 12758 10468|no 52 1745/3871 5234/11613
SQUARE|a 0 (5,5,1)-(15,5,1) (15,5,1)-(15,15,1) !|grouter certificate 1 nets 1 forced 0 overflow 0 wirelength 2 peak 1/1 bound 1/2 prices 4 1 1 0 0|yes 0 2 1/1 0
SQUARE|a 0 (5,5,1)-(15,5,1) (15,5,1)-(15,15,1) !|grouter certificate 1 nets 1 forced 0 overflow 0 wirelength 2 peak 1/1 bound 1/2 prices 4 1 0 0 1|yes 0 2 1/1 0
SQUARE|a 0 (5,5,1)-(15,5,1) (15,5,1)-(15,15,1) !|grouter certificate 1 nets 1 forced 0 overflow 0 wirelength 2 peak 1/1 bound 1/2 prices 4 1 0 1 0|no 52 1/2 0/1
# designs whose bounds were worked out
STAR|a 0 (5,25,1)-(45,25,1) (25,5,1)-(25,45,1) (25,25,1)-(25,25,2) !|grouter certificate 1 nets 1 forced 0 overflow 0 wirelength 9 peak 1/4 bound 6071/244072 prices 80 12142 12142 12142 12142 12142 12758 12142 12142 12142 12142 12142 12142 12142 12142 12758 12142 12142 12142 12758 12142 12758 12142 12758 12758 12758 12142 12142 12142 12142 12142 12142 12142 12758 12142 12142 12142 12142 12142 12142 12142 12142 12142 12142 12142 12142 12142 12142 12142 12142 12142 12142 12142 12142 12142 12142 12142 12142 12142 12142 12142 12142 12142 12142 12142 12142 12142 12142 12142 12142 12142 12142 12142 12142 12142 12142 12142 12142 12142 12142 12142|yes 0 9 1/4 0
WIDE_WIRES|a 0 (5,5,2)-(35,5,2) (5,5,1)-(5,5,2) (35,5,1)-(35,5,2) !|grouter certificate 1 nets 1 forced 0 overflow 0 wirelength 5 peak 1/4 bound 6379/49800 prices 6 12142 12142 12142 12758 12758 12758|yes 0 5 1/4 0
WIDE_WIRES|a 0 (5,5,2)-(35,5,2) (5,5,1)-(5,5,2) (35,5,1)-(35,5,2) !|grouter certificate 1 nets 1 forced 0 overflow 0 wirelength 5 peak 1/4 bound 6380/49800 prices 6 12142 12142 12142 12758 12758 12758|no 52 319/2490 6379/49800
WIDE_WIRES|a 0 (5,5,2)-(35,5,2) (5,5,1)-(5,5,2) !|grouter certificate 1 nets 1 forced 0 overflow 0 wirelength 5 peak 1/4 bound 6379/49800 prices 6 12142 12142 12142 12758 12758 12758|no 47 0
# without an open edge there is no bound but by a budget
STACK|a 0 (5,5,1)-(5,5,2) !|grouter certificate 1 nets 1 forced 0 overflow 0 wirelength 1 peak none bound none prices 0|yes 0 1 none 0
STACK|a 0 (5,5,1)-(5,5,2) !|grouter certificate 1 nets 1 forced 0 overflow 0 wirelength 1 peak 0/1 bound none prices 0|no 50 0/1 none
STACK|a 0 (5,5,1)-(5,5,2) !|grouter certificate 1 nets 1 forced 0 overflow 0 wirelength 1 peak none bound 0/1 prices 0|no 52 0/1 none
STACK|a 0 (5,5,1)-(5,5,2) !|grouter certificate 1 nets 1 forced 0 overflow 0 wirelength 1 peak none bound 1/2 prices 0|no 52 1/2 none
STACK|a 0 (5,5,1)-(5,5,2) !|grouter certificate 1 nets 1 forced 0 overflow 0 wirelength 1 peak none bound none prices 1 5|no 51 prices 1 0
STACK|a 0 (5,5,1)-(5,5,2) !|grouter certificate 2 nets 1 forced 0 overflow 0 wirelength 1 peak 1/1 bound 1/1 budget 1 1 prices 0|yes 0 1 1/1 0
STACK|a 0 (5,5,1)-(5,5,2) !|grouter certificate 2 nets 1 forced 0 overflow 0 wirelength 1 peak none bound 1/1 budget 1 1 prices 0|no 50 none 1/1
STACK|a 0 (5,5,1)-(5,5,2) !|grouter certificate 2 nets 1 forced 0 overflow 0 wirelength 1 peak 1/1 bound none budget 1 1 prices 0|no 52 none 1/1
STACK|a 0 (5,5,1)-(5,5,2) !|grouter certificate 2 nets 1 forced 0 overflow 0 wirelength 1 peak 1/2 bound 1/2 budget 2 7 prices 0|yes 0 1 1/2 0
STACK|a 0 (5,5,1)-(5,5,2) !|grouter certificate 2 nets 1 forced 0 overflow 0 wirelength 1 peak 1/2 bound 2/3 budget 2 7 prices 0|no 52 2/3 1/2
STACK|a 0 (5,5,1)-(5,5,2) !|grouter certificate 2 nets 1 forced 0 overflow 0 wirelength 1 peak 1/1 bound 1/1 budget 1 0 prices 0|no 52 1/1 none
STACK|a 0 (5,5,1)-(5,5,2) !|grouter certificate 2 nets 1 forced 0 overflow 0 wirelength 1 peak 1/1 bound 0/1 budget 1 0 prices 0|yes 0 1 1/1 0
STACK_OF_TWO|a 0 (5,5,1)-(5,5,2) !|grouter certificate 1 nets 1 forced 0 overflow 0 wirelength 1 peak 0/1 bound 0/1 prices 2 12758 12758|yes 0 1 0/1 0
STACK_OF_TWO|a 0 (5,5,1)-(5,5,2) !|grouter certificate 1 nets 1 forced 0 overflow 0 wirelength 1 peak 0/1 bound 1/9 prices 2 12758 12758|no 52 1/9 0/1";

#[test]
fn certificates_have_the_answers_that_were_worked_out(rt: HostRuntime) -> Result<(), Fail> {
    let alloc = rt.alloc();
    for row in rows_of(alloc, OF_DESIGNS)? {
        let (given, routes, certificate, answer) = four_fields(row)?;
        let design = design_of(alloc, given)?;
        is_answered(&rt, alloc, &design, routes, certificate, answer)?;
    }
    Ok(())
}
