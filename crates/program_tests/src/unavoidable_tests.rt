//! What is found of routes that the judge accepts, with a certificate and without.

use crate::programs::Program;
use crate::runs::{run_agrees, runs_agree};
use command_words::JudgeRequest;
use gr_desk::Port;
use judge_cli::judge;
use run_tables::{Left, Told, desk_of, left_of, told_of};
use std::alloc::Global;
use std::test::Fail;
use std::thread::Threads;
use test_rows::paragraphs_of;

/// All numbers were worked out by hand. In each case some mixture of routings has just this bound as its peak, and some
/// routing just this overflow on its open edges, so no prices show more. Those that show as much are known but for a factor,
/// and the lists of the program go up to the greatest price there is.
const FOUND: &str =
    "# Every mixture has a load of 6 on the cut's two edges with capacity 4, and some mixture has 3 on each. Every routing has three nets on them, of which one is too many.
4 a.gr a.routes a.cert new.cert
CUT|a 0;(5,5,1)-(15,5,1);!;b 1;(5,5,1)-(15,5,1);!;c 2;(5,15,1)-(15,15,1);!;|grouter certificate 1;nets 3;forced 0;overflow 2;wirelength 3;peak 2/1;bound 3/10;prices 4;1;1;1;1;
0
bound 3/2;bottleneck 2;(5,5,1)-(15,5,1) 32768;(5,15,1)-(15,15,1) 32768;overflow 2;cut 2;(5,5,1)-(15,5,1) 32768;(5,15,1)-(15,15,1) 32768;routes 2;
-
grouter certificate 1;nets 3;forced 0;overflow 2;wirelength 3;peak 2/1;bound 3/2;prices 4;32768;0;0;32768;

# All three nets in one row: the third could be in the other one.
4 a.gr a.routes a.cert new.cert
CUT|a 0;(5,5,1)-(15,5,1);!;b 1;(5,5,1)-(15,5,1);!;c 2;(5,5,1)-(15,5,1);(5,5,1)-(5,15,1);(15,5,1)-(15,15,1);!;|grouter certificate 1;nets 3;forced 0;overflow 4;wirelength 5;peak 3/1;bound 3/10;prices 4;1;1;1;1;
0
bound 3/2;bottleneck 2;(5,5,1)-(15,5,1) 32768;(5,15,1)-(15,15,1) 32768;overflow 2;cut 2;(5,5,1)-(15,5,1) 32768;(5,15,1)-(15,15,1) 32768;routes 4;
-
grouter certificate 1;nets 3;forced 0;overflow 4;wirelength 5;peak 3/1;bound 3/2;prices 4;32768;0;0;32768;

# The given prices show as much, so the new certificate is the given one, as it is written.
4 a.gr a.routes a.cert new.cert
CUT|c 2 7 (5,15,1) - (15,15,1)! b 1 (0,0,1)-(20,9,1) ! a 0 (15,5,1)-(5,5,1)!|grouter certificate 1 nets 3 forced 0 overflow 2 wirelength 3 peak 4/2 bound 6/4 prices 4 1 0 0 01
0
bound 3/2;bottleneck 0;overflow 2;cut 2;(5,5,1)-(15,5,1) 32768;(5,15,1)-(15,15,1) 32768;routes 2;
-
grouter certificate 1;nets 3;forced 0;overflow 2;wirelength 3;peak 2/1;bound 3/2;prices 4;1;0;0;1;

# The given prices show as much, but the certificate states less.
4 a.gr a.routes a.cert new.cert
CUT|a 0;(5,5,1)-(15,5,1);!;b 1;(5,5,1)-(15,5,1);!;c 2;(5,15,1)-(15,15,1);!;|grouter certificate 1;nets 3;forced 0;overflow 2;wirelength 3;peak 2/1;bound 1/1;prices 4;1;0;0;1;
0
bound 3/2;bottleneck 2;(5,5,1)-(15,5,1) 32768;(5,15,1)-(15,15,1) 32768;overflow 2;cut 2;(5,5,1)-(15,5,1) 32768;(5,15,1)-(15,15,1) 32768;routes 2;
-
grouter certificate 1;nets 3;forced 0;overflow 2;wirelength 3;peak 2/1;bound 3/2;prices 4;32768;0;0;32768;

# The wirelength is to be kept to 12, at the price 1: it costs nothing in the new certificate.
4 a.gr a.routes a.cert new.cert
CUT|a 0;(5,5,1)-(15,5,1);!;b 1;(5,5,1)-(15,5,1);!;c 2;(5,15,1)-(15,15,1);!;|grouter certificate 2;nets 3;forced 0;overflow 2;wirelength 3;peak 2/1;bound 9/32;budget 12 1;prices 4;1;1;1;1;
0
bound 3/2;bottleneck 2;(5,5,1)-(15,5,1) 32768;(5,15,1)-(15,15,1) 32768;overflow 2;cut 2;(5,5,1)-(15,5,1) 32768;(5,15,1)-(15,15,1) 32768;routes 2;budget 12;
-
grouter certificate 2;nets 3;forced 0;overflow 2;wirelength 3;peak 2/1;bound 3/2;budget 12 0;prices 4;32768;0;0;32768;

# The wirelength is at least 3, and is to be kept to 1: no prices of edges show as much, so the new certificate is the given one.
4 a.gr a.routes a.cert new.cert
CUT|a 0;(5,5,1)-(15,5,1);!;b 1;(5,5,1)-(15,5,1);!;c 2;(5,15,1)-(15,15,1);!;|grouter certificate 2;nets 3;forced 0;overflow 2;wirelength 3;peak 3/1;bound 3/1;budget 1 1;prices 4;0;0;0;0;
0
bound 3/1;bottleneck 0;overflow 2;cut 2;(5,5,1)-(15,5,1) 32768;(5,15,1)-(15,15,1) 32768;routes 2;budget 1;
-
grouter certificate 2;nets 3;forced 0;overflow 2;wirelength 3;peak 3/1;bound 3/1;budget 1 1;prices 4;0;0;0;0;

# Three nets of 2 go through a gap of 4.
4 a.gr a.routes a.cert new.cert
GAP|a 0;(5,15,1)-(15,15,1);(15,5,1)-(25,5,1);(5,5,1)-(5,15,1);(15,5,1)-(15,15,1);!;b 1;(5,15,1)-(25,15,1);!;c 2;(5,15,1)-(15,15,1);(15,25,1)-(25,25,1);(5,15,1)-(5,25,1);(15,15,1)-(15,25,1);!;|grouter certificate 1;nets 3;forced 0;overflow 2;wirelength 10;peak 3/2;bound 5/46;prices 10;1;1;1;1;1;1;1;1;1;1;
0
bound 3/2;bottleneck 1;(5,15,1)-(15,15,1) 32768;overflow 2;cut 1;(5,15,1)-(15,15,1) 32768;routes 2;
-
grouter certificate 1;nets 3;forced 0;overflow 2;wirelength 10;peak 3/2;bound 3/2;prices 10;0;0;0;0;32768;0;0;0;0;0;

# Two nets go through the wall, over choked edges beyond their grounds: such routes may have a peak below the bound.
4 a.gr a.routes a.cert new.cert
GAP|a 0;(5,5,1)-(25,5,1);!;b 1;(5,15,1)-(25,15,1);!;c 2;(5,25,1)-(25,25,1);!;|grouter certificate 1;nets 3;forced 0;overflow 4;wirelength 6;peak 1/2;bound 5/46;prices 10;1;1;1;1;1;1;1;1;1;1;
0
bound 3/2;bottleneck 1;(5,15,1)-(15,15,1) 32768;overflow 2;cut 1;(5,15,1)-(15,15,1) 32768;routes 4;
-
grouter certificate 1;nets 3;forced 0;overflow 4;wirelength 6;peak 1/2;bound 3/2;prices 10;0;0;0;0;32768;0;0;0;0;0;

# Five nets of 2 leave by four edges of 2. Where they take turns, each edge has 5/4 of its capacity in the mean.
4 a.gr a.routes a.cert new.cert
BOX|a 0;(5,5,1)-(15,5,1);(15,5,2)-(15,15,2);(15,5,1)-(15,5,2);(15,15,1)-(15,15,2);!;b 1;(15,15,1)-(25,15,1);(25,5,2)-(25,15,2);(25,5,1)-(25,5,2);(25,15,1)-(25,15,2);!;c 2;(5,15,1)-(15,15,1);(5,15,2)-(5,25,2);(5,15,1)-(5,15,2);(5,25,1)-(5,25,2);!;d 3;(15,25,1)-(25,25,1);(15,15,2)-(15,25,2);(15,15,1)-(15,15,2);(15,25,1)-(15,25,2);!;e 4;(5,15,1)-(15,15,1);!;|grouter certificate 1;nets 5;forced 0;overflow 2;wirelength 17;peak 2/1;bound 3/28;prices 12;1;1;1;1;1;1;1;1;1;1;1;1;
0
bound 5/4;bottleneck 4;(5,15,1)-(15,15,1) 32768;(15,15,1)-(25,15,1) 32768;(15,5,2)-(15,15,2) 32768;(15,15,2)-(15,25,2) 32768;overflow 2;cut 4;(5,15,1)-(15,15,1) 32768;(15,15,1)-(25,15,1) 32768;(15,5,2)-(15,15,2) 32768;(15,15,2)-(15,25,2) 32768;routes 2;
-
grouter certificate 1;nets 5;forced 0;overflow 2;wirelength 17;peak 2/1;bound 5/4;prices 12;0;0;32768;32768;0;0;0;32768;0;0;32768;0;

# Three nets of 2 leave by four edges of 2.
4 a.gr a.routes a.cert new.cert
ROOM|a 0;(5,5,1)-(15,5,1);(15,5,2)-(15,15,2);(15,5,1)-(15,5,2);(15,15,1)-(15,15,2);!;b 1;(15,15,1)-(25,15,1);(25,5,2)-(25,15,2);(25,5,1)-(25,5,2);(25,15,1)-(25,15,2);!;c 2;(5,15,1)-(15,15,1);(5,15,2)-(5,25,2);(5,15,1)-(5,15,2);(5,25,1)-(5,25,2);!;|grouter certificate 1;nets 3;forced 0;overflow 0;wirelength 12;peak 1/1;bound 1/14;prices 12;1;1;1;1;1;1;1;1;1;1;1;1;
0
bound 3/4;bottleneck 4;(5,15,1)-(15,15,1) 32768;(15,15,1)-(25,15,1) 32768;(15,5,2)-(15,15,2) 32768;(15,15,2)-(15,25,2) 32768;overflow 0;cut 0;routes 0;
-
grouter certificate 1;nets 3;forced 0;overflow 0;wirelength 12;peak 1/1;bound 3/4;prices 12;0;0;32768;32768;0;0;0;32768;0;0;32768;0;

# The first edge has 6 of 2, the last one 6 of 4. The bound is that of the first, and the overflow that of both.
4 a.gr a.routes a.cert new.cert
PLACES|a 0;(5,5,1)-(15,5,1);!;b 1;(5,5,1)-(15,5,1);!;c 2;(5,5,1)-(15,5,1);!;d 3;(25,5,1)-(35,5,1);!;e 4;(25,5,1)-(35,5,1);!;|grouter certificate 1;nets 5;forced 0;overflow 6;wirelength 5;peak 3/1;bound 6/13;prices 3;1;1;1;
0
bound 3/1;bottleneck 1;(5,5,1)-(15,5,1) 32768;overflow 6;cut 2;(5,5,1)-(15,5,1) 32768;(25,5,1)-(35,5,1) 32768;routes 6;
-
grouter certificate 1;nets 5;forced 0;overflow 6;wirelength 5;peak 3/1;bound 3/1;prices 3;32768;0;0;

# No price list counts what overflows on choked edges.
4 a.gr a.routes a.cert new.cert
ROW 142 144 1;0 0 1 1 0 1 0;|a 0;(5,5,1)-(25,5,1);!;|grouter certificate 1;nets 1;forced 1;overflow 2;wirelength 2;peak 1/2;bound 1/2;prices 1;1;
0
bound 1/2;bottleneck 0;overflow 0;cut 0;routes 2;
-
grouter certificate 1;nets 1;forced 1;overflow 2;wirelength 2;peak 1/2;bound 1/2;prices 1;1;

# There is no open edge.
4 a.gr a.routes a.cert new.cert
STACK|a 0;(5,5,1)-(5,5,2);!;|grouter certificate 1;nets 1;forced 0;overflow 0;wirelength 1;peak none;bound none;prices 0;
0
bound none;bottleneck 0;overflow 0;cut 0;routes 0;
-
grouter certificate 1;nets 1;forced 0;overflow 0;wirelength 1;peak none;bound none;prices 0;

# There are no nets.
4 a.gr a.routes a.cert new.cert
ROW 119 144 0;0;||grouter certificate 1;nets 0;forced 0;overflow 0;wirelength 0;peak 0/1;bound 0/1;prices 2;1;1;
0
bound 0/1;bottleneck 0;overflow 0;cut 0;routes 0;
-
grouter certificate 1;nets 0;forced 0;overflow 0;wirelength 0;peak 0/1;bound 0/1;prices 2;1;1;";

/// The same of routes alone. Where no list shows a bound above 0, the new certificate has equal prices of 0.
const FOUND_ALONE: &str = "# Every mixture has a load of 6 on the cut's two edges with capacity 4.
3 a.gr a.routes new.cert
CUT|a 0;(5,5,1)-(15,5,1);!;b 1;(5,5,1)-(15,5,1);!;c 2;(5,15,1)-(15,15,1);!;|
0
bound 3/2;bottleneck 2;(5,5,1)-(15,5,1) 32768;(5,15,1)-(15,15,1) 32768;overflow 2;cut 2;(5,5,1)-(15,5,1) 32768;(5,15,1)-(15,15,1) 32768;routes 2;
-
grouter certificate 1;nets 3;forced 0;overflow 2;wirelength 3;peak 2/1;bound 3/2;prices 4;32768;0;0;32768;

# Each of the cut's two edges has a capacity of 3, which holds one net of 2 and one more by half. Some mixture has 3 on each, and every routing of whole nets two on one of them.
3 a.gr a.routes new.cert
ROW 0 144 grid 2 2 1;vertical capacity 100;horizontal capacity 3;minimum width 1;minimum spacing 1;via spacing 1;0 0 10 10;num net 3;a 0 2 1;5 5 1;15 5 1;b 1 2 1;5 5 1;15 5 1;c 2 2 1;5 15 1;15 15 1;0;|a 0;(5,5,1)-(15,5,1);!;b 1;(5,5,1)-(15,5,1);!;c 2;(5,15,1)-(15,15,1);!;|
0
bound 1/1;bottleneck 2;(5,5,1)-(15,5,1) 32768;(5,15,1)-(15,15,1) 32768;overflow 1;cut 2;(5,5,1)-(15,5,1) 32768;(5,15,1)-(15,15,1) 32768;routes 1;
-
grouter certificate 1;nets 3;forced 0;overflow 1;wirelength 3;peak 4/3;bound 1/1;prices 4;32768;0;0;32768;

# Five nets out of a tile whose exit has room for one, and three nets of eight terminals in three parts, of which the spread five see two. The bound is that of the first place, and the overflow that of both.
3 a.gr a.routes new.cert
ROW 0 144 grid 17 2 1;vertical capacity 20;horizontal capacity 20;minimum width 1;minimum spacing 1;via spacing 1;0 0 10 10;num net 8;a 0 2 1;35 15 1;25 5 1;b 1 2 1;35 15 1;25 5 1;c 2 2 1;35 15 1;25 5 1;d 3 2 1;35 15 1;25 5 1;e 4 2 1;35 15 1;25 5 1;f 5 8 1;5 5 1;35 5 1;45 5 1;85 5 1;65 5 1;125 5 1;135 5 1;165 15 1;g 6 8 1;5 5 1;35 5 1;45 5 1;85 5 1;65 5 1;125 5 1;135 5 1;165 15 1;h 7 8 1;5 5 1;35 5 1;45 5 1;85 5 1;65 5 1;125 5 1;135 5 1;165 15 1;8;5 0 1 6 0 1 0;6 0 1 7 0 1 0;6 0 1 6 1 1 2;10 0 1 11 0 1 2;10 1 1 11 1 1 2;2 1 1 3 1 1 0;3 1 1 4 1 1 0;3 0 1 3 1 1 2;|a 0;(25,5,1)-(35,5,1);(35,5,1)-(35,15,1);!;b 1;(25,5,1)-(35,5,1);(35,5,1)-(35,15,1);!;c 2;(25,5,1)-(35,5,1);(35,5,1)-(35,15,1);!;d 3;(25,5,1)-(35,5,1);(35,5,1)-(35,15,1);!;e 4;(25,5,1)-(35,5,1);(35,5,1)-(35,15,1);!;f 5;(5,5,1)-(55,5,1);(75,5,1)-(165,5,1);(55,15,1)-(75,15,1);(55,5,1)-(55,15,1);(65,5,1)-(65,15,1);(75,5,1)-(75,15,1);(165,5,1)-(165,15,1);!;g 6;(5,5,1)-(55,5,1);(75,5,1)-(165,5,1);(55,15,1)-(75,15,1);(55,5,1)-(55,15,1);(65,5,1)-(65,15,1);(75,5,1)-(75,15,1);(165,5,1)-(165,15,1);!;h 7;(5,5,1)-(55,5,1);(75,5,1)-(105,5,1);(115,5,1)-(165,5,1);(55,15,1)-(75,15,1);(105,15,1)-(115,15,1);(55,5,1)-(55,15,1);(65,5,1)-(65,15,1);(75,5,1)-(75,15,1);(105,5,1)-(105,15,1);(115,5,1)-(115,15,1);(165,5,1)-(165,15,1);!;|
0
bound 5/1;bottleneck 1;(35,5,1)-(35,15,1) 32768;overflow 14;cut 4;(35,5,1)-(35,15,1) 32768;(65,5,1)-(65,15,1) 32768;(105,5,1)-(115,5,1) 32768;(105,15,1)-(115,15,1) 32768;routes 14;
-
grouter certificate 1;nets 8;forced 0;overflow 14;wirelength 72;peak 5/1;bound 5/1;prices 45;0;0;0;0;0;0;0;32768;0;0;0;0;0;0;0;0;0;0;0;0;0;0;0;0;0;0;0;0;0;0;0;0;0;0;0;0;0;0;0;0;0;0;0;0;0;

# All three nets in one row, as another router may write them. Two pieces are named twice.
3 a.gr a.routes new.cert
CUT|c 2 7 (15,5,1) - (5,5,1) (5,5,1)-(5,15,1)(15,5,1)-(15,15,1)(5,9,1)-(5,15,1)! b 1 (0,0,1)-(20,9,1) ! a 0 (15,5,1)-(5,5,1) (5,5,1)-(15,5,1)!
0
bound 3/2;bottleneck 2;(5,5,1)-(15,5,1) 32768;(5,15,1)-(15,15,1) 32768;overflow 2;cut 2;(5,5,1)-(15,5,1) 32768;(5,15,1)-(15,15,1) 32768;routes 4;
-
grouter certificate 1;nets 3;forced 0;overflow 4;wirelength 5;peak 3/1;bound 3/2;prices 4;32768;0;0;32768;

# Two nets go over choked edges beyond their grounds: the certificate states what is measured, and a bound above its peak.
3 a.gr a.routes new.cert
GAP|a 0;(5,5,1)-(25,5,1);!;b 1;(5,15,1)-(25,15,1);!;c 2;(5,25,1)-(25,25,1);!;
0
bound 3/2;bottleneck 1;(5,15,1)-(15,15,1) 32768;overflow 2;cut 1;(5,15,1)-(15,15,1) 32768;routes 4;
-
grouter certificate 1;nets 3;forced 0;overflow 4;wirelength 6;peak 1/2;bound 3/2;prices 10;0;0;0;0;32768;0;0;0;0;0;

# A forced net. No price list counts what overflows on choked edges.
3 a.gr a.routes new.cert
ROW 142 144 1;0 0 1 1 0 1 0;|a 0;(5,5,1)-(25,5,1);!;
0
bound 1/2;bottleneck 1;(15,5,1)-(25,5,1) 32768;overflow 0;cut 0;routes 2;
-
grouter certificate 1;nets 1;forced 1;overflow 2;wirelength 2;peak 1/2;bound 1/2;prices 1;32768;

# The only net needs a via, and no edge.
3 a.gr a.routes new.cert
STACK_OF_TWO|a 0;(5,5,1)-(5,5,2);!;
0
bound 0/1;bottleneck 0;overflow 0;cut 0;routes 0;
-
grouter certificate 1;nets 1;forced 0;overflow 0;wirelength 1;peak 0/1;bound 0/1;prices 2;0;0;

# There are no nets.
3 a.gr a.routes new.cert
ROW 119 144 0;0;|
0
bound 0/1;bottleneck 0;overflow 0;cut 0;routes 0;
-
grouter certificate 1;nets 0;forced 0;overflow 0;wirelength 0;peak 0/1;bound 0/1;prices 2;0;0;

# There is no open edge.
3 a.gr a.routes new.cert
STACK|a 0;(5,5,1)-(5,5,2);!;
0
bound none;bottleneck 0;overflow 0;cut 0;routes 0;
-
grouter certificate 1;nets 1;forced 0;overflow 0;wirelength 1;peak none;bound none;prices 0;";

/// The request to judge a certificate.
const REQUEST: JudgeRequest<'static> = JudgeRequest {
    input: "a.gr",
    routes: "a.routes",
    certificate: "a.cert",
};

/// Where the judge has its files.
const JUDGED: &[(Port, &str)] = &[
    (Port::In, "a.gr"),
    (Port::RoutesIn, "a.routes"),
    (Port::CertIn, "a.cert"),
];

/// What the judge leaves of the files of a paragraph, where the certificate is the one that a run left.
fn judged<R: Threads + Sync>(rt: &R, alloc: Global, told: Told, left: &Left) -> Result<Left, Fail> {
    let mut texts = told.texts;
    texts.truncate(2);
    texts.push(left.texts.get(2).ok_or("a certificate")?.clone()?)?;
    let mut desk = desk_of(alloc, texts, Vec::new(alloc), JUDGED)?;
    let status = judge(rt, alloc, &REQUEST, &mut desk);
    Ok(left_of(alloc, status, &desk)?)
}

/// Whether the judge said yes.
fn is_accepted(judged: &Left) -> bool {
    match judged.texts.first() {
        Some(said) => judged.status.as_str() == "0" && said.starts_with(b"yes\n"),
        None => false,
    }
}

/// Fails where a run of the table leaves something else, or a certificate that the judge doesn't accept.
fn finds_agree<R: Threads + Sync>(rt: &R, alloc: Global, table: &'static str) -> Result<(), Fail> {
    for paragraph in paragraphs_of(alloc, table)? {
        let left = run_agrees(Program::Unavoidable, rt, alloc, paragraph)?;
        let judged = judged(rt, alloc, told_of(alloc, paragraph)?, &left)?;
        if !is_accepted(&judged) {
            return Err(Fail::new(paragraph));
        }
    }
    Ok(())
}

#[test]
fn what_no_router_avoids_is_found(rt: HostRuntime) -> Result<(), Fail> {
    finds_agree(&rt, rt.alloc(), FOUND)
}

#[test]
fn what_no_router_avoids_is_found_of_routes_alone(rt: HostRuntime) -> Result<(), Fail> {
    finds_agree(&rt, rt.alloc(), FOUND_ALONE)
}

/// The first of these runs, where a call fails.
const CUT_SHORT: &str = "4 a.gr a.routes a.cert new.cert|CertOut Create
CUT|a 0;(5,5,1)-(15,5,1);!;b 1;(5,5,1)-(15,5,1);!;c 2;(5,15,1)-(15,15,1);!;|grouter certificate 1;nets 3;forced 0;overflow 2;wirelength 3;peak 2/1;bound 3/10;prices 4;1;1;1;1;
7
refused 7;

4 a.gr a.routes a.cert new.cert|CertOut Write
CUT|a 0;(5,5,1)-(15,5,1);!;b 1;(5,5,1)-(15,5,1);!;c 2;(5,15,1)-(15,15,1);!;|grouter certificate 1;nets 3;forced 0;overflow 2;wirelength 3;peak 2/1;bound 3/10;prices 4;1;1;1;1;
7
refused 7;

4 a.gr a.routes a.cert new.cert|Report Write
CUT|a 0;(5,5,1)-(15,5,1);!;b 1;(5,5,1)-(15,5,1);!;c 2;(5,15,1)-(15,15,1);!;|grouter certificate 1;nets 3;forced 0;overflow 2;wirelength 3;peak 2/1;bound 3/10;prices 4;1;1;1;1;
7
-
-
grouter certificate 1;nets 3;forced 0;overflow 2;wirelength 3;peak 2/1;bound 3/2;prices 4;32768;0;0;32768;

3 a.gr a.routes new.cert|CertOut Create
CUT|a 0;(5,5,1)-(15,5,1);!;b 1;(5,5,1)-(15,5,1);!;c 2;(5,15,1)-(15,15,1);!;|
7
refused 7;";

#[test]
fn what_is_found_is_cut_short_where_a_write_fails(rt: HostRuntime) -> Result<(), Fail> {
    runs_agree(Program::Unavoidable, &rt, rt.alloc(), CUT_SHORT)
}
