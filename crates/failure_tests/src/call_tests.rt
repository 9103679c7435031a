//! Runs of which one call of the desk fails: every call that a run makes, each in a run of its own.

ghost use Rattle.std.specs.Prelude.{◌≤◌};

use crate::few_exits::few_exits;
use crate::runs::{LEFT_AT, Run, after, are_same, place_of, run_of, text_at, text_read};
use gr_desk::Fail as FailedCall;
use routing_stages::OpenGate;
use run_tables::{Left, failing_call, left_agrees};
use std::alloc::Global;
use std::test::Fail;
use std::thread::Threads;
use test_rows::{agree, paragraphs_of};

/// The ports, and the calls at each.
const PORTS: &str = "In RoutesIn CertIn EditsIn RoutesOut CertOut DesignOut GuideOut MapOut Report";

const CALLS: &str = "Open Create Read Write";

/// The runs, and what each leaves where no call fails, as far as it is known on paper. The last ones are refused: for the
/// routes, for a net of the design, for the design's first word, behind which the rest is read too, for an edit, and for the
/// words.
const RUNS: &str = "route a.gr a.routes a.cert
ROW
In RoutesOut CertOut
0
nets 1;forced 0;rounded 0;rounds 0;overflow 0;wirelength 2;peak 1/2;bound 1/2;
a 0;(5,5,1)-(25,5,1);!;
grouter certificate 1;nets 1;forced 0;overflow 0;wirelength 2;peak 1/2;bound 1/2;prices 2;12758;12758;

measure a.gr a.routes
ROW|a 0;(5,5,1)-(25,5,1);!;
In RoutesIn
0
nets 1;forced 0;beyond 0;overflow 0;wirelength 2;peak 1/2;

judge a.gr a.routes a.cert
ROW|a 0;(5,5,1)-(25,5,1);!;|grouter certificate 1;nets 1;forced 0;overflow 0;wirelength 2;peak 1/2;bound 1/2;prices 2;12758;12758;
In RoutesIn CertIn
0
yes;nets 1;forced 0;beyond 0;overflow 0;wirelength 2;peak 1/2;bound 1/2;

make made.gr --nets 2 --seed 7 --rows 2 --cols 2 --layers 2
-
DesignOut
0
made 2 nets;
-
-
?

trial 7 --nets 1 --cols 2 --rows 2 --layers 2
-
-
0
nets 1;forced 0;rounded 0;rounds 0;overflow 0;wirelength 7;peak 1/4;bound 3/16;judge yes;

guide a.gr a.routes a.guide
ROW|a 0;(5,5,1)-(25,5,1);!;
In RoutesIn GuideOut
0
guides 1;
-
-
-
a 0;(;0 0 30 10 1;);

eco a.gr a.routes a.edits b.routes
ROW|a 0;(5,5,1)-(25,5,1);!;||edits 1 add b 1 2 1 5 5 1 15 5 1;
In RoutesIn EditsIn RoutesOut
0
nets 2;forced 0;kept 1;routed 1;overflow 0;wirelength 3;peak 1/1;
a 0;(5,5,1)-(25,5,1);!;b 1;(5,5,1)-(15,5,1);!;

climb a.gr a.routes a.cert b.cert --turns 2
SQUARE|a 0;(5,5,1)-(15,5,1);(15,5,1)-(15,15,1);!;|grouter certificate 1;nets 1;forced 0;overflow 0;wirelength 2;peak 1/1;bound 5234/11613;prices 4;12758;10468;12758;10468;
In RoutesIn CertIn CertOut
0
turn 2;bound 1/2;
-
grouter certificate 1;nets 1;forced 0;overflow 0;wirelength 2;peak 1/1;bound 1/2;prices 4;12758;12758;12758;12758;

unavoidable a.gr a.routes a.cert new.cert
CUT|a 0;(5,5,1)-(15,5,1);!;b 1;(5,5,1)-(15,5,1);!;c 2;(5,15,1)-(15,15,1);!;|grouter certificate 1;nets 3;forced 0;overflow 2;wirelength 3;peak 2/1;bound 3/10;prices 4;1;1;1;1;
In RoutesIn CertIn CertOut
0
bound 3/2;bottleneck 2;(5,5,1)-(15,5,1) 32768;(5,15,1)-(15,15,1) 32768;overflow 2;cut 2;(5,5,1)-(15,5,1) 32768;(5,15,1)-(15,15,1) 32768;routes 2;
-
grouter certificate 1;nets 3;forced 0;overflow 2;wirelength 3;peak 2/1;bound 3/2;prices 4;32768;0;0;32768;

measure a.gr a.routes
ROW|
In RoutesIn
1
no 43 0;

route a.gr a.routes a.cert
ROW 51 52 0
In
5
refused 5 4 0 1;

route a.gr a.routes a.cert
ROW 0 4 gird
In
3
refused 3 11 0 grid;

eco a.gr a.routes a.edits b.routes
ROW|a 0;(5,5,1)-(25,5,1);!;||edits 1 drop 9;
In RoutesIn EditsIn
9
refused 9 62 0 9;

measure a.gr
ROW
-
2
refused 2;usage: grouter route|measure|judge|make|trial|eco|climb|guide;";

/// How many calls of a kind a whole run makes at a port of which it moves so many bytes: it reads until nothing is left, and
/// writes until nothing is left to be written.
fn calls_of(port: &str, call: &str, bytes: usize, step: usize) -> usize
    requires { 1 ≤ step }
{
    match call {
        "Open" if port.ends_with("In") => 1,
        "Read" if port.ends_with("In") => bytes.div_ceil(step).saturating_add(1),
        "Create" if port.ends_with("Out") => 1,
        "Write" if !port.ends_with("In") => bytes.div_ceil(step),
        _ => 0,
    }
}

/// How many calls of a kind a whole run makes at a port: none but at the report and where a name of its words belongs.
fn calls_in(told: &Run, whole: &Left, port: &str, call: &str, step: usize) -> usize
    requires { 1 ≤ step }
{
    let place = place_of(told.ports, port);
    if port == "Report" || place < told.ports.split_whitespace().count() {
        let bytes = match text_read(told, port) {
            Some(text) => text.len(),
            None => text_at(whole, port).len(),
        };
        calls_of(port, call, bytes, step)
    } else {
        0
    }
}

/// The status of a run of which a call at this port fails.
fn status_of<'a>(whole: &'a Left, port: &str) -> &'a str {
    if port.ends_with("In") {
        "6"
    } else if port == "Report" && whole.status.as_str() != "0" {
        whole.status.as_str()
    } else {
        "7"
    }
}

/// Whether a run of which a call failed at a port left what it has to leave at another one. Ports before that one, in the order
/// of work, have their whole texts, that one has a part of its text, and those behind it have nothing. The report tells the
/// status, unless the call failed there.
fn is_left(told: &Run, whole: &Left, left: &Left, failed: &str, port: &str) -> bool {
    let (text, part) = (text_at(whole, port), text_at(left, port));
    if port == failed {
        return text.starts_with(part) && part.len() < text.len();
    }
    match port {
        "Report" if failed.ends_with("In") => part == b"refused 6\n".as_slice(),
        "Report" => part == b"refused 7\n".as_slice(),
        _ if place_of(told.ports, port) < place_of(told.ports, failed) => part == text,
        _ => part.is_empty(),
    }
}

/// Whether a run of which a call failed at a port left what it has to leave.
fn is_left_by(told: &Run, whole: &Left, left: &Left, failed: &str) -> bool {
    for port in LEFT_AT.split_whitespace() {
        if !is_left(told, whole, left, failed, port) {
            return false;
        }
    }
    true
}

/// Fails where a run ends otherwise than it has to, if this call at this port fails. Then the desk expects no name behind that of
/// the port, so that a run strays which opens or creates one.
fn call_agrees<R: Threads + Sync>(
    rt: &R,
    alloc: Global,
    told: &Run,
    whole: &Left,
    step: usize,
    failed: (&str, &str, u32),
) -> Result<(), Fail>
    requires { 1 ≤ step }
{
    let (port, call, nth) = failed;
    let failing = failing_call(alloc, port, call, nth)?;
    let names = place_of(told.ports, port).saturating_add(1);
    let left = after(rt, alloc, told, failing, names, step, &OpenGate)?;
    agree(told.line, left.status.as_str(), status_of(whole, port))?;
    if is_left_by(told, whole, &left, port) {
        Ok(())
    } else {
        Err(Fail::new(format_args!("{}: {port} {call} {nth}", told.line)))
    }
}

/// The same for each of its calls of this kind at this port, one in each run. Answers how many calls these are.
fn calls_agree<R: Threads + Sync>(
    rt: &R,
    alloc: Global,
    told: &Run,
    whole: &Left,
    step: usize,
    port: &str,
    call: &str,
) -> Result<u32, Fail>
    requires { 1 ≤ step }
{
    let Ok(count) = u32::try_from(calls_in(told, whole, port, call, step)) else {
        return Err(Fail::new("more calls than can be counted"));
    };
    for nth in 0..count {
        call_agrees(rt, alloc, told, whole, step, (port, call, nth))?;
    }
    Ok(count)
}

/// Fails where a run ends otherwise than it has to, if one of its calls fails. Answers the calls that would come behind its own.
fn calls_behind<R: Threads + Sync>(
    rt: &R,
    alloc: Global,
    told: &Run,
    whole: &Left,
    step: usize,
) -> Result<Vec<FailedCall>, Fail>
    requires { 1 ≤ step }
{
    let mut behind = Vec::new(alloc);
    for port in PORTS.split(' ') {
        for call in CALLS.split(' ') {
            let count = calls_agree(rt, alloc, told, whole, step, port, call)?;
            behind.append(&mut failing_call(alloc, port, call, count)?)?;
        }
    }
    Ok(behind)
}

/// Fails where it does so, or ends otherwise if all calls fail that would come behind its own.
fn calls_end<R: Threads + Sync>(
    rt: &R,
    alloc: Global,
    told: &Run,
    whole: &Left,
    step: usize,
) -> Result<(), Fail>
    requires { 1 ≤ step }
{
    let behind = calls_behind(rt, alloc, told, whole, step)?;
    let left = after(rt, alloc, told, behind, usize::MAX, step, &OpenGate)?;
    if are_same(&left, whole) {
        Ok(())
    } else {
        Err(Fail::new(format_args!("{}: a further call", told.line)))
    }
}

/// The same beside what the run leaves where no call fails, which its paragraph tells.
fn failures_agree<R: Threads + Sync>(
    rt: &R,
    alloc: Global,
    told: &Run,
    step: usize,
) -> Result<(), Fail>
    requires { 1 ≤ step }
{
    let none = Vec::new(alloc);
    let whole = after(rt, alloc, told, none, usize::MAX, step, &OpenGate)?;
    left_agrees(alloc, told.line, &whole, told.rest)?;
    calls_end(rt, alloc, told, &whole, step)
}

/// The same for a desk that moves one byte a call, and one that moves all.
fn run_agrees<R: Threads + Sync>(rt: &R, alloc: Global, told: &Run) -> Result<(), Fail> {
    failures_agree(rt, alloc, told, 1)?;
    failures_agree(rt, alloc, told, 4096)
}

fn paragraph_agrees<R: Threads + Sync>(
    rt: &R,
    alloc: Global,
    paragraph: &'static str,
) -> Result<(), Fail> {
    let told = run_of(alloc, paragraph)?;
    run_agrees(rt, alloc, &told)
}

#[test]
fn every_call_that_fails_ends_its_run(rt: HostRuntime) -> Result<(), Fail> {
    for paragraph in paragraphs_of(rt.alloc(), RUNS)? {
        paragraph_agrees(&rt, rt.alloc(), paragraph)?;
    }
    Ok(())
}

#[test]
fn every_call_of_the_worked_example_that_fails_ends_its_run(rt: HostRuntime) -> Result<(), Fail> {
    let told = few_exits(rt.alloc())?;
    run_agrees(&rt, rt.alloc(), &told)
}
