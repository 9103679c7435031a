//! Texts that end early, byte by byte.

use crate::runs::{LEFT_AT, Run, after, are_same, inputs_of, run_of, text_at};
use routing_stages::OpenGate;
use run_tables::Left;
use std::alloc::Global;
use std::test::Fail;
use std::thread::Threads;
use test_rows::{agree, four_fields, paragraphs_of, rows_of, text_of, three_fields, two_numbers};

/// A run, and what becomes of it where the last of its texts is cut: between which two lengths the text ends, the status, and
/// what the report begins with, or what it is where a line end stands behind it; there `@` is the length. With status 0 the run
/// ends as that on the whole text, unless a fourth field has its routes.
///
/// Each length was found by hand. A design may end behind its last net. A cut number is still a number and a cut word none, so a
/// text is refused for a word, a number or a mark that is missing or cut: up to the last one. The last price may be cut to any of
/// its digits. In the first three certificates the bound holds all the same, since at all prices of the two edges the net costs
/// half of what their capacities cost, and a budget of 4 pieces for 2 as well. In the last one the 8 pieces of the budget cost 80,
/// the edge with room for 4 costs 60, and the net 50 of these 140; where the edge's price is 1 and not 15, it costs 22 of 84.
///
/// Of edits a cut word is refused where it begins, and what is missing at the text's length. The first text ends in the id of
/// the net that goes, of which the first digit is the id of another one; the second in a layer, of which the first digit is no
/// layer, and it has a sign that is no number when its digit is cut off.
const CUTS: &str = "route a.gr a.routes a.cert
ROW
In RoutesOut CertOut
0 3|3|refused 3 11 0 grid;
4 140|3|refused 3 11
141 144|0|

measure a.gr a.routes
ROW|a 0;(5,5,1)-(25,5,1);!;
In RoutesIn
0 0|1|no 43 0;
1 21|4|refused 4 31
22 23|0|

judge a.gr a.routes a.cert
ROW|a 0;(5,5,1)-(25,5,1);!;|grouter certificate 1;nets 1;forced 0;overflow 0;wirelength 2;peak 1/2;bound 1/2;prices 2;12758;12758;
In RoutesIn CertIn
0 96|4|refused 4 32
97 102|0|

judge a.gr a.routes a.cert
ROW|a 0;(5,5,1)-(25,5,1);!;|grouter certificate 2;nets 1;forced 0;overflow 0;wirelength 2;peak 1/2;bound 1/2;budget 4 12758;prices 2;12758;12758;
In RoutesIn CertIn
0 111|4|refused 4 32
112 117|0|

judge a.gr a.routes a.cert
ROW|a 0;(5,5,1)-(25,5,1);!;|grouter certificate 2;nets 1;forced 0;overflow 0;wirelength 2;peak 1/2;bound 5/14;budget 8 10;prices 2;0;15;
In RoutesIn CertIn
0 105|4|refused 4 32
106 106|1|no 52 5/14 11/42;
107 108|0|

eco a.gr a.routes a.edits b.routes
ROW|a 0;(5,5,1)-(25,5,1);!;||edits 3 add b 1 1 1 5 5 1 add c 10 2 1 15 5 1 25 5 1 drop 10;
In RoutesIn EditsIn RoutesOut
0 4|4|refused 4 61 0;
5 8|4|refused 4 61 @;
9 10|4|refused 4 61 8;
11 26|4|refused 4 61 @;
27 28|4|refused 4 61 26;
29 53|4|refused 4 61 @;
54 56|4|refused 4 61 53;
57 58|4|refused 4 61 @;
59 59|0|nets 2;forced 0;kept 1;routed 1;overflow 0;wirelength 3;peak 1/1;|a 0;(5,5,1)-(25,5,1);!;c 10;(15,5,1)-(25,5,1);!;
60 61|0|nets 2;forced 0;kept 1;routed 1;overflow 0;wirelength 2;peak 1/2;|a 0;(5,5,1)-(25,5,1);!;b 1;!;

eco a.gr a.routes a.edits b.routes
ROW|a 0;(5,5,1)-(25,5,1);!;||edits 2 change 0 2 +1 5 5 1 25 5 1 add b 1 1 1 5 5 01
In RoutesIn EditsIn RoutesOut
0 4|4|refused 4 61 0;
5 8|4|refused 4 61 @;
9 13|4|refused 4 61 8;
14 19|4|refused 4 61 @;
20 20|4|refused 4 61 19;
21 35|4|refused 4 61 @;
36 37|4|refused 4 61 35;
38 51|4|refused 4 61 @;
52 52|9|refused 9 65 1 0;
53 53|0|nets 2;forced 0;kept 0;routed 2;overflow 0;wirelength 2;peak 1/2;|a 0;(5,5,1)-(25,5,1);!;b 1;!;";

/// A row of the table.
#[derive(Drop)]
struct Cut {
    row: &'static str,
    from: usize,
    to: usize,
    status: &'static str,
    report: &'static str,
    routes: Option<&'static str>,
}

/// What a row tells.
fn cut_of(row: &'static str) -> Result<Cut, Fail> {
    let (range, status, report, routes) = match four_fields(row) {
        Ok((range, status, report, routes)) => (range, status, report, Some(routes)),
        Err(_) => {
            let (range, status, report) = three_fields(row)?;
            (range, status, report, None)
        }
    };
    let (from, to) = two_numbers::<usize>(range)?;
    Ok(Cut {
        row,
        from,
        to,
        status,
        report,
        routes,
    })
}

/// The run with the last of its texts cut to so many bytes.
fn cut_to(told: &Run, kept: usize) -> Result<Run, Fail> {
    let mut texts = told.texts.clone()?;
    if let Some(text) = texts.last_mut() {
        text.truncate(kept);
    }
    Ok(Run {
        line: told.line,
        ports: told.ports,
        texts,
        rest: told.rest,
    })
}

/// Whether a run left these routes and a report that begins with this text, and is no longer where the text ends its line.
fn is_left(left: &Left, report: &[u8], routes: &[u8]) -> bool {
    for port in LEFT_AT.split_whitespace() {
        let text = text_at(left, port);
        let agrees = match port {
            "Report" if report.ends_with(b"\n") => text == report,
            "Report" => text.starts_with(report),
            "RoutesOut" => text == routes,
            _ => text.is_empty(),
        };
        if !agrees {
            return false;
        }
    }
    true
}

/// Whether a run on a text of this length left what it has to leave.
fn is_left_by(
    alloc: Global,
    left: &Left,
    whole: &Left,
    kept: usize,
    cut: &Cut,
) -> Result<bool, Fail> {
    if cut.status == "0" && cut.routes.is_none() {
        return Ok(are_same(left, whole));
    }
    let length = kept.to_string(alloc)?;
    let report = text_of(alloc, cut.report)?.replace(alloc, '@', length.as_str())?;
    let routes = text_of(alloc, cut.routes.unwrap_or(""))?;
    Ok(is_left(left, report.as_bytes(), routes.as_bytes()))
}

/// What the run leaves of which the last text has this length. If it is to be refused, the desk expects the names of its inputs
/// alone.
fn left_of_cut<R: Threads + Sync>(
    rt: &R,
    alloc: Global,
    told: &Run,
    kept: usize,
    status: &str,
) -> Result<Left, Fail> {
    let names = if status == "0" {
        usize::MAX
    } else {
        inputs_of(told.ports)
    };
    let run = cut_to(told, kept)?;
    after(rt, alloc, &run, Vec::new(alloc), names, 4096, &OpenGate)
}

/// Fails where that run ends otherwise than the row says.
fn cut_agrees<R: Threads + Sync>(
    rt: &R,
    alloc: Global,
    told: &Run,
    whole: &Left,
    kept: usize,
    cut: &Cut,
) -> Result<(), Fail> {
    let left = left_of_cut(rt, alloc, told, kept, cut.status)?;
    agree(cut.row, left.status.as_str(), cut.status)?;
    if is_left_by(alloc, &left, whole, kept, cut)? {
        Ok(())
    } else {
        Err(Fail::new(format_args!("{} at {kept}", cut.row)))
    }
}

/// Fails where the runs on the cuts of a row end otherwise than it says, or where it begins with another length than this. Answers
/// the length behind its last one.
fn row_agrees<R: Threads + Sync>(
    rt: &R,
    alloc: Global,
    told: &Run,
    whole: &Left,
    first: usize,
    row: &'static str,
) -> Result<usize, Fail> {
    let cut = cut_of(row)?;
    if cut.from != first {
        return Err(Fail::new(row));
    }
    let next = cut.to.saturating_add(1);
    for kept in cut.from..next {
        cut_agrees(rt, alloc, told, whole, kept, &cut)?;
    }
    Ok(next)
}

/// The length behind those of all rows, which follow each other from 0 on.
fn rows_agree<R: Threads + Sync>(
    rt: &R,
    alloc: Global,
    told: &Run,
    whole: &Left,
) -> Result<usize, Fail> {
    let mut next = 0;
    for row in rows_of(alloc, told.rest)? {
        next = row_agrees(rt, alloc, told, whole, next, row)?;
    }
    Ok(next)
}

/// Fails where the run on some cut of its last text ends otherwise than the rows say, or where they leave a length out.
fn cuts_agree<R: Threads + Sync>(rt: &R, alloc: Global, told: &Run) -> Result<(), Fail> {
    let text = told.texts.last().ok_or("a text")?;
    let none = Vec::new(alloc);
    let whole = after(rt, alloc, told, none, usize::MAX, 4096, &OpenGate)?;
    if rows_agree(rt, alloc, told, &whole)? == text.len().saturating_add(1) {
        Ok(())
    } else {
        Err(Fail::new("another length"))
    }
}

/// The same for the run of a paragraph.
fn paragraph_agrees<R: Threads + Sync>(
    rt: &R,
    alloc: Global,
    paragraph: &'static str,
) -> Result<(), Fail> {
    let told = run_of(alloc, paragraph)?;
    cuts_agree(rt, alloc, &told)
}

#[test]
fn texts_that_end_early_are_refused_or_stand_for_others(rt: HostRuntime) -> Result<(), Fail> {
    for paragraph in paragraphs_of(rt.alloc(), CUTS)? {
        paragraph_agrees(&rt, rt.alloc(), paragraph)?;
    }
    Ok(())
}
