//! Runs of `grouter` over a desk in memory.

use gr_desk::{Fail as FailedCall, Port};
use router_cli::run;
use routing_stages::OpenGate;
use run_tables::{Left, desk_of, left_agrees, left_of, told_of, words_of};
use std::alloc::Global;
use std::test::Fail;
use std::thread::Threads;
use test_rows::paragraphs_of;

/// Where `route` has its files.
const ROUTED: &[(Port, &str)] = &[
    (Port::In, "a.gr"),
    (Port::RoutesOut, "a.routes"),
    (Port::CertOut, "a.cert"),
];

/// Where `measure` and `judge` have them.
const JUDGED: &[(Port, &str)] = &[
    (Port::In, "a.gr"),
    (Port::RoutesIn, "a.routes"),
    (Port::CertIn, "a.cert"),
];

/// Where `guide` has them.
const GUIDED: &[(Port, &str)] = &[
    (Port::In, "a.gr"),
    (Port::RoutesIn, "a.routes"),
    (Port::GuideOut, "a.guide"),
];

/// Where `eco` has them.
const EDITED: &[(Port, &str)] = &[
    (Port::In, "a.gr"),
    (Port::RoutesIn, "a.routes"),
    (Port::EditsIn, "a.edits"),
    (Port::RoutesOut, "b.routes"),
];

/// Where `climb` has them.
const CLIMBED: &[(Port, &str)] = &[
    (Port::In, "a.gr"),
    (Port::RoutesIn, "a.routes"),
    (Port::CertIn, "a.cert"),
    (Port::CertOut, "b.cert"),
];

/// Where `make` has its file.
const MADE: &[(Port, &str)] = &[(Port::DesignOut, "made.gr")];

/// The names that a desk expects where a run begins with this word.
fn names_of(command: &str) -> &'static [(Port, &'static str)] {
    match command {
        "route" => ROUTED,
        "make" => MADE,
        "trial" => &[],
        "eco" => EDITED,
        "climb" => CLIMBED,
        "guide" => GUIDED,
        _ => JUDGED,
    }
}

/// What a run on these words and texts leaves.
pub fn after_run<R: Threads + Sync>(
    rt: &R,
    alloc: Global,
    line: &str,
    failing: Vec<FailedCall>,
    texts: Vec<Vec<u8>>,
) -> Result<Left, Fail> {
    let (command, _) = line.split_once(' ').unwrap_or((line, ""));
    let mut desk = desk_of(alloc, texts, failing, names_of(command))?;
    let status = run(rt, alloc, &words_of(alloc, line)?, &mut desk, &OpenGate);
    Ok(left_of(alloc, status, &desk)?)
}

/// Fails where a run of the table leaves something else.
pub fn runs_agree<R: Threads + Sync>(
    rt: &R,
    alloc: Global,
    table: &'static str,
) -> Result<(), Fail> {
    for paragraph in paragraphs_of(alloc, table)? {
        let told = told_of(alloc, paragraph)?;
        let left = after_run(rt, alloc, told.line, told.failing, told.texts)?;
        left_agrees(alloc, paragraph, &left, told.wanted)?;
    }
    Ok(())
}
