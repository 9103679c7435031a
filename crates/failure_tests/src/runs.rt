//! Runs over a desk in memory that moves its bytes by steps.
//!
//! A paragraph tells a run as in `run_tables`, with the name of another program than `grouter` before its words. Its third line
//! has the ports of the names among the words, in the order of work, or `-` where there are none.

ghost use Rattle.std.specs.Prelude.{◌≤◌};

use gr_desk::{Fail as FailedCall, MemDesk, Port};
use router_cli::run;
use routing_stages::Gate;
use run_tables::{Left, desk_by_steps, left_of, port_of, told_of, words_of};
use std::alloc::Global;
use std::test::Fail;
use std::thread::Threads;
use unavoidable_cli::run_unavoidable;

/// The ports of the texts that a run leaves, in their order.
pub const LEFT_AT: &str = "Report RoutesOut CertOut DesignOut GuideOut MapOut";

/// The ports of the texts that a paragraph has, in their order.
const READ_AT: &str = "In RoutesIn CertIn EditsIn";

/// A run that a paragraph tells.
#[derive(Drop)]
pub struct Run {
    /// The words.
    pub line: &'static str,
    /// The ports of the names among them.
    pub ports: &'static str,
    /// The texts of the design, the routes, the certificate and the edits, up to the last one that it reads, as far as it comes.
    pub texts: Vec<Vec<u8>>,
    /// The lines of the paragraph behind these.
    pub rest: &'static str,
}

/// The run of a paragraph.
pub fn run_of(alloc: Global, paragraph: &'static str) -> Result<Run, Fail> {
    let mut told = told_of(alloc, paragraph)?;
    let (ports, rest) = told.wanted.split_once('\n').unwrap_or((told.wanted, ""));
    let ports = if ports == "-" { "" } else { ports };
    told.texts.truncate(texts_for(ports));
    Ok(Run {
        line: told.line,
        ports,
        texts: told.texts,
        rest,
    })
}

/// How many texts a paragraph has up to that of the last port that is read from.
fn texts_for(ports: &str) -> usize {
    let mut texts: usize = 0;
    for port in ports.split_whitespace() {
        if port.ends_with("In") {
            texts = place_of(READ_AT, port).saturating_add(1);
        }
    }
    texts
}

/// The text that a run reads at a port, where there is one.
pub fn text_read<'a>(told: &'a Run, port: &str) -> Option<&'a [u8]> {
    match told.texts.get(place_of(READ_AT, port)) {
        Some(text) => Some(text.as_slice()),
        None => None,
    }
}

/// How many of the ports are read from: the first ones.
pub fn inputs_of(ports: &str) -> usize {
    let mut inputs: usize = 0;
    for port in ports.split_whitespace() {
        if port.ends_with("In") {
            inputs = inputs.saturating_add(1);
        }
    }
    inputs
}

/// The place of a port among others, or how many they are where it is none of them.
pub fn place_of(ports: &str, port: &str) -> usize {
    let mut place: usize = 0;
    for other in ports.split_whitespace() {
        if other == port {
            return place;
        }
        place = place.saturating_add(1);
    }
    place
}

/// The first so many names among the words of a line, each with its port.
fn names_of(
    alloc: Global,
    line: &'static str,
    ports: &'static str,
    count: usize,
) -> Result<Vec<(Port, &'static str)>, Fail> {
    let mut names = Vec::new(alloc);
    let mut words = line.split(' ').skip(1);
    for port in ports.split_whitespace().take(count) {
        let name = words.next().ok_or("a name")?;
        names.push((port_of(port).ok_or("a port")?, name))?;
    }
    Ok(names)
}

/// What the words of a line leave on a desk.
fn left_on<R: Threads + Sync, G: Gate>(
    rt: &R,
    alloc: Global,
    line: &'static str,
    desk: &mut MemDesk,
    gate: &G,
) -> Result<Left, Fail> {
    let status = match line.strip_prefix("unavoidable ") {
        Some(words) => run_unavoidable(rt, alloc, &words_of(alloc, words)?, desk),
        None => run(rt, alloc, &words_of(alloc, line)?, desk, gate),
    };
    Ok(left_of(alloc, status, desk)?)
}

/// What a run leaves, on a desk that expects the first so many names and moves at most `step` bytes a call.
pub fn after<R: Threads + Sync, G: Gate>(
    rt: &R,
    alloc: Global,
    run_told: &Run,
    failing: Vec<FailedCall>,
    count: usize,
    step: usize,
    gate: &G,
) -> Result<Left, Fail>
    requires { 1 ≤ step }
{
    let names = names_of(alloc, run_told.line, run_told.ports, count)?;
    let texts = run_told.texts.clone()?;
    let mut desk = desk_by_steps(alloc, texts, failing, names.as_slice(), step)?;
    left_on(rt, alloc, run_told.line, &mut desk, gate)
}

/// The text that a run left at a port.
pub fn text_at<'a>(left: &'a Left, port: &str) -> &'a [u8] {
    match left.texts.get(place_of(LEFT_AT, port)) {
        Some(text) => text.as_slice(),
        None => &[],
    }
}

/// Whether two runs left the same.
pub fn are_same(left: &Left, other: &Left) -> bool {
    for port in LEFT_AT.split_whitespace() {
        if text_at(left, port) != text_at(other, port) {
            return false;
        }
    }
    left.status.as_str() == other.status.as_str()
}
