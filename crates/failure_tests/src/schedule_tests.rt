//! Runs of `route` whose workers wait for each other, on a drawn design and on ones whose parts are known on paper.

use crate::runs::{Run, after, text_at};
use crate::schedule::{Schedule, order_of};
use routing_stages::OpenGate;
use run_tables::Left;
use std::alloc::Global;
use std::test::Fail;
use std::thread::Threads;
use test_rows::{agree, four_fields, number_of, numbers_of, rows_of};
use worked_designs::design_text;

/// How many phases there are in each run, as its words say.
const PHASES: u64 = 2;

/// A design of 201 nets with so little room that repair is of no use where four workers come.
const CROWDED: &str = "make made.gr --seed 7 --nets 201 --cols 12 --rows 12";

/// A design of 101 nets, of whose overflow repair by two workers takes the most away.
const ROOMY: &str = "make made.gr --seed 7 --nets 101";

/// The text of a drawn design.
fn drawn<R: Threads + Sync>(rt: &R, alloc: Global, line: &'static str) -> Result<Vec<u8>, Fail> {
    let run = Run {
        line,
        ports: "DesignOut",
        texts: Vec::new(alloc),
        rest: "",
    };
    let left = after(
        rt,
        alloc,
        &run,
        Vec::new(alloc),
        usize::MAX,
        4096,
        &OpenGate,
    )?;
    Ok(Vec::from_slice(alloc, text_at(&left, "DesignOut"))?)
}

/// The text of the row with so many nets, each from end to end. There is one way, and its edges have room for two nets, so
/// where there are more each has a turn in every phase and in every round.
fn crowded(alloc: Global, nets: u32) -> Result<Vec<u8>, Fail> {
    let mut text = design_text(alloc, "ROW 119 144 ")?;
    text.extend_from_slice(nets.to_string(alloc)?.as_bytes())?;
    for k in 0..nets {
        text.extend_from_slice(format!(in alloc; "\nn {k} 2 1 5 5 1 25 5 1")?.as_bytes())?;
    }
    text.extend_from_slice(b"\n0\n")?;
    Ok(text)
}

/// The gate of an order, for the workers with these last turns.
fn gate_of(alloc: Global, order: &str, lasts: &'static str, whole: u64) -> Result<Schedule, Fail> {
    let order = order_of(order).ok_or("an order")?;
    let lasts = numbers_of(alloc, lasts)?;
    let gate = Schedule::new(order, lasts.as_slice(), PHASES, whole);
    Ok(gate.ok_or("fewer workers")?)
}

/// The run of a line on a design.
fn run_on(alloc: Global, design: &[u8], line: &'static str) -> Result<Run, Fail> {
    let mut texts = Vec::new(alloc);
    texts.push(Vec::from_slice(alloc, design)?)?;
    Ok(Run {
        line,
        ports: "In RoutesOut CertOut",
        texts,
        rest: "",
    })
}

/// The run of the judge on what a run on a design left.
fn judge_run(alloc: Global, design: &[u8], left: &Left) -> Result<Run, Fail> {
    let mut texts = Vec::new(alloc);
    texts.push(Vec::from_slice(alloc, design)?)?;
    for port in "RoutesOut CertOut".split(' ') {
        texts.push(Vec::from_slice(alloc, text_at(left, port))?)?;
    }
    Ok(Run {
        line: "judge a.gr a.routes a.cert",
        ports: "In RoutesIn CertIn",
        texts,
        rest: "",
    })
}

/// Fails where the judge didn't say yes.
fn says_yes(line: &'static str, judged: &Left) -> Result<(), Fail> {
    agree(line, judged.status.as_str(), "0")?;
    if text_at(judged, "Report").starts_with(b"yes\n") {
        Ok(())
    } else {
        Err(Fail::new(line))
    }
}

/// Fails where a run on a design has another status than 0, or the judge doesn't say yes of what it left.
fn is_accepted<R: Threads + Sync>(
    rt: &R,
    alloc: Global,
    design: &[u8],
    line: &'static str,
    left: &Left,
) -> Result<(), Fail> {
    agree(line, left.status.as_str(), "0")?;
    let run = judge_run(alloc, design, left)?;
    let none = Vec::new(alloc);
    let judged = after(rt, alloc, &run, none, usize::MAX, 4096, &OpenGate)?;
    says_yes(line, &judged)
}

/// What the words leave of the design, whose workers come to the gate. Fails where the judge doesn't say yes.
fn routed<R: Threads + Sync>(
    rt: &R,
    alloc: Global,
    design: &[u8],
    line: &'static str,
    gate: &Schedule,
) -> Result<Left, Fail> {
    let run = run_on(alloc, design, line)?;
    let left = after(rt, alloc, &run, Vec::new(alloc), usize::MAX, 4096, gate)?;
    is_accepted(rt, alloc, design, line, &left)?;
    Ok(left)
}

/// Fails with the row, where something doesn't hold of it.
fn holds_of(row: &str, what: &str, holds: bool) -> Result<(), Fail> {
    if holds {
        Ok(())
    } else {
        Err(Fail::new(format_args!("{what}: {row}")))
    }
}

/// Fails where the turns of the gate are not those of the row, or where there are other parts behind the whole ones than it says.
fn turns_agree(row: &str, gate: &Schedule, are_more: bool) -> Result<(), Fail> {
    holds_of(row, "turns in order", gate.was_called_in_turn())?;
    holds_of(row, "whole parts", gate.has_seen_whole())?;
    holds_of(row, "parts behind them", gate.has_seen_more() == are_more)
}

/// How many nets there are, an order, the last turn of each worker in a phase, and the words. Two workers route the design of 101
/// nets, and four that of 201.
const SCHEDULES: &str =
    "101|first behind second|49 50|route a.gr a.routes a.cert --workers 2 --phases 2 --rounds 4
201|first behind second|49 49 49 50|route a.gr a.routes a.cert --workers 4 --phases 2 --rounds 1
101|second behind first|49 50|route a.gr a.routes a.cert --workers 2 --phases 2 --rounds 4
201|second behind first|49 49 49 50|route a.gr a.routes a.cert --workers 4 --phases 2 --rounds 1
101|one by one|49 50|route a.gr a.routes a.cert --workers 2 --phases 2 --rounds 4
201|one by one|49 49 49 50|route a.gr a.routes a.cert --workers 4 --phases 2 --rounds 1
101|stretches|49 50|route a.gr a.routes a.cert --workers 2 --phases 2 --rounds 4
201|stretches|49 49 49 50|route a.gr a.routes a.cert --workers 4 --phases 2 --rounds 1";

/// The number behind a name of a report.
fn number_behind(report: &str, name: &'static str) -> Result<u64, Fail> {
    let (_, behind) = report.split_once(name).ok_or(name)?;
    let (number, _) = behind.split_once('\n').ok_or(name)?;
    match number.parse::<u64>() {
        Ok(number) => Ok(number),
        Err(_) => Err(Fail::new(name)),
    }
}

/// Fails where a report tells of no round, or of none that took overflow away where two workers route.
fn repair_agrees(row: &str, report: &[u8], nets: &str) -> Result<(), Fail> {
    let report = str::from_utf8(report)?;
    holds_of(row, "rounds", !report.contains("\nrounds 0\n"))?;
    let repaired = number_behind(report, "\noverflow ")? < number_behind(report, "\nrounded ")?;
    holds_of(row, "less overflow", repaired || nets == "201")
}

/// Fails where the run of a row ends otherwise than it has to. Answers whether some worker was kept.
fn schedule_agrees<R: Threads + Sync>(
    rt: &R,
    alloc: Global,
    row: &'static str,
    crowded: &[u8],
    roomy: &[u8],
) -> Result<bool, Fail> {
    let (nets, order, lasts, words) = four_fields(row)?;
    let gate = gate_of(alloc, order, lasts, PHASES)?;
    let design = if nets == "101" { roomy } else { crowded };
    let left = routed(rt, alloc, design, words, &gate)?;
    repair_agrees(row, text_at(&left, "Report"), nets)?;
    turns_agree(row, &gate, true)?;
    Ok(gate.was_kept())
}

/// The same for all rows.
fn schedules_agree<R: Threads + Sync>(
    rt: &R,
    alloc: Global,
    crowded: &[u8],
    roomy: &[u8],
) -> Result<bool, Fail> {
    let mut was_kept = false;
    for row in rows_of(alloc, SCHEDULES)? {
        if schedule_agrees(rt, alloc, row, crowded, roomy)? {
            was_kept = true;
        }
    }
    Ok(was_kept)
}

/// There is repair in each of these runs. With two workers it takes overflow away, so what the judge accepts was repaired. On a
/// machine that is full of other work a worker may run out of looks in all turns of a run, so not each run has one that was kept.
#[test]
fn whatever_workers_wait_for_the_routes_are_accepted(rt: HostRuntime) -> Result<(), Fail> {
    let crowded = drawn(&rt, rt.alloc(), CROWDED)?;
    let roomy = drawn(&rt, rt.alloc(), ROOMY)?;
    let was_kept = schedules_agree(&rt, rt.alloc(), &crowded, &roomy)?;
    assert!(rt; was_kept);
    Ok(())
}

/// How many nets there are, the last turn of each worker in a phase and in a round, how many rounds there are, and the words.
/// The parts of four workers begin at the places 0, 50, 100 and 150 of 201 nets, at 0, 50, 101 and 151 of 202, and at 0, 50,
/// 101 and 152 of 203. So of any two workers one has a turn more than the other for some number of nets.
const PARTS: &str = "201|49 49 49 50|3|route a.gr a.routes a.cert --workers 4 --phases 2 --rounds 3
202|49 50 49 50|2|route a.gr a.routes a.cert --workers 4 --phases 2 --rounds 2
203|49 50 50 50|2|route a.gr a.routes a.cert --workers 4 --phases 2 --rounds 2
201|99 100|2|route a.gr a.routes a.cert --workers 2 --phases 2 --rounds 2
201|49 49 49 50|0|route a.gr a.routes a.cert --workers 4 --phases 2 --rounds 0";

/// Fails where the workers of a row don't meet, or have other turns than it says.
fn parts_agree<R: Threads + Sync>(rt: &R, alloc: Global, row: &'static str) -> Result<(), Fail> {
    let (nets, lasts, rounds, words) = four_fields(row)?;
    let rounds: u64 = number_of(rounds)?;
    let gate = gate_of(alloc, "together", lasts, PHASES.wrapping_add(rounds))?;
    let design = crowded(alloc, number_of(nets)?)?;
    routed(rt, alloc, design.as_slice(), words, &gate)?;
    holds_of(row, "meetings in phases", gate.met_in_phases())?;
    holds_of(
        row,
        "meetings in rounds",
        gate.met_in_rounds() == (rounds > 0),
    )?;
    turns_agree(row, &gate, false)
}

/// All workers are in their turns at once, in the phases and in the rounds, and each has its own turns, which count from 0.
#[test]
fn all_workers_meet_and_count_their_turns(rt: HostRuntime) -> Result<(), Fail> {
    for row in rows_of(rt.alloc(), PARTS)? {
        parts_agree(&rt, rt.alloc(), row)?;
    }
    Ok(())
}
