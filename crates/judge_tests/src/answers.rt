//! The judge's answers as texts: `no` with a reason's number and its fields, and `yes` with the overflow, the wirelength and
//! the peak that were measured, and the number of nets beyond their grounds.

use route_judge::{Checked, Reason, Verdict};
use std::alloc::{AllocError, Global};
use test_rows::fraction_text;
use tree_set::{Fraction, Measure};

fn two_fractions_text(
    alloc: Global,
    stated: Option<Fraction>,
    found: Option<Fraction>,
) -> Result<String, AllocError> {
    let (stated, found) = (fraction_text(alloc, stated)?, fraction_text(alloc, found)?);
    format!(in alloc; "{stated} {found}")
}

fn fields_text(alloc: Global, reason: Reason) -> Result<String, AllocError> {
    match reason {
        Reason::UnknownNet { block } => format!(in alloc; "{block}"),
        Reason::RepeatedNet { id } | Reason::MissingNet { id } | Reason::NotJoined { id } => {
            format!(in alloc; "{id}")
        }
        Reason::PointOutside { block, segment }
        | Reason::Slanted { block, segment }
        | Reason::OnWall { block, segment } => format!(in alloc; "{block} {segment}"),
        Reason::WrongOverflow { stated, found } | Reason::WrongWirelength { stated, found } => {
            format!(in alloc; "{stated} {found}")
        }
        Reason::WrongCount {
            what,
            stated,
            found,
        } => {
            let word = what.word();
            format!(in alloc; "{word} {stated} {found}")
        }
        Reason::WrongPeak { stated, found } | Reason::BoundTooHigh { stated, found } => {
            two_fractions_text(alloc, stated, found)
        }
    }
}

fn reason_text(alloc: Global, reason: Reason) -> Result<String, AllocError> {
    let (number, fields) = (reason.number(), fields_text(alloc, reason)?);
    format!(in alloc; "no {number} {fields}")
}

fn measure_text(alloc: Global, measure: Measure, beyond: u32) -> Result<String, AllocError> {
    let Measure {
        overflow,
        wirelength,
        peak,
    } = measure;
    let peak = fraction_text(alloc, peak)?;
    format!(in alloc; "yes {overflow} {wirelength} {peak} {beyond}")
}

pub fn checked_text(alloc: Global, checked: Checked) -> Result<String, AllocError> {
    match checked {
        Checked::Yes { measure, beyond } => measure_text(alloc, measure, beyond),
        Checked::No(reason) => reason_text(alloc, reason),
    }
}

pub fn verdict_text(alloc: Global, verdict: Verdict) -> Result<String, AllocError> {
    match verdict {
        Verdict::Yes { measure, beyond } => measure_text(alloc, measure, beyond),
        Verdict::No(reason) => reason_text(alloc, reason),
    }
}
