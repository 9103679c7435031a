//! Runs of a program over a desk in memory.
//!
//! Before the words of a paragraph stands how many names the desk expects: of those among the words the first so many in the
//! order of work, where they belong, and no other name.

use crate::programs::{Program, names_of, status_of};
use gr_desk::{MemDesk, Port};
use run_tables::{Left, Told, desk_of, left_agrees, left_of, told_of, words_of};
use std::alloc::Global;
use std::test::Fail;
use std::thread::Threads;
use test_rows::{number_of, paragraphs_of};

/// The first so many names of a line.
fn first_names(
    program: Program,
    alloc: Global,
    line: &'static str,
    count: usize,
) -> Result<Vec<(Port, &'static str)>, Fail> {
    let mut names = names_of(alloc, program, line)?;
    names.truncate(count);
    if names.len() == count {
        Ok(names)
    } else {
        Err(Fail::new("fewer words than names"))
    }
}

/// What the words of a line leave on a desk.
fn left_on<R: Threads + Sync>(
    program: Program,
    rt: &R,
    alloc: Global,
    line: &'static str,
    desk: &mut MemDesk,
) -> Result<Left, Fail> {
    let words = words_of(alloc, line)?;
    let status = status_of(program, rt, alloc, &words, desk);
    Ok(left_of(alloc, status, desk)?)
}

/// What the run of a paragraph leaves.
pub fn after_run<R: Threads + Sync>(
    program: Program,
    rt: &R,
    alloc: Global,
    told: Told,
) -> Result<Left, Fail> {
    let (count, line) = told.line.split_once(' ').ok_or("how many names")?;
    let names = first_names(program, alloc, line, number_of(count)?)?;
    let mut desk = desk_of(alloc, told.texts, told.failing, names.as_slice())?;
    left_on(program, rt, alloc, line, &mut desk)
}

/// Fails where the run of a paragraph leaves something else than is told.
pub fn run_agrees<R: Threads + Sync>(
    program: Program,
    rt: &R,
    alloc: Global,
    paragraph: &'static str,
) -> Result<Left, Fail> {
    let told = told_of(alloc, paragraph)?;
    let wanted = told.wanted;
    let left = after_run(program, rt, alloc, told)?;
    left_agrees(alloc, paragraph, &left, wanted)?;
    Ok(left)
}

/// Fails where a run of the table leaves something else.
pub fn runs_agree<R: Threads + Sync>(
    program: Program,
    rt: &R,
    alloc: Global,
    table: &'static str,
) -> Result<(), Fail> {
    for paragraph in paragraphs_of(alloc, table)? {
        run_agrees(program, rt, alloc, paragraph)?;
    }
    Ok(())
}
