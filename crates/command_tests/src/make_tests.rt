//! Whole runs of `make`.

use crate::runs::{after_run, runs_agree};
use run_tables::{Left, failing_of};
use std::alloc::Global;
use std::test::Fail;
use std::thread::Threads;

/// The texts are what an independent ChaCha8 and an independent writer make of the seeds: the smallest shape with two nets, and a
/// design of no nets and one adjustment, from the greatest seed. Then come calls that fail, words that are no command, and a name
/// that the desk does not expect.
const MADE: &str = "make made.gr --nets 2 --seed 7 --rows 2 --cols 2 --layers 2
-
0
made 2 nets;
-
-
grid 2 2 2;vertical capacity 0 8;horizontal capacity 8 0;minimum width 1 1;minimum spacing 1 1;via spacing 1 1;0 0 10 10;num net 2;n0 0 6 1;8 0 1;1 17 1;11 19 1;14 6 1;1 7 1;11 7 1;n1 1 3 1;3 16 1;5 18 1;1 2 1;0;

make made.gr --seed 18446744073709551615 --cols 4 --rows 4 --layers 8 --nets 0
-
0
made 0 nets;
-
-
grid 4 4 8;vertical capacity 0 8 0 8 0 8 0 8;horizontal capacity 8 0 8 0 8 0 8 0;minimum width 1 1 1 1 1 1 1 1;minimum spacing 1 1 1 1 1 1 1 1;via spacing 1 1 1 1 1 1 1 1;0 0 10 10;num net 0;1;0 0 1 1 0 1 5;

make made.gr --nets 2 --seed 7 --rows 2 --cols 2 --layers 2|DesignOut Create
-
7
refused 7;

make made.gr --nets 2 --seed 7 --rows 2 --cols 2 --layers 2|DesignOut Write
-
7
refused 7;

make made.gr --nets 2 --seed 7 --rows 2 --cols 2 --layers 2|Report Write
-
7
-
-
-
grid 2 2 2;vertical capacity 0 8;horizontal capacity 8 0;minimum width 1 1;minimum spacing 1 1;via spacing 1 1;0 0 10 10;num net 2;n0 0 6 1;8 0 1;1 17 1;11 19 1;14 6 1;1 7 1;11 7 1;n1 1 3 1;3 16 1;5 18 1;1 2 1;0;

make|Report Write
-
2

make
-
2
refused 2;usage: grouter route|measure|judge|make|trial|eco|climb|guide;

make 
-
2
refused 2;usage: grouter route|measure|judge|make|trial|eco|climb|guide;

make -o
-
2
refused 2;usage: grouter route|measure|judge|make|trial|eco|climb|guide;

make made.gr b.gr
-
2
refused 2;usage: grouter route|measure|judge|make|trial|eco|climb|guide;

make made.gr --rows 1
-
2
refused 2;usage: grouter route|measure|judge|make|trial|eco|climb|guide;

make made.gr --layers 9
-
2
refused 2;usage: grouter route|measure|judge|make|trial|eco|climb|guide;

make made.gr --nets 1048577
-
2
refused 2;usage: grouter route|measure|judge|make|trial|eco|climb|guide;

make made.gr --workers 2
-
2
refused 2;usage: grouter route|measure|judge|make|trial|eco|climb|guide;

make other.gr --nets 0
-
0 strayed
made 0 nets;
-
-
?";

#[test]
fn a_design_is_made(rt: HostRuntime) -> Result<(), Fail> {
    runs_agree(&rt, rt.alloc(), MADE)
}

/// What a run of `make` leaves, where maybe a call fails.
fn after_make<R: Threads + Sync>(rt: &R, alloc: Global, fails: &'static str) -> Result<Left, Fail> {
    let failing = failing_of(alloc, fails)?;
    after_run(rt, alloc, "make made.gr", failing, Vec::new(alloc))
}

/// Of a text of 10,000 bytes some part from its front stands in the file where a later write fails.
#[test]
fn a_part_of_a_design_is_left_where_a_later_write_fails(rt: HostRuntime) -> Result<(), Fail> {
    let whole = after_make(&rt, rt.alloc(), "")?;
    let cut = after_make(&rt, rt.alloc(), "DesignOut Write 1")?;
    let text = whole.texts.get(3).ok_or("a design")?.as_slice();
    let part = cut.texts.get(3).ok_or("a part")?.as_slice();
    let report = cut.texts.first().ok_or("a report")?.as_slice();
    assert!(rt; whole.status.as_str() == "0" && text.len() == 10000);
    assert!(rt; cut.status.as_str() == "7" && report == b"refused 7\n".as_slice());
    assert!(rt; !part.is_empty() && part.len() < text.len() && text.starts_with(part));
    Ok(())
}
