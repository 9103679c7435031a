//! The top call.

ghost use Rattle.reroute_cli.specs.RerouteRuns.{IsProgramRun};

use crate::rerouting::rerouting;
use crate::usage::say_usage;
use command_runs::{Refusal, refuse};
use command_words::{WordsError, reroute_of};
use gr_desk::Desk;
use std::alloc::Global;
use std::thread::Threads;

/// All that the program does. `words` are the arguments without the program's name, and the answer is the status that the program
/// ends with.
///
/// | Status | Comes |
/// |---|---|
/// | 0 | the new routes are written, and what became of the nets is reported |
/// | 1 | the given routes are not accepted, and the report says why |
/// | 2 | the words are no command |
/// | 3 | the input is no design |
/// | 4 | the given routes are no route text |
/// | 5 | a net is unreachable |
/// | 6 | a file could not be opened or read |
/// | 7 | the new routes could not be created or written, or the report not written whole |
/// | 8 | want of memory, before a file was created |
pub fn run_reroute<R: Threads + Sync, D: Desk>(
    rt: &R,
    alloc: Global,
    words: &Vec<String>,
    desk: &mut D,
) -> u8
    ensures { IsProgramRun words.now.items (D.told desk.old) (D.told desk.new) result }
{
    match reroute_of(alloc, words.as_slice()) {
        Ok(request) => rerouting(rt, alloc, &request, desk),
        Err(WordsError::Refused) => say_usage(desk),
        Err(WordsError::NoMemory) => refuse(desk, Refusal::NoMemory),
    }
}
