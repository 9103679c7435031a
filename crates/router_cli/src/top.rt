//! The top call.

ghost use Rattle.router_cli.specs.Runs.{IsRun};

use crate::make::make;
use crate::route::route;
use crate::trial::trial;
use climb_cli::climb;
use command_runs::{Refusal, refuse};
use command_words::{Command, WordsError, command_of};
use eco_cli::eco;
use gr_desk::Desk;
use guide_cli::guide;
use judge_cli::{judge, measure};
use routing_stages::Gate;
use std::alloc::Global;
use std::thread::Threads;

/// All that the program does. `words` are the arguments without the program's name, `gate` is asked before the turn of each net,
/// and the answer is the status that the program ends with.
///
/// | Status | Comes |
/// |---|---|
/// | 0 | what was asked for is written and reported, or the routes are accepted |
/// | 1 | routes or a certificate are not accepted, and the report says why |
/// | 2 | the words are no command |
/// | 3 | the input is no design, or one that guides can't hold |
/// | 4 | a text that is read beside the design is no route text, no certificate or no text of edits |
/// | 5 | a net is unreachable |
/// | 6 | a file could not be opened or read |
/// | 7 | a file could not be created or written, or the report not written whole |
/// | 8 | want of memory, before a file was created |
/// | 9 | an edit is refused |
pub fn run<R: Threads + Sync, D: Desk, G: Gate>(
    rt: &R,
    alloc: Global,
    words: &Vec<String>,
    desk: &mut D,
    gate: &G,
) -> u8
    ensures { IsRun words.now.items (D.told desk.old) (D.told desk.new) result }
{
    match command_of(alloc, words.as_slice()) {
        Ok(Command::Route(request)) => route(rt, alloc, &request, desk, gate),
        Ok(Command::Measure(request)) => measure(alloc, &request, desk),
        Ok(Command::Judge(request)) => judge(rt, alloc, &request, desk),
        Ok(Command::Make(request)) => make(desk, &request),
        Ok(Command::Trial(request)) => trial(rt, alloc, &request, desk, gate),
        Ok(Command::Eco(request)) => eco(alloc, &request, desk),
        Ok(Command::Climb(request)) => climb(rt, alloc, &request, desk),
        Ok(Command::Guide(request)) => guide(alloc, &request, desk),
        Err(WordsError::Refused) => refuse(desk, Refusal::NoCommand),
        Err(WordsError::NoMemory) => refuse(desk, Refusal::NoMemory),
    }
}
