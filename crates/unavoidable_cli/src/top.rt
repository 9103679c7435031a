//! The top call.

ghost use Rattle.unavoidable_cli.specs.UnavoidableRuns.{IsWholeRun};

use crate::show::show;
use crate::usage::say_usage;
use crate::words::names_of;
use gr_desk::Desk;
use std::alloc::Global;
use std::thread::Threads;

/// All that the program does. `words` are the arguments without the program's name, and the answer is the status that the program
/// ends with.
///
/// | Status | Comes |
/// |---|---|
/// | 0 | the new certificate is written, and what was found is reported |
/// | 1 | the routes, or routes and certificate, are not accepted, and the report says why |
/// | 2 | the words are no command |
/// | 3 | the input is no design |
/// | 4 | the routes are no route text, or the certificate is none |
/// | 5 | a net is unreachable |
/// | 6 | a file could not be opened or read |
/// | 7 | the new certificate could not be created or written, or the report not written whole |
/// | 8 | want of memory, before a file was created |
pub fn run_unavoidable<R: Threads + Sync, D: Desk>(
    rt: &R,
    alloc: Global,
    words: &Vec<String>,
    desk: &mut D,
) -> u8
    ensures { IsWholeRun words.now.items (D.told desk.old) (D.told desk.new) result }
{
    match names_of(words.as_slice()) {
        Some(names) => show(rt, alloc, &names, desk),
        None => say_usage(desk),
    }
}
