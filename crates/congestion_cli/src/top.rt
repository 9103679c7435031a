//! The top call.

ghost use Rattle.congestion_cli.specs.MapRuns.{IsWholeMapRun};

use crate::show::show;
use crate::usage::say_usage;
use command_words::map_of;
use gr_desk::Desk;
use std::alloc::Global;

/// All that the program does. `words` are the arguments without the program's name, and the answer is the status that the program
/// ends with.
///
/// | Status | Comes |
/// |---|---|
/// | 0 | the map is written, and what is measured of the routes is reported |
/// | 1 | the routes are none of the design, the certificate has not one price for each open edge, or the layer is missing |
/// | 2 | the words are no command |
/// | 3 | the input is no design |
/// | 4 | the routes are no route text, or the certificate is none |
/// | 5 | a net is unreachable |
/// | 6 | a file could not be opened or read |
/// | 7 | the map could not be created or written, or the report not written whole |
/// | 8 | want of memory, before a file was created |
pub fn run_map<D: Desk>(alloc: Global, words: &Vec<String>, desk: &mut D) -> u8
    ensures { IsWholeMapRun words.now.items (D.told desk.old) (D.told desk.new) result }
{
    match map_of(words.as_slice()) {
        Ok(request) => show(alloc, &request, desk),
        Err(_) => say_usage(desk),
    }
}
