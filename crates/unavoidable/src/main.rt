//! The program `unavoidable IN ROUTES [CERT] NEW`: congestion that no routing on the nets' grounds avoids, shown by prices.
#![tactic(auto)]

ghost use Rattle.std.specs.Prelude.{◌≡◌, IsErr, IfOk};
ghost use Rattle.std.specs.Process.{exit_status};
ghost use Rattle.command_runs.specs.declared.refusal.Refusal.TheVariants.{NoMemory};
ghost use Rattle.command_runs.specs.Lines.{status_of};
ghost use Rattle.unavoidable_cli.specs.UnavoidableRuns.{IsWholeRun};

use command_words::words_of;
use gr_desk::{Desk, RealDesk};
use std::alloc::{AllocError, Global};
use std::env;
use std::process::ExitCode;
use std::thread::Threads;
use unavoidable_cli::run_unavoidable;

/// The status where there is no memory for the words.
const NO_MEMORY: u8 = 8;

fn main(rt: HostRuntime) -> ExitCode {
    let words = words_of(rt.alloc(), env::args(&rt));
    ended(&rt, rt.alloc(), words, &mut RealDesk::new(&rt))
}

/// What the program ends with: the status of `run_unavoidable`, and nothing is done where there is no memory for the words.
fn ended<R: Threads + Sync, D: Desk>(
    rt: &R,
    alloc: Global,
    words: Result<Vec<String>, AllocError>,
    desk: &mut D,
) -> ExitCode
    ensures run { IfOk words (λ w. IsWholeRun w.items (D.told desk.old) (D.told desk.new) (exit_status result)) }
    ensures no_memory { IsErr words → exit_status result ≡ status_of NoMemory }
    ensures nothing_done { IsErr words → D.told desk.new ≡ D.told desk.old }
{
    match words {
        Ok(words) => ExitCode::from(run_unavoidable(rt, alloc, &words, desk)),
        Err(AllocError) => ExitCode::from(NO_MEMORY),
    }
}
