//! The command line of the router: `grouter` with one of `route`, `measure`, `judge`, `eco`, `climb`, `guide`, `make` and `trial`.
#![tactic(auto)]

ghost use Rattle.std.specs.Prelude.{◌≡◌, IsErr, IfOk};
ghost use Rattle.std.specs.Process.{exit_status};
ghost use Rattle.command_runs.specs.declared.refusal.Refusal.TheVariants.{NoMemory};
ghost use Rattle.command_runs.specs.Lines.{status_of};
ghost use Rattle.router_cli.specs.Runs.{IsRun};

use command_words::words_of;
use gr_desk::{Desk, RealDesk};
use router_cli::run;
use routing_stages::{Gate, OpenGate};
use std::alloc::{AllocError, Global};
use std::env;
use std::process::ExitCode;
use std::thread::Threads;

/// The status where there is no memory for the words.
const NO_MEMORY: u8 = 8;

fn main(rt: HostRuntime) -> ExitCode {
    let words = words_of(rt.alloc(), env::args(&rt));
    ended(&rt, rt.alloc(), words, &mut RealDesk::new(&rt), &OpenGate)
}

/// What the program ends with: the status of `run`, and nothing is done where there is no memory for the words.
fn ended<R: Threads + Sync, D: Desk, G: Gate>(
    rt: &R,
    alloc: Global,
    words: Result<Vec<String>, AllocError>,
    desk: &mut D,
    gate: &G,
) -> ExitCode
    ensures run { IfOk words (λ w. IsRun w.items (D.told desk.old) (D.told desk.new) (exit_status result)) }
    ensures no_memory { IsErr words → exit_status result ≡ status_of NoMemory }
    ensures nothing_done { IsErr words → D.told desk.new ≡ D.told desk.old }
{
    match words {
        Ok(words) => ExitCode::from(run(rt, alloc, &words, desk, gate)),
        Err(AllocError) => ExitCode::from(NO_MEMORY),
    }
}
