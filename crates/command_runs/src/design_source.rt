//! The design that a command reads: the bytes of its file are fed to a reader piece by piece, and not kept.

ghost use Rattle.std.specs.Prelude.{◌≡◌, ◌≢◌, ◌+◌, IfOk, OnOk, IsErrOf, Err};
ghost use Rattle.std.specs.Io.KnownBytes.{IsAtEnd};
ghost use Rattle.gr_desk.specs.declared.port.Port.TheVariants.{In};
ghost use Rattle.gr_desk.specs.Causes.{Rose};
ghost use Rattle.gr_desk.specs.Runs.{TakesCount, TakesSome};
ghost use Rattle.ispd_reader.specs.Designs.{IsDesignOfText};
ghost use Rattle.ispd_reader.specs.Limits.{max_bytes};
ghost use Rattle.command_runs.specs.FedReaders.{IsFed};
ghost use Rattle.command_runs.specs.declared.refusal.Refusal.{Refusal};
ghost use Rattle.command_runs.specs.Sources.{HasBytes};
ghost use Rattle.command_runs.specs.Steps.{IsOfReading, ReadsFile};

use crate::refusal::Refusal;
use gr_desk::{Desk, Failed, Port, PortFault, READ_SIZE};
use grid_graph::Design;
use ispd_reader::{InputError, InputFault, MAX_BYTES, Reader};
use std::alloc::Global;

/// A reader that was fed all that is left to be read at `In`, if that is no more than a text may have.
///
/// A text with a fault is read to its end too, since one that is too long or can't be read is refused for that. `TooLong` says
/// that one byte more than the limit was there; reading stops at that byte.
fn fed_reader<D: Desk>(alloc: Global, desk: &mut D) -> Result<Reader, PortFault>
    ensures fed { IfOk result (IsFed (D.told desk.old) (D.told desk.new)) }
    ensures end { OnOk result (IsAtEnd ((D.told desk.new).ports In).rest) }
    ensures too_long { IsErrOf result PortFault.TooLong → TakesCount (D.told desk.old) (D.told desk.new) In (max_bytes + 1) }
    ensures failed { IsErrOf result PortFault.Failed → TakesSome (D.told desk.old) (D.told desk.new) In max_bytes }
    ensures cause { IsErrOf result PortFault.Failed → Rose (D.told desk.old).in_faults (D.told desk.new).in_faults }
    ensures no_memory { IsErrOf result PortFault.NoMemory → TakesSome (D.told desk.old) (D.told desk.new) In (max_bytes + 1) }
    ensures quiet { result ≢ Err PortFault.Failed → (D.told desk.new).in_faults ≡ (D.told desk.old).in_faults }
{
    let mut reader = match Reader::new(alloc) {
        Err(_) => return Err(PortFault::NoMemory),
        Ok(reader) => reader,
    };
    let mut room = [0u8; READ_SIZE];
    let mut left = MAX_BYTES + 1;
    while left > 0 {
        let want = left.min(READ_SIZE);
        let count = match desk.read(Port::In, &mut room[..want]) {
            Err(Failed) => return Err(PortFault::Failed),
            Ok(count) => count,
        };
        if count == 0 {
            return Ok(reader);
        }
        if let Err(InputError::NoMemory) = reader.feed(&room[..count]) {
            return Err(PortFault::NoMemory);
        }
        left -= count;
    }
    Err(PortFault::TooLong)
}

/// The design under the name.
pub fn read_design_source<D: Desk>(
    alloc: Global,
    desk: &mut D,
    name: &str,
) -> Result<Design, Refusal>
    ensures named { IfOk result (λ d. HasBytes (D.told desk.old).files name.now (λ bytes. IsDesignOfText bytes d)) }
    ensures faults { (r : Refusal) → IsErrOf result r → IsOfReading r }
    ensures reads { ReadsFile (record { port = In; name = name.now }) (D.told desk.old) (D.told desk.new) result }
{
    if desk.open(Port::In, name).is_err() {
        return Err(Refusal::Unread);
    }
    match fed_reader(alloc, desk) {
        Ok(reader) => Ok(reader.end()?),
        Err(PortFault::TooLong) => Err(Refusal::Input(InputFault::TooLong)),
        Err(PortFault::Failed) => Err(Refusal::Unread),
        Err(PortFault::NoMemory) => Err(Refusal::NoMemory),
    }
}
