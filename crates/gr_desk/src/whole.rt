//! Reading a port whole, and writing a text whole.

ghost use Rattle.std.specs.Prelude.{◌≡◌, ◌≢◌, ◌<◌, ◌≤◌, ◌+◌, ◌^◌, length, IfOk, OnOk, OnErr, IsErrOf, Err};
ghost use Rattle.std.specs.Io.KnownBytes.{IsAtEnd};
ghost use Rattle.gr_desk.specs.Causes.{Rose};
ghost use Rattle.gr_desk.specs.Runs.{Takes, TakesCount, TakesSome, Adds, AddsPart};

use crate::desk::Desk;
use crate::failed::Failed;
use crate::fault::PortFault;
use crate::port::Port;
use std::alloc::Global;

/// How many bytes `read_port` asks for at a time.
pub const READ_SIZE: usize = 4096;

/// All that is left to be read at `port`, if that is at most `limit` bytes.
///
/// `TooLong` says that one byte more than the limit was there; reading stops at that byte. `Failed` says that a read
/// failed before that; after any other answer no read did.
pub fn read_port<D: Desk>(
    alloc: Global,
    desk: &mut D,
    port: Port,
    limit: u64,
) -> Result<Vec<u8>, PortFault>
    requires { limit < 2 ^ 32 }
    ensures whole { IfOk result (λ v. Takes (D.told desk.old) (D.told desk.new) port v.items) }
    ensures end { OnOk result (IsAtEnd ((D.told desk.new).ports port).rest) }
    ensures within { IfOk result (λ v. length v.items ≤ limit) }
    ensures too_long { IsErrOf result PortFault.TooLong → TakesCount (D.told desk.old) (D.told desk.new) port (limit + 1) }
    ensures failed { IsErrOf result PortFault.Failed → TakesSome (D.told desk.old) (D.told desk.new) port limit }
    ensures cause { IsErrOf result PortFault.Failed → Rose (D.told desk.old).in_faults (D.told desk.new).in_faults }
    ensures no_memory { IsErrOf result PortFault.NoMemory → TakesSome (D.told desk.old) (D.told desk.new) port (limit + 1) }
    ensures quiet { result ≢ Err PortFault.Failed → (D.told desk.new).in_faults ≡ (D.told desk.old).in_faults }
{
    let mut all: Vec<u8> = Vec::new(alloc);
    while all.len() as u64 <= limit {
        let mut room = [0u8; READ_SIZE];
        let want = (limit as usize + 1 - all.len()).min(READ_SIZE);
        let count = match desk.read(port, &mut room[..want]) {
            Err(Failed) => return Err(PortFault::Failed),
            Ok(count) => count,
        };
        if count == 0 {
            return Ok(all);
        }
        match all.extend_from_slice(&room[..count]) {
            Err(_) => return Err(PortFault::NoMemory),
            Ok(()) => {}
        }
    }
    Err(PortFault::TooLong)
}

/// Appends all of `bytes` at `port`, and calls the desk no more once that is done: after `Failed` some part from the
/// front of `bytes` was appended, and not all of them.
pub fn write_all<D: Desk>(desk: &mut D, port: Port, bytes: &[u8]) -> Result<(), Failed>
    ensures all { OnOk result (Adds (D.told desk.old) (D.told desk.new) port bytes.now) }
    ensures part { OnErr result (AddsPart (D.told desk.old) (D.told desk.new) port bytes.now) }
    ensures cause { OnErr result (Rose (D.told desk.old).out_faults (D.told desk.new).out_faults) }
    ensures quiet { OnOk result ((D.told desk.new).out_faults ≡ (D.told desk.old).out_faults) }
{
    let mut at = 0;
    while at < bytes.len() {
        at += desk.write(port, &bytes[at..])?;
    }
    Ok(())
}
