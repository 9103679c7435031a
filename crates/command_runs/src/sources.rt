//! The files that a command reads: the bytes of one, and the design that they name.

ghost use Rattle.std.specs.Prelude.{◌≡◌, ◌≤◌, ◌⊎◌, IfOk, IsErrOf, IsTrue, length};
ghost use Rattle.gr_desk.specs.Ports.{is_input};
ghost use Rattle.grid_graph.specs.Grounds.{AreGrounds};
ghost use Rattle.ispd_reader.specs.Designs.{IsDesignOfText};
ghost use Rattle.ispd_reader.specs.Limits.{max_bytes};
ghost use Rattle.command_runs.specs.declared.refusal.Refusal.{Refusal};
ghost use Rattle.command_runs.specs.Refusals.{IsRefusedAt};
ghost use Rattle.command_runs.specs.Sources.{HasBytes, IfTold, design_source};
ghost use Rattle.command_runs.specs.Steps as steps;
ghost use Rattle.command_runs.specs.Steps.{IsBeforeText, ReadsFile, ReadsSources};

use crate::design_source::read_design_source;
use crate::grounded_design::GroundedDesign;
use crate::refusal::Refusal;
use crate::text_fault::TextFault;
use gr_desk::{Desk, Port, PortFault, read_port};
use ispd_reader::{InputFault, MAX_BYTES, read_design};
use std::alloc::Global;

/// The refusal of a text of more than 2^30 bytes.
fn too_long_at(port: Port) -> Refusal
    ensures { result ≡ steps.too_long_at port }
{
    match port {
        Port::In => Refusal::Input(InputFault::TooLong),
        _ => Refusal::Text(TextFault::TooLong),
    }
}

/// All that is under the name.
pub fn read_source<D: Desk>(
    alloc: Global,
    desk: &mut D,
    port: Port,
    name: &str,
) -> Result<Vec<u8>, Refusal>
    requires input { IsTrue (is_input port) }
    ensures bytes { IfOk result (λ v. IfTold (D.told desk.old).files name.now (λ told. v.items ≡ told)) }
    ensures short { IfOk result (λ v. length v.items ≤ max_bytes) }
    ensures early { (r : Refusal) → IsErrOf result r → IsBeforeText port r }
    ensures reads { ReadsFile (record { port = port; name = name.now }) (D.told desk.old) (D.told desk.new) result }
{
    if desk.open(port, name).is_err() {
        return Err(Refusal::Unread);
    }
    match read_port(alloc, desk, port, MAX_BYTES as u64) {
        Ok(bytes) => Ok(bytes),
        Err(PortFault::TooLong) => Err(too_long_at(port)),
        Err(PortFault::Failed) => Err(Refusal::Unread),
        Err(PortFault::NoMemory) => Err(Refusal::NoMemory),
    }
}

/// The design that the bytes name, with its nets' grounds.
pub fn grounded(alloc: Global, bytes: &[u8]) -> Result<GroundedDesign, Refusal>
    ensures named { IfOk result (λ g. IsDesignOfText bytes.now g.design) }
    ensures grounds { IfOk result (λ g. AreGrounds g.design.grid g.design.nets g.grounds.items) }
    ensures refused { (r : Refusal) → IsErrOf result r → IsRefusedAt Port.In bytes.now r ⊎ (r ≡ Refusal.NoMemory) }
{
    let design = read_design(alloc, bytes)?;
    Ok(GroundedDesign::of(design)?)
}

/// The design under the name, with its nets' grounds.
pub fn read_grounded<D: Desk>(
    alloc: Global,
    desk: &mut D,
    name: &str,
) -> Result<GroundedDesign, Refusal>
    ensures named { IfOk result (λ g. HasBytes (D.told desk.old).files name.now (λ bytes. IsDesignOfText bytes g.design)) }
    ensures grounds { IfOk result (λ g. AreGrounds g.design.grid g.design.nets g.grounds.items) }
    ensures reads { ReadsSources (design_source name.now) (D.told desk.old) (D.told desk.new) result }
{
    let design = read_design_source(alloc, desk, name)?;
    Ok(GroundedDesign::of(design)?)
}
