//! The report of an edited design.

ghost use Rattle.std.specs.Prelude.{◌≡◌, ◌<◌, All, IfOk, length};
ghost use Rattle.grid_base.specs.Lists.{At};
ghost use Rattle.grid_graph.specs.Grounds.{AreGrounds, IsGround, JoinsTerminals};
ghost use Rattle.grid_graph.specs.declared.ground.Ground.TheVariants.{WithChoked};
ghost use Rattle.grid_graph.specs.declared.net_spec.NetSpec.{NetSpec};
ghost use Rattle.tree_set.specs.Loads.{load};
ghost use Rattle.tree_set.specs.Measures.{IsPeak, overflow, wirelength};
ghost use Rattle.eco_cli.specs.EcoRun.{IsEcoReportOf};

use crate::eco_report::EcoReport;
use crate::routed_nets::count_routed;
use eco_route::Eco;
use edit_text::Edit;
use grid_base::NoMemory;
use grid_graph::Ground;
use route_judge::forced_count;
use std::alloc::Global;
use tree_set::{Measure, measure_of_loads};

/// What is reported of a design behind these edits.
///
/// Takes a pass over the nets and one over the edges; no set is passed over.
pub(crate) fn report_of(alloc: Global, eco: &Eco, edits: &[Edit]) -> Result<EcoReport, NoMemory>
    requires { All (λ n. JoinsTerminals eco.now.design.grid WithChoked n.terminals) eco.now.design.nets }
    ensures { IfOk result (IsEcoReportOf edits.now eco.now.design eco.now.sets) }
{
    let design = eco.design();
    let nets = design.nets.list();
    let routed = count_routed(alloc, edits, nets)?;
    let grounds = grounds_of(alloc, eco, nets.len())?;
    Ok(EcoReport {
        nets: nets.len() as u64,
        forced: forced_count(grounds.as_slice()),
        kept: nets.len() as u64 - routed,
        routed,
        measure: measure(eco),
    })
}

/// The measure of the sets.
fn measure(eco: &Eco) -> Measure
    ensures overflow { result.overflow ≡ overflow eco.now.design.grid (load eco.now.design.grid eco.now.design.nets eco.now.sets) }
    ensures wirelength { result.wirelength ≡ wirelength eco.now.sets }
    ensures peak { IsPeak eco.now.design.grid (load eco.now.design.grid eco.now.design.nets eco.now.sets) result.peak }
{
    let design = eco.design();
    eco.trees();
    measure_of_loads(&design.grid, eco.loads(), eco.wirelength())
}

/// The grounds of the nets, each of which has one.
fn grounds_of(alloc: Global, eco: &Eco, nets: usize) -> Result<Vec<Ground>, NoMemory>
    requires count { nets ≡ length eco.now.design.nets }
    requires reachable { All (λ n. JoinsTerminals eco.now.design.grid WithChoked n.terminals) eco.now.design.nets }
    ensures { IfOk result (λ grounds. AreGrounds eco.now.design.grid eco.now.design.nets grounds.items) }
{
    let mut grounds = Vec::new(alloc);
    for net in 0..nets {
        grounds.push(ground_of(eco, net))?;
    }
    Ok(grounds)
}

/// The ground of the net at this place of the list, which has one.
fn ground_of(eco: &Eco, net: usize) -> Ground
    requires net { net < length eco.now.design.nets }
    requires reachable { All (λ n. JoinsTerminals eco.now.design.grid WithChoked n.terminals) eco.now.design.nets }
    ensures { (n : NetSpec) → At eco.now.design.nets net n → IsGround eco.now.design.grid n.terminals result }
{
    match eco.ground_of(net) {
        Ok(ground) => ground,
        Err(_) => unreachable!(),
    }
}
