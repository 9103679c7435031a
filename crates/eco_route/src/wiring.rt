//! The net that an edit asks for, on a grid.

ghost use Rattle.std.specs.Prelude.{◌≤◌, ◌+◌, List, None, All, IfOk, IfErr, IfNone, IfSome, length};
ghost use Rattle.edit_text.specs.EditRanges.{IsNetInRange};
ghost use Rattle.grid_graph.specs.Grounds.{IsGround};
ghost use Rattle.grid_graph.specs.Limits.{max_nets, max_pins};
ghost use Rattle.grid_graph.specs.Nets.{IsNet};
ghost use Rattle.eco_route.specs.EditRefusals.{IsNetRefused, IsNetRefusal, IsNetAccepted, IsWireFault};
ghost use Rattle.eco_route.specs.EditedDesigns.{IsNetOfPins};
ghost use Rattle.eco_route.specs.Routers.{IsRouterOn};

use crate::edit_fault::EditFault;
use crate::edit_refusal::EditRefusal;
use crate::net_router::NetRouter;
use crate::pins::{first_off_layers, first_outside, is_too_wide, vertices_of};
use edit_text::Pin;
use grid_graph::{Grid, Ground, MAX_NETS, MAX_PINS, Name, NetSpec, terms_of};
use std::alloc::Global;

/// A net that an edit asks for, and what the design holds beside it.
#[derive(Drop)]
pub(crate) struct Wish<'n, 'p> {
    pub name: &'n [u8],
    pub id: u32,
    pub width: u32,
    pub pins: &'p [Pin],
    /// How many nets there are with it.
    pub nets: usize,
    /// How many terminals the other nets have.
    pub others: usize,
}

/// The net that is asked for, and its ground.
pub(crate) fn wired(
    alloc: Global,
    grid: &Grid,
    router: &NetRouter,
    wish: &Wish<'_, '_>,
) -> Result<(NetSpec, Ground), EditRefusal>
    requires router { IsRouterOn grid.now router.now }
    requires range { IsNetInRange wish.now.id wish.now.width wish.now.pins.now }
    requires others { wish.now.others ≤ max_pins }
    ensures net { IfOk result (λ x. IsNetOfPins grid.now wish.now.id wish.now.name.now wish.now.width wish.now.pins.now x.0) }
    ensures fits { IfOk result (λ x. IsNet grid.now x.0) }
    ensures ground { IfOk result (λ x. IsGround grid.now x.0.terminals x.1) }
    ensures accepted { IfOk result (λ x. IsNetAccepted grid.now wish.now.nets wish.now.others wish.now.width wish.now.pins.now) }
    ensures nets { IfOk result (λ x. wish.now.nets ≤ max_nets) }
    ensures pins { IfOk result (λ x. wish.now.others + length x.0.terminals ≤ max_pins) }
    ensures refusal { IfErr result (IsNetRefusal grid.now wish.now.nets wish.now.others wish.now.name.now wish.now.id wish.now.width wish.now.pins.now) }
{
    if let Some(fault) = fault_of(grid, wish) {
        return Err(EditRefusal::Fault(fault));
    }
    let vertices = vertices_of(alloc, grid, wish.pins)?;
    let terminals = terms_of(alloc, vertices.as_slice())?;
    let net = NetSpec {
        id: wish.id,
        name: Name::of(Vec::from_slice(alloc, wish.name)?),
        width: wish.width,
        terminals,
    };
    match router.ground_of(grid, &net) {
        Ok(over) => Ok((net, over)),
        Err(cut_off) => Err(EditRefusal::Fault(EditFault::Unreachable {
            terminal: cut_off.terminal,
        })),
    }
}

/// The first fault of the pins, of the limits and of the width.
fn fault_of(grid: &Grid, wish: &Wish<'_, '_>) -> Option<EditFault>
    requires range { IsNetInRange wish.now.id wish.now.width wish.now.pins.now }
    requires others { wish.now.others ≤ max_pins }
    ensures some { IfSome result (IsWireFault grid.now wish.now.nets wish.now.others wish.now.width wish.now.pins.now) }
    ensures none { IfNone result (IsNetAccepted grid.now wish.now.nets wish.now.others wish.now.width wish.now.pins.now) }
{
    if let Some(pin) = first_outside(grid, wish.pins) {
        return Some(EditFault::PinOutside { pin: pin as u32 });
    }
    if let Some(pin) = first_off_layers(grid, wish.pins) {
        return Some(EditFault::PinLayer { pin: pin as u32 });
    }
    if wish.nets > MAX_NETS as usize || wish.others + wish.pins.len() > MAX_PINS as usize {
        return Some(EditFault::NetLimit);
    }
    if is_too_wide(grid, wish.width) {
        return Some(EditFault::WidthLimit);
    }
    None
}
