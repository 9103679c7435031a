//! Loads and prices after all phases of the worked designs.

ghost use Rattle.routing_stages.specs.Settings.{AreSettings};

use crate::meeting::Meeting;
use crate::settings::settings_of;
use grid_base::{Edge, Piece};
use grid_graph::{Design, Grid};
use routing_stages::{Gate, OpenGate, Settings, Shared, Trees};
use sharing_phases::share;
use std::alloc::Global;
use std::test::Fail;
use std::thread::Threads;
use test_rows::{agree, five_fields, numbers_text, rows_of, set_of, sets_text};
use worked_designs::design_of;

/// All phases of a design.
fn shared_by<R: Threads + Sync, G: Gate>(
    rt: &R,
    alloc: Global,
    design: &Design,
    settings: &Settings,
    gate: &G,
) -> Result<Shared, Fail>
    requires { AreSettings settings.now }
{
    let grounds = design.grounds()?;
    Ok(share(rt, alloc, design, grounds.as_slice(), settings, gate)?)
}

/// A design; how many workers and phases there are, no rounds, and the seed; the set of each net in each phase, or `free` where
/// it may be another one in each; and the loads and the prices of all edges, with those of the wirelength at their end.
///
/// In the row there is one way for each net, and in the square one net, whose second set goes the other way: so the loads
/// are the same for any number of workers. The net with the wide wires goes over the upper layer, whose three edges are then
/// two steps of the price above those of the lower one.
const LOADED: &str = "ROW|1 4 0 0| e0 e2;| 8 0 8 0 0 0 8| 12758 0 12758 0 0 0 0
# without nets nothing is loaded, and both edges are among the fullest ones
ROW 119 144 0;0;|1 4 0 0|| 0 0 0 0 0 0 0| 12758 0 12758 0 0 0 0
ROW 119 144 0;0;|8 4 0 0|| 0 0 0 0 0 0 0| 12758 0 12758 0 0 0 0
# both pins in one tile
ROW 135 141 7 3 1|1 4 0 0|;| 0 0 0 0 0 0 0| 12758 0 12758 0 0 0 0
CROWDED_ROW|1 4 0 0| e0 e2; e0 e2; e0 e2;| 24 0 24 0 0 0 24| 12758 0 12758 0 0 0 0
CROWDED_ROW|2 4 0 0| e0 e2; e0 e2; e0 e2;| 24 0 24 0 0 0 24| 12758 0 12758 0 0 0 0
CROWDED_ROW|4 4 0 0| e0 e2; e0 e2; e0 e2;| 24 0 24 0 0 0 24| 12758 0 12758 0 0 0 0
# both ways round the square, one in each of two phases
SQUARE|1 2 0 0|free| 2 2 0 2 2 0 0 0 4| 12758 12758 0 12758 12758 0 0 0 0
SQUARE|2 2 0 0|free| 2 2 0 2 2 0 0 0 4| 12758 12758 0 12758 12758 0 0 0 0
SQUARE|4 2 0 0|free| 2 2 0 2 2 0 0 0 4| 12758 12758 0 12758 12758 0 0 0 0
# the net is forced over a choked edge, which has no price
ROW 142 144 1;0 0 1 1 0 1 0;|1 4 0 0| e0 e2;| 8 0 8 0 0 0 8| 0 0 12758 0 0 0 0
WIDE_WIRES|1 1 0 0| e8 e10 e12 v0 v3;| 0 0 0 0 0 0 0 0 3 0 3 0 3 0 0 0 5| 12142 0 12142 0 12142 0 0 0 12758 0 12758 0 12758 0 0 0 0";

/// Fails where there are not so many phases, or where one has not a set for each net, or has others than these.
fn phases_agree(
    alloc: Global,
    row: &str,
    found: &[Trees],
    phases: u32,
    nets: usize,
    sets: &str,
) -> Result<(), Fail> {
    if found.len() != phases as usize {
        return Err(Fail::new("another number of phases"));
    }
    for phase in found {
        if phase.list().len() != nets {
            return Err(Fail::new("another number of nets"));
        }
        if sets != "free" {
            agree(row, sets_text(alloc, phase.list())?.as_str(), sets)?;
        }
    }
    Ok(())
}

/// What the phases of a row make of its design, beside the sets that the row wants.
fn shared_of_row<R: Threads + Sync>(
    rt: &R,
    alloc: Global,
    given: &'static str,
    settings: &'static str,
    sets: &str,
) -> Result<Shared, Fail> {
    let settings = settings_of(settings)?;
    let design = design_of(alloc, given)?;
    let shared = shared_by(rt, alloc, &design, &settings, &OpenGate)?;
    phases_agree(
        alloc,
        given,
        shared.phases.list(),
        settings.phases,
        design.nets.list().len(),
        sets,
    )?;
    Ok(shared)
}

/// Fails where the loads and the prices are not those of the row.
fn numbers_agree(
    alloc: Global,
    row: &str,
    shared: &Shared,
    loads: &str,
    prices: &str,
) -> Result<(), Fail> {
    agree(row, numbers_text(alloc, &shared.loads)?.as_str(), loads)?;
    agree(row, numbers_text(alloc, &shared.prices)?.as_str(), prices)
}

fn row_agrees<R: Threads + Sync>(rt: &R, alloc: Global, row: &'static str) -> Result<(), Fail> {
    let (given, settings, sets, loads, prices) = five_fields(row)?;
    let shared = shared_of_row(rt, alloc, given, settings, sets)?;
    numbers_agree(alloc, row, &shared, loads, prices)
}

#[test]
fn all_phases_load_the_edges_as_was_worked_out(rt: HostRuntime) -> Result<(), Fail> {
    for row in rows_of(rt.alloc(), LOADED)? {
        row_agrees(&rt, rt.alloc(), row)?;
    }
    Ok(())
}

/// The set of the star's net.
const STAR_SET: &str = " e5 e15 e20 e22 e24 e25 e26 e35 v12";

/// The loads and the prices of all edges. Eight edges have a quarter of their capacity, all others nothing: these are two
/// steps of the price below those.
fn star_numbers(alloc: Global, grid: &Grid) -> Result<(Vec<u64>, Vec<u32>), Fail> {
    let (mut loads, mut prices) = (Vec::new(alloc), Vec::new(alloc));
    let star = set_of(alloc, STAR_SET)?;
    for e in 0..2 * grid.size().vertices() {
        let (load, price) = if star.contains(Piece::Edge(Edge(e))) {
            (2, 12758)
        } else if grid.capacity(Edge(e)) > 0 {
            (0, 12142)
        } else {
            (0, 0)
        };
        loads.push(load)?;
        prices.push(price)?;
    }
    loads.push(9)?;
    prices.push(0)?;
    Ok((loads, prices))
}

/// Whether these are the loads and the prices of the star.
fn are_star_numbers(alloc: Global, loads: &[u64], prices: &[u32]) -> Result<bool, Fail> {
    let design = design_of(alloc, "STAR")?;
    let wanted = star_numbers(alloc, &design.grid)?;
    Ok(loads == wanted.0.as_slice() && prices == wanted.1.as_slice())
}

#[test]
fn the_star_loads_its_own_edges(rt: HostRuntime) -> Result<(), Fail> {
    let sets = " e5 e15 e20 e22 e24 e25 e26 e35 v12;";
    let shared = shared_of_row(&rt, rt.alloc(), "STAR", "1 1 0 0", sets)?;
    let agrees = are_star_numbers(rt.alloc(), &shared.loads, &shared.prices)?;
    assert!(rt; agrees);
    Ok(())
}

/// Whether the sets of two nets have a piece in common.
fn meet(first: &[Piece], second: &[Piece]) -> bool {
    first.iter().any(|piece| second.contains(piece))
}

/// The square with four nets from corner to corner.
const FOUR_NETS: &str =
    "ROW 0 144 grid 2 2 1;vertical capacity 2;horizontal capacity 2;minimum width 1;minimum spacing 1;via spacing 1;0 0 10 10;num net 4;a 0 2 1;5 5 1;15 15 1;b 1 2 1;5 5 1;15 15 1;c 2 2 1;5 5 1;15 15 1;d 3 2 1;5 5 1;15 15 1;0;";

/// Whether the first and the third net go different ways round the square in the first phase.
fn go_different_ways(phases: &[Trees]) -> Result<bool, Fail> {
    let sets = phases.first().ok_or("phase")?.list();
    let first = sets.first().ok_or("first net")?.pieces();
    let third = sets.get(2).ok_or("third net")?.pieces();
    Ok(first.len() == 2 && third.len() == 2 && !meet(first, third))
}

/// Whether they do where workers meet at this gate.
fn go_different_ways_by<R: Threads + Sync>(
    rt: &R,
    alloc: Global,
    gate: &Meeting,
) -> Result<bool, Fail> {
    let settings = settings_of("2 1 0 0")?;
    let design = design_of(alloc, FOUR_NETS)?;
    let shared = shared_by(rt, alloc, &design, &settings, gate)?;
    go_different_ways(shared.phases.list())
}

/// Worker 0 begins its second turn before worker 1 begins its first, and waits there until worker 1 begins its second. So
/// worker 1 sees the load of the first net, which worker 0 routes meanwhile, and goes the other way round the square.
#[test]
fn a_worker_sees_what_another_one_has_loaded_in_its_phase(rt: HostRuntime) -> Result<(), Fail> {
    let gate = Meeting::in_turn(1);
    let differ = go_different_ways_by(&rt, rt.alloc(), &gate)?;
    assert!(rt; differ && gate.was_held());
    Ok(())
}
