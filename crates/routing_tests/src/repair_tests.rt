//! What repair makes of the chosen sets of the worked designs.

ghost use Rattle.routing_stages.specs.Settings.{AreSettings};

use crate::meeting::Meeting;
use crate::routings::routing_agrees;
use crate::settings::settings_of;
use grid_graph::Design;
use ripup_repair::repair;
use rounding_pick::round;
use routing_stages::{Gate, OpenGate, Routed, Settings};
use sharing_phases::share;
use std::alloc::{AllocError, Global};
use std::test::Fail;
use std::thread::Threads;
use test_rows::{agree, five_fields, rows_of};
use tree_set::measure_of;
use worked_designs::design_of;

/// A design's sets and their overflow, after the phases, the picks of the seed and at most so many rounds.
fn repaired_by<R: Threads + Sync, G: Gate>(
    rt: &R,
    alloc: Global,
    design: &Design,
    settings: &Settings,
    gate: &G,
) -> Result<(Routed, u64), Fail>
    requires { AreSettings settings.now }
{
    let grounds = design.grounds()?;
    let shared = share(rt, alloc, design, grounds.as_slice(), settings, &OpenGate)?;
    let chosen = round(design, shared, settings.seed);
    let routed = repair(
        rt,
        alloc,
        design,
        grounds.as_slice(),
        chosen,
        settings,
        gate,
    )?;
    let overflow = measure_of(alloc, design, routed.trees.list())?.overflow;
    Ok((routed, overflow))
}

/// A net along the first edge of a square, and two from corner to corner; each edge has room for two of them. In each of four
/// phases the two go by different corners, and there is no overflow. The picks of seed 4 are the fourth, the third and the
/// first phase, in which each of the two goes along x first: then the first edge has three nets. In the first round the net
/// along it stays, since its way round ends on the other edge of the two; the second goes by the other corner, and the third
/// stays.
const PICKS_THAT_MEET: &str =
    "ROW 0 144 grid 2 2 1;vertical capacity 4;horizontal capacity 4;minimum width 1;minimum spacing 1;via spacing 1;0 0 10 10;num net 3;a 0 2 1;5 5 1;15 5 1;b 1 2 1;5 5 1;15 15 1;c 2 2 1;5 5 1;15 15 1;0;";

/// Three nets between two tiles, over their edge or round by three others, of which each has room for 2 units. The first net
/// takes 3 units and the two others 2. In the phases a net goes round where the edge has 12 units more than the way round, so
/// that its price is three times as high: after each phase there are 7 and 0 units, 12 and 2, 17 and 4, 19 and 9. The picks of
/// seed 3 are the fourth, the fourth and the second phase: the first and the last net go round, with an overflow of 9.
///
/// In repair one unit more is enough. In the first round the first net comes back to the edge, where the second stands, and
/// the overflow is 3. In the second round the second net goes round, to the third, and the overflow is 7. Then nothing changes.
const BETTER_THEN_WORSE: &str =
    "ROW 0 144 grid 2 2 1;vertical capacity 2;horizontal capacity 2;minimum width 1;minimum spacing 1;via spacing 1;0 0 10 10;num net 3;a 0 2 2;5 5 1;15 5 1;b 1 2 1;5 5 1;15 5 1;c 2 2 1;5 5 1;15 5 1;0;";

/// The same edges, the last of which belongs to a net that stays there. The first net takes 2 units and the third 4, between
/// the same two tiles. By the picks of seed 1, the fourth, the first and the third phase, the third goes round, with an
/// overflow of 8. In the first round it comes to the edge, with an overflow of 4; in the second the first net goes round, for
/// as much: 2 on the edge, and 2 where it meets the second net. Then nothing changes.
const BETTER_THEN_AS_GOOD: &str =
    "ROW 0 144 grid 2 2 1;vertical capacity 2;horizontal capacity 2;minimum width 1;minimum spacing 1;via spacing 1;0 0 10 10;num net 3;a 0 2 1;5 5 1;15 5 1;b 1 2 1;15 5 1;15 15 1;c 2 2 3;5 5 1;15 5 1;0;";

/// Four tiles in a row on two layers, of which the edges in the middle are choked, and a net between its ends. It takes 4 units
/// of the lower layer and 3 of the upper one, where each edge has room for 4. In two phases it takes the upper layer; in the
/// third, which seed 2 picks, these edges are 12 steps of the price above those of the lower one, and it takes this, whose open
/// edges are then full. Routed anew it would take the upper layer, with an overflow of 3 in place of 4.
const CHOKED_MIDDLE: &str =
    "ROW 0 144 grid 4 1 2;vertical capacity 0 0;horizontal capacity 4 4;minimum width 3 1;minimum spacing 1 1;via spacing 1 1;0 0 10 10;num net 1;a 0 2 2;5 5 1;35 5 1;2;1 0 1 2 0 1 0;1 0 2 2 0 2 0;";

/// The design that a field names: one of these four, or a worked one.
fn field_of_design(field: &'static str) -> &'static str {
    match field {
        "PICKS_THAT_MEET" => PICKS_THAT_MEET,
        "BETTER_THEN_WORSE" => BETTER_THEN_WORSE,
        "BETTER_THEN_AS_GOOD" => BETTER_THEN_AS_GOOD,
        "CHOKED_MIDDLE" => CHOKED_MIDDLE,
        _ => field,
    }
}

/// A design; how many workers, phases and rounds at most there are, and the seed; the overflow before repair, the rounds and
/// the overflow behind it; the set of each net; and the loads of all edges, with that of the wirelength at their end.
const REPAIRED: &str = "# no overflow, no round
ROW|1 1 4 0|0 0 0| e0 e2;| 2 0 2 0 0 0 2
# one way for each net
CROWDED_ROW|1 1 4 0|4 4 4| e0 e2; e0 e2; e0 e2;| 6 0 6 0 0 0 6
CROWDED_ROW|2 1 4 0|4 4 4| e0 e2; e0 e2; e0 e2;| 6 0 6 0 0 0 6
CROWDED_ROW|4 1 16 0|4 16 4| e0 e2; e0 e2; e0 e2;| 6 0 6 0 0 0 6
# the first round removes all overflow
TWO_ALONG|1 1 0 0|4 0 4| e0 e2; e0 e2;| 4 0 4 0 0 0 0 0 0 0 0 0 4
TWO_ALONG|1 1 4 0|4 1 0| e1 e5 e6 e8; e0 e2;| 2 2 2 0 0 2 2 0 2 0 0 0 6
# the first round removes all overflow
PICKS_THAT_MEET|1 4 0 4|2 0 2| e0; e0 e3; e0 e3;| 6 0 0 4 0 0 0 0 5
PICKS_THAT_MEET|1 4 4 4|2 1 0| e0; e1 e4; e0 e3;| 4 2 0 2 2 0 0 0 5
# each round makes it more, and the chosen sets are the result
NO_WAY_ROUND|1 1 1 0|2 1 2| e0; e0;| 4 0 0 0 0 0 0 0 2
NO_WAY_ROUND|1 1 4 0|2 4 2| e0; e0;| 4 0 0 0 0 0 0 0 2
# the second round makes it more again, and the sets after the first one are the result
BETTER_THEN_WORSE|1 4 0 3|9 0 9| e1 e3 e4; e0; e1 e3 e4;| 2 5 0 5 5 0 0 0 7
BETTER_THEN_WORSE|1 4 1 3|9 1 3| e0; e0; e1 e3 e4;| 5 2 0 2 2 0 0 0 5
BETTER_THEN_WORSE|1 4 4 3|9 4 3| e0; e0; e1 e3 e4;| 5 2 0 2 2 0 0 0 5
# the second round changes the sets for others of as much overflow, and those before it are the result
BETTER_THEN_AS_GOOD|1 4 0 1|8 0 8| e0; e3; e1 e3 e4;| 2 4 0 6 4 0 0 0 5
BETTER_THEN_AS_GOOD|1 4 4 1|8 4 4| e0; e3; e0;| 6 0 0 2 0 0 0 0 3
# a choked edge with load is no reason to route a net anew
ROW 142 144 1;0 0 1 1 0 1 0;|1 1 4 0|2 4 2| e0 e2;| 2 0 2 0 0 0 2
# nor is an open one that is full
CHOKED_MIDDLE|1 3 0 2|4 0 4| e0 e2 e4;| 4 0 4 0 4 0 0 0 0 0 0 0 0 0 0 0 3
CHOKED_MIDDLE|1 3 4 2|4 4 4| e0 e2 e4;| 4 0 4 0 4 0 0 0 0 0 0 0 0 0 0 0 3";

/// The overflow before repair, the rounds and the overflow behind it, as a field.
fn overflows_text(alloc: Global, routed: &Routed, overflow: u64) -> Result<String, AllocError> {
    let (rounded, rounds) = (routed.rounded, routed.rounds);
    format!(in alloc; "{rounded} {rounds} {overflow}")
}

/// The design that a field names, repaired with the settings of another one.
fn repaired_of<R: Threads + Sync, G: Gate>(
    rt: &R,
    alloc: Global,
    given: &'static str,
    settings: &'static str,
    gate: &G,
) -> Result<(Routed, u64), Fail> {
    let settings = settings_of(settings)?;
    let design = design_of(alloc, field_of_design(given))?;
    repaired_by(rt, alloc, &design, &settings, gate)
}

/// Fails where the sets and their overflow are not those of the row.
fn routed_agrees(
    alloc: Global,
    row: &str,
    found: (&Routed, u64),
    overflows: &str,
    wanted: (&str, &str),
) -> Result<(), Fail> {
    let (routed, overflow) = found;
    let text = overflows_text(alloc, routed, overflow)?;
    agree(row, text.as_str(), overflows)?;
    routing_agrees(alloc, row, routed.trees.list(), &routed.loads, wanted)
}

fn row_agrees<R: Threads + Sync>(rt: &R, alloc: Global, row: &'static str) -> Result<(), Fail> {
    let (given, settings, overflows, sets, loads) = five_fields(row)?;
    let (routed, overflow) = repaired_of(rt, alloc, given, settings, &OpenGate)?;
    routed_agrees(alloc, row, (&routed, overflow), overflows, (sets, loads))
}

#[test]
fn the_first_routing_of_least_overflow_is_the_result(rt: HostRuntime) -> Result<(), Fail> {
    for row in rows_of(rt.alloc(), REPAIRED)? {
        row_agrees(&rt, rt.alloc(), row)?;
    }
    Ok(())
}

#[test]
fn two_workers_repair_at_once(rt: HostRuntime) -> Result<(), Fail> {
    let gate = Meeting::in_turn(0);
    let (routed, _) = repaired_of(&rt, rt.alloc(), "CROWDED_ROW", "2 1 1 0", &gate)?;
    assert!(rt; gate.was_held() && routed.rounded == 4 && routed.rounds == 1);
    Ok(())
}
