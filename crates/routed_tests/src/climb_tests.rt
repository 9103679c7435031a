//! Climbs on the worked designs.

ghost use Rattle.std.specs.Prelude.{IsTrue};
ghost use Rattle.edge_prices.specs.Budgets.{IsWithinLimits};
ghost use Rattle.bound_climb.specs.Climbs.{AreGivenLoads, MayBeTurns};

use bound_climb::{Climbed, climb};
use edge_prices::are_edge_prices;
use grid_graph::{Design, Grid};
use std::alloc::{AllocError, Global};
use std::rt::HostRuntime;
use std::test::Fail;
use std::thread::Threads;
use test_rows::{
    agree, five_fields, fraction_text, number_of, numbers_of, numbers_text, rows_of, sets_text,
};
use tree_set::Budget;
use worked_designs::design_of;

fn is_within_limits(budget: Option<Budget>) -> bool
    ensures { IsTrue result → IsWithinLimits budget }
{
    match budget {
        Some(b) => b.most >= 1 && b.most <= 1 << 42 && b.price <= 32768,
        None => true,
    }
}

fn are_loads(grid: &Grid, loads: &[u64]) -> bool
    ensures { IsTrue result → AreGivenLoads grid.now loads.now }
{
    loads.len() == 2 * grid.size().vertices() as usize + 1
        && loads.iter().all(|load| *load <= 1 << 60)
}

fn may_be_turns(turns: u32) -> bool
    ensures { IsTrue result → MayBeTurns turns }
{
    1 <= turns && turns <= 16
}

/// The number of turns that a field stands for, and behind it maybe a budget: a wirelength and its price.
fn turns_of(field: &'static str) -> Result<(u32, Option<Budget>), Fail> {
    let Some((turns, budget)) = field.split_once(' ') else {
        return Ok((number_of(field)?, None));
    };
    let (most, price) = budget.split_once(' ').ok_or("a price")?;
    let budget = Budget {
        most: number_of(most)?,
        price: number_of(price)?,
    };
    Ok((number_of(turns)?, Some(budget)))
}

/// The number of the best turn, the bound there, its prices, that of the wirelength behind them, and the sets of each turn.
fn climb_text(alloc: Global, climbed: &Climbed) -> Result<String, AllocError> {
    let mut text = String::new(alloc);
    text.push_str(format!(in alloc; "{}, ", climbed.turn)?.as_str())?;
    text.push_str(fraction_text(alloc, climbed.bound)?.as_str())?;
    text.push_str(",")?;
    text.push_str(numbers_text(alloc, climbed.prices.as_slice())?.as_str())?;
    if let Some(budget) = climbed.budget {
        text.push_str(format!(in alloc; " and {}", budget.price)?.as_str())?;
    }
    for trees in &climbed.steps {
        text.push_str(",")?;
        text.push_str(sets_text(alloc, trees.as_slice())?.as_str())?;
    }
    Ok(text)
}

/// What a climb from these loads and prices finds.
fn climb_of<R: Threads + Sync>(
    rt: &R,
    alloc: Global,
    design: &Design,
    loads: &[u64],
    prices: &[u32],
    budget: Option<Budget>,
    turns: u32,
) -> Result<String, Fail> {
    let grounds = design.grounds().map_err(|_| Fail::new("grounds"))?;
    if !are_edge_prices(&design.grid, prices)
        || !is_within_limits(budget)
        || !are_loads(&design.grid, loads)
        || !may_be_turns(turns)
    {
        return Err(Fail::new("no such loads, prices or turns"));
    }
    let climbed = climb(
        rt,
        alloc,
        design,
        grounds.as_slice(),
        prices,
        budget,
        loads,
        turns,
    )?;
    Ok(climb_text(alloc, &climbed)?)
}

/// A design, the load of each entry, the prices of the edges, how many turns with a budget and its price, and what is found: the
/// best turn, its bound and prices, and the sets of each turn but the last.
const CLIMBS: &str =
    "SQUARE|2 0 0 2 0 0 0 0 2|12758 10468 0 12758 10468 0 0 0|1|0, 5234/11613, 12758 10468 0 12758 10468 0 0 0
# the first turn takes the other path, and then all loads are 2
SQUARE|2 0 0 2 0 0 0 0 2|12758 10468 0 12758 10468 0 0 0|2|2, 1/2, 12758 12758 0 12758 12758 0 0 0, e1 e4;
# the given prices are better than those of the loads, and the other way round
ROW|2 0 2 0 0 0 2|0 0 0 0 0 0|1 1 1|0, 2/1, 0 0 0 0 0 0 and 1
ROW|2 0 2 0 0 0 2|12758 0 12758 0 0 0|1 1 0|1, 31720/44303, 9481 0 9481 0 0 0 and 12758
# of three turns with one bound the first is the best, where there is none at the given prices
ROW|2 0 2 0 0 0 2|0 0 0 0 0 0|3|1, 1/2, 12758 0 12758 0 0 0, e0 e2;, e0 e2;
STACK|0 0 0 0 0|0 0 0 0|2|0, none, 0 0 0 0, v0;";

/// What a climb on the design that a row gives finds.
fn found_of<R: Threads + Sync>(
    rt: &R,
    alloc: Global,
    name: &'static str,
    start: (&'static str, &'static str),
    turns: &'static str,
) -> Result<String, Fail> {
    let (turns, budget) = turns_of(turns)?;
    let loads = numbers_of(alloc, start.0)?;
    let prices = numbers_of(alloc, start.1)?;
    let design = design_of(alloc, name)?;
    climb_of(rt, alloc, &design, &loads, &prices, budget, turns)
}

fn row_agrees<R: Threads + Sync>(rt: &R, alloc: Global, row: &'static str) -> Result<(), Fail> {
    let (name, loads, prices, turns, wanted) = five_fields(row)?;
    let found = found_of(rt, alloc, name, (loads, prices), turns)?;
    agree(row, found.as_str(), wanted)
}

#[test]
fn climbs_end_at_the_first_greatest_bound(rt: HostRuntime) -> Result<(), Fail> {
    for row in rows_of(rt.alloc(), CLIMBS)? {
        row_agrees(&rt, rt.alloc(), row)?;
    }
    Ok(())
}
