//! Proofs of net bounds on the worked designs.

ghost use Rattle.std.specs.Prelude.{◌<◌, ◌≤◌, length};
ghost use Rattle.grid_graph.specs.Grounds.{IsGround};
ghost use Rattle.grid_graph.specs.Nets.{IsNet};
ghost use Rattle.edge_prices.specs.Limits.{max_price};
ghost use Rattle.edge_prices.specs.Weights.{AreEdgePrices};

use bound_climb::{NetProof, check_net, prove_net};
use edge_prices::are_edge_prices;
use grid_base::Edge;
use grid_graph::{Design, Grid, Ground, NetSpec};
use shortest_paths::Labels;
use std::alloc::{AllocError, Global};
use std::rt::HostRuntime;
use std::test::Fail;
use test_rows::{Answers, check_rows, four_fields, number_of};
use worked_designs::design_of;

/// A price for each open edge, the same for all.
fn prices_of(alloc: Global, grid: &Grid, price: u32) -> Result<Vec<u32>, AllocError> {
    let mut prices = Vec::new(alloc);
    for e in 0..2 * grid.size().vertices() {
        prices.push(if grid.capacity(Edge(e)) == 0 {
            0
        } else {
            price
        })?;
    }
    Ok(prices)
}

/// What is found of a proof, and whether it has moats.
fn found_text(alloc: Global, proof: &NetProof, number: Option<u64>) -> Result<String, AllocError> {
    let moats = if proof.moats.is_some() {
        "moats"
    } else {
        "no moats"
    };
    match number {
        Some(number) => format!(in alloc; "{} and {}", number, moats),
        None => format!(in alloc; "none and {}", moats),
    }
}

/// The prices at which a net is proved and those at which the proof is checked, and the price for each piece.
#[derive(Drop)]
struct Asked<'a> {
    proved: &'a [u32],
    checked: &'a [u32],
    piece: u32,
}

/// What a proof of a net bounds.
fn found_of(
    alloc: Global,
    grid: &Grid,
    net: &NetSpec,
    ground: Ground,
    asked: &Asked<'_>,
) -> Result<String, Fail>
    requires net { IsNet grid.now net.now }
    requires ground { IsGround grid.now net.now.terminals ground }
    requires proved { AreEdgePrices grid.now asked.now.proved.now }
    requires checked { AreEdgePrices grid.now asked.now.checked.now }
    requires piece { asked.now.piece ≤ max_price }
{
    let piece = asked.piece;
    let mut labels = Labels::new(alloc, grid.size(), 15)?;
    let proof = prove_net(alloc, grid, net, ground, asked.proved, piece, &mut labels)?;
    let number = check_net(
        alloc,
        grid,
        net,
        ground,
        asked.checked,
        piece,
        &proof,
        &mut labels,
    )?;
    Ok(found_text(alloc, &proof, number)?)
}

/// The same for the first net of a design.
fn found_of_first(alloc: Global, design: &Design, asked: &Asked<'_>) -> Result<String, Fail>
    requires net { 0 < length design.now.nets }
    requires proved { AreEdgePrices design.now.grid asked.now.proved.now }
    requires checked { AreEdgePrices design.now.grid asked.now.checked.now }
    requires piece { asked.now.piece ≤ max_price }
{
    let ground = design.ground(0)?;
    found_of(alloc, &design.grid, &design.nets.list()[0], ground, asked)
}

/// A design, the price of its open edges at which its first net is proved, that at which the proof is checked, the price for
/// each piece, and what is found. A step costs twice the price. Pins in one tile have no rows. Prices that rose leave a proof
/// right, and prices that fell don't.
const PROOFS: &str = "ROW|12758|12758|0|51032 and no moats
ROW|12758|12758|5|51042 and no moats
ROW|12758|12759|0|51032 and no moats
ROW|12758|12757|0|none and no moats
ROW 135 141 7 3 1|12758|12758|0|0 and no moats
SIX_IN_A_ROW|12758|12758|0|127580 and moats
SIX_IN_A_ROW|12758|12757|0|none and moats";

/// What is found of a design's first net, where its open edges have these two prices.
fn found_at(alloc: Global, design: &Design, at: (u32, u32), piece: u32) -> Result<String, Fail> {
    let proved = prices_of(alloc, &design.grid, at.0)?;
    let checked = prices_of(alloc, &design.grid, at.1)?;
    let asked = Asked {
        proved: proved.as_slice(),
        checked: checked.as_slice(),
        piece,
    };
    if design.nets.list().is_empty()
        || asked.piece > 32768
        || !are_edge_prices(&design.grid, asked.proved)
        || !are_edge_prices(&design.grid, asked.checked)
    {
        return Err(Fail::new("no net or no such prices"));
    }
    found_of_first(alloc, design, &asked)
}

/// The same for the design that a row gives.
fn found_of_row(
    alloc: Global,
    name: &'static str,
    at: (u32, u32),
    piece: u32,
) -> Result<String, Fail> {
    let design = design_of(alloc, name)?;
    found_at(alloc, &design, at, piece)
}

/// What is found of a design's first net.
struct Proofs;

impl Answers for Proofs {
    fn answer(&self, alloc: Global, given: &'static str) -> Result<String, Fail> {
        let (name, proved, checked, piece) = four_fields(given)?;
        let at = (number_of(proved)?, number_of(checked)?);
        found_of_row(alloc, name, at, number_of(piece)?)
    }
}

#[test]
fn proofs_of_net_bounds_are_right_at_their_prices(rt: HostRuntime) -> Result<(), Fail> {
    check_rows(rt.alloc(), PROOFS, &Proofs)
}
