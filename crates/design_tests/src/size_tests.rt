//! Memory suffices for sizes that a user meets, and what is answered then is right.

use crate::trees::{is_whole, measured, trees_of};
use grid_graph::{Design, Ground, GroundError};
use ispd_reader::read_design;
use route_text::read_routes;
use std::alloc::{AllocError, Global};
use std::test::Fail;
use tree_set::Tree;
use worked_designs::vast;

/// The routes of this many nets that all run along the first three tiles.
fn routes_of(alloc: Global, nets: u32) -> Result<String, AllocError> {
    let mut text = String::new(alloc);
    for k in 0..nets {
        text.push_str("n ")?;
        text.push_str(k.to_string(alloc)?.as_str())?;
        text.push_str("\n(5,5,1)-(25,5,1)\n!\n")?;
    }
    Ok(text)
}

/// Whether a design has so many nets, which are all open.
fn all_are_open(design: &Design, nets: usize) -> Result<bool, GroundError> {
    let grounds = design.grounds()?;
    Ok(
        design.nets.list().len() == nets
            && grounds.len() == nets
            && grounds.iter().all(|ground| *ground == Ground::Open),
    )
}

/// Whether the sets have this measure and this text.
fn is_routed(
    alloc: Global,
    design: &Design,
    trees: &[Tree],
    measure: &str,
    text: &[u8],
) -> Result<bool, Fail> {
    let whole = is_whole(alloc, design, trees, text)?;
    Ok(measured(alloc, design, trees)?.as_str() == measure && whole)
}

/// Whether 5,000 nets are open and have this text. Each of two edges of capacity 8 has 5,000 loads of 2.
fn are_routed(alloc: Global, design: &Design, text: &[u8]) -> Result<bool, Fail> {
    let trees = trees_of(alloc, design, "e0 e2")?;
    let routed = is_routed(alloc, design, trees.as_slice(), "19984 10000 1250/1", text)?;
    Ok(all_are_open(design, 5000)? && routed)
}

/// Whether this is a long text that is read back as routes of 5,000 nets, and is written of them.
fn is_read_back(alloc: Global, text: &[u8]) -> Result<bool, Fail> {
    let long = text.len() > 100_000 && read_routes(alloc, text)?.len() == 5000;
    let design = read_design(alloc, vast(alloc, 5000)?.as_slice())?;
    Ok(are_routed(alloc, &design, text)? && long)
}

#[test]
fn thousands_of_nets_are_read_measured_written_and_read_back(rt: HostRuntime) -> Result<(), Fail> {
    let text = routes_of(rt.alloc(), 5000)?;
    if is_read_back(rt.alloc(), text.as_bytes())? {
        Ok(())
    } else {
        Err(Fail::new("another answer"))
    }
}
