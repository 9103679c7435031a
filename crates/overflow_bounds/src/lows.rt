//! Lower bounds of what nets cost, by least trees on graphs of few nodes.

ghost use Rattle.std.specs.Prelude.{◌≡◌, ◌<◌, ℕ, All, IfOk, None, OnOk, length};
ghost use Rattle.std.specs.List.{AllZip};
ghost use Rattle.grid_base.specs.Lists.{At};
ghost use Rattle.grid_graph.specs.declared.net_spec.NetSpec.{NetSpec};
ghost use Rattle.grid_graph.specs.Grounds.{AreGrounds};
ghost use Rattle.edge_prices.specs.Weights.{AreEdgePrices};
ghost use Rattle.dual_bound.specs.ClassOrders.{IsPlaceOf};
ghost use Rattle.dual_bound.specs.DesignBounds.{IsAtMostEachRoute};
ghost use Rattle.overflow_bounds.specs.ClassGraphs.{IsGraphAt};

use crate::class_graph::ClassGraph;
use crate::net_ends::write_ends;
use crate::node_tables::NodeTables;
use dual_bound::{ClassedNet, nets_by_class};
use grid_base::NoMemory;
use grid_graph::{Design, Ground};
use std::alloc::Global;

/// What one net leaves to the next: the graph of its class, rows for a table, and room for ends.
#[derive(Drop)]
struct Reused<'a> {
    class: ClassGraph<'a>,
    tables: NodeTables,
    ends: Vec<u32>,
}

impl<'a> Reused<'a> {
    ghost use Rattle.std.specs.Prelude.{◌≡◌, ◌<◌, IfOk, length};
    ghost use Rattle.grid_graph.specs.Grounds.{AreGrounds};
    ghost use Rattle.edge_prices.specs.Weights.{AreEdgePrices};
    ghost use Rattle.overflow_bounds.specs.ClassGraphs.{IsGraphAt};

    /// What the net at a place begins with.
    fn new(
        alloc: Global,
        design: &'a Design,
        grounds: &[Ground],
        prices: &'a [u32],
        place: usize,
    ) -> Result<Reused<'a>, NoMemory>
        requires grounds { AreGrounds design.now.grid design.now.nets grounds.now }
        requires prices { AreEdgePrices design.now.grid prices.now }
        requires place { place < length design.now.nets }
        ensures prices { IfOk result (λ reused. reused.class.prices.now ≡ prices.now) }
        ensures class { IfOk result (λ reused. IsGraphAt design.now.grid prices.now reused.class) }
    {
        let width = design.nets.list()[place].width;
        let class = ClassGraph::new(alloc, &design.grid, width, grounds[place], prices)?;
        Ok(Reused {
            class,
            tables: NodeTables::new(alloc),
            ends: Vec::new(alloc),
        })
    }
}

/// A lower bound of what the routes of the net at a place cost.
fn low_of_net(
    alloc: Global,
    design: &Design,
    grounds: &[Ground],
    place: usize,
    reused: &mut Reused<'_>,
) -> Result<u64, NoMemory>
    requires grounds { AreGrounds design.now.grid design.now.nets grounds.now }
    requires place { place < length design.now.nets }
    requires class { IsGraphAt design.now.grid reused.old.class.prices.now reused.old.class }
    ensures low { IfOk result (λ low. (n : NetSpec) → At design.now.nets place n
        → IsAtMostEachRoute design.now.grid reused.old.class.prices.now None n low) }
    ensures class { OnOk result (IsGraphAt design.now.grid reused.old.class.prices.now reused.new.class) }
{
    let net = &design.nets.list()[place];
    reused.class.renew(alloc, net.width, grounds[place])?;
    write_ends(
        &mut reused.ends,
        design.grid.size(),
        reused.class.graph.nodes.as_slice(),
        net.terminals.list(),
    )?;
    if reused.ends.len() < 2 {
        return Ok(0);
    }
    reused.tables.least_joining(
        alloc,
        reused.class.graph.count,
        reused.class.graph.links.as_slice(),
        reused.ends.as_slice(),
    )
}

/// Writes the lower bounds of these nets, each at its place.
fn write_lows(
    alloc: Global,
    design: &Design,
    grounds: &[Ground],
    nets: &[ClassedNet],
    reused: &mut Reused<'_>,
    lows: &mut [u64],
) -> Result<(), NoMemory>
    requires grounds { AreGrounds design.now.grid design.now.nets grounds.now }
    requires places { All (IsPlaceOf 0 (length design.now.nets)) nets.now }
    requires class { IsGraphAt design.now.grid reused.old.class.prices.now reused.old.class }
    requires lows { AllZip (IsAtMostEachRoute design.now.grid reused.old.class.prices.now None) design.now.nets lows.old }
    ensures { OnOk result (AllZip (IsAtMostEachRoute design.now.grid reused.old.class.prices.now None) design.now.nets lows.new) }
{
    for net in nets {
        let place = net.place as usize;
        lows[place] = low_of_net(alloc, design, grounds, place, reused)?;
    }
    Ok(())
}

/// For each net a lower bound of what its routes cost: the least cost of joining the nodes of its terminals, or some of them where
/// there are many. `grounds` has the ground of each net, and `prices` one price per edge number.
pub(crate) fn lows_of_nets(
    alloc: Global,
    design: &Design,
    grounds: &[Ground],
    prices: &[u32],
) -> Result<Vec<u64>, NoMemory>
    requires grounds { AreGrounds design.now.grid design.now.nets grounds.now }
    requires prices { AreEdgePrices design.now.grid prices.now }
    ensures { IfOk result (λ lows. AllZip (IsAtMostEachRoute design.now.grid prices.now None) design.now.nets lows.items) }
{
    let count = design.nets.list().len();
    let mut lows = vec![in alloc; 0; count]?;
    let nets = nets_by_class(alloc, design, grounds, 0, count)?;
    let Some(first) = nets.first() else {
        return Ok(lows);
    };
    let mut reused = Reused::new(alloc, design, grounds, prices, first.place as usize)?;
    write_lows(
        alloc,
        design,
        grounds,
        nets.as_slice(),
        &mut reused,
        lows.as_mut_slice(),
    )?;
    Ok(lows)
}
