//! Workers that route worked designs over a table.

ghost use Rattle.std.specs.Prelude.{◌≡◌, ◌<◌, ◌≤◌, ℕ, IfOk, IsTrue, length, slice_index};
ghost use Rattle.grid_base.specs.Lists.{At};
ghost use Rattle.grid_graph.specs.declared.net_spec.NetSpec.{NetSpec};
ghost use Rattle.grid_graph.specs.Grids.{entries, IsNetWidth};
ghost use Rattle.grid_graph.specs.Grounds.{AreGrounds, IsGround};
ghost use Rattle.load_core.specs.Parties.{share_at};
ghost use Rattle.price_workers.specs.TreeLoads.{HasRoomForSet, HoldsTree};

use crate::routings::routing_agrees;
use grid_graph::{Design, Ground};
use load_table::{LoadTable, Share};
use price_workers::Worker;
use std::alloc::Global;
use std::test::Fail;
use test_rows::{five_fields, numbers_of, numbers_text, rows_of, set_of, three_fields};
use tree_set::{Tree, add_load, inside};
use worked_designs::design_of;

/// No set puts more than this on a word.
const MAX_TREE_LOAD: u64 = 1 << 25;

/// The scale of the prices in repair.
const REPAIR_SCALE: u32 = 16;

/// Whether each word of the share has room for one more set.
fn has_room(share: &Share, words: u32) -> bool
    requires { words ≡ share.now.table.words }
    ensures { IsTrue result → HasRoomForSet share.now.party }
{
    if share.allotment() < MAX_TREE_LOAD {
        return false;
    }
    for word in 0..words {
        if share.share_of(word) > share.allotment() - MAX_TREE_LOAD {
            return false;
        }
    }
    true
}

/// The turn of a net, by a worker of its own that reads first.
fn after_turn(
    alloc: Global,
    design: &Design,
    table: &LoadTable,
    share: Share,
    trees: Vec<Tree>,
    net: usize,
    over: Ground,
) -> Result<(Share, Vec<Tree>), Fail>
    requires words { table.now.words ≡ entries design.now.grid }
    requires table { share.table ≡ table.now }
    requires net { net < length design.now.nets }
    requires ground { (n : NetSpec) → At design.now.nets net n → IsGround design.now.grid n.terminals over }
    ensures table { IfOk result (λ r. r.0.table ≡ table.now) }
{
    if !has_room(&share, 2 * design.grid.size().vertices() + 1) {
        return Err(Fail::new("no room"));
    }
    let Ok(mut worker) = Worker::new(alloc, design, share, trees, 1, None) else {
        return Err(Fail::new("no memory"));
    };
    worker.refresh(design, table);
    worker.price_net(design, table, net, over)?;
    Ok(worker.finish())
}

/// How much of each word is the share's.
fn loads_of(alloc: Global, share: &Share, words: u32) -> Result<Vec<u64>, Fail>
    requires { words ≡ share.now.table.words }
{
    let mut loads = Vec::new(alloc);
    for word in 0..words {
        loads.push(share.share_of(word))?;
    }
    Ok(loads)
}

/// The sets of all nets, each routed once, and the load of each entry.
fn routed(alloc: Global, design: &Design, grounds: &[Ground]) -> Result<(Vec<Tree>, Vec<u64>), Fail>
    requires grounds { AreGrounds design.now.grid design.now.nets grounds.now }
{
    let words = 2 * design.grid.size().vertices() + 1;
    let (table, mut share) = LoadTable::open(alloc, words)?;
    let mut trees = Vec::new(alloc);
    let nets = design.nets.list();
    for net in 0..nets.len() {
        let next = after_turn(alloc, design, &table, share, trees, net, grounds[net])?;
        share = next.0;
        trees = next.1;
    }
    let loads = loads_of(alloc, &share, words)?;
    Ok((trees, loads))
}

/// A design, the set of each net, and the load of each entry, the wirelength's last.
const ROUTED: &str = "ROW| e0 e2;| 2 0 2 0 0 0 2
CROWDED_ROW| e0 e2; e0 e2; e0 e2;| 6 0 6 0 0 0 6
WIDE_WIRES| e8 e10 e12 v0 v3;| 0 0 0 0 0 0 0 0 3 0 3 0 3 0 0 0 5";

/// The same for the design that a field names.
fn routed_of(alloc: Global, given: &'static str) -> Result<(Vec<Tree>, Vec<u64>), Fail> {
    let design = design_of(alloc, given)?;
    let grounds = design.grounds()?;
    routed(alloc, &design, grounds.as_slice())
}

fn routed_agrees(alloc: Global, row: &'static str) -> Result<(), Fail> {
    let (given, sets, wanted) = three_fields(row)?;
    let (trees, loads) = routed_of(alloc, given)?;
    routing_agrees(alloc, row, &trees, &loads, (sets, wanted))
}

#[test]
fn workers_give_each_net_its_set_and_put_its_load_on_the_table(
    rt: HostRuntime,
) -> Result<(), Fail> {
    for row in rows_of(rt.alloc(), ROUTED)? {
        routed_agrees(rt.alloc(), row)?;
    }
    Ok(())
}

/// The loads of a design whose nets are routed, as a field.
fn loads_text(alloc: Global, given: &'static str) -> Result<String, Fail> {
    let (_, loads) = routed_of(alloc, given)?;
    Ok(numbers_text(alloc, loads.as_slice())?)
}

/// Two ways are as short, so either may be taken.
#[test]
fn a_worker_takes_a_shortest_way_round_the_square(rt: HostRuntime) -> Result<(), Fail> {
    let text = loads_text(rt.alloc(), "SQUARE")?;
    let found = text.as_str();
    assert!(rt; found == " 2 0 0 2 0 0 0 0 2" || found == " 0 2 0 0 2 0 0 0 2");
    Ok(())
}

/// Whether the share has at least these loads of the first so many words.
fn has_all(share: &Share, loads: &[u64], words: u32) -> bool
    requires words { words < share.now.table.words }
    requires long { length loads.now ≡ words }
    ensures { IsTrue result → (e : ℕ) → slice_index loads.now e ≤ share_at e share.now.party }
{
    for word in 0..words {
        if share.share_of(word) < loads[word as usize] {
            return false;
        }
    }
    true
}

/// Whether the set is one of pieces that some net may use, and the share has the load of a net of this width by it.
fn holds_tree(
    alloc: Global,
    design: &Design,
    share: &Share,
    width: u32,
    tree: &Tree,
) -> Result<bool, Fail>
    requires words { share.now.table.words ≡ entries design.now.grid }
    requires width { IsNetWidth design.now.grid width }
    ensures { IfOk result (λ yes. IsTrue yes → HoldsTree design.now.grid width tree.now share.now.party) }
{
    let edges = 2 * design.grid.size().vertices();
    let wirelength = tree.pieces().len() as u64;
    if !inside(&design.grid, Ground::WithChoked, tree) || share.share_of(edges) < wirelength {
        return Ok(false);
    }
    let mut loads = vec![in alloc; 0; edges as usize]?;
    add_load(&design.grid, width, tree, loads.as_mut_slice());
    Ok(has_all(share, loads.as_slice(), edges))
}

/// A share with these loads of the words of its table.
fn fill(share: &mut Share, table: &LoadTable, words: u32, loads: &[u64]) -> Result<(), Fail>
    requires table { share.old.table ≡ table.now }
    requires words { table.now.words ≡ words }
    ensures table { share.new.table ≡ table.now }
{
    if loads.len() != words as usize {
        return Err(Fail::new("another number of words"));
    }
    for word in 0..words {
        let load = loads[word as usize];
        if share.allotment() - share.share_of(word) < load {
            return Err(Fail::new("no room"));
        }
        share.add(table, word, load);
    }
    Ok(())
}

/// The turn of the first net in a round of repair, by a worker of its own that reads first. The first set is that of the
/// net.
fn after_repair(
    alloc: Global,
    design: &Design,
    table: &LoadTable,
    share: Share,
    trees: Vec<Tree>,
    over: Ground,
) -> Result<(Share, Vec<Tree>), Fail>
    requires words { table.now.words ≡ entries design.now.grid }
    requires table { share.table ≡ table.now }
    requires net { 0 < length design.now.nets }
    requires set { 0 < length trees.items }
    requires ground { (n : NetSpec) → At design.now.nets 0 n → IsGround design.now.grid n.terminals over }
    ensures table { IfOk result (λ r. r.0.table ≡ table.now) }
{
    let net = &design.nets.list()[0];
    if !has_room(&share, 2 * design.grid.size().vertices() + 1)
        || !holds_tree(alloc, design, &share, net.width, &trees[0])?
    {
        return Err(Fail::new("no such share"));
    }
    let Ok(mut worker) = Worker::new(alloc, design, share, trees, REPAIR_SCALE, None) else {
        return Err(Fail::new("no memory"));
    };
    worker.refresh(design, table);
    worker.reprice_net(design, table, 0, 0, over)?;
    Ok(worker.finish())
}

/// The set of the first net and the load of each entry, after the net had its turn in a round of repair.
fn repaired(
    alloc: Global,
    design: &Design,
    grounds: &[Ground],
    tree: Tree,
    loads: &[u64],
) -> Result<(Vec<Tree>, Vec<u64>), Fail>
    requires grounds { AreGrounds design.now.grid design.now.nets grounds.now }
{
    if design.nets.list().is_empty() {
        return Err(Fail::new("no net"));
    }
    let words = 2 * design.grid.size().vertices() + 1;
    let (table, mut share) = LoadTable::open(alloc, words)?;
    fill(&mut share, &table, words, loads)?;
    let mut trees = Vec::new(alloc);
    trees.push(tree)?;
    let (share, trees) = after_repair(alloc, design, &table, share, trees, grounds[0])?;
    let loads = loads_of(alloc, &share, words)?;
    Ok((trees, loads))
}

/// A design, the set of its first net with the load of each entry, the wirelength's last, before the net's turn in a round of
/// repair, and both behind it.
const REPAIRED: &str = "# others use both edges of its way
SQUARE| e0 e3| 4 0 0 4 0 0 0 0 4| e1 e4;| 2 2 0 2 2 0 0 0 4
# its own load alone made its way dearer than the other one
SQUARE| e0 e3| 2 1 0 2 1 0 0 0 4| e0 e3;| 2 1 0 2 1 0 0 0 4
# its set went both ways, of which others use one
SQUARE| e0 e1 e3 e4| 2 4 0 2 4 0 0 0 6| e0 e3;| 2 2 0 2 2 0 0 0 4
# there is one way
CROWDED_ROW| e0 e2| 6 0 6 0 0 0 6| e0 e2;| 6 0 6 0 0 0 6
# a wire of the upper layer uses less
WIDE_WIRES| e0 e2 e4| 4 0 4 0 4 0 0 0 0 0 0 0 0 0 0 0 3| e8 e10 e12 v0 v3;| 0 0 0 0 0 0 0 0 3 0 3 0 3 0 0 0 5";

/// The same for the design, the set and the loads that fields give.
fn repaired_of(
    alloc: Global,
    given: &'static str,
    set: &'static str,
    loads: &'static str,
) -> Result<(Vec<Tree>, Vec<u64>), Fail> {
    let loads = numbers_of(alloc, loads)?;
    let design = design_of(alloc, given)?;
    let grounds = design.grounds()?;
    let tree = set_of(alloc, set)?;
    repaired(alloc, &design, grounds.as_slice(), tree, loads.as_slice())
}

fn repaired_agrees(alloc: Global, row: &'static str) -> Result<(), Fail> {
    let (given, set, loads, sets, wanted) = five_fields(row)?;
    let (trees, loads) = repaired_of(alloc, given, set, loads)?;
    routing_agrees(alloc, row, &trees, &loads, (sets, wanted))
}

#[test]
fn repair_takes_out_the_old_set_of_a_net_and_puts_a_new_one(rt: HostRuntime) -> Result<(), Fail> {
    for row in rows_of(rt.alloc(), REPAIRED)? {
        repaired_agrees(rt.alloc(), row)?;
    }
    Ok(())
}
