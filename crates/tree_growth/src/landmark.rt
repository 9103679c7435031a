//! Distances from a landmark.

ghost use Rattle.std.specs.Prelude.{◌≡◌, ◌*◌, IfOk, length};
ghost use Rattle.grid_base.specs.Numbers.{IsVertex};
ghost use Rattle.grid_graph.specs.Flat.{tiles};
ghost use Rattle.grid_graph.specs.Grids.{size_of, edge_numbers};

use bucket_queue::BucketQueue;
use grid_base::{Edge, NoMemory, Size, Vertex};
use grid_graph::Grid;

/// Stands for a distance that isn't known, and for a tile edge without open edges.
const FAR: u32 = u32::MAX;

/// No distance is greater: tiles further away count as this far. Differences still bound what ways cost, and up to here no two keys
/// of a bucket of the queue differ by 32 or more.
const MOST: u32 = 500_000;

/// Tiles with their distances, near ones first: those of one bucket in any order, so that a tile may wait more than once.
type Waiting = BucketQueue<(u32, u32)>;

/// The distance of each tile from that of `from`, where a step to the next tile costs the least price of the open edges
/// that lead there: half a million where that is more, the greatest number where no way leads. They replace the distances before.
pub fn landmark_distances(
    grid: &Grid,
    prices: &[u16],
    from: Vertex,
    distances: &mut Vec<u32>,
) -> Result<(), NoMemory>
    requires prices { length prices.now ≡ edge_numbers grid.now }
    requires from { IsVertex (size_of grid.now) from.0 }
    ensures one_each { IfOk result (λ _. length distances.new.items ≡ tiles (size_of grid.now)) }
{
    let size = grid.size();
    let alloc = *distances.allocator();
    let tiles = size.cols() * size.rows();
    let mut least = vec![in alloc; FAR; 2 * tiles as usize]?;
    lower_to_prices(grid, prices, least.as_mut_slice());
    *distances = vec![in alloc; FAR; tiles as usize]?;
    let mut waiting = BucketQueue::new(alloc)?;
    lower(distances.as_mut_slice(), &mut waiting, from.0 % tiles, 0)?;
    spread_all(
        size,
        least.as_slice(),
        distances.as_mut_slice(),
        &mut waiting,
    )
}

/// Lowers the number of each tile edge to the least price of the open edges over it.
fn lower_to_prices(grid: &Grid, prices: &[u16], least: &mut [u32])
    requires prices { length prices.now ≡ edge_numbers grid.now }
{
    let mut at = 0;
    for e in 0..2 * grid.size().vertices() {
        if at >= least.len() {
            at = 0;
        }
        if at < least.len() && grid.capacity(Edge(e)) > 0 {
            least[at] = least[at].min(u32::from(prices[e as usize]));
        }
        at += 1;
    }
}

/// Goes on until no tile waits.
fn spread_all(
    size: Size,
    least: &[u32],
    distances: &mut [u32],
    waiting: &mut Waiting,
) -> Result<(), NoMemory> {
    for _ in 0..u64::MAX {
        let Some((distance, tile)) = waiting.pop() else {
            return Ok(());
        };
        if distances.get(tile as usize) == Some(&distance) {
            spread(size, least, distances, waiting, tile)?;
        }
    }
    Ok(())
}

/// Offers the tiles beside a tile the way over it.
fn spread(
    size: Size,
    least: &[u32],
    distances: &mut [u32],
    waiting: &mut Waiting,
    tile: u32,
) -> Result<(), NoMemory> {
    let east = tile.wrapping_mul(2);
    let north = east.wrapping_add(1);
    let below = tile.wrapping_sub(size.cols());
    step(least, distances, waiting, tile, tile.wrapping_add(1), east)?;
    step(
        least,
        distances,
        waiting,
        tile,
        tile.wrapping_sub(1),
        east.wrapping_sub(2),
    )?;
    step(
        least,
        distances,
        waiting,
        tile,
        tile.wrapping_add(size.cols()),
        north,
    )?;
    step(
        least,
        distances,
        waiting,
        tile,
        below,
        below.wrapping_mul(2).wrapping_add(1),
    )
}

/// Offers a tile the way from another one over the tile edge between them.
fn step(
    least: &[u32],
    distances: &mut [u32],
    waiting: &mut Waiting,
    from: u32,
    to: u32,
    edge: u32,
) -> Result<(), NoMemory> {
    let at = from as usize;
    if edge as usize >= least.len() || at >= distances.len() {
        return Ok(());
    }
    let price = least[edge as usize];
    if price == FAR {
        return Ok(());
    }
    let distance = distances[at].saturating_add(price).min(MOST);
    lower(distances, waiting, to, distance)
}

/// Lowers the distance of a tile, which then waits.
fn lower(
    distances: &mut [u32],
    waiting: &mut Waiting,
    tile: u32,
    distance: u32,
) -> Result<(), NoMemory> {
    let at = tile as usize;
    if at < distances.len() && distance < distances[at] {
        distances[at] = distance;
        waiting.push(u64::from(distance), (distance, tile))?;
    }
    Ok(())
}
