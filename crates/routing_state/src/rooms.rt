//! The room on each edge.

ghost use Rattle.std.specs.Prelude.{◌≡◌, ◌≤◌, ◌^◌, IfOk, map, nat_abs};
ghost use Rattle.std.specs.List.{sum_by};
ghost use Rattle.routing_state.specs.Clipped.{clipped};
ghost use Rattle.routing_state.specs.Lacks.{lack, IsRoom};

use grid_base::{Edge, NoMemory, Piece};
use grid_graph::Grid;
use std::alloc::Global;
use tree_set::Tree;

/// The room on each edge number: capacity less load, below 0 where the load is more; the same as 16 bits tell it; and how much
/// room is lacking on all edges together.
#[derive(Drop)]
pub struct Rooms {
    rooms: Vec<i64>,
    narrow: Vec<i16>,
    lacking: u64,
    pub ghost sum: { lacking ≡ sum_by lack rooms.items },
    pub ghost same: { narrow.items ≡ map clipped rooms.items },
}

impl Rooms {
    ghost use Rattle.std.specs.Prelude.{◌≡◌, ◌<◌, ◌≤◌, ◌*◌, ◌^◌, ℕ, All, IfOk, length, map, nat_abs, pos, ◌+ℤ◌, ◌-ℤ◌, slice_index_or, slice_set};
    ghost use Rattle.grid_graph.specs.Grids.{edge_numbers, size_of, IsNetWidth};
    ghost use Rattle.grid_graph.specs.Limits.{max_demand};
    ghost use Rattle.tree_set.specs.Loads.{net_load};
    ghost use Rattle.tree_set.specs.Routings.{ArePieces};
    ghost use Rattle.routing_state.specs.Clipped.{clipped};
    ghost use Rattle.routing_state.specs.Lacks.{HasRoomToMove};
    ghost use Rattle.routing_state.specs.Rooms.{AreRooms, Gives};

    /// The room on the edges of a grid that no net uses.
    pub(crate) fn of(alloc: Global, grid: &Grid) -> Result<Rooms, NoMemory>
        ensures rooms { IfOk result (λ made. AreRooms grid.now (λ e. 0) made.rooms.items) }
    {
        let numbers = 2 * grid.size().vertices();
        let mut rooms = Vec::with_capacity(alloc, numbers as usize)?;
        for e in 0..numbers {
            rooms.push(i64::from(grid.capacity(Edge(e))))?;
        }
        let narrow = clip_all(alloc, rooms.as_slice())?;
        Ok(Rooms {
            rooms,
            narrow,
            lacking: 0,
        })
    }

    /// The room on each edge number.
    pub(crate) fn list(&self) -> &[i64]
        ensures { result.now ≡ self.now.rooms.items }
    {
        self.rooms.as_slice()
    }

    /// The same as 16 bits tell it.
    pub(crate) fn narrow_list(&self) -> &[i16]
        ensures { result.now ≡ map clipped self.now.rooms.items }
    {
        self.narrow.as_slice()
    }

    /// How much room is lacking on all edges together.
    pub(crate) fn lacking(&self) -> u64
        ensures { result ≡ self.now.lacking }
    {
        self.lacking
    }

    /// Takes what a net of this width uses by its set.
    pub(crate) fn take(&mut self, grid: &Grid, width: u32, tree: &Tree)
        requires width { IsNetWidth grid.now width }
        requires pieces { ArePieces (size_of grid.now) tree.now }
        requires long { length self.old.rooms.items ≡ edge_numbers grid.now }
        requires limit { All HasRoomToMove self.old.rooms.items }
        ensures { Gives grid.now width tree.now self.new.rooms.items self.old.rooms.items }
    {
        for p in tree.pieces() {
            if let Piece::Edge(e) = *p {
                self.lower(e, grid.demand(width, e));
            }
        }
    }

    /// Gives back what a net of this width uses by its set.
    pub(crate) fn give(&mut self, grid: &Grid, width: u32, tree: &Tree)
        requires width { IsNetWidth grid.now width }
        requires pieces { ArePieces (size_of grid.now) tree.now }
        requires long { length self.old.rooms.items ≡ edge_numbers grid.now }
        requires limit { All HasRoomToMove self.old.rooms.items }
        ensures { Gives grid.now width tree.now self.old.rooms.items self.new.rooms.items }
    {
        for p in tree.pieces() {
            if let Piece::Edge(e) = *p {
                self.raise(e, grid.demand(width, e));
            }
        }
    }

    /// The edge has less room, by a demand.
    fn lower(&mut self, e: Edge, amount: u32)
        requires edge { e.0 < length self.old.rooms.items }
        requires few { length self.old.rooms.items ≤ 2 ^ 24 }
        requires limit { All IsRoom self.old.rooms.items }
        requires amount { amount ≤ max_demand }
        ensures { self.new.rooms.items ≡ slice_set self.old.rooms.items e.0 (slice_index_or self.old.rooms.items e.0 (pos 0) -ℤ pos amount) }
    {
        let room = self.rooms[e.0 as usize] - i64::from(amount);
        self.set(e, room);
    }

    /// The edge has more room, by a demand.
    fn raise(&mut self, e: Edge, amount: u32)
        requires edge { e.0 < length self.old.rooms.items }
        requires few { length self.old.rooms.items ≤ 2 ^ 24 }
        requires limit { All IsRoom self.old.rooms.items }
        requires amount { amount ≤ max_demand }
        ensures { self.new.rooms.items ≡ slice_set self.old.rooms.items e.0 (slice_index_or self.old.rooms.items e.0 (pos 0) +ℤ pos amount) }
    {
        let room = self.rooms[e.0 as usize] + i64::from(amount);
        self.set(e, room);
    }

    /// The room of one edge becomes this, and what is lacking changes with it.
    fn set(&mut self, e: Edge, room: i64)
        requires edge { e.0 < length self.old.rooms.items }
        requires few { length self.old.rooms.items ≤ 2 ^ 24 }
        requires limit { All IsRoom self.old.rooms.items }
        requires room { nat_abs room ≤ 2 ^ 35 }
        ensures { self.new.rooms.items ≡ slice_set self.old.rooms.items e.0 room }
    {
        let others = self.lacking - lack(self.rooms[e.0 as usize]);
        self.rooms[e.0 as usize] = room;
        self.narrow[e.0 as usize] = clip(room);
        self.lacking = others + lack(room);
    }
}

/// The rooms as 16 bits tell them.
fn clip_all(alloc: Global, rooms: &[i64]) -> Result<Vec<i16>, NoMemory>
    ensures { IfOk result (λ narrow. narrow.items ≡ map clipped rooms.now) }
{
    let mut narrow = Vec::with_capacity(alloc, rooms.len())?;
    for room in rooms {
        narrow.push(clip(*room))?;
    }
    Ok(narrow)
}

/// The room as 16 bits tell it.
fn clip(room: i64) -> i16
    ensures { result ≡ clipped room }
{
    if room > i64::from(i16::MAX) {
        return i16::MAX;
    }
    if room < i64::from(i16::MIN) {
        return i16::MIN;
    }
    room as i16
}

/// How much room is lacking where so much is left.
fn lack(room: i64) -> u64
    requires { nat_abs room ≤ 2 ^ 35 }
    ensures { result ≡ lack room }
{
    if room < 0 { room.unsigned_abs() } else { 0 }
}
