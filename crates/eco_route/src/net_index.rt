//! Where the net with an id stands, as nets come and go.

ghost use Rattle.std.specs.Prelude.{◌≡◌, ℕ};
ghost use Rattle.grid_base.specs.Lists.{At};
ghost use Rattle.eco_route.specs.NetIndices.{AreRisingNumbers};

use grid_base::NoMemory;
use grid_graph::NetSpec;
use std::alloc::Global;
use std::collections::BTreeMap;

/// The place of each net in the list of nets, by its id.
///
/// Each net gets a number when it comes, above all that were given before. As nets stand in the order in which they came,
/// the numbers rise, and a net that goes leaves the numbers of all others as they were.
#[derive(Drop)]
pub(crate) struct NetIndex {
    by_id: BTreeMap<u32, u64>,
    numbers: Vec<u64>,
    next: u64,
}

impl NetIndex {
    ghost use Rattle.std.specs.Prelude.{◌≡◌, ◌<◌, ◌++◌, ◌∷◌, ℕ, List, [], length, IfOk, OnOk, OnErr, IfNone, IfSome};
    ghost use Rattle.std.specs.List.{remove};
    ghost use Rattle.grid_base.specs.Lists.{At, HasNoRepeats};
    ghost use Rattle.eco_route.specs.NetIndices.{ids_of, IsIndexOf};

    /// Where these nets stand.
    pub fn of(alloc: Global, nets: &[NetSpec]) -> Result<NetIndex, NoMemory>
        requires { HasNoRepeats (ids_of nets.now) }
        ensures { IfOk result (IsIndexOf (ids_of nets.now)) }
    {
        let mut index = NetIndex {
            by_id: BTreeMap::new(alloc),
            numbers: Vec::new(alloc),
            next: 0,
        };
        for net in nets {
            index.push(net.id)?;
        }
        Ok(index)
    }

    /// The place of the net with this id.
    pub fn place_of(&self, id: u32) -> Option<usize>
        ensures some { (ids : List ℕ) → IsIndexOf ids self.now → IfSome result (λ place. At ids place id) }
        ensures none { (ids : List ℕ) → IsIndexOf ids self.now → IfNone result ((place : ℕ) → ¬ At ids place id) }
    {
        let number = self.by_id.get(&id)?;
        Some(place_in(self.numbers.as_slice(), *number))
    }

    /// A net with this id comes behind all others.
    pub fn push(&mut self, id: u32) -> Result<(), NoMemory>
        ensures pushed { (ids : List ℕ) → IsIndexOf ids self.old → ((place : ℕ) → ¬ At ids place id) → OnOk result (IsIndexOf (ids ++ id ∷ []) self.new) }
        ensures no_memory { (ids : List ℕ) → IsIndexOf ids self.old → OnErr result (IsIndexOf ids self.new) }
    {
        let next = self.next.checked_add(1).ok_or(NoMemory)?;
        self.numbers.reserve(1)?;
        self.by_id.insert(id, self.next)?;
        self.numbers.push_reserved(self.next);
        self.next = next;
        Ok(())
    }

    /// The net with this id, which stands at this place, goes.
    pub fn remove(&mut self, id: u32, place: usize)
        requires { place < length self.old.numbers.items }
        ensures { (ids : List ℕ) → IsIndexOf ids self.old → HasNoRepeats ids → At ids place id → IsIndexOf (remove ids place) self.new }
    {
        self.by_id.remove(&id);
        self.numbers.remove(place);
    }
}

/// The place of a number in rising numbers.
fn place_in(numbers: &[u64], number: u64) -> usize
    ensures { AreRisingNumbers numbers.now → (place : ℕ) → At numbers.now place number → result ≡ place }
{
    let mut low = 0;
    let mut high = numbers.len();
    while low < high {
        let middle = low + (high - low) / 2;
        if numbers[middle] < number {
            low = middle + 1;
        } else {
            high = middle;
        }
    }
    low
}
