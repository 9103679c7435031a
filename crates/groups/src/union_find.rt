//! Groups of things by number.

ghost use Rattle.std.specs.Prelude.{◌≤◌, ◌<◌, ◌^◌, ℕ, length, slice_index};

use grid_base::NoMemory;
use std::alloc::Global;

/// Numbers from 0 on in groups: each has a parent in its group, which is no greater, and one number of each group is its own.
///
/// The path to it is halved at each look, so looks and unions of n numbers take about n log n steps (Tarjan and van Leeuwen,
/// Worst-case analysis of set union algorithms, 1984).
#[derive(Drop)]
pub struct Groups {
    pub parents: Vec<u32>,
    pub ghost below: { (i : ℕ) → slice_index parents.items i ≤ i },
    pub ghost small: { length parents.items < 2 ^ 32 },
}

impl Groups {
    ghost use Rattle.std.specs.Prelude.{◌≡◌, IfOk};
    ghost use Rattle.groups.specs.Joined.{AreJoined, AreJoinedBy, IsParent, IsParentOr};

    /// Each of so many numbers alone. More than 2^32 - 1 are taken for want of memory.
    pub fn single(alloc: Global, count: usize) -> Result<Groups, NoMemory>
        ensures long { IfOk result (λ groups. length groups.parents.items ≡ count) }
        ensures own { IfOk result (λ groups. (i : ℕ) → i < count → slice_index groups.parents.items i ≡ i) }
    {
        let Ok(most) = u32::try_from(count) else {
            return Err(NoMemory);
        };
        let mut parents = Vec::with_capacity(alloc, count)?;
        for i in 0..most {
            parents.push(i)?;
        }
        Ok(Groups { parents })
    }

    /// Each number alone again.
    pub fn reset(&mut self)
        ensures long { length self.new.parents.items ≡ length self.old.parents.items }
        ensures own { (i : ℕ) → i < length self.old.parents.items → slice_index self.new.parents.items i ≡ i }
    {
        for i in 0..self.parents.len() {
            self.parents[i] = i as u32;
        }
    }

    /// The number of the group that is its own parent.
    pub fn root(&mut self, i: usize) -> usize
        requires { i < length self.old.parents.items }
        ensures within { result ≤ i }
        ensures long { length self.new.parents.items ≡ length self.old.parents.items }
        ensures joined { AreJoined (IsParent self.old.parents.items) i result }
        ensures stay { AreJoinedBy (IsParent self.old.parents.items) self.new.parents.items }
    {
        let mut root = i;
        while self.parents[root] as usize != root {
            let far = self.parents[self.parents[root] as usize];
            self.parents[root] = far;
            root = far as usize;
        }
        root
    }

    /// Puts the groups of two numbers together.
    pub fn unite(&mut self, i: usize, j: usize)
        requires i { i < length self.old.parents.items }
        requires j { j < length self.old.parents.items }
        ensures long { length self.new.parents.items ≡ length self.old.parents.items }
        ensures stay { AreJoinedBy (IsParentOr self.old.parents.items i j) self.new.parents.items }
    {
        let one = self.root(i);
        let other = self.root(j);
        self.parents[one.max(other)] = one.min(other) as u32;
    }

    /// Makes the root of each number's group its parent.
    pub fn flatten(&mut self)
        ensures long { length self.new.parents.items ≡ length self.old.parents.items }
        ensures stay { AreJoinedBy (IsParent self.old.parents.items) self.new.parents.items }
    {
        for i in 0..self.parents.len() {
            self.parents[i] = self.parents[self.parents[i] as usize];
        }
    }
}
