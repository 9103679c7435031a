//! The greatest index, as indices come and change.

ghost use Rattle.std.specs.Prelude.{◌≡◌, ◌<◌};

/// The greatest of some indices, and how many of them are it.
#[derive(Clone, Copy, Debug, Drop, PartialEq, Eq)]
pub struct TopIndex {
    pub index: u128,
    pub tied: usize,
}

impl TopIndex {
    ghost use Rattle.std.specs.Prelude.{◌+◌, ◌^◌, ◌≤◌, ◌==◌, max, cond, ltb, IfSome};
    ghost use Rattle.edge_prices.specs.TopIndices.{IsAfterChange};

    /// That of no indices.
    pub const NONE: TopIndex = TopIndex { index: 0, tied: 0 };

    /// With one index more.
    pub fn with(self, index: u128) -> TopIndex
        requires { self.tied < 2 ^ 32 }
        ensures index { result.index ≡ max self.index index }
        ensures tied { result.tied ≡ cond (ltb self.index index) 1 (self.tied + cond (index == self.index) 1 0) }
    {
        if index > self.index {
            return TopIndex { index, tied: 1 };
        }
        TopIndex {
            index: self.index,
            tied: self.tied + usize::from(index == self.index),
        }
    }

    /// After one of the indices changes: none where another one may be the greatest then.
    pub fn after_change(self, before: u128, after: u128) -> Option<TopIndex>
        requires counted { cond (before == self.index) 1 0 ≤ self.tied }
        requires room { self.tied < 2 ^ 32 }
        ensures { IfSome result (IsAfterChange self before after) }
    {
        let others = self.tied - usize::from(before == self.index);
        let tied = others + usize::from(after == self.index);
        if after > self.index || tied == 0 {
            return None;
        }
        Some(TopIndex {
            index: self.index,
            tied,
        })
    }
}
