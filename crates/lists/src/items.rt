//! A list.

ghost use Rattle.std.specs.Prelude.{◌≡◌, ◌<◌, ◌++◌, ◌∷◌, [], length, slice_index_or, slice_set, OnOk, OnErr};
ghost use Rattle.std.specs.Borrow.{sem, Lends};
ghost use Rattle.lists.specs.contracts.items.Items.{the_row};

use std::alloc::{AllocError, AllocFailed};
use std::marker::Model;

/// Items in order.
#[derive(Debug, Drop)]
pub struct Items<T> {
    items: Vec<T>,
}

impl<T> Model for Items<T> {
    ghost use Rattle.std.specs.Prelude.{List};

    ghost Value = { List T };

    ghost view = { λ s. s.items.items };
}

impl<T> Items<T> {
    /// These items.
    pub fn of(items: Vec<T>) -> Self
        ensures { result ≡ items.items }
    {
        Items { items }
    }

    /// The items.
    pub fn list(&self) -> &[T]
        ensures { result.now ≡ self.now }
    {
        self.items.as_slice()
    }

    /// The item at this place, to be changed.
    pub fn at_mut(&mut self, at: usize) -> &mut T
        requires { at < length self.old }
        ensures* lends { sem 𝓛 (Lends (the_row T.row) T.row self.entry result (slice_set self.entry.now at)) }
        ensures item { (other : T) → result.now ≡ slice_index_or self.old at other }
    {
        &mut self.items[at]
    }

    /// Puts the item at the end.
    pub fn push(&mut self, item: T) -> Result<(), AllocFailed<T>>
        ensures pushed { OnOk result (self.new ≡ self.old ++ item ∷ []) }
        ensures no_memory { OnErr result (self.new ≡ self.old) }
    {
        self.items.push(item)
    }

    /// Takes the items of the other to the end.
    pub fn append(&mut self, other: &mut Items<T>) -> Result<(), AllocError>
        ensures appended { OnOk result (self.new ≡ self.old ++ other.old) }
        ensures taken { OnOk result (other.new ≡ []) }
        ensures no_memory { OnErr result (self.new ≡ self.old) }
        ensures no_memory_other { OnErr result (other.new ≡ other.old) }
    {
        self.items.append(&mut other.items)
    }

    /// The items, taken out.
    pub fn into_list(self) -> Vec<T>
        ensures { result.items ≡ self }
    {
        self.items
    }
}
