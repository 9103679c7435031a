//! A list that obeys a rule.

ghost use Rattle.std.specs.Prelude.{◌≡◌, List};

use std::marker::{Model, PhantomData};

/// What is true of a list of `T`.
pub trait Rule<T> {
    ghost holds: { List T → Type 0 };
}

/// Items in order that obey the rule `K`.
#[derive(Drop)]
pub struct Kept<T, K: Rule<T>> {
    items: Vec<T>,
    rule: PhantomData<K>,
}

impl<T, K: Rule<T>> Model for Kept<T, K> {
    ghost Value = { List T };

    ghost view = { λ s. s.items.items };

    ghost invariant = { λ s. K.holds s.items.items };
}

impl<T, K: Rule<T>> Kept<T, K> {
    /// These items, which have to obey the rule.
    pub fn of(items: Vec<T>) -> Self
        requires { K.holds items.items }
        ensures { result ≡ items.items }
    {
        Kept {
            items,
            rule: PhantomData,
        }
    }

    /// The items.
    pub fn list(&self) -> &[T]
        ensures items { result.now ≡ self.now }
        ensures rule { K.holds result.now }
    {
        self.items.as_slice()
    }

    /// The items, taken out.
    pub fn into_list(self) -> Vec<T>
        ensures items { result.items ≡ self }
        ensures rule { K.holds result.items }
    {
        self.items
    }
}
