//! Masks of terminals, bit by bit.

ghost use Rattle.std.specs.Prelude.{◌≡◌, ◌<◌, ◌≤◌, ◌-◌, ◌^◌, ◌==◌, ◌↔◌, IsTrue};
ghost use Rattle.steiner_tables.specs.Masks.{few_terminals, bit, single, AreParts};

/// The greatest number of terminals.
const MOST_TERMINALS: u32 = 5;

/// 1 where the mask has the terminal at this place, else 0.
fn bit_of(mask: u32, place: u32) -> u32
    requires { place < 32 }
    ensures { result ≡ bit mask place }
{
    (mask >> place) % 2
}

/// Whether the mask has the terminal at this place.
pub fn has_terminal(mask: u32, place: u32) -> bool
    requires { place < 32 }
    ensures { result ≡ (bit mask place == 1) }
{
    bit_of(mask, place) == 1
}

/// The mask of the terminal at this place alone.
pub fn single_of(place: u32) -> u32
    requires { place < 32 }
    ensures { result ≡ single place }
{
    1 << place
}

/// The mask of all terminals but the last of so many.
pub fn all_but_root_of(count: usize) -> u32
    requires some { 1 ≤ count }
    requires few { count ≤ few_terminals }
    ensures { result ≡ 2 ^ (count - 1) - 1 }
{
    single_of(count as u32 - 1) - 1
}

/// The mask of so many terminals.
pub fn all_of(count: usize) -> u32
    requires { count ≤ few_terminals }
    ensures { result ≡ 2 ^ count - 1 }
{
    single_of(count as u32) - 1
}

/// Whether each terminal of a mask is in one of two parts, neither of which is empty.
pub fn are_parts(one: u32, other: u32, mask: u32) -> bool
    requires one { one < 32 }
    requires other { other < 32 }
    requires mask { mask < 32 }
    ensures { IsTrue result ↔ AreParts one other mask }
{
    if one == 0 || other == 0 {
        return false;
    }
    for place in 0..MOST_TERMINALS {
        if bit_of(mask, place) != bit_of(one, place) + bit_of(other, place) {
            return false;
        }
    }
    true
}

/// Whether the mask has all terminals of another and more, so that it is in two parts.
pub fn is_part(one: u32, mask: u32) -> bool
    requires some { 0 < one }
    requires less { one < mask }
    ensures { IsTrue result ↔ AreParts one (mask - one) mask }
{
    one & mask == one
}
