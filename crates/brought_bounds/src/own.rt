//! Whether rows are 0 at their own terminals.

ghost use Rattle.std.specs.Prelude.{◌≡◌, ◌<◌, ◌≤◌, ◌↔◌, ℕ, All, IsTrue, length};
ghost use Rattle.grid_base.specs.declared.vertex.Vertex.{Vertex};
ghost use Rattle.grid_base.specs.Lists.{At};
ghost use Rattle.grid_base.specs.Numbers.{IsVertex};
ghost use Rattle.steiner_tables.specs.Masks.{few_terminals, single};
ghost use Rattle.brought_bounds.specs.TableWords.{table_number, IsFilled};

use crate::rows::Rows;
use grid_base::{Size, Vertex};

/// Whether the row of a terminal alone, if there is one, is 0 at the terminal.
fn is_own(size: Size, rows: &Rows, place: u32, terminal: Vertex) -> bool
    requires place { place < few_terminals }
    requires vertex { IsVertex size terminal.0 }
    requires filled { IsFilled size rows.now }
    ensures { IsTrue result ↔ (single place ≤ length rows.now → table_number rows.now (single place) terminal.0 ≡ 0) }
{
    let mask = 1 << place;
    if mask as usize > rows.len() {
        return true;
    }
    rows.number(mask, terminal) == 0
}

/// The same for all terminals.
pub(crate) fn are_own(size: Size, rows: &Rows, terminals: &[Vertex]) -> bool
    requires terminals { All (λ v. IsVertex size v.0) terminals.now }
    requires few { length terminals.now ≤ few_terminals }
    requires filled { IsFilled size rows.now }
    ensures { IsTrue result ↔ ((place : ℕ) (v : Vertex) → At terminals.now place v → single place ≤ length rows.now
        → table_number rows.now (single place) v.0 ≡ 0) }
{
    for place in 0..terminals.len() {
        if !is_own(size, rows, place as u32, terminals[place]) {
            return false;
        }
    }
    true
}
