//! The boxes of all masks of some terminals.

ghost use Rattle.std.specs.Prelude.{◌≡◌, ◌≤◌, ◌<◌, ◌^◌, All, length};
ghost use Rattle.grid_base.specs.Numbers.{IsVertex};
ghost use Rattle.steiner_tables.specs.Masks.{few_terminals};
ghost use Rattle.steiner_exact.specs.Boxes.{box_of, AreBoxes};

use crate::terminal_box::TerminalBox;
use grid_base::{Size, Vertex};
use steiner_tables::{all_of, has_terminal};

/// So many masks have up to five terminals.
pub const MASKS: usize = 32;

/// The box of each mask of the terminals. Where they are fewer than five, no one looks at what stands behind these.
pub fn boxes_of(size: Size, terminals: &[Vertex]) -> [TerminalBox; MASKS]
    requires terminals { All (λ v. IsVertex size v.0) terminals.now }
    requires few { length terminals.now ≤ few_terminals }
    ensures { AreBoxes size terminals.now result }
{
    let mut boxes = [TerminalBox::NONE; MASKS];
    for mask in 0..all_of(terminals.len()) + 1 {
        boxes[mask as usize] = box_of(size, terminals, mask);
    }
    boxes
}

/// The box of a mask's terminals.
fn box_of(size: Size, terminals: &[Vertex], mask: u32) -> TerminalBox
    requires terminals { All (λ v. IsVertex size v.0) terminals.now }
    requires few { length terminals.now ≤ few_terminals }
    ensures { result ≡ box_of size terminals.now mask }
{
    let mut found = TerminalBox::NONE;
    for place in 0..terminals.len() {
        if has_terminal(mask, place as u32) {
            found = found.with(size.place_of(terminals[place]));
        }
    }
    found
}
