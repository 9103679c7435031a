//! The grid distance by floors.

ghost use Rattle.std.specs.Prelude.{◌≡◌, ◌≤◌};
ghost use Rattle.grid_base.specs.Numbers.{IsInside};
ghost use Rattle.grid_graph.specs.Floors.{AreWithin};
ghost use Rattle.label_search.specs.Floors.{floor_distance};
ghost use Rattle.label_search.specs.Stamped.{far};

use grid_base::{Place, Size};
use grid_graph::Floors;

/// The grid distance of two places of a grid, each step at its floor.
pub fn apart(_size: Size, floors: Floors, here: Place, goal: Place) -> u64
    requires floors { AreWithin floors }
    requires here { IsInside _size here }
    requires goal { IsInside _size goal }
    ensures value { result ≡ floor_distance floors here goal }
    ensures limit { result ≤ far }
{
    u64::from(here.col.abs_diff(goal.col)) * floors.along_x
        + u64::from(here.row.abs_diff(goal.row)) * floors.along_y
        + u64::from(here.layer.abs_diff(goal.layer)) * floors.via
}
