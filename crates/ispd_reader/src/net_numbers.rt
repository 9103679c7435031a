//! The single numbers of a net and of its pins.

ghost use Rattle.std.specs.Prelude.{◌≡◌, ℕ, ◌≤◌, ◌<◌, ◌+◌, ◌-◌, ◌||◌, ◌==◌, false, IfOk, IfSome};
ghost use Rattle.std.specs.BTreeSet.{contains};
ghost use Rattle.std.specs.Ordering.{nat_cmp};
ghost use Rattle.grid_base.specs.Numbers.{cols, rows, layers, IsVertex};
ghost use Rattle.grid_graph.specs.Grids.{size_of, layout_of, IsNetWidth};
ghost use Rattle.grid_graph.specs.Layouts.{IsPosition};
ghost use Rattle.grid_graph.specs.Limits.{max_id};
ghost use Rattle.ispd_reader.specs.Nets.{id_at, net_width_at, tile_along, vertex_at, widest_spacing};
ghost use Rattle.ispd_reader.specs.PinParts.{pin_column_at, pin_row_at, pin_level_at};
ghost use Rattle.design_tokens.specs.Steps.{ReadsNext};
ghost use Rattle.ispd_reader.specs.Views.{extent_of_size, header_of};

use design_tokens::{CutToken, InputError, InputFault, number};
use grid_base::{Place, Vertex};
use grid_graph::{Grid, MAX_DEMAND, tile_index};
use std::collections::BTreeSet;
use text_scan::Number;

/// The id of a net, which is taken from then on.
pub(crate) fn id(token: &CutToken, taken: &mut BTreeSet<u32>) -> Result<u32, InputError>
    ensures id { ReadsNext token.now (λ id. id) result (id_at (contains nat_cmp taken.old)) }
    ensures limit { IfOk result (λ id. id ≤ max_id) }
    ensures free { IfOk result (λ id. contains nat_cmp taken.old id ≡ false) }
    ensures taken { IfOk result (λ id. (q : ℕ) → contains nat_cmp taken.new q ≡ (q == id || contains nat_cmp taken.old q)) }
{
    let number = number(token)?;
    let id = number
        .within(0, u32::MAX)
        .ok_or(InputFault::Range { at: number.at })?;
    if !taken.insert(id)? {
        return Err(InputError::Input(InputFault::DuplicateId { at: number.at, id }));
    }
    Ok(id)
}

/// The width of a net on a grid whose greatest spacing this is.
pub(crate) fn net_width(grid: &Grid, token: &CutToken, spacing: u32) -> Result<u32, InputError>
    requires { spacing ≡ widest_spacing (layout_of grid.now).spacings }
    ensures width { ReadsNext token.now (λ w. w) result (net_width_at (header_of (layout_of grid.now))) }
    ensures limit { IfOk result (λ w. IsNetWidth grid.now w) }
{
    let number = number(token)?;
    let width = number
        .within(0, MAX_DEMAND.saturating_sub(spacing))
        .ok_or(InputFault::WidthLimit { at: number.at })?;
    Ok(width)
}

/// The greatest spacing of a layer.
pub(crate) fn greatest_spacing(grid: &Grid) -> u32
    ensures value { result ≡ widest_spacing (layout_of grid.now).spacings }
    ensures limit { result ≤ MAX_DEMAND }
{
    let mut spacing = 0;
    for layer in 0..grid.size().layers() {
        spacing = spacing.max(grid.spacing(layer));
    }
    spacing
}

/// The column of a pin, which has this number within its net.
pub(crate) fn column(grid: &Grid, token: &CutToken, id: u32, pin: u32) -> Result<u32, InputError>
    ensures column { ReadsNext token.now (λ x. x) result (pin_column_at (header_of (layout_of grid.now)) id pin) }
    ensures below { IfOk result (λ i. i < cols (size_of grid.now)) }
{
    let x = number(token)?;
    let col = column_of(grid, x).ok_or(InputFault::PinOutside { at: x.at, id, pin })?;
    Ok(col)
}

/// The column of a position, where it is inside the grid.
#[tactic(auto, unfolding(crate::specs::Nets::tile_along))]
fn column_of(grid: &Grid, x: Number) -> Option<u32>
    requires { IsPosition x.value }
    ensures column { result ≡ tile_along (layout_of grid.now).origin.0 (layout_of grid.now).tile.0 (cols (size_of grid.now)) x.value }
    ensures below { IfSome result (λ i. i < cols (size_of grid.now)) }
{
    tile_index(grid.origin().0, grid.tile().0, grid.size().cols(), x.value)
}

/// The row of a pin, which has this number within its net.
pub(crate) fn row(grid: &Grid, token: &CutToken, id: u32, pin: u32) -> Result<u32, InputError>
    ensures row { ReadsNext token.now (λ x. x) result (pin_row_at (header_of (layout_of grid.now)) id pin) }
    ensures below { IfOk result (λ i. i < rows (size_of grid.now)) }
{
    let y = number(token)?;
    let row = row_of(grid, y).ok_or(InputFault::PinOutside { at: y.at, id, pin })?;
    Ok(row)
}

/// The row of a position, where it is inside the grid.
#[tactic(auto, unfolding(crate::specs::Nets::tile_along))]
fn row_of(grid: &Grid, y: Number) -> Option<u32>
    requires { IsPosition y.value }
    ensures row { result ≡ tile_along (layout_of grid.now).origin.1 (layout_of grid.now).tile.1 (rows (size_of grid.now)) y.value }
    ensures below { IfSome result (λ i. i < rows (size_of grid.now)) }
{
    tile_index(grid.origin().1, grid.tile().1, grid.size().rows(), y.value)
}

/// The layer of a pin, which has this number within its net. It counts from 1.
#[tactic(auto, using(text_scan::proofs::Ranges::within_bounds))]
pub(crate) fn level(grid: &Grid, token: &CutToken, id: u32, pin: u32) -> Result<u32, InputError>
    ensures level { ReadsNext token.now (λ x. x) result (pin_level_at (header_of (layout_of grid.now)) id pin) }
    ensures least { IfOk result (λ i. 1 ≤ i) }
    ensures most { IfOk result (λ i. i ≤ layers (size_of grid.now)) }
{
    let layer = number(token)?;
    let level = layer
        .within(1, grid.size().layers())
        .ok_or(InputFault::PinLayer {
            at: layer.at,
            id,
            pin,
        })?;
    Ok(level)
}

/// The vertex of a pin in this column and row, on this layer, which counts from 1.
pub(crate) fn vertex(grid: &Grid, col: u32, row: u32, level: u32) -> Vertex
    requires col { col < cols (size_of grid.now) }
    requires row { row < rows (size_of grid.now) }
    requires least { 1 ≤ level }
    requires most { level ≤ layers (size_of grid.now) }
    ensures number { result.0 ≡ vertex_at (extent_of_size (size_of grid.now)) col row (level - 1) }
    ensures vertex { IsVertex (size_of grid.now) result.0 }
{
    let layer = level - 1;
    grid.size().vertex_of(Place { col, row, layer }).unwrap()
}
