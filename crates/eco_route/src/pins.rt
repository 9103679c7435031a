//! The pins of an edit on a grid.

ghost use Rattle.std.specs.Prelude.{◌≡◌, ◌<◌, ◌≤◌, ◌↔◌, All, IfOk, IsTrue, None, false, length, ◌-◌, ◌≤ℤ◌, pos, nat_abs};
ghost use Rattle.std.specs.List.{position};
ghost use Rattle.edit_text.specs.EditRanges.{IsPinInRange};
ghost use Rattle.grid_base.specs.Numbers.{layers, vertices};
ghost use Rattle.grid_graph.specs.Grids.{size_of, IsNetWidth};
ghost use Rattle.grid_graph.specs.Terms.{numbers};
ghost use Rattle.eco_route.specs.PinPlaces as places;
ghost use Rattle.eco_route.specs.PinPlaces.{pin_vertex, pin_vertices};

use edit_text::Pin;
use grid_base::{NoMemory, Place, Vertex};
use grid_graph::{Grid, MAX_DEMAND};
use std::alloc::Global;

/// Whether a pin is outside the grid's closed rectangle.
fn is_outside(grid: &Grid, pin: Pin) -> bool
    requires { IsPinInRange pin }
    ensures { result ≡ places.is_outside grid.now pin }
{
    grid.tile_of(pin.x, pin.y).is_none()
}

/// Whether a pin is on no layer of the grid.
fn is_off_layers(grid: &Grid, pin: Pin) -> bool
    requires { IsPinInRange pin }
    ensures { result ≡ places.is_off_layers grid.now pin }
{
    pin.layer < 1 || pin.layer > i64::from(grid.size().layers())
}

/// The first pin outside the grid's closed rectangle.
pub(crate) fn first_outside(grid: &Grid, pins: &[Pin]) -> Option<usize>
    requires { All IsPinInRange pins.now }
    ensures { result ≡ position (places.is_outside grid.now) pins.now }
{
    for i in 0..pins.len() {
        let pin = pins[i];
        if is_outside(grid, pin) {
            return Some(i);
        }
    }
    None
}

/// The first pin on no layer of the grid.
pub(crate) fn first_off_layers(grid: &Grid, pins: &[Pin]) -> Option<usize>
    requires { All IsPinInRange pins.now }
    ensures { result ≡ position (places.is_off_layers grid.now) pins.now }
{
    for i in 0..pins.len() {
        let pin = pins[i];
        if is_off_layers(grid, pin) {
            return Some(i);
        }
    }
    None
}

/// Whether a net is so wide that its demand on some layer would be above the limit.
pub(crate) fn is_too_wide(grid: &Grid, width: u32) -> bool
    requires { width ≤ MAX_DEMAND }
    ensures { IsTrue result ↔ ¬ IsNetWidth grid.now width }
{
    for layer in 0..grid.size().layers() {
        if width + grid.spacing(layer) > MAX_DEMAND {
            return true;
        }
    }
    false
}

/// The vertices of pins that all lie on the grid.
pub(crate) fn vertices_of(alloc: Global, grid: &Grid, pins: &[Pin]) -> Result<Vec<Vertex>, NoMemory>
    requires range { All IsPinInRange pins.now }
    requires inside { position (places.is_outside grid.now) pins.now ≡ None }
    requires layers { position (places.is_off_layers grid.now) pins.now ≡ None }
    ensures vertices { IfOk result (λ found. numbers found.items ≡ pin_vertices grid.now pins.now) }
    ensures within { IfOk result (λ found. All (λ v. v < vertices (size_of grid.now)) (numbers found.items)) }
{
    let mut found = Vec::with_capacity(alloc, pins.len())?;
    for i in 0..pins.len() {
        let pin = pins[i];
        found.push(vertex_of(grid, pin))?;
    }
    Ok(found)
}

/// The vertex of a pin that lies on the grid.
fn vertex_of(grid: &Grid, pin: Pin) -> Vertex
    requires range { IsPinInRange pin }
    requires inside { places.is_outside grid.now pin ≡ false }
    requires layer { places.is_off_layers grid.now pin ≡ false }
    ensures vertex { result.0 ≡ pin_vertex grid.now pin }
    ensures within { result.0 < vertices (size_of grid.now) }
{
    let (col, row) = grid.tile_of(pin.x, pin.y).unwrap();
    let place = Place {
        col,
        row,
        layer: layer_of(grid, pin.layer),
    };
    grid.size().vertex_of(place).unwrap()
}

/// The layer of this number, which counts from 1.
fn layer_of(grid: &Grid, number: i64) -> u32
    requires low { pos 1 ≤ℤ number }
    requires high { number ≤ℤ pos (layers (size_of grid.now)) }
    ensures value { result ≡ nat_abs number - 1 }
    ensures within { result < layers (size_of grid.now) }
{
    number as u32 - 1
}
