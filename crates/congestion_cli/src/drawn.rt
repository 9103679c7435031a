//! The drawing of a design with its routes' loads.

ghost use Rattle.std.specs.Prelude.{◌≡◌, ◌*◌, ℕ, IfOk, length, map, slice_index};
ghost use Rattle.std.specs.List.{range_with_len};
ghost use Rattle.grid_graph.specs.Flat.{tiles};
ghost use Rattle.congestion_cells.specs.declared.cell.Cell.{Cell as AnyCell};
ghost use Rattle.congestion_picture.specs.CellMaps.{IsCellMap};
ghost use Rattle.congestion_picture.specs.Pictures.{AreCutEdges, CanBePut};
ghost use Rattle.congestion_cells.specs.Cells.{edge_cell};
ghost use Rattle.congestion_cells.specs.TileUses.{AreLayersOf};
ghost use Rattle.command_words.specs.MapLine.{form_task_of};
ghost use Rattle.grid_graph.specs.Grids.{edge_numbers, size_of};
ghost use Rattle.congestion_cli.specs.Drawings.{IsDrawable};
ghost use Rattle.congestion_cli.specs.MapHeadline.{AreMapsOf, AreWholeMapsOf, IsCutOf, IsDrawingOf, IsMapOf, each_of};

use crate::drawing::Drawing;
use cert_text::Cert;
use command_words::MapForm;
use congestion_cells::{Cell, Direction, Raster, ShownLayers, cut_edges, edge_cells, map_cells};
use congestion_picture::{CellMap, Maps, Picture};
use grid_base::{NoMemory, Size};
use grid_graph::{Design, Grid};
use route_judge::listed_prices;
use std::alloc::Global;
use tree_set::Measure;

/// The map of a direction.
fn map_of(
    alloc: Global,
    size: Size,
    direction: Direction,
    edge_cells: &[Cell],
) -> Result<CellMap, NoMemory>
    requires { length edge_cells.now ≡ 2 * tiles size }
    ensures map { (cell : ℕ → AnyCell) → edge_cells.now ≡ map cell (range_with_len 0 (2 * tiles size)) → IfOk result (IsMapOf size direction cell) }
    ensures whole { IfOk result IsCellMap }
    ensures size { IfOk result (λ m. m.raster.size ≡ size) }
{
    let raster = Raster::of(size, direction);
    let cells = map_cells(alloc, raster, edge_cells)?;
    Ok(CellMap { raster, cells })
}

/// The maps of a grid's loads.
fn maps_of(
    alloc: Global,
    grid: &Grid,
    loads: &[u64],
    shown: ShownLayers,
    greater: bool,
) -> Result<Maps, NoMemory>
    requires layers { AreLayersOf (size_of grid.now) shown }
    requires loads { length loads.now ≡ edge_numbers grid.now }
    ensures maps { IfOk result (AreMapsOf (size_of grid.now) (edge_cell grid.now (slice_index loads.now) shown) greater) }
    ensures whole { IfOk result (AreWholeMapsOf (size_of grid.now)) }
{
    let cells = edge_cells(alloc, grid, loads, shown)?;
    let size = grid.size();
    if greater {
        return Ok(Maps::Greater(map_of(alloc, size, Direction::Greater, cells.as_slice())?));
    }
    let along_x = map_of(alloc, size, Direction::X, cells.as_slice())?;
    let along_y = map_of(alloc, size, Direction::Y, cells.as_slice())?;
    Ok(Maps::Both { along_x, along_y })
}

/// The tile edges that a certificate prices, if there is one.
fn cut_of(
    alloc: Global,
    grid: &Grid,
    shown: ShownLayers,
    cert: &Option<Cert>,
) -> Result<Option<Vec<u32>>, NoMemory>
    requires { AreLayersOf (size_of grid.now) shown }
    ensures { IfOk result (IsCutOf grid.now shown cert.now) }
{
    let Some(cert) = cert else {
        return Ok(None);
    };
    let prices = listed_prices(alloc, grid, cert.prices.list())?;
    Ok(Some(cut_edges(alloc, grid.size(), prices.as_slice(), shown)?))
}

/// What is asked for, by the loads of all edges.
pub(crate) fn drawing_of(
    alloc: Global,
    design: Design,
    loads: Vec<u64>,
    shown: ShownLayers,
    form: MapForm<'_>,
    cert: &Option<Cert>,
    measure: Measure,
) -> Result<Drawing, NoMemory>
    requires loads { length loads.items ≡ edge_numbers design.grid }
    requires layers { AreLayersOf (size_of design.grid) shown }
    ensures drawing { IfOk result (IsDrawingOf design loads.items shown (form_task_of form.entry) cert.now measure) }
    ensures drawable { IfOk result IsDrawable }
{
    match form {
        MapForm::Svg(picture) => {
            let maps = maps_of(
                alloc,
                &design.grid,
                loads.as_slice(),
                shown,
                picture.greater,
            )?;
            let cut = cut_of(alloc, &design.grid, shown, cert)?;
            Ok(Drawing::Picture(Picture {
                measure,
                shown,
                maps,
                cut,
            }))
        }
        MapForm::Csv(table) => Ok(Drawing::Table {
            design,
            loads,
            shown,
            each: each_of(table.layers, shown),
        }),
    }
}

/// The layers with columns of their own.
fn each_of(by_layer: bool, shown: ShownLayers) -> ShownLayers
    ensures { result ≡ each_of by_layer shown }
{
    if by_layer {
        return shown;
    }
    ShownLayers { first: 0, count: 0 }
}
