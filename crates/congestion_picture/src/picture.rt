//! A picture of congestion.

ghost use Rattle.std.specs.Prelude.{◌≡◌, ◌<◌, ◌+◌, ◌^◌};
ghost use Rattle.gr_desk.specs.Pens.{Puts, pen_told, HasSameDesk};
ghost use Rattle.congestion_picture.specs.CellMaps.{IsCellMap};
ghost use Rattle.congestion_picture.specs.Pictures as words;
ghost use Rattle.congestion_picture.specs.Pictures.{AreCutEdges, CanBePut, cells_text, cut_part, group_text, map_text, maps_text, marks_text, picture_text, sample_part, scale_text};

use crate::cell_map::CellMap;
use crate::cut_lines::put_cut;
use crate::head::{put_facts, put_head};
use crate::paint::Paint;
use crate::paths::put_path;
use crate::scale_bar::{put_class_samples, put_cut_sample, put_line_samples};
use congestion_cells::ShownLayers;
use gr_desk::{Desk, Pen};
use tree_set::Measure;

/// The maps of a picture.
#[derive(Drop)]
pub enum Maps {
    /// One of each direction.
    Both { along_x: CellMap, along_y: CellMap },
    /// One of the greater of the two.
    Greater(CellMap),
}

/// What a picture shows beside its name.
#[derive(Drop)]
pub struct Picture {
    pub measure: Measure,
    pub shown: ShownLayers,
    pub maps: Maps,
    /// The tile edges of a cut, if one is shown.
    pub cut: Option<Vec<u32>>,
}

/// So far from the edge of the picture its first map stands, and so far from each other the others.
const MARGIN: u128 = 20;

const GAP: u128 = 40;

/// So many units above the maps are taken by the name and what is measured.
const TOP: u128 = 120;

/// So wide the scale is, and so high at least.
const SCALE_WIDTH: u128 = 180;

const SCALE_HEIGHT: u128 = 340;

/// A picture is at least so wide, so that what is measured has room.
const LEAST_WIDTH: u128 = 600;

impl Maps {
    /// The first of them.
    fn first(&self) -> &CellMap
        ensures { result.now ≡ words.first_map self.now }
    {
        match self {
            Maps::Both { along_x, .. } => along_x,
            Maps::Greater(map) => map,
        }
    }

    /// How far they reach, with the gap behind each.
    fn across(&self) -> u128
        ensures value { result ≡ words.across self.now }
        ensures small { result < 2 ^ 66 }
    {
        match self {
            Maps::Both { along_x, along_y } => {
                u128::from(along_x.width()) + GAP + u128::from(along_y.width()) + GAP
            }
            Maps::Greater(map) => u128::from(map.width()) + GAP,
        }
    }
}

/// Puts the begin of a group that stands so far to the right.
fn put_group<D: Desk>(pen: &mut Pen<'_, D>, left: u128)
    ensures same_desk { HasSameDesk pen.old pen.new }
    ensures puts { Puts (pen_told D.told pen.old) (pen_told D.told pen.new) (group_text left) }
{
    pen.put(b"<g transform=\"translate(");
    pen.put_number(left);
    pen.put(b",120)\">\n");
}

/// Puts the cells of a map, a path for each class but that of no load.
fn put_cells<D: Desk>(pen: &mut Pen<'_, D>, map: &CellMap)
    requires { IsCellMap map.now }
    ensures same_desk { HasSameDesk pen.old pen.new }
    ensures puts { Puts (pen_told D.told pen.old) (pen_told D.told pen.new) (cells_text map.now) }
{
    put_path(pen, map, Paint::Class(1), b"stroke=\"#fcffa4\"");
    put_path(pen, map, Paint::Class(2), b"stroke=\"#f6d746\"");
    put_path(pen, map, Paint::Class(3), b"stroke=\"#fca50a\"");
    put_path(pen, map, Paint::Class(4), b"stroke=\"#f37819\"");
    put_path(pen, map, Paint::Class(5), b"stroke=\"#dd513a\"");
    put_path(pen, map, Paint::Class(6), b"stroke=\"#bc3754\"");
    put_path(pen, map, Paint::Class(7), b"stroke=\"#932667\"");
    put_path(pen, map, Paint::Class(8), b"stroke=\"#6a176e\"");
    put_path(pen, map, Paint::Class(9), b"stroke=\"#420a68\"");
    put_path(pen, map, Paint::Class(10), b"stroke=\"#160b39\"");
    put_path(pen, map, Paint::Class(11), b"stroke=\"#000004\"");
}

/// Puts the hatching of closed cells, and of partly closed ones.
fn put_hatching<D: Desk>(pen: &mut Pen<'_, D>, map: &CellMap)
    requires { IsCellMap map.now }
    ensures same_desk { HasSameDesk pen.old pen.new }
    ensures puts { Puts (pen_told D.told pen.old) (pen_told D.told pen.new) (words.hatching_text map.now) }
{
    put_path(
        pen,
        map,
        Paint::Closed,
        b"stroke=\"#777\" stroke-width=\".2\" shape-rendering=\"auto\"",
    );
    put_path(
        pen,
        map,
        Paint::PartlyClosed,
        b"stroke=\"#777\" stroke-width=\".2\" stroke-dasharray=\".3 .7\" shape-rendering=\"auto\"",
    );
}

/// Puts the lines of a cut over a map, if there is one.
fn put_cut_part<D: Desk>(pen: &mut Pen<'_, D>, map: &CellMap, cut: &Option<Vec<u32>>)
    requires { AreCutEdges map.now.raster cut.now }
    ensures same_desk { HasSameDesk pen.old pen.new }
    ensures puts { Puts (pen_told D.told pen.old) (pen_told D.told pen.new) (cut_part map.now.raster cut.now) }
{
    match cut {
        Some(cut) => put_cut(pen, map, cut.as_slice()),
        None => {}
    }
}

/// Puts a map so far to the right.
fn put_map<D: Desk>(
    pen: &mut Pen<'_, D>,
    map: &CellMap,
    left: u128,
    label: &[u8],
    cut: &Option<Vec<u32>>,
)
    requires cells { IsCellMap map.now }
    requires cut { AreCutEdges map.now.raster cut.now }
    ensures same_desk { HasSameDesk pen.old pen.new }
    ensures puts { Puts (pen_told D.told pen.old) (pen_told D.told pen.new) (map_text map.now left label.now cut.now) }
{
    put_group(pen, left);
    pen.put(b"<text y=\"-10\">");
    pen.put(label);
    pen.put(b"</text>\n<g transform=\"translate(0,");
    pen.put_number(map.scale() / 2);
    pen.put(b") scale(");
    pen.put_number(map.scale());
    pen.put(b")\" fill=\"none\" shape-rendering=\"crispEdges\">\n");
    put_cells(pen, map);
    put_hatching(pen, map);
    pen.put(b"</g>\n<rect fill=\"none\" stroke=\"#999\" width=\"");
    pen.put_number(map.width());
    pen.put(b"\" height=\"");
    pen.put_number(map.height());
    pen.put(b"\"/>\n");
    put_path(
        pen,
        map,
        Paint::Overfull,
        b"class=\"overfull\" transform=\"translate(-1,-1)\" fill=\"none\" stroke=\"#00a0ff\" stroke-width=\"2\"",
    );
    put_cut_part(pen, map, cut);
    pen.put(b"</g>\n");
}

/// Puts the sample of a cut, if there is one.
fn put_sample_part<D: Desk>(pen: &mut Pen<'_, D>, cut: &Option<Vec<u32>>)
    ensures same_desk { HasSameDesk pen.old pen.new }
    ensures puts { Puts (pen_told D.told pen.old) (pen_told D.told pen.new) (sample_part cut.now) }
{
    match cut {
        Some(_) => put_cut_sample(pen),
        None => {}
    }
}

/// Puts the scale so far to the right, and the end of the picture.
fn put_scale<D: Desk>(pen: &mut Pen<'_, D>, left: u128, cut: &Option<Vec<u32>>)
    ensures same_desk { HasSameDesk pen.old pen.new }
    ensures puts { Puts (pen_told D.told pen.old) (pen_told D.told pen.new) (scale_text left cut.now) }
{
    put_group(pen, left);
    put_class_samples(pen);
    put_line_samples(pen);
    put_sample_part(pen, cut);
    pen.put(b"</g>\n</svg>\n");
}

/// Puts the maps side by side.
fn put_maps<D: Desk>(pen: &mut Pen<'_, D>, maps: &Maps, cut: &Option<Vec<u32>>)
    requires { CanBePut maps.now cut.now }
    ensures same_desk { HasSameDesk pen.old pen.new }
    ensures puts { Puts (pen_told D.told pen.old) (pen_told D.told pen.new) (maps_text maps.now cut.now) }
{
    match maps {
        Maps::Both { along_x, along_y } => {
            put_map(pen, along_x, MARGIN, b"edges along x", cut);
            let left = MARGIN + u128::from(along_x.width()) + GAP;
            put_map(pen, along_y, left, b"edges along y", cut);
        }
        Maps::Greater(map) => put_map(
            pen,
            map,
            MARGIN,
            b"the fuller of the edges along x and y",
            cut,
        ),
    }
}

/// Puts the picture of a design of this name.
pub fn put_picture<D: Desk>(pen: &mut Pen<'_, D>, name: &str, picture: &Picture)
    requires maps { CanBePut picture.now.maps picture.now.cut }
    requires layers { picture.now.shown.first + picture.now.shown.count < 2 ^ 31 }
    ensures same_desk { HasSameDesk pen.old pen.new }
    ensures puts { Puts (pen_told D.told pen.old) (pen_told D.told pen.new) (picture_text name.now picture.now) }
{
    let first = picture.maps.first();
    let left = MARGIN + picture.maps.across();
    let width = (left + SCALE_WIDTH).max(LEAST_WIDTH);
    let height = TOP + u128::from(first.height()).max(SCALE_HEIGHT) + MARGIN;
    put_head(pen, name, width, height);
    put_facts(pen, &picture.measure, picture.shown, first.raster.side);
    put_maps(pen, &picture.maps, &picture.cut);
    put_scale(pen, left, &picture.cut);
}
