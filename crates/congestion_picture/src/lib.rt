//! Maps of congestion as texts: a picture (SVG 1.1), and a table (CSV).
//!
//! ```text
//! let mut pen = Pen::new(desk, Port::MapOut);
//! put_picture(&mut pen, "few_exits.gr", &picture);                  // <?xml version="1.0" encoding="UTF-8"?> ..
//! put_table(&mut pen, &grid, loads, shown, ShownLayers::none());    // column,row,direction,load,capacity ..
//! pen.finish()?;
//! ```
//!
//! A picture has a title, one map or two, and a scale. Cells of one class that stand side by side are one stroke, and all strokes
//! of a class are one path, so a picture of 324 by 324 tiles has some hundred thousand characters. Rows go upwards, as in the
//! design's coordinates.
//!
//! It stands on `congestion_cells` for what the cells are, on `cert_text` for fractions, on `gr_desk` to write to, and on
//! `tree_set`, `grid_graph` and `grid_base`.
//!
//! Promised, in the words of `specs/Pictures.antt` and `specs/Tables.antt`: exactly these texts are put. Each cell is part of the
//! path of its class, each overfull one is marked, and each tile edge has its line with its own numbers.

#![tactic(auto)]

mod cell_map;
mod cut_lines;
mod head;
mod paint;
mod paths;
mod picture;
mod scale_bar;
mod table;

pub use cell_map::CellMap;
pub use paint::Paint;
pub use picture::{Maps, Picture, put_picture};
pub use table::put_table;
