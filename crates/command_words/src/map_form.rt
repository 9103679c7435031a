//! The form of a map.

use crate::picture::Picture;
use crate::table::Table;

/// The form of a map, by the ending of its name.
#[derive(Clone, Copy, Debug, Drop)]
pub enum MapForm<'a> {
    /// A picture, whose name ends in `.svg`.
    Svg(Picture<'a>),
    /// A table, whose name ends in `.csv`.
    Csv(Table),
}
