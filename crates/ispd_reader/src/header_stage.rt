//! How far what stands before the nets has been read.

ghost use Rattle.std.specs.Prelude.{◌≡◌};
ghost use Rattle.ispd_reader.specs.HeaderStages.{wanted_at};

use crate::layer_list::LayerList;
use design_tokens::Wanted;
use grid_base::Size;
use text_scan::Number;

/// The next token, and what was read before it.
#[derive(Clone, Copy, Debug, Drop)]
pub(crate) enum HeaderStage {
    /// One of those that say the size.
    Size(SizeStage),
    /// One of a list that has a number per layer.
    List {
        size: Size,
        list: LayerList,
        stage: ListStage,
    },
    /// One of those that say where the tiles lie.
    Tiles {
        size: Size,
        stage: LayoutStage,
    },
}

/// The next token of the size.
#[derive(Clone, Copy, Debug, Drop)]
pub(crate) enum SizeStage {
    Grid,
    Cols,
    Rows { cols: Number },
    Layers { cols: Number, rows: Number },
}

/// The next token of a list.
#[derive(Clone, Copy, Debug, Drop)]
pub(crate) enum ListStage {
    FirstWord,
    SecondWord,
    /// So many of its numbers have been read.
    Value { done: u32 },
}

/// The next of the numbers that say where the tiles lie.
#[derive(Clone, Copy, Debug, Drop)]
pub(crate) enum LayoutStage {
    Left,
    Lower { left: i64 },
    Width { origin: (i64, i64) },
    Height { origin: (i64, i64), width: i64 },
}

impl HeaderStage {
    /// The word, or number, that is next.
    pub(crate) fn wanted(self) -> Wanted
        ensures { result ≡ wanted_at self }
    {
        match self {
            HeaderStage::Size(SizeStage::Grid) => Wanted::Grid,
            HeaderStage::Size(_) | HeaderStage::Tiles { .. } => Wanted::Number,
            HeaderStage::List { list, stage, .. } => match stage {
                ListStage::FirstWord => list.first_word(),
                ListStage::SecondWord => list.second_word(),
                ListStage::Value { .. } => Wanted::Number,
            },
        }
    }
}
