//! The step that each token before the nets makes, where it adds nothing to a list.

ghost use Rattle.std.specs.Prelude.{◌≡◌, ◌≤◌, option_map};
ghost use Rattle.grid_base.specs.Numbers.{layers};
ghost use Rattle.ispd_reader.specs.declared.header_stage.HeaderStage.TheVariants as stages;
ghost use Rattle.ispd_reader.specs.declared.header_stage.ListStage.TheVariants.{FirstWord, SecondWord};
ghost use Rattle.ispd_reader.specs.declared.header_stage.SizeStage.TheVariants.{Layers};
ghost use Rattle.ispd_reader.specs.declared.layer_lists.LayerLists.{LayerLists};
ghost use Rattle.ispd_reader.specs.declared.header_stage.LayoutStage.TheVariants.{Left, Lower, Width};
ghost use Rattle.design_tokens.specs.Parsing.{Reading};
ghost use Rattle.ispd_reader.specs.Header.{extent_of};
ghost use Rattle.ispd_reader.specs.HeaderTails.{values_left};
ghost use Rattle.ispd_reader.specs.LayersRead.{AreRead, header_with};
ghost use Rattle.ispd_reader.specs.HeaderStages.{TakesStage, KeepsLimits, IsStage, stage_left};
ghost use Rattle.ispd_reader.specs.Views.{extent_of_size};

use crate::header_stage::{HeaderStage, LayoutStage, ListStage, SizeStage};
use crate::layer_list::LayerList;
use design_tokens::{CutToken, InputError, InputFault, Wanted, number, side, word};
use grid_base::{MAX_LAYERS, MAX_VERTICES, Size};
use text_scan::Number;

/// A token of the size.
pub(crate) fn size_token(token: &CutToken, stage: SizeStage) -> Result<HeaderStage, InputError>
    ensures takes { TakesStage token.now result (stages.Size stage) }
    ensures limits { KeepsLimits result (stages.Size stage) }
{
    match stage {
        SizeStage::Grid => {
            word(token, Wanted::Grid)?;
            Ok(HeaderStage::Size(SizeStage::Cols))
        }
        SizeStage::Cols => {
            let cols = number(token)?;
            Ok(HeaderStage::Size(SizeStage::Rows { cols }))
        }
        SizeStage::Rows { cols } => {
            let rows = number(token)?;
            Ok(HeaderStage::Size(SizeStage::Layers { cols, rows }))
        }
        SizeStage::Layers { cols, rows } => last_of_size(token, cols, rows),
    }
}

/// The number of layers.
fn last_of_size(token: &CutToken, cols: Number, rows: Number) -> Result<HeaderStage, InputError>
    ensures takes { TakesStage token.now result (stages.Size (Layers cols rows)) }
    ensures limits { KeepsLimits result (stages.Size (Layers cols rows)) }
{
    let layers = number(token)?;
    let size = size_of(cols, rows, layers).ok_or(InputFault::GridSize { at: layers.at })?;
    Ok(HeaderStage::List {
        size,
        list: LayerList::Vertical,
        stage: ListStage::FirstWord,
    })
}

/// The size that three numbers name.
fn size_of(cols: Number, rows: Number, layers: Number) -> Option<Size>
    ensures { option_map extent_of_size result ≡ extent_of cols.value rows.value layers.value }
{
    Size::new(
        cols.within(1, MAX_VERTICES)?,
        rows.within(1, MAX_VERTICES)?,
        layers.within(1, MAX_LAYERS)?,
    )
}

/// The first word of a list.
pub(crate) fn first_word(
    token: &CutToken,
    size: Size,
    list: LayerList,
) -> Result<HeaderStage, InputError>
    ensures takes { TakesStage token.now result (stages.List size list FirstWord) }
    ensures limits { KeepsLimits result (stages.List size list FirstWord) }
{
    word(token, list.first_word())?;
    Ok(HeaderStage::List {
        size,
        list,
        stage: ListStage::SecondWord,
    })
}

/// The second one.
pub(crate) fn second_word(
    token: &CutToken,
    size: Size,
    list: LayerList,
) -> Result<HeaderStage, InputError>
    ensures takes { TakesStage token.now result (stages.List size list SecondWord) }
    ensures limits { KeepsLimits result (stages.List size list SecondWord) }
{
    word(token, list.second_word())?;
    Ok(HeaderStage::List {
        size,
        list,
        stage: ListStage::Value { done: 0 },
    })
}

/// The stage where so many numbers of a list have been read.
pub(crate) fn behind_values(size: Size, list: LayerList, done: u32) -> HeaderStage
    requires { done ≤ layers size }
    ensures goes_on { (lists : LayerLists) → AreRead (layers size) list done lists → (r : Reading) → values_left list (header_with size lists) done r ≡ stage_left result lists r }
    ensures limits { (lists : LayerLists) → AreRead (layers size) list done lists → IsStage result lists }
{
    if done < size.layers() {
        return HeaderStage::List {
            size,
            list,
            stage: ListStage::Value { done },
        };
    }
    behind_list(size, list)
}

/// The stage behind a list.
fn behind_list(size: Size, list: LayerList) -> HeaderStage
    ensures goes_on { (lists : LayerLists) → AreRead (layers size) list (layers size) lists → (r : Reading) → values_left list (header_with size lists) (layers size) r ≡ stage_left result lists r }
    ensures limits { (lists : LayerLists) → AreRead (layers size) list (layers size) lists → IsStage result lists }
{
    let next = match list {
        LayerList::Vertical => LayerList::Horizontal,
        LayerList::Horizontal => LayerList::Widths,
        LayerList::Widths => LayerList::Spacings,
        LayerList::Spacings => LayerList::Vias,
        LayerList::Vias => {
            return HeaderStage::Tiles {
                size,
                stage: LayoutStage::Left,
            };
        }
    };
    HeaderStage::List {
        size,
        list: next,
        stage: ListStage::FirstWord,
    }
}

/// The x of the corner.
#[tactic(auto, unfolding(crate::specs::Header::origin_at))]
pub(crate) fn left_border(token: &CutToken, size: Size) -> Result<HeaderStage, InputError>
    ensures takes { TakesStage token.now result (stages.Tiles size Left) }
    ensures limits { KeepsLimits result (stages.Tiles size Left) }
{
    let left = number(token)?.value;
    Ok(HeaderStage::Tiles {
        size,
        stage: LayoutStage::Lower { left },
    })
}

/// The y of the corner.
pub(crate) fn lower_border(
    token: &CutToken,
    size: Size,
    left: i64,
) -> Result<HeaderStage, InputError>
    ensures takes { TakesStage token.now result (stages.Tiles size (Lower left)) }
    ensures limits { KeepsLimits result (stages.Tiles size (Lower left)) }
{
    let lower = number(token)?.value;
    Ok(HeaderStage::Tiles {
        size,
        stage: LayoutStage::Width {
            origin: (left, lower),
        },
    })
}

/// The width of a tile.
#[tactic(auto, unfolding(crate::specs::Header::tile_size_at))]
pub(crate) fn tile_width(
    token: &CutToken,
    size: Size,
    origin: (i64, i64),
) -> Result<HeaderStage, InputError>
    ensures takes { TakesStage token.now result (stages.Tiles size (Width origin)) }
    ensures limits { KeepsLimits result (stages.Tiles size (Width origin)) }
{
    let width = side(token)?;
    Ok(HeaderStage::Tiles {
        size,
        stage: LayoutStage::Height { origin, width },
    })
}
