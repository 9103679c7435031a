//! The lists of the text that have a number per layer.

ghost use Rattle.std.specs.Prelude.{◌≡◌};
ghost use Rattle.ispd_reader.specs.LayerLists.{first_word, second_word};

use design_tokens::Wanted;

/// A list that has a number per layer.
#[derive(Clone, Copy, Debug, Drop, PartialEq, Eq)]
pub(crate) enum LayerList {
    Vertical,
    Horizontal,
    Widths,
    Spacings,
    Vias,
}

impl LayerList {
    /// The first of the two words before its numbers.
    pub(crate) fn first_word(self) -> Wanted
        ensures { result ≡ first_word self }
    {
        match self {
            LayerList::Vertical => Wanted::Vertical,
            LayerList::Horizontal => Wanted::Horizontal,
            LayerList::Widths | LayerList::Spacings => Wanted::Minimum,
            LayerList::Vias => Wanted::Via,
        }
    }

    /// The second one.
    pub(crate) fn second_word(self) -> Wanted
        ensures { result ≡ second_word self }
    {
        match self {
            LayerList::Vertical | LayerList::Horizontal => Wanted::Capacity,
            LayerList::Widths => Wanted::Width,
            LayerList::Spacings | LayerList::Vias => Wanted::Spacing,
        }
    }
}
