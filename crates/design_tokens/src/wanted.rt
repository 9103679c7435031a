//! The words of the format.

ghost use Rattle.std.specs.Prelude.{◌≡◌, Some};
ghost use Rattle.design_tokens.specs.Words.{spelling};

use std::fmt;

/// What a design text was to have at some place: one of its fixed words, a number or a name. It is
/// printed as that word.
#[derive(Clone, Copy, Debug, Drop, PartialEq, Eq)]
pub enum Wanted {
    Grid,
    Vertical,
    Horizontal,
    Capacity,
    Minimum,
    Width,
    Spacing,
    Via,
    Num,
    Net,
    Number,
    Name,
}

impl Wanted {
    /// The word, in lower case.
    pub fn word(self) -> &'static str
        ensures { result.now ≡ spelling self }
    {
        match self {
            Wanted::Grid => "grid",
            Wanted::Vertical => "vertical",
            Wanted::Horizontal => "horizontal",
            Wanted::Capacity => "capacity",
            Wanted::Minimum => "minimum",
            Wanted::Width => "width",
            Wanted::Spacing => "spacing",
            Wanted::Via => "via",
            Wanted::Num => "num",
            Wanted::Net => "net",
            Wanted::Number => "number",
            Wanted::Name => "name",
        }
    }
}

impl fmt::Display for Wanted {
    ghost output = { λ wanted. Some (spelling wanted) };

    fn fmt<W: fmt::Write>(&self, f: &mut fmt::Formatter<W>) -> fmt::Result {
        f.write_str(self.word())
    }
}
