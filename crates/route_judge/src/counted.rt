//! What a certificate counts.

ghost use Rattle.std.specs.Prelude.{◌≡◌};
ghost use Rattle.route_judge.specs.Counted.{counted_word};

/// What a certificate counts of a design. Of the prices there is one for each open edge.
#[derive(Debug, Drop, Clone, Copy, PartialEq, Eq)]
pub enum Counted {
    Nets,
    Forced,
    Prices,
}

impl Counted {
    /// The word for it in a report.
    pub fn word(self) -> &'static str
        ensures { result.now ≡ counted_word self }
    {
        match self {
            Counted::Nets => "nets",
            Counted::Forced => "forced",
            Counted::Prices => "prices",
        }
    }
}
