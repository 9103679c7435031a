//! What is next where nets are read.

ghost use Rattle.std.specs.Prelude.{◌≡◌};
ghost use Rattle.ispd_reader.specs.NetStages.{is_last_stage, is_net_name, wanted_at_stage};

use design_tokens::Wanted;

/// The token that is next.
#[derive(Clone, Copy, Debug, Drop)]
pub(crate) enum NetStage {
    /// The word `num`.
    Num,
    /// The word `net`.
    Net,
    /// How many nets follow.
    Count,
    /// The name of a net.
    Name,
    /// Its id.
    Id,
    /// How many pins it has.
    PinCount,
    /// Its width.
    Width,
    /// The x of a pin.
    X,
    /// The y of a pin in this column.
    Y { col: u32 },
    /// The layer of a pin in this column and row.
    Layer { col: u32, row: u32 },
    /// None: all nets are there.
    Done,
}

impl NetStage {
    /// Whether nothing is next.
    pub(crate) fn is_last(self) -> bool
        ensures { result ≡ is_last_stage self }
    {
        matches!(self, NetStage::Done)
    }

    /// Whether a name is next.
    pub(crate) fn is_name(self) -> bool
        ensures { result ≡ is_net_name self }
    {
        matches!(self, NetStage::Name)
    }

    /// The word, name or number that is next.
    pub(crate) fn wanted(self) -> Wanted
        ensures { result ≡ wanted_at_stage self }
    {
        match self {
            NetStage::Num => Wanted::Num,
            NetStage::Net => Wanted::Net,
            NetStage::Name => Wanted::Name,
            _ => Wanted::Number,
        }
    }
}
