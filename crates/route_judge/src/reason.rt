//! Why routes, or a certificate, don't meet a design.

ghost use Rattle.std.specs.Prelude.{◌≡◌};
ghost use Rattle.route_judge.specs.Reasons.{reason_number};

use crate::counted::Counted;
use tree_set::Fraction;

/// Why routes, or a certificate, don't meet a design: the first reason in the order of the tests. Blocks are numbered from 0
/// in the order of the text, and segments from 0 within their block. `id` is a net's.
#[derive(Debug, Drop, Clone, Copy, PartialEq, Eq)]
pub enum Reason {
    /// No net has the block's id.
    UnknownNet {
        block: u32,
    },
    /// An earlier block has the id.
    RepeatedNet {
        id: u32,
    },
    /// The net has two or more terminals and no block.
    MissingNet {
        id: u32,
    },
    /// An end of the segment is outside the grid's rectangle or its layers.
    PointOutside {
        block: u32,
        segment: u32,
    },
    /// The ends of the segment differ in more than one of column, row and layer.
    Slanted {
        block: u32,
        segment: u32,
    },
    /// The segment crosses a wall.
    OnWall {
        block: u32,
        segment: u32,
    },
    /// The block's pieces don't join the net's terminals.
    NotJoined {
        id: u32,
    },
    /// The certificate states another overflow than that of the routes.
    WrongOverflow {
        stated: u64,
        found: u64,
    },
    /// It states another wirelength.
    WrongWirelength {
        stated: u64,
        found: u64,
    },
    /// It states another peak.
    WrongPeak {
        stated: Option<Fraction>,
        found: Option<Fraction>,
    },
    /// It states another number of what is counted.
    WrongCount {
        what: Counted,
        stated: u64,
        found: u64,
    },
    /// It states a bound that its prices don't show.
    BoundTooHigh {
        stated: Option<Fraction>,
        found: Option<Fraction>,
    },
}

impl Reason {
    /// Its number, 41 to 52.
    pub fn number(self) -> u32
        ensures { result ≡ reason_number self }
    {
        match self {
            Reason::UnknownNet { .. } => 41,
            Reason::RepeatedNet { .. } => 42,
            Reason::MissingNet { .. } => 43,
            Reason::PointOutside { .. } => 44,
            Reason::Slanted { .. } => 45,
            Reason::OnWall { .. } => 46,
            Reason::NotJoined { .. } => 47,
            Reason::WrongOverflow { .. } => 48,
            Reason::WrongWirelength { .. } => 49,
            Reason::WrongPeak { .. } => 50,
            Reason::WrongCount { .. } => 51,
            Reason::BoundTooHigh { .. } => 52,
        }
    }
}
