//! Extents of numbers.

/// The least and the greatest of some columns, rows or layers.
#[derive(Debug, Drop, Clone, Copy, PartialEq, Eq)]
pub struct Extent {
    pub least: u32,
    pub greatest: u32,
}

impl Extent {
    ghost use Rattle.std.specs.Prelude.{◌≡◌};
    ghost use Rattle.steiner_exact.specs.Boxes.{with_number, width_with};

    /// The extent of no number.
    pub const NONE: Extent = Extent {
        least: u32::MAX,
        greatest: 0,
    };

    /// The extent with one more number.
    pub fn with(self, x: u32) -> Extent
        ensures { result ≡ with_number self x }
    {
        Extent {
            least: self.least.min(x),
            greatest: self.greatest.max(x),
        }
    }

    /// How far it reaches with one more number.
    pub fn width_with(self, x: u32) -> u32
        ensures { result ≡ width_with self x }
    {
        self.greatest.max(x) - self.least.min(x)
    }
}
