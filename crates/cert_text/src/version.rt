//! The two versions of the text.

ghost use Rattle.std.specs.Prelude.{◌≡◌};

use tree_set::Budget;

/// A version of the text: the second one has a budget.
#[derive(Clone, Copy, Debug, Drop, PartialEq, Eq)]
pub enum Version {
    One,
    Two,
}

impl Version {
    ghost use Rattle.cert_text.specs.Versions.{version_of, version_text, denominator_limit};

    /// The version of a certificate with this budget, or with none.
    pub fn of(budget: Option<Budget>) -> Version
        ensures { result ≡ version_of budget }
    {
        match budget {
            None => Version::One,
            Some(_) => Version::Two,
        }
    }

    /// The version as it is written.
    pub fn text(self) -> &'static [u8]
        ensures { result.now ≡ version_text self }
    {
        match self {
            Version::One => b"1",
            Version::Two => b"2",
        }
    }

    /// The greatest denominator of a fraction.
    pub fn max_denominator(self) -> u128
        ensures { result ≡ denominator_limit self }
    {
        match self {
            Version::One => 1 << 57,
            Version::Two => 1 << 58,
        }
    }
}
