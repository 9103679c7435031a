//! A number of a text.

ghost use Rattle.std.specs.Prelude.{◌≡◌};
ghost use Rattle.text_scan.specs.Within.{within};

/// A number, and the place of its first byte in the text.
#[derive(Clone, Copy, Debug, Drop, PartialEq, Eq)]
pub struct Number {
    pub value: i64,
    pub at: usize,
}

impl Number {
    /// The number, where it is from `lo` to `hi`.
    pub fn within(self, lo: u32, hi: u32) -> Option<u32>
        ensures { result ≡ within lo hi self.value }
    {
        if i64::from(lo) <= self.value && self.value <= i64::from(hi) {
            Some(self.value as u32)
        } else {
            None
        }
    }
}
