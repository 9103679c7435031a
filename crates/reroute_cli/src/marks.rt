//! Marks of nets.

ghost use Rattle.std.specs.Prelude.{◌≡◌};
ghost use Rattle.reroute_cli.specs.NewRoutes.{marked_count};

/// How many of the marks are set.
pub(crate) fn marked_count(marks: &[bool]) -> u64
    ensures { result ≡ marked_count marks.now }
{
    marks.iter().filter(|mark| **mark).count() as u64
}
