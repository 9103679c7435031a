//! Settings of runs as fields of rows.

ghost use Rattle.std.specs.Prelude.{IfOk};
ghost use Rattle.routing_stages.specs.Settings.{AreSettings};

use routing_stages::Settings;
use std::test::Fail;
use test_rows::{number_of, three_numbers};

/// The settings that a field stands for: how many workers, phases and rounds, and the seed. There is no budget.
pub fn settings_of(field: &'static str) -> Result<Settings, Fail>
    ensures { IfOk result AreSettings }
{
    let (counts, seed) = field.rsplit_once(' ').ok_or("a seed")?;
    let (workers, phases, rounds) = three_numbers::<u32>(counts)?;
    if workers < 1 || workers > 8 || phases < 1 || phases > 16 || rounds > 16 {
        return Err(Fail::new("no such settings"));
    }
    Ok(Settings {
        workers,
        phases,
        rounds,
        seed: number_of(seed)?,
        budget: None,
    })
}
