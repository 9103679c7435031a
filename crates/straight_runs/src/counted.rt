//! How many pieces runs have.

ghost use Rattle.std.specs.Prelude.{◌≡◌, ◌*◌, ◌≤◌, All, length};
ghost use Rattle.grid_base.specs.Lists.{HasNoRepeats};
ghost use Rattle.grid_base.specs.Numbers.{vertices};
ghost use Rattle.straight_runs.specs.Runs.{IsStraightRun, pieces_of};

use crate::run::Run;
use grid_base::Size;

/// How many pieces some disjoint runs have, which is at most that of all pieces of the size.
pub fn piece_count(size: Size, runs: &[Run]) -> u64
    requires runs { All (IsStraightRun size) runs.now }
    requires distinct { HasNoRepeats (pieces_of size runs.now) }
    ensures value { result ≡ length (pieces_of size runs.now) }
    ensures limit { result ≤ 3 * vertices size }
{
    let mut count = 0;
    for run in runs {
        count += u64::from(run.count);
    }
    count
}
