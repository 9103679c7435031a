//! Settings.

ghost use Rattle.std.specs.Prelude.{◌≡◌, ◌≤◌};
ghost use Rattle.grid_base.specs.Numbers.{vertices};
ghost use Rattle.routing_stages.specs.Limits.{max_workers};
ghost use Rattle.routing_stages.specs.Settings.{AreSettings, workers_in_use};

use grid_base::Size;
use label_search::MAX_LABELLED;

/// What a run is asked for: 1 to 8 workers, 1 to 16 phases, at most 16 rounds of repair, the seed of the picks, and the
/// wirelength that is to be kept, from 1 to 2^42, or none.
#[derive(Debug, Clone, Copy, Drop)]
pub struct Settings {
    pub workers: u32,
    pub phases: u32,
    pub rounds: u32,
    pub seed: u64,
    pub budget: Option<u64>,
}

impl Settings {
    /// How many workers run on a grid of this size: those that are asked for, as far as there is memory for their labels.
    pub fn workers_in_use(&self, size: Size) -> u32
        requires { AreSettings self.now }
        ensures value { result ≡ workers_in_use self.now.workers (vertices size) }
        ensures some { 1 ≤ result }
        ensures limit { result ≤ max_workers }
    {
        self.workers.min(MAX_LABELLED / size.vertices())
    }
}
