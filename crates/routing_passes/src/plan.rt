//! What a pass routes.

ghost use Rattle.std.specs.Prelude.{◌≡◌, ◌≤◌, length};
ghost use Rattle.grid_graph.specs.Limits.{max_nets};
ghost use Rattle.routing_stages.specs.Limits.{max_workers};
ghost use Rattle.sharing_runs.specs.Parts.{part_start};

use even_parts::part_start;

/// The positions of the nets that get new sets, in rising order, the scale of the prices, how many workers there are, and the
/// wirelength that is to be kept, or none.
#[derive(Debug, Drop)]
pub struct Plan {
    pub positions: Vec<u32>,
    pub scale: u32,
    pub workers: u32,
    pub budget: Option<u64>,
}

impl Plan {
    /// Where among the positions the turns of the workers from one up to another begin, and where they end.
    pub(crate) fn turns_of(&self, first: u32, last: u32) -> (usize, usize)
        requires workers { (1 ≤ self.now.workers) × (self.now.workers ≤ max_workers) }
        requires range { (first ≤ last) × (last ≤ self.now.workers) }
        requires few { length self.now.positions.items ≤ max_nets }
        ensures from { result.0 ≡ part_start self.now.workers (length self.now.positions.items) first }
        ensures to { result.1 ≡ part_start self.now.workers (length self.now.positions.items) last }
        ensures within { (result.0 ≤ result.1) × (result.1 ≤ length self.now.positions.items) }
    {
        let workers = self.workers as usize;
        let nets = self.positions.len();
        let from = part_start(workers, nets, first as usize);
        let to = part_start(workers, nets, last as usize);
        (from, to)
    }
}
