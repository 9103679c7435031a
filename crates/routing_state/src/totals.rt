//! Overflow and wirelength.

/// The overflow and the wirelength of one set per net.
#[derive(Debug, Drop, Clone, Copy)]
pub struct Totals {
    /// How much more than the capacities the loads are, over all open and choked edges.
    pub overflow: u64,
    /// How many pieces the sets have: edges and vias.
    pub wirelength: u64,
}

impl Totals {
    ghost use Rattle.std.specs.Prelude.{◌↔◌, IsTrue};
    ghost use Rattle.routing_state.specs.Totals.{IsBetter};

    /// Whether these are better: less overflow, or as much and less wirelength.
    pub fn is_better(&self, than: Totals) -> bool
        ensures { IsTrue result ↔ IsBetter self.now than }
    {
        self.overflow < than.overflow
            || self.overflow == than.overflow && self.wirelength < than.wirelength
    }
}
