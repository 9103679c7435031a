//! What the searches of a batch see.

ghost use Rattle.std.specs.Prelude.{◌≡◌, ◌↔◌, IsTrue, Some};

use grid_base::NoMemory;
use grid_graph::{Design, Ground};
use net_search::{Field, Stage};
use tree_growth::Growth;
use tree_set::Tree;

/// What all searches of a batch see: the nets with their grounds, the sets that they have, the rooms and prices of the edges, how
/// far beyond its box each net may look, and whose turn it is among a net's terminals to be the first.
#[derive(Clone, Copy, Drop)]
pub(crate) struct Sight<'a> {
    pub design: &'a Design,
    pub grounds: &'a [Ground],
    pub trees: &'a [Tree],
    pub field: Field<'a>,
    pub margins: &'a [u32],
    pub turn: usize,
}

/// What the work on a net is beside that on the pieces of its set, by pieces.
const WORK_ON_NET: u64 = 8;

impl Sight<'_> {
    ghost use Rattle.std.specs.Prelude.{◌≡◌, ◌≢◌, ◌<◌, ◌-◌, ◌^◌, IfOk, Some, [], length, min, slice_index_or};
    ghost use Rattle.std.specs.List.{sum_by};
    ghost use Rattle.net_search.specs.declared.stage.Stage.TheVariants.{Start};
    ghost use Rattle.negotiation.specs.Searches.{ArePlaces, IsFoundFor, IsSight};
    ghost use Rattle.negotiation.specs.Work.{work_on_net};

    /// A new set for the net at this place, where one is found. After the start the very set that the net has counts as none:
    /// putting it in would change nothing.
    pub fn search(&self, net: u32, growth: &mut Growth) -> Result<Option<Tree>, NoMemory>
        requires sight { IsSight self.now }
        requires net { net < length self.now.design.now.nets }
        ensures found { IfOk result (IsFoundFor self.now.design.now net) }
        ensures other { self.now.field.stage ≢ Start → IfOk result (λ found. found ≢ Some (slice_index_or self.now.trees.now net [])) }
    {
        let found = self.grown(net as usize, growth)?;
        if self.field.stage != Stage::Start && is_set(&found, &self.trees[net as usize]) {
            return Ok(None);
        }
        Ok(found)
    }

    /// How much work it is to search for these nets: a guess from the sets that they have.
    pub fn work_on(&self, nets: &[u32]) -> u64
        requires sight { IsSight self.now }
        requires nets { ArePlaces self.now.design.now nets.now }
        ensures { result ≡ min (sum_by (work_on_net self.now) nets.now) (2 ^ 64 - 1) }
    {
        let mut work: u64 = 0;
        for net in nets {
            work = work.saturating_add(self.work_on_net(*net));
        }
        work
    }

    /// How much work it is to search for a net.
    fn work_on_net(&self, net: u32) -> u64
        requires sight { IsSight self.now }
        requires net { net < length self.now.design.now.nets }
        ensures { result ≡ min (work_on_net self.now net) (2 ^ 64 - 1) }
    {
        (self.trees[net as usize].pieces().len() as u64).saturating_add(WORK_ON_NET)
    }

    /// A set for the net at this place, where one is found.
    fn grown(&self, net: usize, growth: &mut Growth) -> Result<Option<Tree>, NoMemory>
        requires sight { IsSight self.now }
        requires net { net < length self.now.design.now.nets }
        ensures { IfOk result (IsFoundFor self.now.design.now net) }
    {
        growth.tree(
            &self.design.grid,
            self.field,
            &self.design.nets.list()[net],
            self.grounds[net],
            &self.trees[net],
            self.turn,
            self.margins[net],
        )
    }
}

/// Whether what was found is this set.
fn is_set(found: &Option<Tree>, tree: &Tree) -> bool
    ensures { IsTrue result ↔ found.now ≡ Some tree.now }
{
    match found {
        Some(new) => new.pieces() == tree.pieces(),
        None => false,
    }
}
