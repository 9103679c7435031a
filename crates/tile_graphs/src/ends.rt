//! The nodes that a net has to join.

ghost use Rattle.std.specs.Prelude.{◌≡◌, ◌≢◌, ◌↔◌, ◌<◌, ℕ, IsPermutation, IsTrue, length, slice_index, slice_set};
ghost use Rattle.std.specs.List.Sorted.{IsNonDecreasing};
ghost use Rattle.tile_graphs.specs.Bundles.{AreOthersBefore, no_end, sets_of_ends};

/// Stands for no node.
const NO_NODE: u32 = u32::MAX;

/// So many nodes of a net are looked at: by so many it is found what a net costs at least.
pub const MOST_ENDS: usize = 8;

/// The nodes of a net, each once and in rising order, and then `NO_NODE`.
#[derive(Debug, Drop, Clone, Copy, PartialEq, Eq, PartialOrd, Ord)]
pub struct Ends {
    pub nodes: [u32; MOST_ENDS],
}

impl Ends {
    /// No nodes.
    pub const NONE: Ends = Ends {
        nodes: [NO_NODE; MOST_ENDS],
    };

    /// With one node more, where it is new and there is room.
    pub fn with(self, node: u32) -> Ends
        ensures known { (place : ℕ) → place < length self.nodes → AreOthersBefore self.nodes node place
            → slice_index self.nodes place ≡ node → result ≡ self }
        ensures full { AreOthersBefore self.nodes node (length self.nodes) → result ≡ self }
        ensures new { (place : ℕ) → place < length self.nodes → AreOthersBefore self.nodes node place
            → slice_index self.nodes place ≡ no_end → node ≢ no_end → IsPermutation (slice_set self.nodes place node) result.nodes }
        ensures rising { (place : ℕ) → place < length self.nodes → AreOthersBefore self.nodes node place
            → slice_index self.nodes place ≡ no_end → node ≢ no_end → IsNonDecreasing result.nodes }
    {
        let mut nodes = self.nodes;
        for place in 0..MOST_ENDS {
            if nodes[place] == node {
                return self;
            }
            if nodes[place] == NO_NODE {
                nodes[place] = node;
                nodes.sort_unstable();
                return Ends { nodes };
            }
        }
        self
    }

    /// Whether there are two nodes at least.
    pub fn are_apart(self) -> bool
        ensures { IsTrue result ↔ (slice_index self.nodes 1 ≢ no_end) }
    {
        self.nodes[1] != NO_NODE
    }

    /// How many sets there are of the nodes but the first one.
    pub fn sets(self) -> u32
        ensures { result ≡ sets_of_ends self.nodes }
    {
        let mut sets: u32 = 1;
        for place in 1..MOST_ENDS {
            if self.nodes[place] == NO_NODE {
                return sets;
            }
            sets = sets.saturating_mul(2);
        }
        sets
    }
}
