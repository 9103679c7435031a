//! A net that no ground joins.

ghost use Rattle.std.specs.Prelude.{◌≡◌};
ghost use Rattle.grid_graph.specs.GroundErrors.{unreachable_number};

use thiserror::Error;

/// A net whose terminals open and choked edges with vias don't join.
#[derive(Debug, Drop, Clone, Copy, PartialEq, Eq, Error)]
#[error("net {id} is unreachable: its terminal {terminal} is not joined to its first one")]
pub struct UnreachableNet {
    /// The net's id.
    pub id: u32,
    /// The place among its terminals, from 0, of the first one that isn't joined to the first.
    pub terminal: u32,
}

impl UnreachableNet {
    /// The number of such a net among the faults that a report names.
    pub fn number(self) -> u32
        ensures { result ≡ unreachable_number }
    {
        4
    }
}
