//! Proofs of net bounds.

use brought_bounds::{Moats, Table};

/// What proves a net bound at a price list: a table that holds for the net's terminals and, where there are more than five,
/// for five of them that are spread, with moats around all.
#[derive(Drop)]
pub struct NetProof {
    pub table: Table,
    pub moats: Option<Moats>,
}
