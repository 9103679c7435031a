//! Loads of words, one after another.

ghost use Rattle.std.specs.Prelude.{◌≡◌, ◌≤◌, ◌+◌, ℕ, [], slice_index};
ghost use Rattle.load_core.specs.Parties.{whole_allotment};
ghost use Rattle.load_table.specs.Blocks.{ArePut, block_len};
ghost use Rattle.load_table.specs.Holdings.{IsShare, held};
ghost use Rattle.load_table.specs.Runs.{LoadsBetween};

use crate::found::BLOCK;
use crate::rule::Sums;
use crate::steps;
use atomic_table::{Seat, Shared};
use load_core::Party;

/// Loads the words of a block that begins here, in rising order, and answers what was found there.
#[inline(always)]
pub(crate) fn load_block(
    table: &Shared<u8, Party, u64, Sums>,
    seat: &mut Seat<u8, Party>,
    first: u32,
) -> [u64; BLOCK]
    requires same { seat.old.table_id ≡ table.now.table_id }
    requires told { table.now.key ≡ table.now.table_id.words }
    requires free { seat.old.me.1 ≡ [] }
    requires share { IsShare (held seat.old.table_id seat.old.me.0) }
    requires block { first + block_len ≤ table.now.table_id.words }
    ensures table { seat.new.table_id ≡ seat.old.table_id }
    ensures free { seat.new.me.1 ≡ [] }
    ensures share { IsShare (held seat.new.table_id seat.new.me.0) }
    ensures read { LoadsBetween first (first + block_len) seat.old.me.0 seat.new.me.0 }
    ensures put { ArePut first block_len result seat.old.me.0.last seat.new.me.0.last }
    ensures whole { (k : ℕ) → slice_index result k ≤ whole_allotment }
{
    let mut found = [0; BLOCK];
    for k in 0..BLOCK {
        found[k] = steps::load(table, seat, first as usize + k);
    }
    found
}
