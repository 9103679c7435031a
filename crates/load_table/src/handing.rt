//! A seat is split in two, and two are joined.

ghost use Rattle.std.specs.Prelude.{◌≡◌, ◌<◌, ℕ, List, [], true};
ghost use Rattle.load_core.specs.Parties.{IsPart, joined, kept_after_split, nobody, split_off};

use crate::rule::Sums;
use atomic_table::{Join, Seat, Shared, Split};
use load_core::Party;
use std::marker::{Brand, PhantomData};

/// What a split hands on. Each call picks it.
trait Handing {
    ghost allot: { ℕ };

    ghost given: { List ℕ };
}

impl Handing for Brand {
    ghost allot = { 0 };

    ghost given = { [] };
}

struct Splitting<H: Handing>(PhantomData<H>);

impl<H: Handing> Split<Party> for Splitting<H> {
    ghost left = { λ p. kept_after_split p H.allot H.given };

    ghost right = { λ p. split_off H.allot H.given };
}

struct Joining;

impl Join<Party> for Joining {
    ghost both = { joined };

    ghost spent = { nobody };
}

fn split_as<H: Handing>(
    table: &Shared<u8, Party, u64, Sums>,
    seat: &mut Seat<u8, Party>,
    allot: u64,
    given: &[u64],
) -> Seat<u8, Party>
    requires table { seat.old.table_id ≡ table.now.table_id }
    requires live { seat.old.me.0.live ≡ true }
    requires words { 0 < table.now.table_id.words }
    requires key { table.now.key ≡ table.now.table_id.words }
    requires part { IsPart table.now.table_id.words seat.old.me.0 allot given.now }
    requires picked { (allot ≡ H.allot) × (given.now ≡ H.given) }
    ensures other { result.me ≡ (split_off allot given.now, []) }
    ensures party { seat.new.me ≡ (kept_after_split seat.old.me.0 allot given.now, seat.old.me.1) }
    ensures table { (seat.new.table_id ≡ seat.old.table_id) × (result.table_id ≡ seat.old.table_id) }
{
    table.split_seat::<Splitting<H>>(seat)
}

/// The seat of a new party, to which the amounts of an old one are handed on.
pub(crate) fn split(
    table: &Shared<u8, Party, u64, Sums>,
    seat: &mut Seat<u8, Party>,
    allot: u64,
    given: &[u64],
) -> Seat<u8, Party>
    requires table { seat.old.table_id ≡ table.now.table_id }
    requires live { seat.old.me.0.live ≡ true }
    requires words { 0 < table.now.table_id.words }
    requires key { table.now.key ≡ table.now.table_id.words }
    requires part { IsPart table.now.table_id.words seat.old.me.0 allot given.now }
    ensures other { result.me ≡ (split_off allot given.now, []) }
    ensures party { seat.new.me ≡ (kept_after_split seat.old.me.0 allot given.now, seat.old.me.1) }
    ensures table { (seat.new.table_id ≡ seat.old.table_id) × (result.table_id ≡ seat.old.table_id) }
{
    split_as::<Brand>(table, seat, allot, given)
}

/// Joins the party of another seat into this one's.
pub(crate) fn join(
    table: &Shared<u8, Party, u64, Sums>,
    seat: &mut Seat<u8, Party>,
    other: Seat<u8, Party>,
)
    requires table { (seat.old.table_id ≡ table.now.table_id) × (other.table_id ≡ table.now.table_id) }
    requires live { seat.old.me.0.live ≡ true }
    requires words { 0 < table.now.table_id.words }
    requires free { other.me.1 ≡ [] }
    ensures party { seat.new.me ≡ (joined seat.old.me.0 other.me.0, seat.old.me.1) }
    ensures table { seat.new.table_id ≡ seat.old.table_id }
{
    table.join_seat::<Joining>(seat, other);
}
