//! Steps on one word, each an event of the core.

ghost use Rattle.std.specs.Prelude.{◌≡◌, ◌<◌, ◌≤◌, ◌+◌, [], length};
ghost use Rattle.load_core.specs.Parties.{added, loaded, share_at, taken, whole_allotment};
ghost use Rattle.load_core.specs.Soundness.{IsCloseTo};
ghost use Rattle.load_table.specs.Tables.{MayStep};

use crate::rule::Sums;
use atomic_table::{Play, Seat, Shared};
use load_core::Party;

/// An amount was added to the word.
struct Adding;

impl Play<u8, Party> for Adding {
    ghost then = { λ s me found now. now ≡ (added me.0 s.word s.first, me.1) };
}

/// An amount was taken from the word.
struct Taking;

impl Play<u8, Party> for Taking {
    ghost then = { λ s me found now. now ≡ (taken me.0 s.word s.first, me.1) };
}

/// The word was loaded.
struct Loading;

impl Play<u8, Party> for Loading {
    ghost then = { λ s me found now. (now ≡ (loaded me.0 s.word found, me.1)) × IsCloseTo me.0 s.word found };
}

/// Nothing happened, and the allotment was seen to be no more than the whole.
struct Looking;

impl Play<u8, Party> for Looking {
    ghost then = { λ s me found now. (now ≡ me) × (me.0.allot ≤ whole_allotment) };
}

pub(crate) fn add(
    table: &Shared<u8, Party, u64, Sums>,
    seat: &mut Seat<u8, Party>,
    word: usize,
    amount: u64,
)
    requires may { MayStep seat.old.table_id table.now.table_id table.now.key seat.old.me word }
    requires wide { word < length seat.old.me.0.shares }
    requires room { share_at word seat.old.me.0 + amount ≤ seat.old.me.0.allot }
    ensures party { seat.new.me ≡ (added seat.old.me.0 word amount, []) }
    ensures table { seat.new.table_id ≡ seat.old.table_id }
{
    table.fetch_add::<Adding>(seat, word, amount);
}

pub(crate) fn sub(
    table: &Shared<u8, Party, u64, Sums>,
    seat: &mut Seat<u8, Party>,
    word: usize,
    amount: u64,
)
    requires may { MayStep seat.old.table_id table.now.table_id table.now.key seat.old.me word }
    requires wide { word < length seat.old.me.0.shares }
    requires had { amount ≤ share_at word seat.old.me.0 }
    ensures party { seat.new.me ≡ (taken seat.old.me.0 word amount, []) }
    ensures table { seat.new.table_id ≡ seat.old.table_id }
{
    table.fetch_sub::<Taking>(seat, word, amount);
}

pub(crate) fn load(
    table: &Shared<u8, Party, u64, Sums>,
    seat: &mut Seat<u8, Party>,
    word: usize,
) -> u64
    requires may { MayStep seat.old.table_id table.now.table_id table.now.key seat.old.me word }
    ensures close { IsCloseTo seat.old.me.0 word result }
    ensures party { seat.new.me ≡ (loaded seat.old.me.0 word result, []) }
    ensures table { seat.new.table_id ≡ seat.old.table_id }
{
    table.load::<Loading>(seat, word)
}

/// A load of word 0 that is no event: it changes no party, and tells that this one has no more than the whole allotment.
pub(crate) fn look(table: &Shared<u8, Party, u64, Sums>, seat: &mut Seat<u8, Party>)
    requires table { seat.old.table_id ≡ table.now.table_id }
    requires words { 0 < table.now.table_id.words }
    ensures whole { seat.old.me.0.allot ≤ whole_allotment }
    ensures party { seat.new.me ≡ seat.old.me }
    ensures table { seat.new.table_id ≡ seat.old.table_id }
{
    table.load::<Looking>(seat, 0);
}
