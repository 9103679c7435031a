//! How many nets are in a batch.

ghost use Rattle.std.specs.Prelude.{◌≡◌, ◌<◌};
ghost use Rattle.negotiation.specs.BatchSizes.{batch_size, pass_batch, round_batch};

use crate::due::Due;

/// The fewest nets of a batch.
const LEAST: usize = 4;
/// In a pass over a design a batch has one net for so many of the design. The more nets are in it, the less the workers wait for
/// one another and the fewer threads are started, but nets of one batch don't see one another's sets.
const NETS_PER_PLACE: usize = 600;
/// The most nets of a batch of a pass.
const MOST: usize = 512;
/// Nets that push one another off full edges have to see one another: a batch of a round has no more than one net for so many of
/// the design.
const NETS_PER_RIVAL: usize = 2500;
/// The most nets of a batch of a round.
const MOST_RIVALS: usize = 32;
/// A round has at least so many batches, as long as these have more than the fewest nets: the last nets with overfull edges would
/// else move at once, away from one edge to another, round after round.
const BATCHES_OF_ROUND: usize = 16;

/// How many nets are in a batch of a pass over a design with so many nets.
pub(crate) fn pass_batch(nets: usize) -> usize
    ensures some { 0 < result }
    ensures size { result ≡ pass_batch nets }
{
    (nets / NETS_PER_PLACE).max(LEAST).min(MOST)
}

/// How many nets are in a batch of a round in which so many of the nets may be due.
fn round_batch(nets: usize, may_be_due: usize) -> usize
    ensures { result ≡ round_batch nets may_be_due }
{
    (may_be_due / BATCHES_OF_ROUND)
        .min(nets / NETS_PER_RIVAL)
        .min(MOST_RIVALS)
        .max(LEAST)
}

/// How many nets are in a batch, of so many that may be due.
pub(crate) fn batch_size(nets: usize, may_be_due: usize, due: Due) -> usize
    ensures { result ≡ batch_size nets may_be_due due }
{
    match due {
        Due::Overfull => round_batch(nets, may_be_due),
        Due::Improvable => pass_batch(nets),
    }
}
