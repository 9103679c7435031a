//! What a share has of all words.

ghost use Rattle.std.specs.Prelude.{◌≡◌, length};
ghost use Rattle.load_table.specs.Holdings.{IsShare};

use load_core::WHOLE_ALLOTMENT;
use load_table::Share;

/// Writes down what a share has of each word.
pub fn write_shares(share: &Share, words: u32, loads: &mut [u64])
    requires words { share.now.table.words ≡ words }
    requires long { length loads.old ≡ words }
    ensures shares { loads.new ≡ share.now.party.shares }
    ensures long { length loads.new ≡ words }
    ensures share { IsShare share.now }
{
    // By this call the proof knows that a share has an entry for each word.
    prove!(share.allotment() <= WHOLE_ALLOTMENT);
    for word in 0..words {
        loads[word as usize] = share.share_of(word);
    }
}
