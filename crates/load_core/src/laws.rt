//! Laws of events: each is the contract of a call that does nothing.

ghost use Rattle.std.specs.Prelude.{◌≡◌, ℕ, List, slice_index};
ghost use Rattle.load_core.specs.declared.core_state.Core.{Core};
ghost use Rattle.load_core.specs.declared.event.Event.{Event};
ghost use Rattle.load_core.specs.declared.event.Event.TheVariants.{Load};
ghost use Rattle.load_core.specs.Events.{IsFit, IsLawful, after, party_at};
ghost use Rattle.load_core.specs.Parties.{share_at, whole_allotment};
ghost use Rattle.load_core.specs.Runs.{AreLawful, after_all};
ghost use Rattle.load_core.specs.Soundness.{IsCloseTo};

/// Events that are lawful one after another keep a core sound, whichever parties make them and in whatever order.
pub fn every_order_of_events_is_sound()
    ensures { (core : Core) (events : List Event) → IsFit core → AreLawful core events → IsFit (after_all core events) }
{}

/// After a Load the last value is the word. It is at least the party's own share, and above it by no more than the rest
/// of the allotments; so it is the share where the party has the whole allotment.
pub fn loads_are_close()
    ensures value { (core : Core) (party word : ℕ) → IsFit core → IsLawful core (Load party word)
        → slice_index (party_at (after core (Load party word)) party).last word ≡ slice_index core.words word }
    ensures close { (core : Core) (party word : ℕ) → IsFit core → IsLawful core (Load party word)
        → IsCloseTo (party_at core party) word (slice_index core.words word) }
    ensures alone { (core : Core) (party word : ℕ) → IsFit core → IsLawful core (Load party word) → (party_at core party).allot ≡ whole_allotment
        → slice_index core.words word ≡ share_at word (party_at core party) }
{}
