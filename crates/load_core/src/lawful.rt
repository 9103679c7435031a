//! Which events are lawful.

ghost use Rattle.std.specs.Prelude.{◌≡◌, IsTrue, ◌↔◌, MatchOption, slice_index_or, true, false};
ghost use Rattle.load_core.specs.declared.event.Event.TheVariants.{Add, Join, Load, Split, Sub};
ghost use Rattle.load_core.specs.Events.{IsFit, IsLawful};
ghost use Rattle.load_core.specs.Parties.{nobody};

use crate::core_state::Core;
use crate::event::Event;
use crate::party::Party;

// The most parties that a core has.
const MOST_PARTIES: usize = u32::MAX as usize;

impl Core {
    pub(crate) fn is_lawful(&self, event: &Event) -> bool
        requires { IsFit self.now }
        ensures { IsTrue result ↔ IsLawful self.now event.now }
    {
        match event {
            Event::Add {
                party,
                word,
                amount,
            } => self.may_add(*party, *word, *amount),
            Event::Sub {
                party,
                word,
                amount,
            } => self.may_sub(*party, *word, *amount),
            Event::Load { party, word } => self.may_load(*party, *word),
            Event::Split {
                party,
                allot,
                given,
            } => self.may_split(*party, *allot, given.list()),
            Event::Join { into, from } => self.may_join(*into, *from),
        }
    }

    // The party with this number, if it is live.
    fn live(&self, at: u32) -> Option<&Party>
        ensures { MatchOption result ((slice_index_or self.now.parties at nobody).live ≡ false) (λ p. (p.now ≡ slice_index_or self.now.parties at nobody) × (p.now.live ≡ true)) }
    {
        let party = self.parties.list().get(at as usize)?;
        if party.live { Some(party) } else { None }
    }

    fn may_load(&self, party: u32, word: u32) -> bool
        ensures { IsTrue result ↔ IsLawful self.now (Load party word) }
    {
        self.live(party).is_some() && (word as usize) < self.words.list().len()
    }

    fn may_add(&self, party: u32, word: u32, amount: u64) -> bool
        ensures { IsTrue result ↔ IsLawful self.now (Add party word amount) }
    {
        let Some(party) = self.live(party) else {
            return false;
        };
        let share = party.share(word as usize);
        (word as usize) < self.words.list().len()
            && share <= party.allot
            && amount <= party.allot - share
    }

    fn may_sub(&self, party: u32, word: u32, amount: u64) -> bool
        ensures { IsTrue result ↔ IsLawful self.now (Sub party word amount) }
    {
        let Some(party) = self.live(party) else {
            return false;
        };
        (word as usize) < self.words.list().len() && amount <= party.share(word as usize)
    }

    fn may_split(&self, party: u32, allot: u64, given: &[u64]) -> bool
        requires { IsFit self.now }
        ensures { IsTrue result ↔ IsLawful self.now (Split party allot given.now) }
    {
        let Some(party) = self.live(party) else {
            return false;
        };
        self.parties.list().len() < MOST_PARTIES
            && given.len() == self.words.list().len()
            && party.may_give(allot, given)
    }

    fn may_join(&self, into: u32, from: u32) -> bool
        ensures { IsTrue result ↔ IsLawful self.now (Join into from) }
    {
        into != from && self.live(into).is_some() && self.live(from).is_some()
    }
}
