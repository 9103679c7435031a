//! What lawful events do.

ghost use Rattle.std.specs.Prelude.{◌≡◌, OnOk, OnErr};
ghost use Rattle.load_core.specs.declared.event.Event.TheVariants.{Add, Join, Load, Split, Sub};
ghost use Rattle.load_core.specs.Events.{IsFit, IsLawful, WantsMemory, after};

use crate::core_state::Core;
use crate::event::Event;
use crate::party::Party;
use grid_base::NoMemory;
use std::mem::replace;

impl Core {
    pub(crate) fn make(&mut self, event: &Event) -> Result<(), NoMemory>
        requires fit { IsFit self.old }
        requires lawful { IsLawful self.old event.now }
        ensures made { OnOk result (self.new ≡ after self.old event.now) }
        ensures no_memory { OnErr result (self.new ≡ self.old) }
        ensures wanted { OnErr result (WantsMemory event.now) }
    {
        match event {
            Event::Add {
                party,
                word,
                amount,
            } => {
                self.add(*party, *word, *amount);
                Ok(())
            }
            Event::Sub {
                party,
                word,
                amount,
            } => {
                self.sub(*party, *word, *amount);
                Ok(())
            }
            Event::Load { party, word } => self.load(*party, *word),
            Event::Split {
                party,
                allot,
                given,
            } => self.split(*party, *allot, given.list()),
            Event::Join { into, from } => self.join(*into, *from),
        }
    }

    fn add(&mut self, party: u32, word: u32, amount: u64)
        requires fit { IsFit self.old }
        requires lawful { IsLawful self.old (Add party word amount) }
        ensures { self.new ≡ after self.old (Add party word amount) }
    {
        let found = self.words.get(word as usize);
        self.words.set(word as usize, found + amount);
        self.parties
            .at_mut(party as usize)
            .add(word as usize, amount);
    }

    fn sub(&mut self, party: u32, word: u32, amount: u64)
        requires fit { IsFit self.old }
        requires lawful { IsLawful self.old (Sub party word amount) }
        ensures { self.new ≡ after self.old (Sub party word amount) }
    {
        let found = self.words.get(word as usize);
        self.words.set(word as usize, found - amount);
        self.parties
            .at_mut(party as usize)
            .sub(word as usize, amount);
    }

    fn load(&mut self, party: u32, word: u32) -> Result<(), NoMemory>
        requires fit { IsFit self.old }
        requires lawful { IsLawful self.old (Load party word) }
        ensures made { OnOk result (self.new ≡ after self.old (Load party word)) }
        ensures no_memory { OnErr result (self.new ≡ self.old) }
    {
        let found = self.words.get(word as usize);
        self.parties.at_mut(party as usize).load(word, found)
    }

    fn split(&mut self, party: u32, allot: u64, given: &[u64]) -> Result<(), NoMemory>
        requires fit { IsFit self.old }
        requires lawful { IsLawful self.old (Split party allot given.now) }
        ensures made { OnOk result (self.new ≡ after self.old (Split party allot given.now)) }
        ensures no_memory { OnErr result (self.new ≡ self.old) }
    {
        let part = Party::split_off(self.words.allocator(), allot, given)?;
        self.parties.push(part)?;
        self.parties.at_mut(party as usize).give(allot, given);
        Ok(())
    }

    fn join(&mut self, into: u32, from: u32) -> Result<(), NoMemory>
        requires fit { IsFit self.old }
        requires lawful { IsLawful self.old (Join into from) }
        ensures made { OnOk result (self.new ≡ after self.old (Join into from)) }
        ensures no_memory { OnErr result (self.new ≡ self.old) }
    {
        let nobody = Party::nobody(self.words.allocator());
        let mut gone = replace(self.parties.at_mut(from as usize), nobody);
        let joined = self.parties.at_mut(into as usize).join(&mut gone);
        *self.parties.at_mut(from as usize) = gone;
        joined
    }
}
