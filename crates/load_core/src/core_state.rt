//! The core.

ghost use Rattle.std.specs.Prelude.{◌≡◌, ◌<◌, ◌^◌, ℕ, length, IsTrue, ◌↔◌, if◌then◌else◌, IfOk, OnErr};
ghost use Rattle.load_core.specs.Events.{IsFit, IsLawful, WantsMemory, after, new_core};
ghost use Rattle.load_core.specs.Runs.{IsAfter, IsStopped};

use crate::amounts::Amounts;
use crate::event::Event;
use crate::parties::Parties;
use crate::party::{Party, WHOLE_ALLOTMENT};
use grid_base::NoMemory;
use std::alloc::Global;

/// Words, and the parties that have shares of them.
#[derive(Debug, Drop)]
pub struct Core {
    pub words: Amounts,
    pub parties: Parties,
}

impl Core {
    /// So many words, all 0, and one live party with the whole allotment, which is 2^62.
    pub fn new(alloc: Global, words: u32) -> Result<Core, NoMemory>
        ensures core { IfOk result (λ core. core ≡ new_core words) }
        ensures fit { IfOk result (λ core. IsFit core) }
    {
        let numbers = Amounts::zeros(alloc, words as usize)?;
        let first = Party::split_off(alloc, WHOLE_ALLOTMENT, numbers.list())?;
        let mut parties = Parties::of(Vec::new(alloc));
        parties.push(first)?;
        Ok(Core {
            words: numbers,
            parties,
        })
    }

    /// Makes the event where it is lawful, and answers whether it is.
    pub fn step(&mut self, event: &Event) -> Result<bool, NoMemory>
        requires fit { IsFit self.old }
        ensures lawful { IfOk result (λ made. IsTrue made ↔ IsLawful self.old event.now) }
        ensures core { IfOk result (λ made. self.new ≡ (if made then after self.old event.now else self.old)) }
        ensures fit { IsFit self.new }
        ensures no_memory { OnErr result (self.new ≡ self.old) }
        ensures wanted { OnErr result (WantsMemory event.now) }
    {
        if !self.is_lawful(event) {
            return Ok(false);
        }
        self.make(event)?;
        Ok(true)
    }

    /// Makes the events one after another up to the first that isn't lawful, and answers how many these are. After want
    /// of memory some first events were made.
    pub fn run(&mut self, events: &[Event]) -> Result<u32, NoMemory>
        requires fit { IsFit self.old }
        requires few { length events.now < 2 ^ 32 }
        ensures core { IfOk result (λ n. IsAfter self.old events.now n self.new) }
        ensures stopped { IfOk result (λ n. IsStopped self.new events.now n) }
        ensures fit { IsFit self.new }
        ensures no_memory { OnErr result ((n : ℕ) × IsAfter self.old events.now n self.new) }
    {
        let mut made = 0;
        for event in events {
            if !self.step(event)? {
                return Ok(made);
            }
            made += 1;
        }
        Ok(made)
    }
}
