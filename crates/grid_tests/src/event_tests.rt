//! Worked examples of the events of `load_core`.

ghost use Rattle.std.specs.Prelude.{◌<◌, ◌^◌, length};
ghost use Rattle.load_core.specs.Events.{IsFit};

use grid_base::NoMemory;
use load_core::{Amounts, Core, Event, Party};
use std::alloc::{AllocError, Global};
use std::test::Fail;
use test_rows::{Answers, check_rows, number_of, numbers_text, three_fields, two_numbers};

/// A split, of which nothing of so many words is given.
fn split(alloc: Global, party: u32, allot: u64, words: usize) -> Result<Event, AllocError> {
    let given = Amounts::of(vec![in alloc; 0; words]?);
    Ok(Event::Split {
        party,
        allot,
        given,
    })
}

/// The event that a field stands for: its name, its party, and what follows of the word, the amount, the allotment or the
/// other party. A split gives nothing of so many words.
fn event_of(alloc: Global, field: &'static str, words: usize) -> Result<Event, Fail> {
    let (name, rest) = field.split_once(' ').ok_or("an event")?;
    let (party, rest) = rest.split_once(' ').ok_or("a party")?;
    let party = number_of(party)?;
    match name {
        "split" => Ok(split(alloc, party, number_of(rest)?, words)?),
        "load" => Ok(Event::Load {
            party,
            word: number_of(rest)?,
        }),
        "join" => Ok(Event::Join {
            into: party,
            from: number_of(rest)?,
        }),
        _ => changing_of(name, party, rest),
    }
}

/// An event that changes a word.
fn changing_of(name: &str, party: u32, numbers: &'static str) -> Result<Event, Fail> {
    let (word, amount) = two_numbers::<u32>(numbers)?;
    let amount = u64::from(amount);
    match name {
        "add" => Ok(Event::Add {
            party,
            word,
            amount,
        }),
        "sub" => Ok(Event::Sub {
            party,
            word,
            amount,
        }),
        _ => Err(Fail::new("no event")),
    }
}

/// The events that a field lists, with a semicolon between two.
fn events_of(alloc: Global, field: &'static str, words: usize) -> Result<Vec<Event>, Fail> {
    let mut events = Vec::new(alloc);
    for event in field.split(';') {
        events.push(event_of(alloc, event, words)?)?;
    }
    Ok(events)
}

/// Whether a party is live, its allotment, its shares, its last values, and the values that it loaded.
fn party_text(alloc: Global, party: &Party) -> Result<String, AllocError> {
    let mut numbers = Vec::new(alloc);
    numbers.push(u64::from(party.live))?;
    numbers.push(party.allot)?;
    numbers.extend_from_slice(party.shares.list())?;
    numbers.extend_from_slice(party.last.list())?;
    for load in party.history.list() {
        numbers.push(load.value)?;
    }
    numbers_text(alloc, &numbers)
}

/// How many events were made, the words, and what is known of each party.
fn state_text(alloc: Global, made: u32, core: &Core) -> Result<String, AllocError> {
    let mut text = made.to_string(alloc)?;
    text.push_str(numbers_text(alloc, core.words.list())?.as_str())?;
    for party in core.parties.list() {
        text.push_str(";")?;
        text.push_str(party_text(alloc, party)?.as_str())?;
    }
    Ok(text)
}

/// Makes each of some events that is lawful, and answers whether the last one is.
fn step_by_step(core: &mut Core, events: &[Event]) -> Result<bool, NoMemory>
    requires { IsFit core.old }
    ensures { IsFit core.new }
{
    let mut made = false;
    for event in events {
        made = core.step(event)?;
    }
    Ok(made)
}

/// How many values the last party loaded.
fn last_loads(core: &Core) -> usize {
    match core.parties.list().last() {
        Some(party) => party.history.list().len(),
        None => 0,
    }
}

/// What is asked for, how many words and events there are, the events, and what is known behind them.
///
/// A run makes those before the first that is not lawful. In steps only the unlawful one is left out, and the number is that of
/// the last. Many events are those of `many_events`: how many of them are made, and how many values the last party loaded.
const EVENTS: &str =
    "# half of the allotment goes to party 1, which adds 5; party 0 loads, takes away what it hasn't, and takes party 1 in
steps|1 1|split 0 2305843009213693952|1 0; 1 2305843009213693952 0 0; 1 2305843009213693952 0 0
steps|1 2|split 0 2305843009213693952;add 1 0 5|1 5; 1 2305843009213693952 0 0; 1 2305843009213693952 5 0
steps|1 3|split 0 2305843009213693952;add 1 0 5;load 0 0|1 5; 1 2305843009213693952 0 5 5; 1 2305843009213693952 5 0
steps|1 4|split 0 2305843009213693952;add 1 0 5;load 0 0;sub 0 0 1|0 5; 1 2305843009213693952 0 5 5; 1 2305843009213693952 5 0
steps|1 5|split 0 2305843009213693952;add 1 0 5;load 0 0;sub 0 0 1;join 0 1|1 5; 1 4611686018427387904 5 5 5; 0 0 0 0
# the fourth of these is not lawful, nor is the last one on a party that was taken in; a join appends the history and leaves nothing
run|1 5|split 0 2305843009213693952;add 1 0 5;load 0 0;sub 0 0 1;join 0 1|3 5; 1 2305843009213693952 0 5 5; 1 2305843009213693952 5 0
run|2 7|split 0 7;add 1 1 7;load 1 1;sub 1 1 3;load 0 1;join 0 1;load 1 0|6 0 4; 1 4611686018427387904 0 4 0 4 4 7; 0 0 0 0 0 7
many|5000 5002||5002 5000";

struct Known;

impl Answers for Known {
    fn answer(&self, alloc: Global, given: &'static str) -> Result<String, Fail> {
        let (kind, sizes, events) = three_fields(given)?;
        let (words, count) = two_numbers(sizes)?;
        let events = match kind {
            "many" => many_events(alloc, words)?,
            _ => events_of(alloc, events, words as usize)?,
        };
        known_behind(alloc, kind, words, count, &events)
    }
}

#[test]
fn words_and_shares_move_together(rt: HostRuntime) -> Result<(), Fail> {
    check_rows(rt.alloc(), EVENTS, &Known)
}

/// What is known of so many words behind so many events.
fn known_behind(
    alloc: Global,
    kind: &str,
    words: u32,
    count: u32,
    events: &[Event],
) -> Result<String, Fail> {
    if events.len() != count as usize {
        return Err(Fail::new("another number of events"));
    }
    let mut core = Core::new(alloc, words)?;
    known_text(alloc, kind, &mut core, events)
}

fn known_text(alloc: Global, kind: &str, core: &mut Core, events: &[Event]) -> Result<String, Fail>
    requires fit { IsFit core.old }
    requires few { length events.now < 2 ^ 32 }
{
    match kind {
        "steps" => {
            let made = step_by_step(core, events)?;
            Ok(state_text(alloc, u32::from(made), core)?)
        }
        "run" => {
            let made = core.run(events)?;
            Ok(state_text(alloc, made, core)?)
        }
        _ => {
            let made = core.run(events)?;
            Ok(format!(in alloc; "{made} {}", last_loads(core))?)
        }
    }
}

/// A load of each word, a split, and a join by which the new party takes the first one in.
fn many_events(alloc: Global, words: u32) -> Result<Vec<Event>, Fail> {
    let mut events = Vec::new(alloc);
    for word in 0..words {
        events.push(Event::Load { party: 0, word })?;
    }
    events.push(split(alloc, 0, 7, words as usize)?)?;
    events.push(Event::Join { into: 1, from: 0 })?;
    Ok(events)
}
