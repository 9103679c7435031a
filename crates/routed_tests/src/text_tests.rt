//! Texts of edits, and what is read of them.

use eco_route::{Edit, EditTextError, Pin, read_edits};
use std::alloc::{AllocError, Global};
use std::rt::HostRuntime;
use std::test::Fail;
use test_rows::{Answers, check_rows, numbers_text};

/// Pins as a field: x, y and layer of each, and a semicolon behind it.
fn pins_text(alloc: Global, pins: &[Pin]) -> Result<String, AllocError> {
    let mut text = String::new(alloc);
    for pin in pins {
        let numbers = [pin.x, pin.y, pin.layer];
        text.push_str(numbers_text(alloc, &numbers)?.as_str())?;
        text.push_str(";")?;
    }
    Ok(text)
}

/// A kind of edit, its numbers and its pins.
fn told(alloc: Global, kind: &str, numbers: &[u64], pins: &[Pin]) -> Result<String, AllocError> {
    let mut text = String::from_str(alloc, kind)?;
    text.push_str(numbers_text(alloc, numbers)?.as_str())?;
    text.push_str(pins_text(alloc, pins)?.as_str())?;
    Ok(text)
}

fn edit_text(alloc: Global, edit: &Edit) -> Result<String, AllocError> {
    match edit {
        Edit::Drop { id } => told(alloc, "drop", &[u64::from(*id)], &[]),
        Edit::Add {
            name,
            id,
            width,
            pins,
        } => {
            let bytes = name.list().len() as u64;
            told(
                alloc,
                "add",
                &[bytes, u64::from(*id), u64::from(*width)],
                pins.list(),
            )
        }
        Edit::Change { id, width, pins } => {
            told(
                alloc,
                "change",
                &[u64::from(*id), u64::from(*width)],
                pins.list(),
            )
        }
    }
}

/// Each edit with a comma behind it.
fn edits_text(alloc: Global, edits: &[Edit]) -> Result<String, AllocError> {
    let mut text = String::new(alloc);
    for edit in edits {
        text.push_str(edit_text(alloc, edit)?.as_str())?;
        text.push_str(",")?;
    }
    Ok(text)
}

/// What is read of a text: the edits, or the place of its refusal.
fn read_text(alloc: Global, text: &str) -> Result<String, Fail> {
    match read_edits(alloc, text.as_bytes()) {
        Ok(edits) => Ok(edits_text(alloc, &edits)?),
        Err(EditTextError::Syntax { at }) => Ok(format!(in alloc; "61 {at}")?),
        Err(EditTextError::NoMemory) => Err(Fail::new("no memory")),
    }
}

/// Texts, and the edits or the place of the refusal. A name is told by its length.
const TEXTS: &str = "# nothing, and edits of each kind
edits 0|
edits 1 drop 1|drop 1,
edits 2 drop 1 add d 1 2 1 5 5 1 25 5 1|drop 1,add 1 1 1 5 5 1; 25 5 1;,
edits 1 change 4294967295 0 1023|change 4294967295 1023,
edits 01 drop 007|drop 7,
edits 1 add edits 0 1 0 -1099511627776 1099511627776 +7|add 5 0 0 -1099511627776 1099511627776 7;,
# a token that is missing
|61 0
edits|61 5
edits 1|61 7
edits 1 drop|61 12
edits 1 add d 1 2 1 5 5 1 25 5|61 30
# a token that is none of the form
edit 0|61 0
edits one|61 6
edits -1|61 6
edits 16777217|61 6
edits 1 Drop 1|61 8
edits 1 drop 4294967296|61 13
edits 1 drop -1|61 13
edits 1 change 1 0 1024|61 19
edits 1 change 1 16777217 1|61 17
edits 1 change 1 1 1 1099511627777 0 1|61 21
edits 1 change 1 1 1 0 0 1.0|61 25
# in the second edit
edits 2 drop 1 drop|61 19
edits 2 drop 1 change 1 1 1024|61 26
# a token behind the last edit
edits 0 drop|61 8
edits 1 drop 1 2|61 15";

/// What is read of a text of edits.
struct Texts;

impl Answers for Texts {
    fn answer(&self, alloc: Global, given: &'static str) -> Result<String, Fail> {
        read_text(alloc, given)
    }
}

#[test]
fn each_text_has_its_edits(rt: HostRuntime) -> Result<(), Fail> {
    check_rows(rt.alloc(), TEXTS, &Texts)
}
