//! Texts that are fed to a reader in pieces, and when it refuses them.

use crate::design_text_tests::bytes_in;
use grid_base::NoMemory;
use ispd_reader::{InputError, InputFault, Reader, Wanted};
use std::alloc::Global;
use std::test::Fail;
use test_rows::{Answers, check_rows};

/// How many bytes are fed, one by one, when the first refusal comes, and the refusal. One that comes at the end alone counts as
/// behind one more byte, and so does none.
fn first_refusal(alloc: Global, text: &[u8]) -> Result<(usize, Option<InputError>), NoMemory> {
    let mut reader = Reader::new(alloc)?;
    for (at, byte) in text.chunks(1).enumerate() {
        if let Err(error) = reader.feed(byte) {
            return Ok((at + 1, Some(error)));
        }
    }
    Ok((text.len().saturating_add(1), reader.end().err()))
}

/// A row is a text, how many of its bytes are fed when it is refused, and the number and the text of the fault.
struct Refusals;

impl Answers for Refusals {
    fn answer(&self, alloc: Global, given: &'static str) -> Result<String, Fail> {
        let text = bytes_in(alloc, given)?;
        match first_refusal(alloc, text.as_slice())? {
            (count, None) => Ok(format!(in alloc; "{count}: none")?),
            (count, Some(InputError::Input(fault))) => {
                let number = fault.number();
                Ok(format!(in alloc; "{count}: {number} {fault}")?)
            }
            (_, Some(InputError::NoMemory)) => Err(Fail::new("no memory")),
        }
    }
}

/// A text, after how many of its bytes it is refused, and why: at the blank behind the token that is refused. The last texts
/// are cut off behind the last pin but one number, which is refused at the end, and whole.
const REFUSALS: &str = "ROW 0 144 gird |5: 11 grid expected at byte 0
ROW 0 144 grid;3;x;y;|9: 11 number expected at byte 7
ROW 11 144 Vertical capacity 1|20: 11 vertical expected at byte 11
ROW 101 144 1099511627777 0 10 10|115: 12 number out of range at byte 101
ROW 0 144 grid 2048 2048 3;vertical|17: 14 grid too large or empty at byte 15
ROW 105 144 0 10;num|107: 15 tile size below 1 at byte 105
ROW 29 144 262145;horizontal|36: 16 capacity out of range at byte 29
ROW 67 144 1024;minimum|72: 17 width or spacing out of range at byte 67
ROW 119 144 4194305;a|127: 18 count out of range at byte 119
ROW 119 144 2;a 0 2 1;5 5 1;25 5 1;b 0 2 1;5 5 1;25 5 1;0;|146: 19 id 0 again at byte 144
ROW 129 144 5 11 1;0;|134: 20 pin 0 of net 0 outside the grid at byte 131
ROW 140 144 2;0;|142: 21 pin 1 of net 0 on no layer at byte 140
ROW 142 144 1;0 0 1 2 0 1 3;|156: 22 adjustment 0 between no neighbours at byte 154
ROW 139 144|140: 11 number expected at byte 139
ROW|145: none";

#[test]
fn a_refusal_comes_as_soon_as_it_is_settled(rt: HostRuntime) -> Result<(), Fail> {
    check_rows(rt.alloc(), REFUSALS, &Refusals)
}

/// Whether a piece that is fed so many times is refused so each time.
fn is_refused_each_time(
    reader: &mut Reader,
    piece: &[u8],
    times: u32,
    refused: InputError,
) -> bool {
    let mut each = true;
    for _ in 0..times {
        each = reader.feed(piece).err() == Some(refused) && each;
    }
    each
}

/// Whether a refusal is answered again to pieces that fill the text up to its limit, and `TooLong` behind that. `blanks` are
/// 2^20 bytes, and `rest` 16 fewer.
fn stays_refused(alloc: Global, blanks: &[u8], rest: &[u8]) -> Result<bool, NoMemory> {
    let refused = InputError::Input(InputFault::Syntax {
        at: 0,
        wanted: Wanted::Grid,
    });
    let too_long = InputError::Input(InputFault::TooLong);
    let mut reader = Reader::new(alloc)?;
    let cut = reader.feed(b"gir").is_ok();
    let whole = is_refused_each_time(&mut reader, b"d ", 1, refused);
    let nothing = is_refused_each_time(&mut reader, b"", 1, refused);
    let other = is_refused_each_time(&mut reader, b"grid 3 1 1\n", 1, refused);
    let most = is_refused_each_time(&mut reader, blanks, 1023, refused);
    let all = is_refused_each_time(&mut reader, rest, 1, refused);
    let behind = is_refused_each_time(&mut reader, b" ", 1, too_long);
    let again = is_refused_each_time(&mut reader, b"", 1, too_long);
    let end = reader.end().err() == Some(too_long);
    Ok(cut && whole && nothing && other && most && all && behind && again && end)
}

/// A refusal stays, whatever follows; and a text that then turns out to be too long is refused for that.
#[test]
fn a_refusal_is_answered_again(rt: HostRuntime) -> Result<(), Fail> {
    let alloc = rt.alloc();
    let blanks = " ".repeat(alloc, 1 << 20)?;
    let blanks = blanks.as_bytes();
    if stays_refused(alloc, blanks, &blanks[16..])? {
        Ok(())
    } else {
        Err(Fail::new("another answer"))
    }
}
