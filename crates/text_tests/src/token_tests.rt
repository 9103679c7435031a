//! Tokens and numbers of `text_scan` in worked texts.

use std::alloc::{AllocError, Global};
use std::test::Fail;
use test_rows::{Answers, RowFault, bytes_of, check_rows, two_fields, two_numbers};
use text_scan::{Number, NumberFault, Scanner, Span};

fn fault_text(alloc: Global, fault: NumberFault) -> Result<String, AllocError> {
    let (number, at) = (fault.number(), fault.place());
    match fault {
        NumberFault::End { .. } => format!(in alloc; "end {number} at {at}"),
        NumberFault::NotNumber { .. } => format!(in alloc; "no number {number} at {at}"),
        NumberFault::OutOfRange { .. } => format!(in alloc; "out of range {number} at {at}"),
    }
}

fn token_text(alloc: Global, token: Option<Span>) -> Result<String, AllocError> {
    match token {
        Some(Span { start, end }) => format!(in alloc; "{start} {end}"),
        None => String::from_str(alloc, "none"),
    }
}

fn byte_text(alloc: Global, byte: Option<u8>) -> Result<String, AllocError> {
    match byte {
        Some(byte) => char::from(byte).to_string(alloc),
        None => String::from_str(alloc, "none"),
    }
}

fn number_text(
    alloc: Global,
    scanner: &mut Scanner<'_>,
    range: &'static str,
) -> Result<String, Fail> {
    let (low, high) = two_numbers(range)?;
    match scanner.number(low, high) {
        Ok(Number { value, at }) => Ok(format!(in alloc; "{value} at {at}")?),
        Err(fault) => Ok(fault_text(alloc, fault)?),
    }
}

fn digits_text(
    alloc: Global,
    scanner: &mut Scanner<'_>,
    range: &'static str,
) -> Result<String, Fail> {
    let (low, high) = two_numbers(range)?;
    match scanner.digits(low, high) {
        Ok(value) => Ok(value.to_string(alloc)?),
        Err(fault) => Ok(fault_text(alloc, fault)?),
    }
}

/// What a reading answers.
fn answer_of(
    alloc: Global,
    scanner: &mut Scanner<'_>,
    reading: &'static str,
) -> Result<String, Fail> {
    let (name, rest) = reading.split_once(' ').unwrap_or((reading, ""));
    match (name, rest.as_bytes()) {
        ("token", []) => Ok(token_text(alloc, scanner.token())?),
        ("peek", []) => Ok(byte_text(alloc, scanner.peek())?),
        ("mark", [byte]) => Ok(scanner.mark(*byte).to_string(alloc)?),
        ("number", _) => number_text(alloc, scanner, rest),
        ("digits", _) => digits_text(alloc, scanner, rest),
        _ => Err(RowFault::OtherFields(reading).into()),
    }
}

/// What some readings answer one behind another, each with the place behind it.
fn answers_of(
    alloc: Global,
    scanner: &mut Scanner<'_>,
    readings: &'static str,
) -> Result<String, Fail> {
    let mut text = String::new(alloc);
    for reading in readings.split(';') {
        let (found, place) = (answer_of(alloc, scanner, reading)?, scanner.place());
        text.push_str(format!(in alloc; "{found}/{place};")?.as_str())?;
    }
    Ok(text)
}

/// The bytes of a row: those of its field, a thousand nines, or a seven behind 999 zeros.
fn bytes_for(alloc: Global, field: &str) -> Result<Vec<u8>, AllocError> {
    match field {
        "NINES" => b"9".repeat(alloc, 1000),
        "SEVEN" => {
            let mut digits = b"0".repeat(alloc, 999)?;
            digits.push(b'7')?;
            Ok(digits)
        }
        _ => bytes_of(alloc, field),
    }
}

struct Readings;

impl Answers for Readings {
    fn answer(&self, alloc: Global, given: &'static str) -> Result<String, Fail> {
        let (field, readings) = two_fields(given)?;
        let bytes = bytes_for(alloc, field)?;
        answers_of(alloc, &mut Scanner::over(&bytes), readings)
    }
}

/// A text, some readings of it with a semicolon between two, and what each answers, with the place behind it.
///
/// A token is told by its start and its end. A number is asked for by the least and the greatest one, and told with its place, or
/// as a fault with its number and its place; digits need not end a token. The bytes of the eighth text are no ASCII. The last text
/// is a design of one net.
const READINGS: &str = "|token|none/0;
 \t\r;|token|none/4;
 a |token|1 2/2;
\r;ab\r;|token|2 4/4;
ab\tc|token|0 2/2;
a\0b c|token|0 3/3;
\x0b\x0c #|token|0 2/2;
?~\u{a0} x|token|0 4/4;
 ;|number 0 9|end 3 at 2/2;
 - 1|number 0 9|no number 1 at 1/2;
+-1|number -9 9|no number 1 at 0/3;
1x 2|number 0 9|no number 1 at 0/2;
1\0|number 0 9|no number 1 at 0/2;
-0|number 0 9|0 at 0/2;
+007|number 7 7|7 at 0/4;
 -12\r;|number -12 0|-12 at 1/4;
 12 |number 0 11|out of range 2 at 1/3;
 12 |number 13 99|out of range 2 at 1/3;
9223372036854775807|number -9223372036854775808 9223372036854775807|9223372036854775807 at 0/19;
9223372036854775808|number -9223372036854775808 9223372036854775807|out of range 2 at 0/19;
-9223372036854775808|number -9223372036854775808 9223372036854775807|-9223372036854775808 at 0/20;
18446744073709551617|number 0 9|out of range 2 at 0/20;
\t |digits 0 9|end 3 at 2/2;
12)|digits 0 99|12/2;
 -5,7|digits -9 9|-5/3;
+003-4|digits 0 9|3/4;
 12)|digits 0 11|out of range 2 at 1/3;
 -x|digits 0 9|no number 1 at 1/1;
(5|digits 0 9|no number 1 at 0/0;
  +|digits 0 9|no number 1 at 2/2;
170141183460469231731687303715884105727!|digits -170141183460469231731687303715884105728 170141183460469231731687303715884105727|170141183460469231731687303715884105727/39;
170141183460469231731687303715884105728!|digits -170141183460469231731687303715884105728 170141183460469231731687303715884105727|out of range 2 at 0/39;
-170141183460469231731687303715884105728!|digits -170141183460469231731687303715884105728 170141183460469231731687303715884105727|-170141183460469231731687303715884105728/40;
NINES|number -9223372036854775808 9223372036854775807|out of range 2 at 0/1000;
NINES|digits -170141183460469231731687303715884105728 170141183460469231731687303715884105727|out of range 2 at 0/1000;
SEVEN|number 0 9|7 at 0/1000;
SEVEN|digits 0 9|7/1000;
 ( 12 ,;-3)!|peek;mark (;digits 0 99;mark ,;digits -9 9;mark !;mark  ;mark );mark !;peek;mark !|(/1;true/2;12/5;true/7;-3/10;false/10;false/10;true/11;true/12;none/12;false/12;
grid 3 1 1;vertical capacity 0;horizontal capacity 4;minimum width 1;minimum spacing 1;via spacing 1;0 0 10 10;num net 1;a 0 2 1;5 5 1;25 5 1;0;|token;token;token;token;token;token;token;token;token;token;token;token;token;token;token;token;token;token;token;token;token;token;token;token;token;token;token;token;token;token;token;token;token;token;number 0 9;number 0 9;number 0 9;number 0 9|0 4/4;5 6/6;7 8/8;9 10/10;11 19/19;20 28/28;29 30/30;31 41/41;42 50/50;51 52/52;53 60/60;61 66/66;67 68/68;69 76/76;77 84/84;85 86/86;87 90/90;91 98/98;99 100/100;101 102/102;103 104/104;105 107/107;108 110/110;111 114/114;115 118/118;119 120/120;121 122/122;123 124/124;125 126/126;127 128/128;129 130/130;131 132/132;133 134/134;135 137/137;5 at 138/139;1 at 140/141;0 at 142/143;end 3 at 144/144;";

#[test]
fn tokens_and_numbers_are_read_at_their_places(rt: HostRuntime) -> Result<(), Fail> {
    check_rows(rt.alloc(), READINGS, &Readings)
}
