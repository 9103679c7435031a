//! The reference readers and those that are used answer alike, on all short texts and on a long one.

ghost use Rattle.std.specs.Prelude.{◌<◌, ◌^◌, length};

use crate::reference_blocks::blocks_by_automaton;
use crate::reference_tokens::tokens_by_splitting;
use route_text::{Block, RouteError, read_routes};
use std::alloc::{AllocError, Global};
use std::test::Fail;
use text_scan::Scanner;

/// The text of this length and number over an alphabet.
fn spelled(
    alloc: Global,
    alphabet: &[u8; 8],
    length: u32,
    number: u32,
) -> Result<Vec<u8>, AllocError> {
    let mut text = Vec::new(alloc);
    let mut rest = number;
    for _ in 0..length {
        text.push(alphabet[(rest % 8) as usize])?;
        rest /= 8;
    }
    Ok(text)
}

/// How many texts over the alphabets have these lengths.
const TEXTS: [(u32, u32); 6] = [(0, 1), (1, 8), (2, 64), (3, 512), (4, 4096), (5, 32768)];

/// Whether a scanner gives the tokens of the text that splitting gives.
fn scans_what_splitting_gives(alloc: Global, text: &[u8]) -> Result<bool, Fail>
    requires { length text.now < 2 ^ 63 }
{
    let mut scanner = Scanner::over(text);
    for word in tokens_by_splitting(alloc, text)? {
        let Some(span) = scanner.token() else {
            return Ok(false);
        };
        if span.start != word.place
            || text.get(span.start..span.end) != Some(word.bytes.as_slice())
        {
            return Ok(false);
        }
    }
    Ok(scanner.token().is_none())
}

#[test]
fn every_short_text_has_the_tokens_that_splitting_gives(rt: HostRuntime) -> Result<(), Fail> {
    for (length, count) in TEXTS {
        for number in 0..count {
            let text = spelled(rt.alloc(), b" \t\r\nab\x0b\0", length, number)?;
            assert!(rt;
                scans_what_splitting_gives(rt.alloc(), text.as_slice())?,
                "in {text:?}"
            );
        }
    }
    Ok(())
}

fn same_block(a: &Block, b: &Block) -> bool {
    a.name.list() == b.name.list() && a.id == b.id && a.segments.list() == b.segments.list()
}

fn same_answer(a: Result<Vec<Block>, RouteError>, b: Result<Vec<Block>, RouteError>) -> bool {
    match (a, b) {
        (Ok(a), Ok(b)) => a.len() == b.len()
            && a.iter().zip(b.iter()).all(|(a, b)| same_block(a, b)),
        (Err(a), Err(b)) => a == b,
        _ => false,
    }
}

/// Whether the reader answers what the automaton answers for the bytes in front with these behind them.
fn reads_what_the_automaton_reads(
    alloc: Global,
    front: &[u8],
    behind: &[u8],
) -> Result<bool, Fail> {
    let mut text = Vec::from_slice(alloc, front)?;
    text.extend_from_slice(behind)?;
    let used = read_routes(alloc, text.as_slice());
    Ok(same_answer(used, blocks_by_automaton(alloc, text.as_slice())))
}

const MARKS: &[u8; 8] = b"a0(),-! ";

/// Each way in which two blocks can be laid out.
const BLOCKS: &[u8] =
    b" a 0 9 (5,5,1)-(25,-5,+1)( 5 , 05,2 ) -\n( -5,5, 1)!b\t4294967295\r\n(1,2,3)-(1,2,4) !\n";

/// Every text that is short or begins as the blocks do and ends in a few other marks.
#[test]
fn texts_have_the_blocks_that_the_automaton_reads(rt: HostRuntime) -> Result<(), Fail> {
    for (length, count) in TEXTS {
        let front_limit = if length < 4 { BLOCKS.len() } else { 0 };
        for number in 0..count {
            let end = spelled(rt.alloc(), MARKS, length, number)?;
            for front in 0..=front_limit {
                let text = &BLOCKS[..front];
                assert!(rt;
                    reads_what_the_automaton_reads(rt.alloc(), text, end.as_slice())?,
                    "in {text:?} and {end:?}"
                );
            }
        }
    }
    Ok(())
}

/// A net that runs along the first three tiles.
const BLOCK: &str = "n 4711\n(5,5,1)-(25,5,1)\n!\n";

#[test]
fn thousands_of_routes_are_read_as_by_the_automaton(rt: HostRuntime) -> Result<(), Fail> {
    let alloc = rt.alloc();
    let text = BLOCK.repeat(alloc, 5000)?;
    let read = read_routes(alloc, text.as_bytes());
    assert!(rt; read.is_ok() && same_answer(read, blocks_by_automaton(alloc, text.as_bytes())));
    Ok(())
}
