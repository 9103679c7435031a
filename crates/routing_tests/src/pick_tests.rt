//! Picks by the words of an independent ChaCha8.

use rounding_pick::pick;
use std::alloc::Global;
use std::test::Fail;
use test_rows::{agree, number_of, rows_of, three_fields};

/// The seed, the net's position, and the stream's first word, in base 16. The sixth seed is that of the bytes 1 to 8.
const WORDS: &str = "0|0|2fef003e
0|1|b34b8f2b
0|2|3f019d00
0|4294967295|5409596a
1|0|a0e95ecf
1|3|3a6bbf89
7|0|2c44ba73
7|4194303|a6720d6f
9223372036854775808|2|e0f7de6e
72623859790382856|1|2db60261
72623859790382856|1000|59ea6ce3
18446744073709551615|3|10be85a4";

/// The first word of a net's stream, where the picks out of fewer are its remainders.
fn word_text(alloc: Global, seed: u64, net: u32) -> Result<String, Fail> {
    let word = pick(seed, net, 4294967295);
    if pick(seed, net, 1) != 0
        || pick(seed, net, 4) != word % 4
        || pick(seed, net, 16) != word % 16
    {
        return Err(Fail::new("another remainder"));
    }
    Ok(format!(in alloc; "{word:08x}")?)
}

fn row_agrees(alloc: Global, row: &'static str) -> Result<(), Fail> {
    let (seed, net, word) = three_fields(row)?;
    let found = word_text(alloc, number_of(seed)?, number_of(net)?)?;
    agree(row, found.as_str(), word)
}

#[test]
fn picks_are_the_first_words_of_the_streams(rt: HostRuntime) -> Result<(), Fail> {
    for row in rows_of(rt.alloc(), WORDS)? {
        row_agrees(rt.alloc(), row)?;
    }
    Ok(())
}
