//! Words of `seed_streams`, and of an independent ChaCha8.

use seed_streams::SeedWords;
use std::alloc::Global;
use std::test::Fail;
use test_rows::{Answers, check_rows, number_of, three_fields};

/// The word that is drawn after so many others, modulo 2^32 - 1.
fn drawn_at(seed: u64, stream: u64, place: u32) -> u32 {
    let mut words = SeedWords::of(seed, stream);
    for _ in 0..place {
        words.draw(1);
    }
    words.draw(4294967295)
}

struct Streams;

impl Answers for Streams {
    fn answer(&self, alloc: Global, given: &'static str) -> Result<String, Fail> {
        let (seed, stream, place) = three_fields(given)?;
        let word = drawn_at(number_of(seed)?, number_of(stream)?, number_of(place)?);
        Ok(format!(in alloc; "{word:08x}")?)
    }
}

/// A seed, a stream, how many words go before, and the word in base 16. The fourth seed is that of the bytes 1 to 8.
const WORDS: &str = "0|0|0|2fef003e
0|0|1|d6405f89
0|0|15|42fe0c0e
0|0|16|0dfaaed2
0|0|63|01bf7962
0|0|64|475ff7e8
0|0|129|857a1856
7|0|0|2c44ba73
7|0|1|c39ca672
7|0|15|31a00622
7|0|16|69b9ff4d
7|0|63|db1ea228
7|0|64|49956b26
7|0|129|7f2bb6ce
7|4294967296|0|fdcb650e
7|4294967296|1|1ff0a778
7|4294967296|15|248e8618
7|4294967296|16|1acb0b69
7|4294967296|63|8037e968
7|4294967296|64|a33ca93c
7|4294967296|129|baa51fa5
72623859790382856|1|0|2db60261
72623859790382856|1|1|96078d27
72623859790382856|1|15|6855b4a0
72623859790382856|1|16|4916cc11
72623859790382856|1|63|6ab8a76e
72623859790382856|1|64|ff5d9e15
72623859790382856|1|129|9266d221
18446744073709551615|18446744073709551615|0|568ff132
18446744073709551615|18446744073709551615|1|f89e7f57
18446744073709551615|18446744073709551615|15|1baf7b77
18446744073709551615|18446744073709551615|16|cca0b253
18446744073709551615|18446744073709551615|63|f958e747
18446744073709551615|18446744073709551615|64|609cc3a8
18446744073709551615|18446744073709551615|129|8c6b12cc";

#[test]
fn words_are_drawn_in_their_order(rt: HostRuntime) -> Result<(), Fail> {
    check_rows(rt.alloc(), WORDS, &Streams)
}
