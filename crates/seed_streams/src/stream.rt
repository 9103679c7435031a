//! A stream of random words.

ghost use Rattle.std.specs.Prelude.{◌≡◌, ◌<◌, ◌+◌, ◌%◌};
ghost use Rattle.seed_streams.specs.DrawnStreams.{generator_at};
ghost use Rattle.seed_streams.specs.SeedWords.{key_bytes, seed_word, stream_length};

use rand_chacha::ChaCha8Rng;
use rand_core::SeedableRng;
use rand_core::utils::NextWord;
use std::marker::Model;

/// A stream of words of a seed, which are drawn one after another.
#[derive(Drop)]
pub struct SeedWords {
    seed: u64,
    generator: ChaCha8Rng,
}

impl Model for SeedWords {
    ghost use Rattle.std.specs.Prelude.{◌≡◌};
    ghost use Rattle.seed_streams.specs.DrawnStreams.{DrawnStream, generator_at};

    ghost Value = { DrawnStream };

    ghost view = { λ w. record { seed = w.seed; stream = w.generator.stream; count = w.generator.word_pos } };

    ghost invariant = { λ w. w.generator ≡ generator_at w.seed w.generator.stream w.generator.word_pos };
}

impl SeedWords {
    /// The stream of this number, of which no word was drawn.
    pub fn of(seed: u64, stream: u64) -> Self
        ensures { result ≡ record { seed = seed; stream = stream; count = 0 } }
    {
        SeedWords {
            seed,
            generator: generator(seed, stream),
        }
    }

    /// The next word modulo a number.
    pub fn draw(&mut self, modulus: u32) -> u32
        requires modulus { 0 < modulus }
        requires left { self.old.count + 1 < stream_length }
        ensures word { result ≡ seed_word self.old.seed self.old.stream self.old.count % modulus }
        ensures drawn { self.new ≡ record self.old { count = self.old.count + 1 } }
        ensures below { result < modulus }
    {
        self.generator.next_word() % modulus
    }
}

fn generator(seed: u64, stream: u64) -> ChaCha8Rng
    ensures { result ≡ generator_at seed stream 0 }
{
    let mut generator = ChaCha8Rng::from_seed(key(seed));
    generator.set_stream(stream);
    generator
}

fn key(seed: u64) -> [u8; 32]
    ensures { result ≡ key_bytes seed }
{
    let mut key = [0u8; 32];
    key[0..8].copy_from_slice(&seed.to_le_bytes());
    key
}
