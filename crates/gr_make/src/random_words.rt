//! The random words that a design is drawn from.

ghost use Rattle.std.specs.Prelude.{◌≡◌, ◌<◌, ◌+◌, ◌%◌};
ghost use Rattle.seed_streams.specs.SeedWords.{stream_length};
ghost use Rattle.gr_make.specs.RandomWords.{random_word};

use seed_streams::SeedWords;
use std::marker::Model;

/// The first stream of a seed that no pick of a net is drawn from.
const DESIGN_STREAM: u64 = 1 << 32;

/// The words of one stream of a seed, which are drawn one after another.
#[derive(Drop)]
pub(crate) struct RandomWords {
    words: SeedWords,
}

impl Model for RandomWords {
    ghost use Rattle.std.specs.Prelude.{◌≡◌};
    ghost use Rattle.gr_make.specs.RandomWords.{Drawn, design_stream};

    ghost Value = { Drawn };

    ghost view = { λ w. record { seed = w.words.seed; count = w.words.count } };

    ghost invariant = { λ w. w.words.stream ≡ design_stream };
}

impl RandomWords {
    /// The words of a seed, of which none was drawn.
    pub fn of(seed: u64) -> Self
        ensures { result ≡ record { seed = seed; count = 0 } }
    {
        RandomWords {
            words: SeedWords::of(seed, DESIGN_STREAM),
        }
    }

    /// The next word modulo a number.
    pub fn draw(&mut self, modulus: u32) -> u32
        requires modulus { 0 < modulus }
        requires left { self.old.count + 1 < stream_length }
        ensures word { result ≡ random_word self.old.seed self.old.count % modulus }
        ensures drawn { self.new ≡ record self.old { count = self.old.count + 1 } }
        ensures below { result < modulus }
    {
        self.words.draw(modulus)
    }
}
