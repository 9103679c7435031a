//! What one word may be: a name, a value, a seed.

ghost use Rattle.std.specs.Prelude.{◌≡◌, MatchOption, false, true};
ghost use Rattle.std.specs.Char.{is_ascii_digit};
ghost use Rattle.std.specs.List.{list_all};
ghost use Rattle.std.specs.Str.Parse.{digits_value};
ghost use Rattle.command_words.specs.CommandLine.{is_file_name, is_seed_name, is_value_word};
ghost use Rattle.command_words.specs.MapLine.{IsLayerNumber, is_layer};

/// The most digits of a value.
const MOST_DIGITS: usize = 20;

/// The greatest number of a layer.
const MOST_LAYER: u64 = 16;

pub(crate) fn is_file_name(word: &str) -> bool
    ensures { result ≡ is_file_name word.now }
{
    match word.as_bytes() {
        [] => false,
        [first, ..] => *first != b'-',
    }
}

pub(crate) fn is_value_word(word: &str) -> bool
    ensures { result ≡ is_value_word word.now }
{
    1 <= word.len() && word.len() <= MOST_DIGITS && are_digits(word.as_bytes())
}

fn are_digits(bytes: &[u8]) -> bool
    ensures { result ≡ list_all is_ascii_digit bytes.now }
{
    bytes.iter().all(|byte| byte.is_ascii_digit())
}

/// The seed that the word is.
pub(crate) fn seed_of(word: &str) -> Option<u64>
    ensures { MatchOption result (is_seed_name word.now ≡ false)
        (λ seed. (is_seed_name word.now ≡ true) × (digits_value 10 word.now ≡ seed)) }
{
    if is_value_word(word) {
        word.parse::<u64>().ok()
    } else {
        None
    }
}

/// The number of a layer that the word is.
#[tactic(auto, using(crate::proofs::Layers::no_layer, crate::proofs::Layers::layer_in_range))]
pub(crate) fn layer_of(word: &str) -> Option<u32>
    ensures { MatchOption result (is_layer word.now ≡ false)
        (λ layer. (is_layer word.now ≡ true) × (digits_value 10 word.now ≡ layer) × IsLayerNumber layer) }
{
    let number = seed_of(word)?;
    if 1 <= number && number <= MOST_LAYER {
        Some(number as u32)
    } else {
        None
    }
}
