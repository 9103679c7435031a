//! What the words of the contracts amount to. Nothing is computed here: each contract is a law.

ghost use Rattle.std.specs.Prelude.{◌≡◌, ℕ, ◌+◌, ℤ, List, [], ◌∷◌, ◌++◌, length, IsTrue, FitsSigned};
ghost use Rattle.std.specs.Fmt.{signed_decimal};
ghost use Rattle.std.specs.Int.{w128};
ghost use Rattle.std.specs.List.{AllByRecursion};
ghost use Rattle.text_scan.specs.Tokens.{tokens_from, after_first_token, is_gap, is_word, ends_word, StandsWithin};
ghost use Rattle.text_scan.specs.Reading.{Reading, tokens_left, past_token};
ghost use Rattle.text_scan.specs.Numbers.{is_number, value_of, number_front, ends_number};

/// The tokens of a text are its longest runs of bytes that are not blanks, in order. The first two
/// clauses say of every text what its tokens are, and the last that reading one leaves the others.
pub fn tokens_are_longest_runs()
    ensures gap { (place : ℕ) (gap : List ℕ) → IsTrue (is_gap gap) → tokens_from place gap ≡ [] }
    ensures run { (place : ℕ) (gap run rest : List ℕ) → IsTrue (is_gap gap) → IsTrue (is_word run) → IsTrue (ends_word rest) → tokens_from place (gap ++ (run ++ rest)) ≡ record { place = place + length gap; bytes = run } ∷ tokens_from (place + length gap + length run) rest }
    ensures within { (place : ℕ) (bytes : List ℕ) → AllByRecursion (StandsWithin place (place + length bytes)) (tokens_from place bytes) }
    ensures behind { (r : Reading) → tokens_left (past_token r) ≡ after_first_token (tokens_left r) }
{}

/// A printed number of 128 bits is a number with its value, and a text that begins with it begins
/// with no longer number, unless a digit follows.
pub fn printed_numbers_read_back()
    ensures number { (z : ℤ) → FitsSigned w128 z → IsTrue (is_number (signed_decimal z)) }
    ensures value { (z : ℤ) → FitsSigned w128 z → value_of (signed_decimal z) ≡ z }
    ensures front { (z : ℤ) (rest : List ℕ) → FitsSigned w128 z → IsTrue (ends_number rest) → number_front (signed_decimal z ++ rest) ≡ signed_decimal z }
{}
