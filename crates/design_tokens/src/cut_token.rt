//! A token that may be cut: what is known of it from the bytes so far.

ghost use Rattle.std.specs.Prelude.{ℕ, List, ◌≡◌, ◌++◌, [], ◌∷◌, take, true, false, IfOk};
ghost use Rattle.std.specs.Str.{bytes_eq};
ghost use Rattle.text_scan.specs.Tokens.{Token};
ghost use Rattle.grid_graph.specs.Layouts.{IsPosition};
ghost use Rattle.design_tokens.specs.declared.first_bytes.TheConstants.{KEPT};
ghost use Rattle.design_tokens.specs.Words.{spelling};
ghost use Rattle.design_tokens.specs.Numerals.{design_number};
ghost use Rattle.design_tokens.specs.CutTokens.{IsCutToken, has_no_byte, keeps_name};

use crate::first_bytes::FirstBytes;
use crate::numeral::Numeral;
use crate::wanted::Wanted;
use grid_base::NoMemory;
use std::alloc::Global;
use text_scan::{Number, NumberFault};

/// A token of which the bytes come one by one or piece by piece, or none. Its first bytes tell which
/// word it is, and its numeral which number. All bytes are kept of a name alone.
#[derive(Debug, Drop)]
pub struct CutToken {
    place: usize,
    /// Whether it may be a word, so that its first bytes are kept.
    word: bool,
    first: FirstBytes,
    numeral: Numeral,
    named: bool,
    name: Vec<u8>,
}

impl CutToken {
    /// No token. It takes no memory yet.
    pub fn new(alloc: Global) -> Self
        ensures { has_no_byte result ≡ true }
    {
        CutToken {
            place: 0,
            word: false,
            first: FirstBytes::new(),
            numeral: Numeral::Nothing,
            named: false,
            name: Vec::new(alloc),
        }
    }

    /// Whether there is no token.
    pub fn is_empty(&self) -> bool
        ensures { result ≡ has_no_byte self.now }
    {
        self.first.is_empty()
    }

    /// The first byte of a token, which stands at this place of the text, counted in bytes from 0.
    /// What was here before is let go. `named` says that all its bytes are to be kept, as of a name. Where
    /// memory for these is wanting, only `clear` says what is here then.
    pub fn begin(&mut self, place: usize, byte: u8, named: bool) -> Result<(), NoMemory>
        ensures token { IfOk result (λ _. IsCutToken self.new (record { place = place; bytes = byte ∷ [] })) }
        ensures some { IfOk result (λ _. has_no_byte self.new ≡ false) }
        ensures named { IfOk result (λ _. keeps_name self.new ≡ named) }
    {
        self.place = place;
        self.word = byte >= b'a';
        self.first.clear();
        self.first.push(byte);
        self.numeral = Numeral::Nothing.with(byte);
        self.named = named;
        self.name.clear();
        if named {
            self.name.push(byte)?;
        }
        Ok(())
    }

    /// More bytes of the token, in their order. Where memory for those of a name is wanting, only `clear`
    /// says what is here then.
    pub fn extend(&mut self, bytes: &[u8]) -> Result<(), NoMemory>
        requires { has_no_byte self.old ≡ false }
        ensures token { (t : Token) → IsCutToken self.old t → IfOk result (λ _. IsCutToken self.new (record { place = t.place; bytes = t.bytes ++ bytes.now })) }
        ensures some { (t : Token) → IsCutToken self.old t → IfOk result (λ _. has_no_byte self.new ≡ false) }
        ensures named { IfOk result (λ _. keeps_name self.new ≡ keeps_name self.old) }
    {
        keep_first(&mut self.first, self.word, bytes);
        self.numeral = self.numeral.with_all(bytes);
        if self.named {
            self.name.extend_from_slice(bytes)?;
        }
        Ok(())
    }

    /// Lets go of the token. The room for its name is kept.
    pub fn clear(&mut self)
        ensures { has_no_byte self.new ≡ true }
    {
        self.first.clear();
        self.name.clear();
    }

    /// The place of its first byte.
    pub(crate) fn place(&self) -> usize
        ensures { result ≡ self.now.place }
    {
        self.place
    }

    /// Whether it is this word.
    pub(crate) fn is_word(&self, wanted: Wanted) -> bool
        ensures { (t : Token) → IsCutToken self.now t → result ≡ bytes_eq t.bytes (spelling wanted) }
    {
        self.word && self.first.bytes() == wanted.word().as_bytes()
    }

    /// All its bytes.
    pub(crate) fn name(&self) -> &[u8]
        requires { keeps_name self.now ≡ true }
        ensures { (t : Token) → IsCutToken self.now t → result.now ≡ t.bytes }
    {
        &self.name
    }

    /// The number from -2^40 to 2^40 that it is.
    pub(crate) fn number(&self) -> Result<Number, NumberFault>
        ensures number { (t : Token) → IsCutToken self.now t → result ≡ design_number t }
        ensures range { IfOk result (λ x. IsPosition x.value) }
    {
        self.numeral.number(self.place)
    }
}

/// More bytes of a token, of which the first are kept where it may be a word.
fn keep_first(first: &mut FirstBytes, word: bool, bytes: &[u8])
    ensures word { (front : List ℕ) → word ≡ true → first.old ≡ take KEPT front → first.new ≡ take KEPT (front ++ bytes.now) }
    ensures other { word ≡ false → first.new ≡ first.old }
{
    if word {
        first.extend(bytes);
    }
}
