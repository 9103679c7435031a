//! How far a text has been read.

ghost use Rattle.std.specs.Prelude.{◌≡◌, ◌≤◌, length};
ghost use Rattle.std.specs.List.{position_or_len};
ghost use Rattle.text_scan.specs.Tokens.{is_blank};
ghost use Rattle.ispd_reader.specs.Named.{IsNamed};

use crate::machine::Machine;
use design_tokens::{CutToken, InputError};
use grid_base::NoMemory;
use grid_graph::Design;
use std::alloc::Global;

/// The machine, and the token that the bytes so far end in.
#[derive(Drop)]
pub(crate) struct Progress {
    alloc: Global,
    machine: Machine,
    token: CutToken,
    ghost named: { IsNamed machine token },
}

impl Progress {
    ghost use Rattle.std.specs.Prelude.{◌+◌, ◌<◌, List, ℕ, [], ◌∷◌, ◌++◌, IfOk, IfErr, IsTrue, true, false};
    ghost use Rattle.text_scan.specs.Reading.{whole};
    ghost use Rattle.design_tokens.specs.CutTokens.{has_no_byte};
    ghost use Rattle.ispd_reader.specs.Designs.{Contents, contents_at, IsDesignOf};
    ghost use Rattle.ispd_reader.specs.Limits.{max_bytes};
    ghost use Rattle.design_tokens.specs.Parsing.{Refuses, refusal_in};
    ghost use Rattle.ispd_reader.specs.Readers.{is_solid, HasReached, HasReadSome, HasClosed, HasEnded, HasGoneOn};

    /// Nothing has been read.
    pub(crate) fn new(alloc: Global) -> Self
        ensures { HasReached result [] }
    {
        Progress {
            alloc,
            machine: Machine::new(alloc),
            token: CutToken::new(alloc),
        }
    }

    /// Reads the bytes that come next, of which the first has this place.
    pub(crate) fn read(&mut self, start: usize, bytes: &[u8]) -> Result<(), InputError>
        requires { start + length bytes.now ≤ max_bytes }
        ensures { (text : List ℕ) → (length text ≡ start) → HasReached self.old text → HasGoneOn self.new result (text ++ bytes.now) }
    {
        let mut at = 0;
        while at < bytes.len() {
            at += self.step(start + at, &bytes[at..])?;
        }
        Ok(())
    }

    /// The text has ended, and this is its length.
    pub(crate) fn end(mut self, bytes: usize) -> Result<Design, InputError>
        ensures design { (text : List ℕ) → (length text ≡ bytes) → HasReached self text → IfOk result (λ d. (c : Contents) × IsDesignOf d c × (contents_at (whole text) ≡ Ok c)) }
        ensures refusal { (text : List ℕ) → (length text ≡ bytes) → HasReached self text → IfErr result (λ e. Refuses refusal_in e (contents_at (whole text))) }
    {
        self.close()?;
        self.machine.end(bytes)
    }

    /// Reads a blank, or all bytes before the next one, of which the first has this place. Says how
    /// many bytes it read.
    fn step(&mut self, place: usize, bytes: &[u8]) -> Result<usize, InputError>
        requires { 0 < length bytes.now }
        ensures some { IfOk result (λ n. (0 < n) × (n ≤ length bytes.now)) }
        ensures read { (text : List ℕ) → (length text ≡ place) → HasReached self.old text → HasReadSome self.new result text bytes.now }
    {
        let solid = blank_or_end(bytes);
        if solid == 0 {
            self.pass_blank()?;
            return Ok(1);
        }
        self.read_solid(place, &bytes[..solid])?;
        Ok(solid)
    }

    /// Reads bytes of which none is a blank.
    fn read_solid(&mut self, place: usize, bytes: &[u8]) -> Result<(), NoMemory>
        requires { 0 < length bytes.now }
        ensures { (text : List ℕ) → (length text ≡ place) → IsTrue (is_solid bytes.now) → HasReached self.old text → IfOk result (λ _. HasReached self.new (text ++ bytes.now)) }
    {
        if self.token.is_empty() {
            self.begin_token(place, bytes[0])?;
            self.add_to_token(&bytes[1..])
        } else {
            self.add_to_token(bytes)
        }
    }

    /// Passes a blank, with which the token ends.
    fn pass_blank(&mut self) -> Result<(), InputError>
        ensures { (text : List ℕ) (blank : ℕ) → IsTrue (is_blank blank) → HasReached self.old text → HasGoneOn self.new result (text ++ blank ∷ []) }
    {
        if self.token.is_empty() {
            return Ok(());
        }
        self.take_token()
    }

    /// A token begins.
    fn begin_token(&mut self, place: usize, byte: u8) -> Result<(), NoMemory>
        requires { has_no_byte self.old.token ≡ true }
        ensures read { (text : List ℕ) → (length text ≡ place) → (is_blank byte ≡ false) → HasReached self.old text → IfOk result (λ _. HasReached self.new (text ++ byte ∷ [])) }
        ensures some { IfOk result (λ _. has_no_byte self.new.token ≡ false) }
    {
        let named = self.machine.awaits_name();
        let kept = self.token.begin(place, byte, named);
        if kept.is_err() {
            self.token.clear();
        }
        kept
    }

    /// The token goes on.
    fn add_to_token(&mut self, bytes: &[u8]) -> Result<(), NoMemory>
        requires { has_no_byte self.old.token ≡ false }
        ensures { (text : List ℕ) → IsTrue (is_solid bytes.now) → HasReached self.old text → IfOk result (λ _. HasReached self.new (text ++ bytes.now)) }
    {
        let kept = self.token.extend(bytes);
        if kept.is_err() {
            self.token.clear();
        }
        kept
    }

    /// The token has ended.
    fn take_token(&mut self) -> Result<(), InputError>
        requires { has_no_byte self.old.token ≡ false }
        ensures { (text : List ℕ) → HasReached self.old text → HasClosed self.new.machine self.new.token result text }
    {
        let taken = self.machine.take(self.alloc, &self.token);
        self.token.clear();
        taken
    }

    /// The text has ended, and with it the token.
    fn close(&mut self) -> Result<(), InputError>
        ensures { (text : List ℕ) → HasReached self.old text → HasEnded self.new.machine result text }
    {
        if self.token.is_empty() {
            return Ok(());
        }
        self.take_token()
    }
}

/// The place of the first blank, or the length.
fn blank_or_end(bytes: &[u8]) -> usize
    ensures end { result ≡ position_or_len is_blank bytes.now }
    ensures within { result ≤ length bytes.now }
{
    for i in 0..bytes.len() {
        if is_blank(bytes[i]) {
            return i;
        }
    }
    bytes.len()
}

/// Whether the byte is a space, tab, CR or LF.
fn is_blank(byte: u8) -> bool
    ensures { result ≡ is_blank byte }
{
    byte <= b' ' && matches!(byte, b' ' | b'\t' | b'\r' | b'\n')
}
