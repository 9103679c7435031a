//! The scanner: a text, and how far it has been read.

ghost use Rattle.std.specs.Prelude.{◌≡◌, ℕ, ◌<◌, ◌≤◌, ◌↔◌, List, [], ◌∷◌, length, IsNone, IfSome, OnOk, IsTrue};
ghost use Rattle.text_scan.specs.Tokens.{token_at};
ghost use Rattle.text_scan.specs.Reading.{Reading, whole, tokens_left, first_number, next_byte, next_number, is_next, past_blanks, past_token, past_number, past_byte};

use crate::number::Number;
use crate::number_fault::NumberFault;
use crate::number_front::number_front;
use crate::numeral::{in_range, number_in};
use crate::runs::{blanks_end, token_end};
use crate::span::Span;
use std::marker::Model;

/// A text that is read from its front on. Blanks are space, tab, CR and LF; any other byte, NUL and
/// those above 127 too, is part of a token.
#[derive(Debug, Drop)]
pub struct Scanner<'a> {
    bytes: &'a [u8],
    at: usize,
}

impl<'a> Model for Scanner<'a> {
    ghost use Rattle.std.specs.Prelude.{◌≤◌, length};
    ghost use Rattle.text_scan.specs.Reading.{Reading};

    ghost Value = { Reading };

    ghost view = { λ s. record { text = s.bytes.now; place = s.at } };

    ghost invariant = { λ s. s.at ≤ length s.bytes.now };
}

impl<'a> Scanner<'a> {
    /// A scanner at the front of the text.
    pub fn over(bytes: &'a [u8]) -> Self
        ensures whole { result ≡ whole bytes.entry.now }
    {
        Scanner { bytes, at: 0 }
    }

    /// The place in the text, counted from 0: that of the next byte to read, or the text's length.
    pub fn place(&self) -> usize
        ensures place { result ≡ self.now.place }
        ensures within { result ≤ length self.now.text }
    {
        self.at
    }

    /// The bytes between two places of the text.
    pub fn bytes(&self, span: Span) -> &'a [u8]
        requires order { span.start ≤ span.end }
        requires within { span.end ≤ length self.now.text }
        ensures { result.now ≡ (token_at self.now.text span).bytes }
    {
        &self.bytes[span.start..span.end]
    }

    /// The next byte that is no blank. Only the blanks before it are passed over.
    pub fn peek(&mut self) -> Option<u8>
        ensures byte { result ≡ next_byte self.old }
        ensures none { IsNone result ↔ (tokens_left self.old ≡ []) }
        ensures passed { self.new ≡ past_blanks self.old }
        ensures tokens { tokens_left self.new ≡ tokens_left self.old }
        ensures text { self.new.text ≡ self.old.text }
        ensures within { self.new.place ≤ length self.new.text }
    {
        self.at = blanks_end(self.bytes, self.at);
        self.bytes.get(self.at).copied()
    }

    /// Whether the next byte that is no blank is `b`, which is then passed over. If it isn't, the
    /// scanner stands at it, behind the blanks.
    pub fn mark(&mut self, b: u8) -> bool
        ensures byte { result ≡ is_next b self.old }
        ensures passed { self.new ≡ past_byte b self.old }
        ensures forward { IsTrue result → self.old.place < self.new.place }
        ensures text { self.new.text ≡ self.old.text }
        ensures within { self.new.place ≤ length self.new.text }
    {
        let found = self.peek() == Some(b);
        if found {
            self.at += 1;
        }
        found
    }

    /// The next token, the longest run of bytes that are not blanks, which is passed over.
    pub fn token(&mut self) -> Option<Span>
        ensures none { IsNone result ↔ (tokens_left self.old ≡ []) }
        ensures token { IfSome result (λ span. tokens_left self.old ≡ token_at self.old.text span ∷ tokens_left self.new) }
        ensures bounds { IfSome result (λ span. (self.old.place ≤ span.start) × (span.start < span.end) × (span.end ≤ length self.old.text)) }
        ensures end { IfSome result (λ span. self.new.place ≡ span.end) }
        ensures passed { self.new ≡ past_token self.old }
        ensures text { self.new.text ≡ self.old.text }
        ensures within { self.new.place ≤ length self.new.text }
    {
        let start = blanks_end(self.bytes, self.at);
        let end = token_end(self.bytes, start);
        self.at = end;
        if start == end {
            None
        } else {
            Some(Span { start, end })
        }
    }

    /// The next token as a number from `lo` to `hi`. The token is passed over, also a refused one.
    pub fn number(&mut self, lo: i64, hi: i64) -> Result<Number, NumberFault>
        ensures answer { result ≡ first_number lo hi self.old }
        ensures passed { self.new ≡ past_token self.old }
        ensures forward { OnOk result (self.old.place < self.new.place) }
        ensures text { self.new.text ≡ self.old.text }
        ensures within { self.new.place ≤ length self.new.text }
    {
        let bytes = self.bytes;
        let Some(span) = self.token() else {
            return Err(NumberFault::End { at: bytes.len() });
        };
        let token = &bytes[span.start..span.end];
        match number_in(token, span.start, i128::from(lo), i128::from(hi)) {
            Ok(value) => Ok(Number {
                value: value as i64,
                at: span.start,
            }),
            Err(fault) => Err(fault),
        }
    }

    /// The number from `lo` to `hi` that comes next after blanks: a sign, if there is one, and all
    /// digits that follow, whatever stands behind them. It is passed over, also where it is out of
    /// range. Where there is no number, only the blanks are passed over.
    pub fn digits(&mut self, lo: i128, hi: i128) -> Result<i128, NumberFault>
        ensures answer { result ≡ next_number lo hi self.old }
        ensures passed { self.new ≡ past_number self.old }
        ensures forward { OnOk result (self.old.place < self.new.place) }
        ensures text { self.new.text ≡ self.old.text }
        ensures within { self.new.place ≤ length self.new.text }
    {
        let start = blanks_end(self.bytes, self.at);
        self.at = start;
        if start == self.bytes.len() {
            return Err(NumberFault::End { at: start });
        }
        let Some(front) = number_front(self.bytes, start) else {
            return Err(NumberFault::NotNumber { at: start });
        };
        self.at = front.end;
        in_range(front.value, start, lo, hi)
    }
}
