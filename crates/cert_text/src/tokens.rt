//! The words, numbers and fractions that a scanner reads.

ghost use Rattle.std.specs.Prelude.{◌≡◌, ◌≤◌, length, IfOk, IsTrue};
ghost use Rattle.std.specs.Char.{is_ascii_digit};
ghost use Rattle.std.specs.List.{list_all};
ghost use Rattle.text_scan.specs.Tokens as text;
ghost use Rattle.cert_text.specs.declared.cert_error.CertError.TheVariants.{PriceLimit, NumberLimit};
ghost use Rattle.cert_text.specs.Limits.{max_stated_price};
ghost use Rattle.cert_text.specs.CertReads.{IsCertReadAs};
ghost use Rattle.cert_text.specs.CertTokens.{any_token_at, fixed_word_at, digits_at, limited_at, version_in, version_at, stated_ratio, fraction_in, fraction_at};
ghost use Rattle.cert_text.specs.StatedLimits.{IsRatioWithin, AreRatiosWithin};

use crate::cert_error::CertError;
use crate::digits::{is_digits, slash_in, value_of, value_within};
use crate::ratio::Ratio;
use crate::version::Version;
use text_scan::{Scanner, Span};

/// The greatest price.
const MAX_PRICE: u64 = 1 << 15;

/// Every numerator is below it.
const NUMERATOR_LIMIT: u128 = 1 << 70;

/// The next token, whatever it is.
fn token(scanner: &mut Scanner<'_>) -> Result<Span, CertError>
    ensures token { IsCertReadAs (text.token_at scanner.old.text) result scanner.new (any_token_at scanner.old) }
    ensures bounds { IfOk result (λ span. (span.start ≤ span.end) × (span.end ≤ length scanner.old.text)) }
    ensures text { scanner.new.text ≡ scanner.old.text }
{
    match scanner.token() {
        Some(span) => Ok(span),
        None => Err(CertError::Syntax {
            at: scanner.place(),
        }),
    }
}

/// The next token, which has to be this word.
#[tactic(auto, unfolding(crate::specs::CertTokens::fixed_word_at))]
pub(crate) fn word(scanner: &mut Scanner<'_>, word: &[u8]) -> Result<(), CertError>
    ensures { IsCertReadAs (λ _. tt) result scanner.new (fixed_word_at word.now scanner.old) }
{
    let span = token(scanner)?;
    if scanner.bytes(span) != word {
        return Err(CertError::Syntax { at: span.start });
    }
    Ok(())
}

/// The next token, which has to be a version.
#[tactic(auto, unfolding(crate::specs::CertTokens::version_at))]
pub(crate) fn version(scanner: &mut Scanner<'_>) -> Result<Version, CertError>
    ensures { IsCertReadAs (λ v. v) result scanner.new (version_at scanner.old) }
{
    let span = token(scanner)?;
    version_in(scanner.bytes(span), span.start)
}

/// The version that a token is whose first byte stands at `at`.
fn version_in(bytes: &[u8], at: usize) -> Result<Version, CertError>
    ensures { result ≡ version_in (record { place = at; bytes = bytes.now }) }
{
    if bytes == Version::One.text() {
        Ok(Version::One)
    } else if bytes == Version::Two.text() {
        Ok(Version::Two)
    } else {
        Err(CertError::Syntax { at })
    }
}

/// The next token, which has to be of digits.
#[tactic(auto, unfolding(crate::specs::CertTokens::digits_at))]
fn digits(scanner: &mut Scanner<'_>) -> Result<Span, CertError>
    ensures digits { IsCertReadAs (text.token_at scanner.old.text) result scanner.new (digits_at scanner.old) }
    ensures bounds { IfOk result (λ span. (span.start ≤ span.end) × (span.end ≤ length scanner.old.text)) }
    ensures text { scanner.new.text ≡ scanner.old.text }
    ensures valid { IfOk result (λ span. IsTrue (list_all is_ascii_digit (text.token_at scanner.old.text span).bytes)) }
{
    let span = token(scanner)?;
    if !is_digits(scanner.bytes(span)) {
        return Err(CertError::Syntax { at: span.start });
    }
    Ok(span)
}

/// A number in digits, from `lo` to `hi`.
#[tactic(auto, unfolding(crate::specs::CertTokens::limited_at))]
pub(crate) fn number(scanner: &mut Scanner<'_>, lo: u64, hi: u64) -> Result<u64, CertError>
    ensures number { IsCertReadAs (λ x. x) result scanner.new (limited_at NumberLimit lo hi scanner.old) }
    ensures range { IfOk result (λ x. (lo ≤ x) × (x ≤ hi)) }
{
    let span = digits(scanner)?;
    value_within(scanner.bytes(span), lo, hi).ok_or(CertError::NumberLimit { at: span.start })
}

/// A price in digits.
#[tactic(auto, unfolding(crate::specs::CertTokens::limited_at))]
pub(crate) fn price(scanner: &mut Scanner<'_>) -> Result<u32, CertError>
    ensures price { IsCertReadAs (λ x. x) result scanner.new (limited_at PriceLimit 0 max_stated_price scanner.old) }
    ensures range { IfOk result (λ x. x ≤ max_stated_price) }
{
    let span = digits(scanner)?;
    let value = value_within(scanner.bytes(span), 0, MAX_PRICE).ok_or(CertError::PriceLimit {
        at: span.start,
    })?;
    Ok(value as u32)
}

/// A fraction, or `none`.
#[tactic(auto, unfolding(crate::specs::CertTokens::fraction_at))]
pub(crate) fn fraction(
    scanner: &mut Scanner<'_>,
    version: Version,
) -> Result<Option<Ratio>, CertError>
    ensures fraction { IsCertReadAs (λ x. x) result scanner.new (fraction_at version scanner.old) }
    ensures range { IfOk result (AreRatiosWithin version) }
{
    let span = token(scanner)?;
    fraction_in(scanner.bytes(span), span.start, version)
}

/// The fraction that a token states whose first byte stands at `at`, or none where it is `none`.
fn fraction_in(bytes: &[u8], at: usize, version: Version) -> Result<Option<Ratio>, CertError>
    ensures fraction { result ≡ fraction_in version (record { place = at; bytes = bytes.now }) }
    ensures range { IfOk result (AreRatiosWithin version) }
{
    if bytes == b"none".as_slice() {
        return Ok(None);
    }
    Ok(Some(stated_ratio(bytes, at, version)?))
}

/// The fraction that a token states whose first byte stands at `at`.
fn stated_ratio(bytes: &[u8], at: usize, version: Version) -> Result<Ratio, CertError>
    ensures ratio { result ≡ stated_ratio version (record { place = at; bytes = bytes.now }) }
    ensures range { IfOk result (IsRatioWithin version) }
{
    let slash = slash_in(bytes);
    if slash == bytes.len() || !is_digits(&bytes[..slash]) || !is_digits(&bytes[slash + 1..]) {
        return Err(CertError::Syntax { at });
    }
    let num = value_of(&bytes[..slash]);
    let den = value_of(&bytes[slash + 1..]);
    if num < NUMERATOR_LIMIT && 1 <= den && den <= version.max_denominator() {
        Ok(Ratio { num, den })
    } else {
        Err(CertError::NumberLimit { at })
    }
}
