//! Reads a certificate.

ghost use Rattle.std.specs.Prelude.{◌≡◌, ◌≤◌, length, All, IfOk, IfErr};
ghost use Rattle.edge_prices.specs.Budgets.{IsWithinLimits};
ghost use Rattle.cert_text.specs.Versions.{version_of};
ghost use Rattle.cert_text.specs.Limits.{max_stated_count, max_stated_price};
ghost use Rattle.cert_text.specs.CertReads.{IsCertReadAs, RefusesCert};
ghost use Rattle.cert_text.specs.StatedCerts.{labelled_number_at, labelled_fraction_at, heading_at, stated_budget_at, budget_at, prices_at, text_end_at, stated_at, stated_in};
ghost use Rattle.cert_text.specs.StatedLimits.{AreRatiosWithin, IsStatedWithin};
ghost use Rattle.cert_text.specs.Certs.{IsValueOf, IsOf, IsCertOf, AreFractionsWithin, IsCertWithin};

use crate::cert::Cert;
use crate::cert_error::CertError;
use crate::price_list::PriceList;
use crate::ratio::Ratio;
use crate::stated::Stated;
use crate::tokens::{fraction, number, price, version, word};
use crate::version::Version;
use std::alloc::Global;
use text_scan::Scanner;
use tree_set::{Budget, Fraction};

/// The greatest number of nets, of forced nets and of prices.
const MAX_COUNT: u64 = 0xffff_ffff;

/// The greatest overflow and wirelength.
const MAX_TOTAL: u64 = 0x7fff_ffff_ffff_ffff;

/// The greatest budget.
const MAX_BUDGET: u64 = 1 << 42;

/// The certificate of a text of either version.
pub fn read_cert(alloc: Global, bytes: &[u8]) -> Result<Cert, CertError>
    ensures cert { IfOk result (λ cert. IsCertOf bytes.now cert) }
    ensures refusal { IfErr result (λ e. RefusesCert e (stated_in bytes.now)) }
    ensures limits { IfOk result IsCertWithin }
{
    let mut scanner = Scanner::over(bytes);
    let stated = stated(alloc, &mut scanner)?;
    Ok(certificate(stated))
}

/// All that a text states.
#[tactic(auto, unfolding(crate::specs::StatedCerts::stated_at))]
fn stated(alloc: Global, scanner: &mut Scanner<'_>) -> Result<Stated, CertError>
    ensures stated { IsCertReadAs (λ s. s) result scanner.new (stated_at scanner.old) }
    ensures limits { IfOk result IsStatedWithin }
{
    let version = heading(scanner)?;
    let nets = labelled_number(scanner, b"nets", MAX_COUNT)?;
    let forced = labelled_number(scanner, b"forced", MAX_COUNT)?;
    let overflow = labelled_number(scanner, b"overflow", MAX_TOTAL)?;
    let wirelength = labelled_number(scanner, b"wirelength", MAX_TOTAL)?;
    let peak = labelled_fraction(scanner, b"peak", version)?;
    let bound = labelled_fraction(scanner, b"bound", version)?;
    let budget = budget(scanner, version)?;
    let prices = prices(alloc, scanner)?;
    text_end(scanner)?;
    Ok(Stated {
        nets: nets as u32,
        forced: forced as u32,
        overflow,
        wirelength,
        peak,
        bound,
        budget,
        prices,
    })
}

/// `grouter`, `certificate`, and the version.
#[tactic(auto, unfolding(crate::specs::StatedCerts::heading_at))]
fn heading(scanner: &mut Scanner<'_>) -> Result<Version, CertError>
    ensures { IsCertReadAs (λ v. v) result scanner.new (heading_at scanner.old) }
{
    word(scanner, b"grouter")?;
    word(scanner, b"certificate")?;
    version(scanner)
}

/// A label, and a number of at most `most`.
#[tactic(auto, unfolding(crate::specs::StatedCerts::labelled_number_at))]
fn labelled_number(scanner: &mut Scanner<'_>, label: &[u8], most: u64) -> Result<u64, CertError>
    ensures number { IsCertReadAs (λ x. x) result scanner.new (labelled_number_at label.now most scanner.old) }
    ensures range { IfOk result (λ x. x ≤ most) }
{
    word(scanner, label)?;
    number(scanner, 0, most)
}

/// A label, and a fraction.
#[tactic(auto, unfolding(crate::specs::StatedCerts::labelled_fraction_at))]
fn labelled_fraction(
    scanner: &mut Scanner<'_>,
    label: &[u8],
    version: Version,
) -> Result<Option<Ratio>, CertError>
    ensures fraction { IsCertReadAs (λ x. x) result scanner.new (labelled_fraction_at label.now version scanner.old) }
    ensures range { IfOk result (AreRatiosWithin version) }
{
    word(scanner, label)?;
    fraction(scanner, version)
}

/// The budget, in the version that has one.
fn budget(scanner: &mut Scanner<'_>, version: Version) -> Result<Option<Budget>, CertError>
    ensures budget { IsCertReadAs (λ b. b) result scanner.new (budget_at version scanner.old) }
    ensures version { IfOk result (λ b. version_of b ≡ version) }
    ensures limits { IfOk result IsWithinLimits }
{
    match version {
        Version::One => Ok(None),
        Version::Two => Ok(Some(stated_budget(scanner)?)),
    }
}

/// `budget`, the wirelength that is to be kept, and its price.
#[tactic(auto, unfolding(crate::specs::StatedCerts::stated_budget_at))]
fn stated_budget(scanner: &mut Scanner<'_>) -> Result<Budget, CertError>
    ensures budget { IsCertReadAs (λ b. b) result scanner.new (stated_budget_at scanner.old) }
    ensures limits { IfOk result (λ b. IsWithinLimits (Some b)) }
{
    word(scanner, b"budget")?;
    let most = number(scanner, 1, MAX_BUDGET)?;
    let price = price(scanner)?;
    Ok(Budget { most, price })
}

/// `prices`, how many there are, and the prices.
#[tactic(auto, unfolding(crate::specs::StatedCerts::prices_at))]
fn prices(alloc: Global, scanner: &mut Scanner<'_>) -> Result<PriceList, CertError>
    ensures prices { IsCertReadAs (λ p. p) result scanner.new (prices_at scanner.old) }
    ensures few { IfOk result (λ p. length p ≤ max_stated_count) }
    ensures range { IfOk result (λ p. All (λ x. x ≤ max_stated_price) p) }
{
    let count = labelled_number(scanner, b"prices", MAX_COUNT)?;
    let mut prices = Vec::new(alloc);
    for _ in 0..count {
        prices.push(price(scanner)?)?;
    }
    Ok(PriceList::of(prices))
}

/// Nothing but blanks, up to the end of the text.
fn text_end(scanner: &mut Scanner<'_>) -> Result<(), CertError>
    ensures { IsCertReadAs (λ _. tt) result scanner.new (text_end_at scanner.old) }
{
    if scanner.peek().is_some() {
        return Err(CertError::Syntax {
            at: scanner.place(),
        });
    }
    Ok(())
}

/// The certificate that a text states, with its fractions in lowest terms.
fn certificate(stated: Stated) -> Cert
    requires { IsStatedWithin stated }
    ensures value { IsOf stated result }
    ensures limits { IsCertWithin result }
{
    Cert {
        nets: stated.nets,
        forced: stated.forced,
        overflow: stated.overflow,
        wirelength: stated.wirelength,
        peak: fraction_of(stated.peak, Version::of(stated.budget)),
        bound: fraction_of(stated.bound, Version::of(stated.budget)),
        budget: stated.budget,
        prices: stated.prices,
    }
}

/// The fraction in lowest terms, where one is stated.
fn fraction_of(stated: Option<Ratio>, version: Version) -> Option<Fraction>
    requires { AreRatiosWithin version stated }
    ensures value { IsValueOf stated result }
    ensures limits { AreFractionsWithin version result }
{
    match stated {
        None => None,
        Some(ratio) => Some(Fraction::of(ratio.num, ratio.den)),
    }
}
