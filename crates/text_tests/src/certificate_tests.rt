//! Certificates of `cert_text` that were worked out by hand.

use crate::text_fields::field_of;
use cert_text::{Cert, CertError, PriceList, read_cert, write_cert};
use gr_desk::{Desk, MemDesk, Port};
use std::alloc::{AllocError, Global};
use std::test::Fail;
use test_rows::{
    Answers, RowFault, agree, check_rows, five_fields, number_of, numbers_of, text_of, two_numbers,
};
use tree_set::{Budget, Fraction};

/// The fraction that a field is, or none.
fn fraction_of(field: &'static str) -> Result<Option<Fraction>, RowFault> {
    if field == "none" {
        return Ok(None);
    }
    let Some((num, den)) = field.split_once('/') else {
        return Err(RowFault::OtherNumbers(field));
    };
    let (num, den) = (number_of::<u8>(num)?, number_of::<u8>(den)?);
    if den == 0 {
        return Err(RowFault::NoNumber(field));
    }
    Ok(Some(Fraction::of(num as u128, den as u128)))
}

/// The budget that a field is, or none where it is empty.
fn budget_of(field: &'static str) -> Result<Option<Budget>, RowFault> {
    if field.is_empty() {
        return Ok(None);
    }
    let (most, price) = two_numbers::<u32>(field)?;
    Ok(Some(Budget {
        most: most as u64,
        price,
    }))
}

/// The certificate of a row, by which no net is forced and nothing overflows.
fn cert_of(alloc: Global, given: &'static str) -> Result<Cert, RowFault> {
    let (counts, peak, bound, budget, prices) = five_fields(given)?;
    let (nets, wirelength) = two_numbers::<u32>(counts)?;
    let (peak, bound, budget) = (fraction_of(peak)?, fraction_of(bound)?, budget_of(budget)?);
    Ok(Cert {
        nets,
        forced: 0,
        overflow: 0,
        wirelength: wirelength as u64,
        peak,
        bound,
        budget,
        prices: PriceList::of(numbers_of(alloc, prices)?),
    })
}

/// The text that is written for the certificate, as a field.
fn cert_field(alloc: Global, cert: &Cert, desk: &mut MemDesk) -> Result<String, Fail> {
    desk.create(Port::CertOut, "routes.cert")?;
    write_cert(desk, Port::CertOut, cert)?;
    field_of(alloc, desk.written(Port::CertOut))
}

fn written_field(alloc: Global, cert: &Cert) -> Result<String, Fail> {
    let mut desk = MemDesk::new(alloc, Vec::new(alloc), Vec::new(alloc));
    cert_field(alloc, cert, &mut desk)
}

/// Why a text is refused, and the place.
fn refusal_text(alloc: Global, error: CertError) -> Result<String, AllocError> {
    match error {
        CertError::Syntax { at } => format!(in alloc; "syntax {at}"),
        CertError::NumberLimit { at } => format!(in alloc; "number {at}"),
        CertError::PriceLimit { at } => format!(in alloc; "price {at}"),
        CertError::NoMemory => Err(AllocError),
    }
}

/// What is written for the certificate that is read of a text, or why the text is refused.
fn read_field(alloc: Global, field: &str) -> Result<String, Fail> {
    match read_cert(alloc, text_of(alloc, field)?.as_bytes()) {
        Ok(cert) => written_field(alloc, &cert),
        Err(error) => Ok(refusal_text(alloc, error)?),
    }
}

/// The text of the certificate of a row. Fails where another one is read of it.
fn field_of_row(alloc: Global, given: &'static str) -> Result<String, Fail> {
    let cert = cert_of(alloc, given)?;
    let field = written_field(alloc, &cert)?;
    agree(given, read_field(alloc, &field)?.as_str(), &field)?;
    Ok(field)
}

struct Certificates;

impl Answers for Certificates {
    fn answer(&self, alloc: Global, given: &'static str) -> Result<String, Fail> {
        if given.contains('|') {
            field_of_row(alloc, given)
        } else {
            read_field(alloc, given)
        }
    }
}

/// The nets and the wirelength of a certificate, the peak, the bound, the budget and the prices, and its text. A `;` stands for a line
/// end.
const WRITTEN: &str = "# the design of three tiles in a row and one net from end to end
1 2|2/4|1/2|| 12758 12758|grouter certificate 1;nets 1;forced 0;overflow 0;wirelength 2;peak 1/2;bound 1/2;prices 2;12758;12758;
# the same design without nets
0 0|0/4|0/1|| 12758 12758|grouter certificate 1;nets 0;forced 0;overflow 0;wirelength 0;peak 0/1;bound 0/1;prices 2;12758;12758;
# the design of two by two tiles and one net from corner to corner
1 2|2/2|1/2|| 12758 12758 12758 12758|grouter certificate 1;nets 1;forced 0;overflow 0;wirelength 2;peak 1/1;bound 1/2;prices 4;12758;12758;12758;12758;
# the design of one tile and two layers, which has no edge
1 1|none|none|||grouter certificate 1;nets 1;forced 0;overflow 0;wirelength 1;peak none;bound none;prices 0;
# the same with a budget
1 1|1/1|1/1|1 1||grouter certificate 2;nets 1;forced 0;overflow 0;wirelength 1;peak 1/1;bound 1/1;budget 1 1;prices 0;";

/// Texts, and what is written for what is read of them, or why and where they are refused. The first has other blanks and other
/// numerals.
const READ: &str =
    "grouter certificate 2 nets 01 forced 0 overflow 0\twirelength 1 peak 3/3\r;bound 2/2 budget 1 1 prices 0|grouter certificate 2;nets 1;forced 0;overflow 0;wirelength 1;peak 1/1;bound 1/1;budget 1 1;prices 0;
grouter certificate 3|syntax 20
grouter certificate 01|syntax 20
grouter certificate 1 nets +1|syntax 27
grouter certificate 1 nets 4294967295 forced 4294967296|number 45
grouter certificate 1 nets 1 forced 0 overflow 9223372036854775808|number 47
grouter certificate 1 nets 1 forced 0 overflow 0 wirelength 2 peak 1180591620717411303424/1|number 67
grouter certificate 1 nets 1 forced 0 overflow 0 wirelength 2 peak 1/144115188075855873|number 67
grouter certificate 1 nets 1 forced 0 overflow 0 wirelength 2 peak 1/0|number 67
grouter certificate 1 nets 1 forced 0 overflow 0 wirelength 2 peak 1/0/1|syntax 67
grouter certificate 1 nets 1 forced 0 overflow 0 wirelength 2 peak 1|syntax 67
grouter certificate 1 nets 1 forced 0 overflow 0 wirelength 2 peak 1/|syntax 67
grouter certificate 1 nets 1 forced 0 overflow 0 wirelength 2 peak 1 / 2|syntax 67
grouter certificate 2 nets 1 forced 0 overflow 0 wirelength 2 peak 1/288230376151711744 bound none budget 0 1|number 106
grouter certificate 2 nets 1 forced 0 overflow 0 wirelength 2 peak 1/288230376151711744 bound none budget 4398046511105 1|number 106
grouter certificate 2 nets 1 forced 0 overflow 0 wirelength 2 peak 1/288230376151711744 bound none budget 1 32769|price 108
grouter certificate 1;nets 1;forced 0;overflow 0;wirelength 2;peak 1/2;bound 1/2;prices 2;40000;12758;|price 90
grouter certificate 1;nets 1;forced 0;overflow 0;wirelength 2;peak 1/2;bound 1/2;prices 3;32768;12758;|syntax 102
grouter certificate 1;nets 1;forced 0;overflow 0;wirelength 2;peak 1/2;bound 1/2;prices 1;32768;12758;|syntax 96";

#[test]
fn certificates_are_written_and_read(rt: HostRuntime) -> Result<(), Fail> {
    check_rows(rt.alloc(), WRITTEN, &Certificates)?;
    check_rows(rt.alloc(), READ, &Certificates)
}

/// The first certificate, of 102 bytes.
const ONE_NET: &[u8] =
    b"grouter certificate 1\nnets 1\nforced 0\noverflow 0\nwirelength 2\npeak 1/2\nbound 1/2\nprices 2\n12758\n12758\n";

/// Whether a text that may end early is refused for that, or has a digit of the last price.
fn ends_as_wanted(alloc: Global, text: &[u8]) -> bool {
    match read_cert(alloc, text) {
        Ok(_) => text.len() >= 97,
        Err(error) => text.len() < 97 && error.number() == Some(32),
    }
}

#[test]
fn a_text_that_ends_early_is_refused(rt: HostRuntime) -> Result<(), Fail> {
    for kept in 0..ONE_NET.len() {
        if !ends_as_wanted(rt.alloc(), &ONE_NET[..kept]) {
            return Err(Fail::new(format_args!("with {kept} bytes")));
        }
    }
    Ok(())
}
