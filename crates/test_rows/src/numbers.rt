//! Numbers as fields of rows.

ghost use Rattle.std.specs.Prelude.{IfOk, Ok};
ghost use Rattle.test_rows.specs.Fields.{first_word, other_words};

use crate::fault::RowFault;
use std::alloc::{AllocError, Global};
use std::fmt::Display;
use std::str::FromStr;

/// The number that a field is.
pub fn number_of<N: FromStr + Drop>(field: &'static str) -> Result<N, RowFault>
where
    N::Err: Drop,
    ensures { IfOk result (λ number. N.from_str_gives field.now (Ok number)) }
{
    match field.parse::<N>() {
        Ok(number) => Ok(number),
        Err(_) => Err(RowFault::NoNumber(field)),
    }
}

/// The two numbers of a field.
pub fn two_numbers<N: FromStr + Drop>(field: &'static str) -> Result<(N, N), RowFault>
where
    N::Err: Drop,
    ensures first { IfOk result (λ numbers. N.from_str_gives (first_word field.now) (Ok numbers.0)) }
    ensures second { IfOk result (λ numbers. N.from_str_gives (other_words field.now) (Ok numbers.1)) }
{
    let Some((first, second)) = field.split_once(' ') else {
        return Err(RowFault::OtherNumbers(field));
    };
    Ok((number_of(first)?, number_of(second)?))
}

/// The three numbers of a field.
pub fn three_numbers<N: FromStr + Drop>(field: &'static str) -> Result<(N, N, N), RowFault>
where
    N::Err: Drop,
    ensures first { IfOk result (λ numbers. N.from_str_gives (first_word field.now) (Ok numbers.0)) }
    ensures second { IfOk result (λ numbers. N.from_str_gives (first_word (other_words field.now)) (Ok numbers.1)) }
    ensures third { IfOk result (λ numbers. N.from_str_gives (other_words (other_words field.now)) (Ok numbers.2)) }
{
    let Some((first, rest)) = field.split_once(' ') else {
        return Err(RowFault::OtherNumbers(field));
    };
    let first = number_of(first)?;
    let (second, third) = two_numbers(rest)?;
    Ok((first, second, third))
}

/// The numbers of a field, as many as there are, which blanks part.
pub fn numbers_of<N: FromStr + Drop>(alloc: Global, field: &'static str) -> Result<Vec<N>, RowFault>
where
    N::Err: Drop,
{
    let mut numbers = Vec::new(alloc);
    for word in field.split_whitespace() {
        numbers.push(number_of(word)?)?;
    }
    Ok(numbers)
}

/// The numbers as a field, each behind a blank.
pub fn numbers_text<N: Display>(alloc: Global, numbers: &[N]) -> Result<String, AllocError> {
    let mut text = String::new(alloc);
    for number in numbers {
        text.push_str(" ")?;
        text.push_str(number.to_string(alloc)?.as_str())?;
    }
    Ok(text)
}
