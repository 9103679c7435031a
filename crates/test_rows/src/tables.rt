//! Tables of which one call answers each row.

use crate::fault::RowFault;
use crate::rows::{agree, rows_of};
use std::alloc::Global;
use std::test::Fail;

/// What answers the rows of a table.
pub trait Answers {
    /// What is found of the fields that stand before a row's last bar, in the form of the field behind it.
    fn answer(&self, alloc: Global, given: &'static str) -> Result<String, Fail>;
}

/// Fails at the first row of a table whose last field is not what is found of the fields before it, and where there is no bar.
pub fn check_rows<A: Answers>(alloc: Global, table: &'static str, answers: &A) -> Result<(), Fail> {
    for row in rows_of(alloc, table)? {
        let (given, wanted) = row.rsplit_once('|').ok_or(RowFault::OtherFields(row))?;
        agree(row, answers.answer(alloc, given)?.as_str(), wanted)?;
    }
    Ok(())
}
