//! What is true of a table between any two steps.

ghost use Rattle.load_core.specs.Parties.{first_party};
ghost use Rattle.load_table.specs.Tables.{IsSoundTable};

use atomic_table::TableRule;
use load_core::Party;

/// The words and the parties of all shares are a sound core. What the table is told is how many words it has.
pub struct Sums;

impl TableRule<u8, Party, u64> for Sums {
    ghost holds = { IsSoundTable };

    ghost first = { first_party };
}
