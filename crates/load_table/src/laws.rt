//! A law of tables: it is the contract of a call that does nothing.

ghost use Rattle.std.specs.Prelude.{◌≡◌, ℕ, length};
ghost use Rattle.atomic_table.specs.Table.{State};
ghost use Rattle.load_core.specs.Soundness.{IsSound};

use crate::rule::Sums;
use atomic_table::TableRule;
use load_core::Party;

/// Whatever a table may be between any two steps of whatever threads, it has as many words as it was opened with, and they
/// are a sound core with the parties of all its shares. What it may be is the rule in the type of every `LoadTable`.
pub fn tables_are_sound_between_steps()
    ensures words { (words : ℕ) (state : State ℕ Party) → ⟦<Sums as TableRule<u8, Party, u64>>⟧.holds words state → length state.words ≡ words }
    ensures sound { (words : ℕ) (state : State ℕ Party) → ⟦<Sums as TableRule<u8, Party, u64>>⟧.holds words state → IsSound state.words state.views }
{}
