//! Which words may be a name.

ghost use Rattle.std.specs.Prelude.{◌≡◌};
ghost use Rattle.command_words.specs.Kinds.{name_test};

use crate::word::{is_file_name, seed_of};

/// Which words may be a name.
#[derive(Clone, Copy, Drop)]
pub(crate) enum NameForm {
    /// Names of files.
    File,
    /// Seeds.
    Seed,
}

impl NameForm {
    /// Whether the word may be a name.
    pub(crate) fn is_name(self, word: &str) -> bool
        ensures { result ≡ name_test self word.now }
    {
        match self {
            NameForm::File => is_file_name(word),
            NameForm::Seed => seed_of(word).is_some(),
        }
    }
}
