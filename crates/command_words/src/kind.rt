//! The forms of words, before they are read.

ghost use Rattle.std.specs.Prelude.{◌≡◌, ◌<◌, ℕ, List};
ghost use Rattle.command_words.specs.CommandLine.{has_option};
ghost use Rattle.command_words.specs.Kinds.{form_of, name_test, options_of};

use crate::name_form::NameForm;
use crate::option_name::{OptionName, is_word_among};
use crate::verb::Verb;

/// The form of words: a command of `grouter`, or one of the two forms of `reroute`.
#[derive(Clone, Copy, Drop)]
pub(crate) enum Kind {
    Grouter(Verb),
    Reroute,
    RerouteRoutes,
}

impl Kind {
    /// How many names there are.
    pub(crate) fn name_count(self) -> usize
        ensures count { result ≡ (form_of self).names }
        ensures some { 0 < result }
    {
        match self {
            Kind::Grouter(verb) => verb.name_count(),
            Kind::Reroute => 2,
            Kind::RerouteRoutes => 3,
        }
    }

    /// The options that there are.
    pub(crate) fn options(self) -> &'static [OptionName]
        ensures { result.now ≡ options_of self }
    {
        match self {
            Kind::Grouter(verb) => verb.options(),
            Kind::Reroute | Kind::RerouteRoutes => &[
                OptionName::RerouteRounds,
                OptionName::Passes,
                OptionName::Workers,
                OptionName::Seed,
            ],
        }
    }

    /// Which words may be a name.
    pub(crate) fn name_form(self) -> NameForm
        ensures { (word : List ℕ) → name_test result word ≡ (form_of self).is_name word }
    {
        match self {
            Kind::Grouter(verb) => verb.name_form(),
            Kind::Reroute | Kind::RerouteRoutes => NameForm::File,
        }
    }

    /// Whether an option has this word.
    #[tactic(auto, using(crate::proofs::Rules::has_option_is))]
    pub(crate) fn has_option(self, word: &str) -> bool
        ensures { result ≡ has_option (form_of self) word.now }
    {
        is_word_among(word, self.options())
    }
}
