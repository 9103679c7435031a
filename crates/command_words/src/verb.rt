//! The commands of `grouter`, before their words are read.

ghost use Rattle.std.specs.Prelude.{◌≡◌, ◌<◌, ℕ, List, MatchOption, false, true};
ghost use Rattle.std.specs.Str.{bytes_eq};
ghost use Rattle.command_words.specs.declared.verb.Verb.{Verb};
ghost use Rattle.command_words.specs.Kinds.{name_test, verb_form, verb_options};

use crate::name_form::NameForm;
use crate::option_name::OptionName;

/// A command of `grouter`, by its first word.
#[derive(Clone, Copy, Drop)]
pub(crate) enum Verb {
    Route,
    Measure,
    Judge,
    Make,
    Trial,
    Eco,
    Climb,
    Guide,
}

impl Verb {
    /// The command that begins with this word.
    pub(crate) fn of(word: &str) -> Option<Verb>
        ensures { MatchOption result ((verb : Verb) → bytes_eq word.now (verb_form verb).word ≡ false)
            (λ verb. bytes_eq word.now (verb_form verb).word ≡ true) }
    {
        match word {
            "route" => Some(Verb::Route),
            "measure" => Some(Verb::Measure),
            "judge" => Some(Verb::Judge),
            "make" => Some(Verb::Make),
            "trial" => Some(Verb::Trial),
            "eco" => Some(Verb::Eco),
            "climb" => Some(Verb::Climb),
            "guide" => Some(Verb::Guide),
            _ => None,
        }
    }

    /// How many names follow.
    pub(crate) fn name_count(self) -> usize
        ensures count { result ≡ (verb_form self).names }
        ensures some { 0 < result }
    {
        match self {
            Verb::Eco | Verb::Climb => 4,
            Verb::Route | Verb::Judge | Verb::Guide => 3,
            Verb::Measure => 2,
            Verb::Make | Verb::Trial => 1,
        }
    }

    /// The options that the command has.
    pub(crate) fn options(self) -> &'static [OptionName]
        ensures { result.now ≡ verb_options self }
    {
        match self {
            Verb::Route => &[
                OptionName::Workers,
                OptionName::Phases,
                OptionName::Rounds,
                OptionName::Seed,
                OptionName::Budget,
            ],
            Verb::Measure | Verb::Judge | Verb::Eco | Verb::Guide => &[],
            Verb::Climb => &[OptionName::Turns],
            Verb::Make => &[
                OptionName::Seed,
                OptionName::Cols,
                OptionName::Rows,
                OptionName::Layers,
                OptionName::Nets,
            ],
            Verb::Trial => &[
                OptionName::Cols,
                OptionName::Rows,
                OptionName::Layers,
                OptionName::Nets,
            ],
        }
    }

    /// Which words may be a name of the command.
    pub(crate) fn name_form(self) -> NameForm
        ensures { (word : List ℕ) → name_test result word ≡ (verb_form self).is_name word }
    {
        match self {
            Verb::Trial => NameForm::Seed,
            Verb::Route
            | Verb::Measure
            | Verb::Judge
            | Verb::Make
            | Verb::Eco
            | Verb::Climb
            | Verb::Guide => NameForm::File,
        }
    }
}
