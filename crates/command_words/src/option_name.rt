//! The options, before their values are read.

ghost use Rattle.std.specs.Prelude.{◌≡◌, ◌≤◌, ◌<◌, ◌^◌, option_map, pos, false};
ghost use Rattle.std.specs.List.{list_any};
ghost use Rattle.std.specs.Str.{bytes_eq};
ghost use Rattle.clap.specs.Words.{rule_of};
ghost use Rattle.clap.specs.declared.builder.value_parser.ValueParser.TheVariants as vp;
ghost use Rattle.command_words.specs.Apps.{default_text, option_rule, value_rule};
ghost use Rattle.command_words.specs.Kinds.{id_of, option_of};

use clap::builder::ValueParser;
use clap::{Arg, ArgAction, value_parser};
use std::alloc::Global;

/// The greatest budget for the wirelength.
const MOST_BUDGET: u64 = 1 << 42;

/// An option, by its word.
#[derive(Clone, Copy, Drop)]
pub(crate) enum OptionName {
    Workers,
    Phases,
    Rounds,
    Seed,
    Budget,
    Cols,
    Rows,
    Layers,
    Nets,
    Turns,
    RerouteRounds,
    Passes,
}

impl OptionName {
    /// The table of options: the word, the same without its two hyphens, the values, and the text that stands for the option
    /// where it isn't given.
    fn row<'a>(self) -> (&'a str, &'a str, ValueParser<'a>, Option<&'a str>)
        ensures word { result.0.now ≡ (option_of self).word }
        ensures id { result.1.now ≡ id_of self }
        ensures values { result.2 ≡ vp.Unsigned (option_of self).least (option_of self).most }
        ensures default { option_map (λ text. text.now) result.3 ≡ default_text self }
    {
        match self {
            OptionName::Workers => ("--workers", "workers", between(1, 8), Some("1")),
            OptionName::Phases => ("--phases", "phases", between(1, 16), Some("4")),
            OptionName::Rounds => ("--rounds", "rounds", between(0, 16), Some("4")),
            OptionName::Seed => ("--seed", "seed", value_parser!(u64), Some("0")),
            OptionName::Budget => ("--budget", "budget", between(1, MOST_BUDGET), None),
            OptionName::Cols => ("--cols", "cols", between(2, 1024), Some("16")),
            OptionName::Rows => ("--rows", "rows", between(2, 1024), Some("16")),
            OptionName::Layers => ("--layers", "layers", between(2, 8), Some("4")),
            OptionName::Nets => ("--nets", "nets", between(0, 1_048_576), Some("200")),
            OptionName::Turns => ("--turns", "turns", between(1, 16), Some("4")),
            OptionName::RerouteRounds => ("--rounds", "rounds", between(0, 400), Some("60")),
            OptionName::Passes => ("--passes", "passes", between(0, 16), Some("4")),
        }
    }

    /// Whether this is the option's word.
    pub(crate) fn is_word(self, word: &str) -> bool
        ensures { result ≡ bytes_eq word.now (option_of self).word }
    {
        word == self.row().0
    }

    /// The option's word without its two hyphens.
    pub(crate) fn id<'a>(self) -> &'a str
        ensures { result.now ≡ id_of self }
    {
        self.row().1
    }

    /// The option as clap knows it.
    pub(crate) fn arg<'a>(self, alloc: Global) -> Arg<'a>
        ensures rule { rule_of result ≡ option_rule self }
        ensures local { result.global ≡ false }
    {
        let (_, id, values, unless_given) = self.row();
        let arg = option(alloc, id, values);
        match unless_given {
            Some(text) => arg.default_value(text),
            None => arg,
        }
    }
}

/// Whether one of the options has this word.
pub(crate) fn is_word_among(word: &str, options: &[OptionName]) -> bool
    ensures { result ≡ list_any (λ option. bytes_eq word.now (option_of option).word) options.now }
{
    options.iter().any(|option| option.is_word(word))
}

/// An option with one value, which is written as the name behind two hyphens.
fn option<'a>(alloc: Global, name: &'a str, values: ValueParser<'a>) -> Arg<'a>
    ensures rule { rule_of result ≡ value_rule name.now values.entry }
    ensures local { result.global ≡ false }
{
    Arg::new(alloc, name)
        .long(name)
        .action(ArgAction::Set)
        .value_parser(values)
}

/// The numbers from the least to the most.
fn between<'a>(least: u64, most: u64) -> ValueParser<'a>
    requires ordered { least ≤ most }
    requires small { most < 2 ^ 63 }
    ensures { result ≡ vp.Unsigned least most }
{
    value_parser!(u64).range(signed(least)..=signed(most))
}

fn signed(number: u64) -> i64
    requires { number < 2 ^ 63 }
    ensures { result ≡ pos number }
{
    number as i64
}
