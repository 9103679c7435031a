//! The command of the words of `reroute`.

ghost use Rattle.std.specs.Prelude.{◌≡◌, IfOk, IfErr, map, string_bytes, false, true};
ghost use Rattle.command_words.specs.CommandLine.{has_shape, is_command_of};
ghost use Rattle.command_words.specs.Kinds.{form_of, with_word};
ghost use Rattle.command_words.specs.RerouteLine.{AsksForReroute, HasRerouteRanges, is_reroute, reroute_task_in, reroute_task_of};
ghost use Rattle.command_words.specs.RerouteLine.{reroute_form, reroute_routes_form, reroute_words};
ghost use Rattle.command_words.specs.declared.words_error.WordsError.TheVariants.{Refused};

use crate::kind::Kind;
use crate::option_name::OptionName;
use crate::read_words::ReadWords;
use crate::reroute_request::RerouteRequest;
use crate::shape::has_parts;
use crate::words_error::WordsError;
use std::alloc::Global;

/// What the words of `reroute` ask for: the arguments of the program, without the program's name.
pub fn reroute_of<'a>(alloc: Global, words: &'a [String]) -> Result<RerouteRequest<'a>, WordsError>
    ensures asked { IfOk result (AsksForReroute (map string_bytes words.now)) }
    ensures ranges { IfOk result HasRerouteRanges }
    ensures refused { IfErr result (λ e. e ≡ Refused → is_reroute (map string_bytes words.now) ≡ false) }
{
    if has_parts(Kind::RerouteRoutes, words) {
        with_routes(alloc, words)
    } else if has_parts(Kind::Reroute, words) {
        without_routes(alloc, words)
    } else {
        Err(WordsError::Refused)
    }
}

/// What words with three names ask for, where their values are in range.
fn with_routes<'a>(alloc: Global, words: &'a [String]) -> Result<RerouteRequest<'a>, WordsError>
    requires { has_shape reroute_routes_form (reroute_words (map string_bytes words.now)) ≡ true }
    ensures command { IfOk result (λ _. is_command_of (reroute_words (map string_bytes words.now)) reroute_routes_form ≡ true) }
    ensures task { IfOk result (λ r. reroute_task_in reroute_routes_form (reroute_words (map string_bytes words.now)) ≡ reroute_task_of r) }
    ensures ranges { IfOk result HasRerouteRanges }
    ensures refused { IfErr result (λ e. e ≡ Refused
        → is_command_of (reroute_words (map string_bytes words.now)) reroute_routes_form ≡ false) }
{
    let read = ReadWords::of(alloc, Kind::RerouteRoutes, words)?;
    Ok(RerouteRequest {
        input: read.name(0),
        routes: Some(read.name(1)),
        output: read.name(2),
        rounds: read.small_number(OptionName::RerouteRounds),
        passes: read.small_number(OptionName::Passes),
        workers: read.small_number(OptionName::Workers),
        seed: read.number(OptionName::Seed),
    })
}

/// What words with two names ask for, where their values are in range.
fn without_routes<'a>(alloc: Global, words: &'a [String]) -> Result<RerouteRequest<'a>, WordsError>
    requires { has_shape reroute_form (reroute_words (map string_bytes words.now)) ≡ true }
    ensures command { IfOk result (λ _. is_command_of (reroute_words (map string_bytes words.now)) reroute_form ≡ true) }
    ensures task { IfOk result (λ r. reroute_task_in reroute_form (reroute_words (map string_bytes words.now)) ≡ reroute_task_of r) }
    ensures ranges { IfOk result HasRerouteRanges }
    ensures refused { IfErr result (λ e. e ≡ Refused
        → is_command_of (reroute_words (map string_bytes words.now)) reroute_form ≡ false) }
{
    let read = ReadWords::of(alloc, Kind::Reroute, words)?;
    Ok(RerouteRequest {
        input: read.name(0),
        routes: None,
        output: read.name(1),
        rounds: read.small_number(OptionName::RerouteRounds),
        passes: read.small_number(OptionName::Passes),
        workers: read.small_number(OptionName::Workers),
        seed: read.number(OptionName::Seed),
    })
}
