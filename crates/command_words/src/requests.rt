//! The requests that words ask for.

ghost use Rattle.std.specs.Prelude.{◌≡◌, map, string_bytes};
ghost use Rattle.command_words.specs.CommandLine.{AsksFor, AsksForRoute, AsksForMeasure, AsksForJudge, AsksForMake, AsksForTrial, AsksForEco, AsksForClimb, AsksForGuide};
ghost use Rattle.command_words.specs.Kinds.{with_word};
ghost use Rattle.command_words.specs.CommandLine.{HasRanges, HasRouteRanges, HasMakeRanges, HasTrialRanges, HasClimbRanges};

use crate::climb_request::ClimbRequest;
use crate::command::Command;
use crate::eco_request::EcoRequest;
use crate::guide_request::GuideRequest;
use crate::judge_request::JudgeRequest;
use crate::kind::Kind;
use crate::make_request::MakeRequest;
use crate::measure_request::MeasureRequest;
use crate::option_name::OptionName;
use crate::read_words::ReadWords;
use crate::route_request::RouteRequest;
use crate::trial_request::TrialRequest;
use crate::verb::Verb;
use crate::word::seed_of;

/// What the words that were read ask for.
pub(crate) fn command_in<'a>(verb: Verb, read: &ReadWords<'a>) -> Command<'a>
    requires { read.now.kind ≡ Kind.Grouter verb }
    ensures asked { AsksFor (with_word read.now.kind (map string_bytes read.now.words.now)) result }
    ensures ranges { HasRanges result }
{
    match verb {
        Verb::Route => Command::Route(route_request(read)),
        Verb::Measure => Command::Measure(measure_request(read)),
        Verb::Judge => Command::Judge(judge_request(read)),
        Verb::Make => Command::Make(make_request(read)),
        Verb::Trial => Command::Trial(trial_request(read)),
        Verb::Eco => Command::Eco(eco_request(read)),
        Verb::Climb => Command::Climb(climb_request(read)),
        Verb::Guide => Command::Guide(guide_request(read)),
    }
}

fn route_request<'a>(read: &ReadWords<'a>) -> RouteRequest<'a>
    requires { read.now.kind ≡ Kind.Grouter Verb.Route }
    ensures asked { AsksForRoute (with_word read.now.kind (map string_bytes read.now.words.now)) result }
    ensures ranges { HasRouteRanges result }
{
    RouteRequest {
        input: read.name(0),
        routes: read.name(1),
        certificate: read.name(2),
        workers: read.small_number(OptionName::Workers),
        phases: read.small_number(OptionName::Phases),
        rounds: read.small_number(OptionName::Rounds),
        seed: read.number(OptionName::Seed),
        budget: read.value(OptionName::Budget),
    }
}

fn measure_request<'a>(read: &ReadWords<'a>) -> MeasureRequest<'a>
    requires { read.now.kind ≡ Kind.Grouter Verb.Measure }
    ensures { AsksForMeasure (with_word read.now.kind (map string_bytes read.now.words.now)) result }
{
    MeasureRequest {
        input: read.name(0),
        routes: read.name(1),
    }
}

fn judge_request<'a>(read: &ReadWords<'a>) -> JudgeRequest<'a>
    requires { read.now.kind ≡ Kind.Grouter Verb.Judge }
    ensures { AsksForJudge (with_word read.now.kind (map string_bytes read.now.words.now)) result }
{
    JudgeRequest {
        input: read.name(0),
        routes: read.name(1),
        certificate: read.name(2),
    }
}

fn make_request<'a>(read: &ReadWords<'a>) -> MakeRequest<'a>
    requires { read.now.kind ≡ Kind.Grouter Verb.Make }
    ensures asked { AsksForMake (with_word read.now.kind (map string_bytes read.now.words.now)) result }
    ensures ranges { HasMakeRanges result }
{
    MakeRequest {
        output: read.name(0),
        seed: read.number(OptionName::Seed),
        cols: read.small_number(OptionName::Cols),
        rows: read.small_number(OptionName::Rows),
        layers: read.small_number(OptionName::Layers),
        nets: read.small_number(OptionName::Nets),
    }
}

fn trial_request(read: &ReadWords<'_>) -> TrialRequest
    requires { read.now.kind ≡ Kind.Grouter Verb.Trial }
    ensures asked { AsksForTrial (with_word read.now.kind (map string_bytes read.now.words.now)) result }
    ensures ranges { HasTrialRanges result }
{
    TrialRequest {
        seed: seed_of(read.name(0)).unwrap(),
        cols: read.small_number(OptionName::Cols),
        rows: read.small_number(OptionName::Rows),
        layers: read.small_number(OptionName::Layers),
        nets: read.small_number(OptionName::Nets),
    }
}

fn eco_request<'a>(read: &ReadWords<'a>) -> EcoRequest<'a>
    requires { read.now.kind ≡ Kind.Grouter Verb.Eco }
    ensures { AsksForEco (with_word read.now.kind (map string_bytes read.now.words.now)) result }
{
    EcoRequest {
        input: read.name(0),
        routes: read.name(1),
        edits: read.name(2),
        edited: read.name(3),
    }
}

fn climb_request<'a>(read: &ReadWords<'a>) -> ClimbRequest<'a>
    requires { read.now.kind ≡ Kind.Grouter Verb.Climb }
    ensures asked { AsksForClimb (with_word read.now.kind (map string_bytes read.now.words.now)) result }
    ensures ranges { HasClimbRanges result }
{
    ClimbRequest {
        input: read.name(0),
        routes: read.name(1),
        certificate: read.name(2),
        climbed: read.name(3),
        turns: read.small_number(OptionName::Turns),
    }
}

fn guide_request<'a>(read: &ReadWords<'a>) -> GuideRequest<'a>
    requires { read.now.kind ≡ Kind.Grouter Verb.Guide }
    ensures { AsksForGuide (with_word read.now.kind (map string_bytes read.now.words.now)) result }
{
    GuideRequest {
        input: read.name(0),
        routes: read.name(1),
        guides: read.name(2),
    }
}
