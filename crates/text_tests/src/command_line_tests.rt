//! The words that a program's arguments are, and what they ask for by `command_words`.

use command_words::{
    Command, MakeRequest, MapForm, MapRequest, RerouteRequest, RouteRequest, TrialRequest,
    WordsError, command_of, map_of, reroute_of, words_of,
};
use std::alloc::{AllocError, Global};
use std::env;
use std::env::{Env, FillError};
use std::test::Fail;
use test_rows::{Answers, check_rows, numbers_text};

/// The arguments that a program was started with, its name first, as a field: a blank parts two, so that two blanks have an empty
/// argument between them, and `?` stands for a byte that is no text.
#[derive(Drop)]
struct Started(&'static str);

impl Env for Started {
    fn arg(&self, i: usize, buf: &mut [u8]) -> Result<usize, FillError> {
        let Some(word) = self.0.split(' ').nth(i) else {
            return Err(FillError::NotPresent);
        };
        if self.0.is_empty() {
            return Err(FillError::NotPresent);
        }
        let bytes = word.as_bytes();
        if buf.len() < bytes.len() {
            return Err(FillError::TooLong);
        }
        for k in 0..bytes.len() {
            buf[k] = if bytes[k] == b'?' { 0xff } else { bytes[k] };
        }
        Ok(bytes.len())
    }

    fn var(&self, _name: &str, _buf: &mut [u8]) -> Result<usize, FillError> {
        Err(FillError::NotPresent)
    }

    fn var_at(&self, _i: usize, _buf: &mut [u8]) -> Result<usize, FillError> {
        Err(FillError::NotPresent)
    }
}

/// Words and numbers, with a blank between two.
fn told(alloc: Global, words: &[&str], numbers: &[u64]) -> Result<String, AllocError> {
    let mut text = words.join(alloc, " ")?;
    text.push_str(numbers_text(alloc, numbers)?.as_str())?;
    Ok(text)
}

/// What words are that are no command.
fn refusal_text(alloc: Global, error: WordsError) -> Result<String, AllocError> {
    match error {
        WordsError::Refused => String::from_str(alloc, "refused"),
        WordsError::NoMemory => Err(AllocError),
    }
}

fn route_text(alloc: Global, asked: &RouteRequest<'_>) -> Result<String, AllocError> {
    let words = ["route", asked.input, asked.routes, asked.certificate];
    let numbers = [
        asked.workers as u64,
        asked.phases as u64,
        asked.rounds as u64,
        asked.seed,
        asked.budget.unwrap_or(0),
    ];
    told(alloc, &words, &numbers)
}

fn make_text(alloc: Global, asked: &MakeRequest<'_>) -> Result<String, AllocError> {
    let numbers = [
        asked.seed,
        asked.cols as u64,
        asked.rows as u64,
        asked.layers as u64,
        asked.nets as u64,
    ];
    told(alloc, &["make", asked.output], &numbers)
}

fn trial_text(alloc: Global, asked: &TrialRequest) -> Result<String, AllocError> {
    let numbers = [
        asked.seed,
        asked.cols as u64,
        asked.rows as u64,
        asked.layers as u64,
        asked.nets as u64,
    ];
    told(alloc, &["trial"], &numbers)
}

/// What words ask for.
fn command_text(alloc: Global, words: &[String]) -> Result<String, AllocError> {
    match command_of(alloc, words) {
        Ok(Command::Route(asked)) => route_text(alloc, &asked),
        Ok(Command::Measure(asked)) => told(alloc, &["measure", asked.input, asked.routes], &[]),
        Ok(Command::Judge(asked)) => {
            let words = ["judge", asked.input, asked.routes, asked.certificate];
            told(alloc, &words, &[])
        }
        Ok(Command::Make(asked)) => make_text(alloc, &asked),
        Ok(Command::Trial(asked)) => trial_text(alloc, &asked),
        Ok(Command::Eco(asked)) => {
            let words = ["eco", asked.input, asked.routes, asked.edits, asked.edited];
            told(alloc, &words, &[])
        }
        Ok(Command::Climb(asked)) => {
            let (input, routes, certificate) = (asked.input, asked.routes, asked.certificate);
            let words = ["climb", input, routes, certificate, asked.climbed];
            told(alloc, &words, &[asked.turns as u64])
        }
        Ok(Command::Guide(asked)) => {
            let words = ["guide", asked.input, asked.routes, asked.guides];
            told(alloc, &words, &[])
        }
        Err(error) => refusal_text(alloc, error),
    }
}

fn reroute_text(alloc: Global, asked: &RerouteRequest<'_>) -> Result<String, AllocError> {
    let words = [asked.input, asked.routes.unwrap_or("-"), asked.output];
    let numbers = [
        asked.rounds as u64,
        asked.passes as u64,
        asked.workers as u64,
        asked.seed,
    ];
    told(alloc, &words, &numbers)
}

fn map_text(alloc: Global, asked: &MapRequest<'_>) -> Result<String, AllocError> {
    let (form, cut, is_so) = match asked.form {
        MapForm::Svg(picture) => ("picture", picture.cut.unwrap_or("-"), picture.greater),
        MapForm::Csv(table) => ("table", "-", table.layers),
    };
    let is_so = if is_so { "true" } else { "false" };
    let words = [asked.input, asked.routes, asked.map, form, cut, is_so];
    told(alloc, &words, &[asked.layer.unwrap_or(0) as u64])
}

/// What the words behind a program's name ask it for. Of a program without a command line: how many words there are, and these.
fn asked_text(alloc: Global, program: &str, words: &[String]) -> Result<String, AllocError> {
    match program {
        "grouter" => command_text(alloc, words),
        "reroute" => match reroute_of(alloc, words) {
            Ok(asked) => reroute_text(alloc, &asked),
            Err(error) => refusal_text(alloc, error),
        },
        "congestion_map" => match map_of(words) {
            Ok(asked) => map_text(alloc, &asked),
            Err(error) => refusal_text(alloc, error),
        },
        _ => {
            let (count, joined) = (words.len(), words.join(alloc, " ")?);
            format!(in alloc; "{count} {joined}")
        }
    }
}

struct CommandLines;

impl Answers for CommandLines {
    fn answer(&self, alloc: Global, given: &'static str) -> Result<String, Fail> {
        let (program, _) = given.split_once(' ').unwrap_or((given, ""));
        let words = words_of(alloc, env::args(&(Started(given), alloc)))?;
        Ok(asked_text(alloc, program, &words)?)
    }
}

/// Arguments, and behind a bar what they are read as.
///
/// `route`: the names, the workers, the phases, the rounds, the seed, and the budget or 0. `make` and `trial`: the name, if there
/// is one, then seed, columns, rows, layers and nets.
const COMMANDS: &str = "grouter route a b c|route a b c 1 4 4 0 0
grouter route in.gr x/y.routes z-|route in.gr x/y.routes z- 1 4 4 0 0
grouter route 1 2 3 --workers 2|route 1 2 3 2 4 4 0 0
grouter route a b c --workers 1 --phases 1 --rounds 0 --seed 0 --budget 1|route a b c 1 1 0 0 1
grouter route a b c --workers 8 --phases 16 --rounds 16 --seed 18446744073709551615 --budget 4398046511104|route a b c 8 16 16 18446744073709551615 4398046511104
grouter route a b c --budget 4 --seed 7 --rounds 3 --phases 6 --workers 5|route a b c 5 6 3 7 4
grouter route a b c --seed 3 --workers 1|route a b c 1 4 4 3 0
grouter route a b c --rounds 5|route a b c 1 4 5 0 0
grouter route a b c --workers 008|route a b c 8 4 4 0 0
grouter route a b c --seed 00000000000000000009|route a b c 1 4 4 9 0
grouter route route a+ =b|route route a+ =b 1 4 4 0 0
grouter route a b workers --seed 0|route a b workers 1 4 4 0 0
grouter measure a b|measure a b
grouter measure measure in.gr|measure measure in.gr
grouter judge a b c|judge a b c
grouter judge 1 2 seed|judge 1 2 seed
grouter make a|make a 0 16 16 4 200
grouter make make|make make 0 16 16 4 200
grouter make a --seed 0 --cols 2 --rows 2 --layers 2 --nets 0|make a 0 2 2 2 0
grouter make a --seed 18446744073709551615 --cols 1024 --rows 1024 --layers 8 --nets 1048576|make a 18446744073709551615 1024 1024 8 1048576
grouter make a --nets 7 --layers 3 --rows 5 --cols 6 --seed 4|make a 4 6 5 3 7
grouter make a --rows 00000000000000000005|make a 0 16 5 4 200
grouter trial 0|trial 0 16 16 4 200
grouter trial 007|trial 7 16 16 4 200
grouter trial 18446744073709551615|trial 18446744073709551615 16 16 4 200
grouter trial 00000000000000000042 --layers 2|trial 42 16 16 2 200
grouter trial 1 --cols 2 --rows 2 --layers 2 --nets 0|trial 1 2 2 2 0
grouter trial 1 --cols 1024 --rows 1024 --layers 8 --nets 1048576|trial 1 1024 1024 8 1048576
grouter trial 12 --nets 7 --layers 3 --rows 5 --cols 6|trial 12 6 5 3 7
grouter eco a b c d|eco a b c d
grouter eco eco climb 2 guide|eco eco climb 2 guide
grouter climb a b c d|climb a b c d 4
grouter climb a b c d --turns 1|climb a b c d 1
grouter climb a b c d --turns 16|climb a b c d 16
grouter climb climb eco 2 turns --turns 007|climb climb eco 2 turns 7
grouter guide a b c|guide a b c
grouter guide guide 2 route|guide guide 2 route
# no words
grouter|refused
# one empty word
grouter |refused
# other words
grouter route|refused
grouter Route a b c|refused
grouter rout a b c|refused
grouter routes a b c|refused
grouter --help|refused
grouter --version|refused
grouter help|refused
grouter ec a b c d|refused
grouter route --help|refused
grouter route a b|refused
grouter route a b c d|refused
grouter route a a c|refused
grouter route a b a|refused
grouter route a b b|refused
grouter route  b c|refused
grouter route a  c|refused
grouter route -a b c|refused
grouter route a - c|refused
grouter route a b --help|refused
grouter route a b c --help|refused
grouter route a b c --version|refused
grouter route a b c -h|refused
grouter route a b c --|refused
grouter route a b c -- --seed 1|refused
grouter route a b c --seed|refused
grouter route a b c --seed=2|refused
grouter route a b c --workers=2|refused
grouter route a b c --work 2|refused
grouter route a b c -workers 2|refused
grouter route a b c workers 2|refused
grouter route a b c --cols 2|refused
grouter route a b c --seed 1 --seed 1|refused
grouter route a b c --seed 1 --budget 2 --seed 3|refused
grouter route a b c --seed +3|refused
grouter route a b c --seed -1|refused
grouter route a b c --seed 1x|refused
grouter route --seed 1 a b c|refused
grouter route a b --seed 1 c|refused
grouter route a b c --seed 000000000000000000001|refused
grouter route a b c --seed 18446744073709551616|refused
grouter route a b c --seed 99999999999999999999|refused
grouter route a b c --workers 0|refused
grouter route a b c --workers 9|refused
grouter route a b c --phases 0|refused
grouter route a b c --phases 17|refused
grouter route a b c --rounds 17|refused
grouter route a b c --budget 0|refused
grouter route a b c --budget 4398046511105|refused
grouter measure|refused
grouter measure a|refused
grouter measure a a|refused
grouter measure a b c|refused
grouter measure  b|refused
grouter measure -a b|refused
grouter measure a -|refused
grouter measure a b --seed 1|refused
grouter measure a b --|refused
grouter measure a b --help|refused
grouter measure --version|refused
grouter judge|refused
grouter judge a b|refused
grouter judge a b a|refused
grouter judge a a c|refused
grouter judge a b b|refused
grouter judge a b c d|refused
grouter judge a b -|refused
grouter judge  b c|refused
grouter judge a b c --workers 1|refused
grouter judge a b c --help|refused
grouter make|refused
grouter make -a|refused
grouter make a b|refused
grouter make a --workers 1|refused
grouter make a --budget 1|refused
grouter make a --seed 1 --seed 1|refused
grouter make a --col 3|refused
grouter make a --cols=3|refused
grouter make a --cols +3|refused
grouter make a --cols -1|refused
grouter make a --nets|refused
grouter make a --nets 000000000000000000001|refused
grouter make a --seed 18446744073709551616|refused
grouter make a --cols 1|refused
grouter make a --cols 1025|refused
grouter make a --rows 1|refused
grouter make a --rows 1025|refused
grouter make a --layers 1|refused
grouter make a --layers 9|refused
grouter make a --nets 1048577|refused
grouter trial|refused
grouter trial x|refused
grouter trial 1x|refused
grouter trial +3|refused
grouter trial -1|refused
grouter trial 18446744073709551616|refused
grouter trial 99999999999999999999|refused
grouter trial 000000000000000000007|refused
grouter trial 1 2|refused
grouter trial 1 --seed 1|refused
grouter trial 1 --workers 1|refused
grouter trial --help|refused
grouter trial --cols 2 1|refused
grouter trial 1 --cols 2 --cols 2|refused
grouter trial 1 --cols 1|refused
grouter trial 1 --cols 1025|refused
grouter trial 1 --rows 1|refused
grouter trial 1 --rows 1025|refused
grouter trial 1 --layers 1|refused
grouter trial 1 --layers 9|refused
grouter trial 1 --nets 1048577|refused
grouter eco|refused
grouter eco a b c|refused
grouter eco a b c a|refused
grouter eco a b c d e|refused
grouter eco a b c d --turns 1|refused
grouter climb|refused
grouter climb a b c|refused
grouter climb a b c c|refused
grouter climb a b c d e|refused
grouter climb a b c d --turns|refused
grouter climb a b c d --turns 0|refused
grouter climb a b c d --turns 17|refused
grouter climb a b c d --turns 2 --turns 2|refused
grouter climb a b c d --phases 2|refused
grouter climb --turns 2 a b c d|refused
grouter guide|refused
grouter guide a b|refused
grouter guide a b a|refused
grouter guide a b c d|refused
grouter guide a b c --workers 1|refused
# an empty word behind the others
grouter route a b |refused
grouter route a b c --seed |refused
grouter route a b c --seed 1 |refused
grouter measure a |refused
grouter make |refused
grouter trial |refused";

/// Arguments of `reroute`, and behind a bar the names, a hyphen standing for no routes, then the rounds, the passes, the workers and
/// the seed.
const REROUTES: &str = "reroute a b|a - b 60 4 1 0
reroute a b c|a b c 60 4 1 0
reroute reroute 2|reroute - 2 60 4 1 0
reroute a b --rounds 0 --passes 0 --workers 1 --seed 0|a - b 0 0 1 0
reroute a b c --seed 18446744073709551615 --workers 8 --passes 16 --rounds 400|a b c 400 16 8 18446744073709551615
reroute a b --passes 007|a - b 60 7 1 0
reroute |refused
reroute a|refused
reroute a a|refused
reroute a b a|refused
reroute a b b|refused
reroute a b c d|refused
reroute a -b|refused
reroute a --seed 1 b|refused
reroute a b --rounds 401|refused
reroute a b c --rounds 401|refused
reroute a b --passes 17|refused
reroute a b --workers 0|refused
reroute a b c --workers 9|refused
reroute a b c --phases 4|refused
reroute a b --seed 1 --seed 1|refused
reroute a b --rounds=1|refused
reroute a b c --rounds|refused
reroute a b --help|refused";

/// Arguments of `congestion_map`, and behind a bar the names, the form with its options, and the layer or 0. The options of a
/// picture are the certificate or a hyphen, and whether it shows the greater of the two directions; those of a table are a hyphen,
/// and whether layers have columns.
const MAPS: &str = "congestion_map a b c.svg|a b c.svg picture - false 0
congestion_map a b c.csv|a b c.csv table - false 0
congestion_map a b .svg|a b .svg picture - false 0
congestion_map a b c.csv.svg --greater|a b c.csv.svg picture - true 0
congestion_map a b c.svg --cut d|a b c.svg picture d false 0
congestion_map a b c.svg --layer 16 --greater --cut d|a b c.svg picture d true 16
congestion_map a b c.csv --layers --layer 1|a b c.csv table - true 1
congestion_map a b c.csv --layer 003|a b c.csv table - false 3
congestion_map |refused
congestion_map a b|refused
congestion_map a b c|refused
congestion_map a b c.SVG|refused
congestion_map a b csv|refused
congestion_map a b c.svg d|refused
congestion_map a a c.svg|refused
congestion_map c.svg b c.svg|refused
congestion_map a b c.svg --cut a|refused
congestion_map a b c.svg --cut c.svg|refused
congestion_map a b c.svg --cut|refused
congestion_map a b c.svg --cut --greater|refused
congestion_map a b c.svg --cut d --cut e|refused
congestion_map a b c.svg --layers|refused
congestion_map a b c.csv --greater|refused
congestion_map a b c.csv --cut d|refused
congestion_map a b c.csv --layers --layers|refused
congestion_map a b c.csv --layers 1|refused
congestion_map a b c.csv --layer 0|refused
congestion_map a b c.csv --layer 17|refused
congestion_map a b c.csv --layer x|refused
congestion_map a b c.csv --layer|refused
congestion_map a b c.csv --help|refused
congestion_map --layers a b c.csv|refused
# an empty word behind the others
congestion_map a b c.svg |refused
congestion_map a b c.csv --layers |refused
congestion_map a b c.svg --cut |refused";

/// Arguments of another program, and behind a bar how many words they are, and these.
const WORDS: &str = "unavoidable route a.gr b -c|4 route a.gr b -c
unavoidable a.gr b|2 a.gr b
unavoidable|0 
|0 
unavoidable route ?.gr|0 ";

#[test]
fn commands_are_read_and_other_words_are_refused(rt: HostRuntime) -> Result<(), Fail> {
    check_rows(rt.alloc(), COMMANDS, &CommandLines)
}

#[test]
fn words_of_other_programs_are_read_or_refused(rt: HostRuntime) -> Result<(), Fail> {
    check_rows(rt.alloc(), REROUTES, &CommandLines)?;
    check_rows(rt.alloc(), MAPS, &CommandLines)?;
    check_rows(rt.alloc(), WORDS, &CommandLines)
}
