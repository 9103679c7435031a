//! The command of the words of `congestion_map`.

ghost use Rattle.std.specs.Prelude.{◌≡◌, ◌≤◌, ◌<◌, [], IfOk, IfErr, IfSome, MatchOption, eqb, is_some, length, map, option_map, slice_index_or};
ghost use Rattle.std.specs.Prelude.{string_bytes, false, true};
ghost use Rattle.std.specs.List.{ends_with};
ghost use Rattle.std.specs.Str.Parse.{digits_value};
ghost use Rattle.command_words.specs.MapLine.{AsksForMap, IsLayerNumber, are_map_names, are_map_options, cut_in, form_in, form_task_of};
ghost use Rattle.command_words.specs.MapLine.{given_for, given_map_options, has_map_form, is_map_command, map_task_of, map_task_of_words, is_of_picture, is_of_table, layer_word};
ghost use Rattle.command_words.specs.declared.words_error.WordsError.TheVariants.{Refused};

use crate::map_form::MapForm;
use crate::map_option::{are_map_options, value_of};
use crate::map_request::MapRequest;
use crate::name_form::NameForm;
use crate::picture::Picture;
use crate::read_words::words_from;
use crate::shape::{are_differing_names, is_among};
use crate::table::Table;
use crate::word::layer_of;
use crate::words_error::WordsError;

/// What the words of `congestion_map` ask for: the arguments of the program, without the program's name.
#[tactic(auto, using(crate::proofs::MapNames::too_few, crate::proofs::MapNames::no_names, crate::proofs::MapNames::no_options, crate::proofs::MapNames::no_form, crate::proofs::MapNames::is_map))]
pub fn map_of(words: &[String]) -> Result<MapRequest<'_>, WordsError>
    ensures asked { IfOk result (AsksForMap (map string_bytes words.now)) }
    ensures layer { IfOk result (λ r. IfSome r.layer IsLayerNumber) }
    ensures refused { IfErr result (λ e. (e ≡ Refused) × (is_map_command (map string_bytes words.now) ≡ false)) }
{
    if words.len() < 3 || !are_map_names(words) {
        return Err(WordsError::Refused);
    }
    if !are_map_options(words_from(words, 3)) {
        return Err(WordsError::Refused);
    }
    match form_in(words) {
        None => Err(WordsError::Refused),
        Some(form) => Ok(map_request(words, form)),
    }
}

/// The request for a map of this form.
fn map_request<'a>(words: &'a [String], form: MapForm<'a>) -> MapRequest<'a>
    requires long { 3 ≤ length words.now }
    requires options { are_map_options (given_map_options (map string_bytes words.now)) ≡ true }
    requires form { form_in (map string_bytes words.now) ≡ form_task_of form }
    ensures task { map_task_of_words (map string_bytes words.now) ≡ map_task_of result }
    ensures layer { IfSome result.layer IsLayerNumber }
{
    MapRequest {
        input: word_at(words, 0),
        routes: word_at(words, 1),
        map: word_at(words, 2),
        layer: layer_in(words),
        form,
    }
}

/// Whether three names of files come first, and no two of them are equal, nor one the certificate's.
#[tactic(auto, using(crate::proofs::MapNames::alone, crate::proofs::MapNames::with_cut, crate::proofs::MapNames::misnamed))]
fn are_map_names(words: &[String]) -> bool
    requires { 3 ≤ length words.now }
    ensures { result ≡ are_map_names (map string_bytes words.now) }
{
    let names = &words[..3];
    if !are_differing_names(NameForm::File, names) {
        return false;
    }
    match cut_in(words) {
        None => true,
        Some(cut) => !is_among(cut, names),
    }
}

/// The name of the certificate, where there is one.
fn cut_in(words: &[String]) -> Option<&str>
    requires { 3 ≤ length words.now }
    ensures { cut_in (map string_bytes words.now) ≡ option_map (λ cut. cut.now) result }
{
    value_of("--cut", words_from(words, 3))
}

/// Whether the option is given.
fn is_given(option: &str, words: &[String]) -> bool
    requires { 3 ≤ length words.now }
    ensures { result ≡ is_some (given_for option.now (given_map_options (map string_bytes words.now))) }
{
    value_of(option, words_from(words, 3)).is_some()
}

/// Whether the words can be those of a picture.
fn is_of_picture(words: &[String]) -> bool
    requires { 3 ≤ length words.now }
    ensures { result ≡ is_of_picture (map string_bytes words.now) }
{
    has_ending(word_at(words, 2), ".svg") && !is_given("--layers", words)
}

/// Whether the words can be those of a table.
fn is_of_table(words: &[String]) -> bool
    requires { 3 ≤ length words.now }
    ensures { result ≡ is_of_table (map string_bytes words.now) }
{
    has_ending(word_at(words, 2), ".csv")
        && !is_given("--greater", words)
        && cut_in(words).is_none()
}

/// The form of the map, by the ending of its name and the options that there are.
fn form_in(words: &[String]) -> Option<MapForm<'_>>
    requires { 3 ≤ length words.now }
    ensures { MatchOption result (has_map_form (map string_bytes words.now) ≡ false)
        (λ form. (has_map_form (map string_bytes words.now) ≡ true) × (form_in (map string_bytes words.now) ≡ form_task_of form)) }
{
    if is_of_picture(words) {
        return Some(MapForm::Svg(Picture {
            cut: cut_in(words),
            greater: is_given("--greater", words),
        }));
    }
    if is_of_table(words) {
        let layers = is_given("--layers", words);
        return Some(MapForm::Csv(Table { layers }));
    }
    None
}

/// The number of the one layer to be shown, if it is one.
#[tactic(auto, using(crate::proofs::MapNames::layer_of_options))]
fn layer_in(words: &[String]) -> Option<u32>
    requires long { 3 ≤ length words.now }
    requires options { are_map_options (given_map_options (map string_bytes words.now)) ≡ true }
    ensures value { option_map (digits_value 10) (given_for layer_word (given_map_options (map string_bytes words.now))) ≡ result }
    ensures range { IfSome result IsLayerNumber }
{
    match value_of("--layer", words_from(words, 3)) {
        None => None,
        Some(value) => layer_of(value),
    }
}

#[tactic(auto, using(crate::proofs::MapNames::word_is))]
fn word_at(words: &[String], place: usize) -> &str
    requires { place < length words.now }
    ensures { slice_index_or (map string_bytes words.now) place [] ≡ result.now }
{
    words[place].as_str()
}

fn has_ending(name: &str, ending: &str) -> bool
    ensures { result ≡ ends_with eqb name.now ending.now }
{
    name.ends_with(ending)
}
