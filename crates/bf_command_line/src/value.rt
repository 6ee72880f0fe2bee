//! The values of a command's arguments.
ghost use Rattle.std.specs.Prelude.{◌≡◌, IfOk, length, slice_get, option_map, string_bytes, Some};
ghost use Rattle.clap.specs.Words.{first_of, found_of, rows_of};
ghost use Rattle.bf_command_line.specs.Asked.{texts_in, is_given_in, IsIntegerIfGiven, IsNumberIfGiven, says_word_in, says_true};

use clap::ArgMatches;
use std::alloc::{AllocError, Global};

/// Counts the values that `clap` found for the argument `id`; 0 where it isn't given.
pub(crate) fn value_count_of(matches: &ArgMatches<'_>, id: &str) -> usize
    ensures { result ≡ length (texts_in id.now (rows_of (found_of matches.now))) }
{
    match matches.get_strs(id) {
        Some(texts) => texts.len(),
        None => 0,
    }
}

/// Answers the value at `place`, from 0, that `clap` found for the argument `id`; None where there are fewer.
pub(crate) fn text_at<'a>(matches: &ArgMatches<'a>, id: &str, place: usize) -> Option<&'a str>
    ensures { option_map (λ t. t.now) result
        ≡ slice_get (texts_in id.now (rows_of (found_of matches.now))) place }
{
    match matches.get_strs(id) {
        Some(texts) => texts.get(place).copied(),
        None => None,
    }
}

/// Copies the value at `place`, from 0, of the argument `id`. `Err` where there are fewer, or at want of memory.
pub(crate) fn required_text_at(
    alloc: Global,
    matches: &ArgMatches<'_>,
    id: &str,
    place: usize,
) -> Result<String, AllocError>
    ensures { IfOk result (λ t. slice_get (texts_in id.now (rows_of (found_of matches.now))) place
        ≡ Some (string_bytes t)) }
{
    match text_at(matches, id, place) {
        Some(value) => String::from_str(alloc, value),
        None => Err(AllocError),
    }
}

/// Copies the first value of the argument `id`; None where it has none.
#[tactic(auto, using(crate::proofs::Rows::first_rows))]
pub(crate) fn optional_text(
    alloc: Global,
    matches: &ArgMatches<'_>,
    id: &str,
) -> Result<Option<String>, AllocError>
    ensures { IfOk result (λ t. first_of id.now (rows_of (found_of matches.now))
        ≡ option_map string_bytes t) }
{
    match matches.get_str(id) {
        Some(value) => Ok(Some(String::from_str(alloc, value)?)),
        None => Ok(None),
    }
}

/// Copies the first value of the argument `id`. `Err` where it has none, which `clap` rules out, or at want of memory.
#[tactic(auto, using(crate::proofs::Rows::first_rows))]
pub(crate) fn required_text(
    alloc: Global,
    matches: &ArgMatches<'_>,
    id: &str,
) -> Result<String, AllocError>
    ensures { IfOk result (λ t. first_of id.now (rows_of (found_of matches.now))
        ≡ Some (string_bytes t)) }
{
    match matches.get_str(id) {
        Some(value) => String::from_str(alloc, value),
        None => Err(AllocError),
    }
}

/// Whether the flag `id` is given.
#[tactic(auto, using(crate::proofs::Rows::first_rows))]
pub(crate) fn is_flag_set(matches: &ArgMatches<'_>, id: &str) -> bool
    ensures { result ≡ says_true (first_of id.now (rows_of (found_of matches.now))) }
{
    match matches.get_str(id) {
        Some(text) => text == "true",
        None => false,
    }
}

/// Whether the first value of the argument `id` is `words`; false where it has none.
#[tactic(auto, using(crate::proofs::Rows::first_rows))]
pub(crate) fn says_word(matches: &ArgMatches<'_>, id: &str, words: &str) -> bool
    ensures { result ≡ says_word_in (first_of id.now (rows_of (found_of matches.now))) words.now }
{
    match matches.get_str(id) {
        Some(text) => text == words,
        None => false,
    }
}

/// Answers the number, 0 or more, that the option `id` has; None where it isn't given. `Err` where it isn't such a
/// number, which `clap` rules out.
#[tactic(auto, using(crate::proofs::Rows::first_rows))]
pub(crate) fn optional_number(matches: &ArgMatches<'_>, id: &str) -> Result<Option<u32>, AllocError>
    ensures { IfOk result (IsNumberIfGiven (first_of id.now (rows_of (found_of matches.now)))) }
{
    let Some(text) = matches.get_str(id) else {
        return Ok(None);
    };
    match text.parse::<u32>() {
        Ok(count) => Ok(Some(count)),
        Err(_) => Err(AllocError),
    }
}

/// Answers the integer, maybe negative, that the option `id` has; None where it isn't given. `Err` where it isn't one,
/// which `clap` rules out.
#[tactic(auto, using(crate::proofs::Rows::first_rows))]
pub(crate) fn optional_integer(
    matches: &ArgMatches<'_>,
    id: &str,
) -> Result<Option<i32>, AllocError>
    ensures { IfOk result (IsIntegerIfGiven (first_of id.now (rows_of (found_of matches.now)))) }
{
    let Some(text) = matches.get_str(id) else {
        return Ok(None);
    };
    match text.parse::<i32>() {
        Ok(index) => Ok(Some(index)),
        Err(_) => Err(AllocError),
    }
}

/// Whether the argument `id` has a value.
#[tactic(auto, using(crate::proofs::Rows::first_rows))]
pub(crate) fn is_given(matches: &ArgMatches<'_>, id: &str) -> bool
    ensures { result ≡ is_given_in id.now (rows_of (found_of matches.now)) }
{
    matches.get_str(id).is_some()
}
