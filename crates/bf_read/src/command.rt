//! The commands of tasks.
ghost use Rattle.std.specs.Prelude.{◌≡◌, ◌≤◌, length, map, option_map, IfOk};
ghost use Rattle.std.specs.List.{filter_map, list_all};
ghost use Rattle.serde_json.specs.View.{view, items_view, members_view};
ghost use Rattle.bf_read.specs.Drafts.{pulled_by, pulled_in};
ghost use Rattle.bf_read.specs.Gives.{Gives};
ghost use Rattle.bf_read.specs.inner.Fields.{member_of};
ghost use Rattle.bf_read.specs.Commands.{only_entry_in, only_member_in, context_word_of, pull_word_of, item_word_of, keyed_word_of, word_in, words_of, is_short_word_in, command_in};
ghost use Rattle.bf_read.specs.Limits.{most_words, most_pulls};

use crate::draft::WordDraft;
use crate::fault::ReadFault;
use crate::fields::{Field, field_with_value, flag_at, items_at, refuse_beyond_limit, text_at};
use crate::limits::{LONGEST_WORD, MOST_PULLS, MOST_WORDS};
use crate::path::Path;
use crate::texts::distinct_texts;
use bf_plan::ContextVariable;
use bf_value::{OutOfMemory, Sequence, Text};
use serde_json::{Map, Value};
use std::alloc::Global;

/// Gives the key and the value of an object with just one member; None for any other object.
fn only_entry_of<'a>(members: &'a Map<String, Value>) -> Option<(&'a str, &'a Value)>
    ensures { option_map (λ m. (m.0.now, view m.1.now)) result
        ≡ only_entry_in (members_view members.entry.now.entries) }
{
    if members.len() != 1 {
        return None;
    }
    let Some((key, value)) = members.first_key_value() else {
        return None;
    };
    Some((key.as_str(), value))
}

/// Gives the key and the value of an object with just one member; `Shape` at `path` for any other value.
#[tactic(auto, unfolding(crate::specs::Commands::only_member_in))]
fn only_member<'a>(path: Path, value: &'a Value) -> Result<(&'a str, &'a Value), ReadFault>
    ensures { Gives (λ m. (m.0.now, view m.1.now)) result
        (only_member_in path (view value.entry.now)) }
{
    value
        .as_object()
        .and_then(|members| only_entry_of(members))
        .ok_or(ReadFault::Shape(path))
}

/// Makes the word for the context variable that `field` names. `Shape` where it holds no text, or names no such
/// variable.
#[tactic(auto, unfolding(crate::specs::Commands::context_word_of))]
fn context_word(field: Field) -> Result<WordDraft, ReadFault>
    ensures { Gives (λ w. w) result (context_word_of (member_of field.entry)) }
{
    let name = text_at(field)?;
    match ContextVariable::named(name) {
        None => Err(ReadFault::Shape(field.path)),
        Some(variable) => Ok(WordDraft::Context(variable)),
    }
}

/// Makes the word for what the task with the id in `field` pushed, whether or not there is such a task. `Shape` where
/// it holds no text, `OutOfMemory` at want of memory.
#[tactic(auto, unfolding(crate::specs::Commands::pull_word_of))]
fn pull_word(alloc: Global, field: Field) -> Result<WordDraft, ReadFault>
    ensures { Gives (λ w. w) result (pull_word_of (member_of field.entry)) }
{
    let id = text_at(field)?;
    Ok(WordDraft::Pull(Text::copy_of(alloc, id)?))
}

/// Makes the word for an instance's item. `Shape` where `field` isn't `true`, or the task isn't expanded.
#[tactic(auto, unfolding(crate::specs::Commands::item_word_of))]
fn item_word(is_expanded: bool, field: Field) -> Result<WordDraft, ReadFault>
    ensures { Gives (λ w. w) result (item_word_of is_expanded (member_of field.entry)) }
{
    let is_item = flag_at(field)?;
    if !is_item || !is_expanded {
        return Err(ReadFault::Shape(field.path));
    }
    Ok(WordDraft::Item)
}

/// Makes the word that an object with the single member `key` and `field` stands for. `Shape` for an unknown key, a
/// value that the key can't have, or an item where the task isn't expanded; `OutOfMemory` at want of memory.
#[tactic(auto, unfolding(crate::specs::Commands::keyed_word_of))]
fn word_with_key(
    alloc: Global,
    is_expanded: bool,
    key: &str,
    field: Field,
) -> Result<WordDraft, ReadFault>
    ensures { Gives (λ w. w) result (keyed_word_of is_expanded key.now (member_of field.entry)) }
{
    match key {
        "context" => context_word(field),
        "pull" => pull_word(alloc, field),
        "item" => item_word(is_expanded, field),
        _ => Err(ReadFault::Shape(field.path)),
    }
}

/// Reads a word of a command: a text, or an object with just one key. `Shape` at `path` for any other value, or an item
/// where the task isn't expanded; `OutOfMemory` at want of memory.
#[tactic(auto, unfolding(crate::specs::Commands::word_in))]
fn word_at(
    alloc: Global,
    is_expanded: bool,
    path: Path,
    value: &Value,
) -> Result<WordDraft, ReadFault>
    ensures { Gives (λ w. w) result (word_in is_expanded path (view value.now)) }
{
    if let Some(text) = value.as_str() {
        return Ok(WordDraft::Text(Text::copy_of(alloc, text)?));
    }
    let (key, value) = only_member(path, value)?;
    word_with_key(alloc, is_expanded, key, field_with_value(path, value))
}

/// Reads the words of a command, in order. `Shape` at `path` for the first bad one, such as an item where the task
/// isn't expanded; `OutOfMemory` at want of memory.
fn words_in(
    alloc: Global,
    is_expanded: bool,
    path: Path,
    items: &[Value],
) -> Result<Vec<WordDraft>, ReadFault>
    ensures { Gives (λ v. v.items) result (words_of is_expanded path (items_view items.now)) }
{
    let mut words = Vec::new(alloc);
    for item in items {
        words.push(word_at(alloc, is_expanded, path, item)?)?;
    }
    Ok(words)
}

/// Answers whether a word's text, or the id that it pulls from, has at most `LONGEST_WORD` bytes; true for other words.
fn is_short_word(word: &WordDraft) -> bool
    ensures { result ≡ is_short_word_in word.now }
{
    match word {
        WordDraft::Text(text) => text.as_str().len() <= LONGEST_WORD,
        WordDraft::Pull(id) => id.as_str().len() <= LONGEST_WORD,
        WordDraft::Context(_) | WordDraft::Item => true,
    }
}

/// Answers whether each word's text, or the id that it pulls from, has at most `LONGEST_WORD` bytes.
fn are_short_words(words: &[WordDraft]) -> bool
    ensures { result ≡ list_all is_short_word_in words.now }
{
    words.iter().all(|word| is_short_word(word))
}

/// Gives the id of the task that a word pulls from; None where the word is no pull.
fn pulled_id<'a>(word: &'a WordDraft) -> Option<&'a str>
    ensures { option_map (λ s. s.now) result ≡ pulled_by word.entry.now }
{
    match word {
        WordDraft::Pull(id) => Some(id.as_str()),
        _ => None,
    }
}

/// Gives the ids of the tasks that the words pull from, in order and with repeats.
fn pulled_ids<'a>(alloc: Global, words: &'a [WordDraft]) -> Result<Vec<&'a str>, OutOfMemory>
    ensures { IfOk result (λ v. map (λ s. s.now) v.items ≡ filter_map pulled_by words.entry.now) }
{
    let mut ids = Vec::new(alloc);
    for word in words {
        if let Some(id) = pulled_id(word) {
            ids.push(id)?;
        }
    }
    Ok(ids)
}

/// Gives the distinct ids of the tasks that the words pull from, in order of first use.
pub fn pulls_of(alloc: Global, words: &[WordDraft]) -> Result<Vec<Text>, OutOfMemory>
    ensures { IfOk result (λ v. v.items ≡ pulled_in words.now) }
{
    let ids = pulled_ids(alloc, words)?;
    distinct_texts(alloc, ids.as_slice())
}

/// Reads a task's command; no words where the key is missing. `Shape` for a bad word, such as an item where the task
/// isn't expanded; then `LimitPassed` where words, their bytes or the tasks that they pull from are too many.
/// `OutOfMemory` at want of memory.
#[tactic(auto, unfolding(crate::specs::Commands::command_in))]
pub(crate) fn command_at(
    alloc: Global,
    is_expanded: bool,
    field: Field,
) -> Result<Sequence<WordDraft>, ReadFault>
    ensures exact { Gives (λ ws. ws) result (command_in is_expanded (member_of field.entry)) }
    ensures few_words { IfOk result (λ ws. length ws ≤ most_words) }
    ensures few_pulls { IfOk result (λ ws. length (pulled_in ws) ≤ most_pulls) }
{
    if field.value.is_none() {
        return Ok(Sequence::new(alloc));
    }
    let items = items_at(field)?;
    let words = words_in(alloc, is_expanded, field.path, items)?;
    refuse_beyond_limit(field.path, words.len() <= MOST_WORDS)?;
    refuse_beyond_limit(field.path, are_short_words(words.as_slice()))?;
    let pulls = pulls_of(alloc, words.as_slice())?;
    refuse_beyond_limit(field.path, pulls.len() <= MOST_PULLS)?;
    Ok(Sequence::from_vec(words))
}
