//! The words of commands.
ghost use Rattle.std.specs.Prelude.{◌≡◌, Option, Some, None, IfOk, slice_index_or, option_map, string_bytes};
ghost use Rattle.bf_graph.specs.Shape.{texts};
ghost use Rattle.bf_words.specs.Words.{context_word_of, pushed_word_of, value_word_of, word_of, words_of};

use crate::context::JobContext;
use bf_plan::{ContextVariable, Word};
use bf_value::{OutOfMemory, Xval, text_of};
use bf_xcom::Given;
use std::alloc::Global;

/// A value as a word of a command: a text as it stands, any other value as compact JSON.
fn value_word(alloc: Global, value: &Xval) -> Result<String, OutOfMemory>
    ensures { IfOk result (λ word. string_bytes word ≡ value_word_of value.now) }
{
    match value {
        Xval::Text(text) => Ok(String::from_str(alloc, text.as_str())?),
        _ => text_of(alloc, value),
    }
}

/// What was pushed as a word of a command: a text as it stands, any other value as compact JSON; empty where nothing
/// was pushed.
fn value_word_or_empty(alloc: Global, value: Option<&Xval>) -> Result<String, OutOfMemory>
    ensures { IfOk result (λ word. string_bytes word
        ≡ pushed_word_of (option_map (λ v. v.now) value.entry)) }
{
    match value {
        Some(value) => value_word(alloc, value),
        None => Ok(String::new(alloc)),
    }
}

/// What a context variable is for the try of `context`, as a text.
fn context_word(
    alloc: Global,
    variable: ContextVariable,
    context: &JobContext<'_>,
) -> Result<String, OutOfMemory>
    ensures { IfOk result (λ word. string_bytes word ≡ context_word_of variable context.now) }
{
    Ok(match variable {
        ContextVariable::LogicalDate | ContextVariable::DataIntervalStart => {
            context.data_interval_start.to_string(alloc)?
        }
        ContextVariable::DataIntervalEnd => context.data_interval_end.to_string(alloc)?,
        ContextVariable::DagId => String::from_str(alloc, context.dag_id)?,
        ContextVariable::TaskId => String::from_str(alloc, context.task_id)?,
        ContextVariable::MapIndex => context.map_index.to_string(alloc)?,
        ContextVariable::TryNumber => context.try_number.to_string(alloc)?,
    })
}

/// What the pull at `place`, from 0, gave; None where it gave nothing, or there is no such pull.
fn pulled_at(given: &Given, place: u32) -> Option<&Xval>
    ensures { option_map (λ v. v.now) result ≡ slice_index_or given.now.pulled place None }
{
    match given.pulled.get(place as usize) {
        Some(pulled) => pulled.get(),
        None => None,
    }
}

/// The item that an instance was given; None where its task isn't expanded.
fn item_of(given: &Given) -> Option<&Xval>
    ensures { option_map (λ v. v.now) result ≡ given.now.item }
{
    given.item.as_ref()
}

/// What a word of a command is in a try; empty for a pull that gave nothing, and for the item of an unmapped task.
fn word_for_try(
    alloc: Global,
    word: &Word,
    context: &JobContext<'_>,
    given: &Given,
) -> Result<String, OutOfMemory>
    ensures { IfOk result (λ s. string_bytes s ≡ word_of context.now given.now word.now) }
{
    match word {
        Word::Text(text) => Ok(String::from_str(alloc, text.as_str())?),
        Word::Context(variable) => context_word(alloc, *variable, context),
        Word::Pull(place) => value_word_or_empty(alloc, pulled_at(given, *place)),
        Word::Item => value_word_or_empty(alloc, item_of(given)),
    }
}

/// The words of a command for one try, in order. A text stands as it is, a context variable is its text, and an item or
/// a pulled value stands as it is where it is a text, else as compact JSON. A pull that gave nothing is the empty word;
/// an item that is null is the word `null`.
pub fn words(
    alloc: Global,
    command: &[Word],
    context: &JobContext<'_>,
    given: &Given,
) -> Result<Vec<String>, OutOfMemory>
    ensures { IfOk result (λ words. texts words.items
        ≡ words_of context.now given.now command.now) }
{
    let mut words = Vec::with_capacity(alloc, command.len())?;
    for part in command {
        words.push(word_for_try(alloc, part, context, given)?)?;
    }
    Ok(words)
}
