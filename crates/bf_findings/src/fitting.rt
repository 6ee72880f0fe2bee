//! Whether a value is of the form that may stand at its place.
ghost use Rattle.std.specs.Prelude.{◌≡◌, map, option_map, is_some};
ghost use Rattle.std.specs.List.{list_any};
ghost use Rattle.serde_json.specs.View.{view, members_view};
ghost use Rattle.serde_json.specs.Find.{get};
ghost use Rattle.bf_findings.specs.Places.{word_key_name, word_keys};
ghost use Rattle.bf_findings.specs.Fitting.{tasks_at, has_id_in, is_task_id_in, is_task_id_before_in, pools_at, is_pool_name_in, text_fits_in, is_between_in, is_whole_number_between_in, has_at_most_items_in, is_word_object_in, non_text_fits_in};

use crate::form::Form;
use crate::place::WORD_KEYS;
use bf_plan::{ContextVariable, TaskKind, WeightRule, is_id};
use bf_read::{DEFAULT_POOL, GraphKey, LONGEST_WORD, MOST_TASKS, MOST_WORDS, TaskKey};
use bf_rule::Rule;
use serde_json::{Map, Value};

/// Gives the items of the document's list `tasks`; none where it has no such list.
#[tactic(auto, using(crate::proofs::Lists::list_viewed))]
pub(crate) fn tasks_in<'a>(document: &'a Value) -> &'a [Value]
    ensures { map view result.now ≡ tasks_at (view document.entry.now) }
{
    match document
        .get(GraphKey::Tasks.name())
        .and_then(|tasks| tasks.as_array())
    {
        Some(tasks) => tasks.as_slice(),
        None => &[],
    }
}

/// Answers whether a task's object has this id.
fn has_id(task: &Value, id: &str) -> bool
    ensures { result ≡ has_id_in id.now (view task.now) }
{
    match task
        .get(TaskKey::Id.name())
        .and_then(|value| value.as_str())
    {
        Some(text) => text == id,
        None => false,
    }
}

/// Answers whether one of these tasks' objects has this id.
fn any_has_id(tasks: &[Value], id: &str) -> bool
    ensures { result ≡ list_any (λ task. has_id_in id.now (view task)) tasks.now }
{
    tasks.iter().any(|task| has_id(task, id))
}

/// Answers whether a task of the document has this id.
fn is_task_id(document: &Value, id: &str) -> bool
    ensures { result ≡ is_task_id_in (view document.now) id.now }
{
    any_has_id(tasks_in(document), id)
}

/// Answers whether one of the document's first `n` tasks, or of all where there are fewer, has this id.
fn is_task_id_before(document: &Value, n: usize, id: &str) -> bool
    ensures { result ≡ is_task_id_before_in (view document.now) n id.now }
{
    let tasks = tasks_in(document);
    any_has_id(&tasks[..n.min(tasks.len())], id)
}

/// Gives the members of the document's object `pools`; None where it has no such object.
pub(crate) fn pools_in<'a>(document: &'a Value) -> Option<&'a Map<String, Value>>
    ensures { option_map (λ m. members_view m.now.entries) result
        ≡ pools_at (view document.entry.now) }
{
    document.get(GraphKey::Pools.name())?.as_object()
}

/// Answers whether a name is `default_pool`, or that of a pool of the document.
fn is_pool_name(document: &Value, name: &str) -> bool
    ensures { result ≡ is_pool_name_in (view document.now) name.now }
{
    name == DEFAULT_POOL
        || document
            .get(GraphKey::Pools.name())
            .and_then(|pools| pools.get(name))
            .is_some()
}

/// Answers whether a text may stand where `form` may. For a schedule or a zone any text passes: those aren't read here.
pub(crate) fn text_fits(document: &Value, form: Form, text: &str) -> bool
    ensures { result ≡ text_fits_in (view document.now) form text.now }
{
    match form {
        Form::Schedule | Form::Zone => true,
        Form::Id => is_id(text),
        Form::NewId(n) => is_id(text) && !is_task_id_before(document, n, text),
        Form::Rule => Rule::named(text).is_some(),
        Form::Kind => TaskKind::named(text).is_some(),
        Form::WeightRule => WeightRule::named(text).is_some(),
        Form::Context => ContextVariable::named(text).is_some(),
        Form::TaskId => is_task_id(document, text),
        Form::PoolName => is_pool_name(document, text),
        Form::Word => text.len() <= LONGEST_WORD,
        _ => false,
    }
}

/// Answers whether a number lies from `least` to `most`, both included.
fn is_between(least: u32, most: u32, number: i64) -> bool
    ensures { result ≡ is_between_in least most number }
{
    i64::from(least) <= number && number <= i64::from(most)
}

/// Answers whether a value is a whole number from `least` to `most`, both included.
fn is_whole_number_between(value: &Value, least: u32, most: u32) -> bool
    ensures { result ≡ is_whole_number_between_in least most (view value.now) }
{
    match value.as_i64() {
        Some(number) => is_between(least, most, number),
        None => false,
    }
}

/// Answers whether a value is a list of at most `most` items.
#[tactic(auto, using(crate::proofs::Lists::items_counted))]
fn has_at_most_items(value: &Value, most: usize) -> bool
    ensures { result ≡ has_at_most_items_in most (view value.now) }
{
    match value.as_array() {
        Some(items) => items.len() <= most,
        None => false,
    }
}

/// Answers whether a value is an object with a key `context`, `pull` or `item`.
fn has_word_key(value: &Value) -> bool
    ensures { result ≡ list_any (λ key. is_some (get (word_key_name key) (view value.now)))
        word_keys }
{
    WORD_KEYS.iter().any(|key| value.get(key.name()).is_some())
}

/// Answers whether a value is an object whose single key is `context`, `pull` or `item`.
#[tactic(auto, using(crate::proofs::Lists::members_counted))]
fn is_word_object(value: &Value) -> bool
    ensures { result ≡ is_word_object_in (view value.now) }
{
    match value.as_object() {
        Some(members) => members.len() == 1 && has_word_key(value),
        None => false,
    }
}

/// Answers whether a value that is no text may stand where `form` may. It doesn't look into objects and lists, but for
/// the key of a word.
pub(crate) fn non_text_fits(form: Form, value: &Value) -> bool
    ensures { result ≡ non_text_fits_in form (view value.now) }
{
    match form {
        Form::Object | Form::Pools => value.is_object(),
        Form::Whole(least, most) => is_whole_number_between(value, least, most),
        Form::Tasks => has_at_most_items(value, MOST_TASKS),
        Form::Words => has_at_most_items(value, MOST_WORDS),
        Form::Upstreams => value.is_array(),
        Form::Flag => value.is_boolean(),
        Form::Word => is_word_object(value),
        Form::Item => matches!(value.as_bool(), Some(true)),
        _ => false,
    }
}
