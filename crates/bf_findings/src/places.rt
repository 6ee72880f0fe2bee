//! The places of a document.
ghost use Rattle.std.specs.Prelude.{◌≡◌, ◌++◌, map, OnOk, IfOk};
ghost use Rattle.serde_json.specs.View.{view, members_view};
ghost use Rattle.bf_findings.specs.Listed.{graph_key_places, task_key_places, other_keys, pools_of, pools_if_any, other_task_keys, items_in, upstreams, word_keys_of, words, task_places, head_places};
ghost use Rattle.bf_findings.specs.Fitting.{pools_at};

use crate::fitting::pools_in;
use crate::place::{DocumentPlace, WORD_KEYS};
use bf_read::{GRAPH_KEYS, TASK_KEYS, TaskKey, is_graph_key, is_task_key};
use bf_value::{OutOfMemory, Text};
use serde_json::{Map, Value};
use std::alloc::Global;

/// Adds the place of each key that a graph file may have, whether or not this one has it.
fn add_graph_keys(places: &mut Vec<DocumentPlace>) -> Result<(), OutOfMemory>
    ensures { OnOk result (places.new.items ≡ places.old.items ++ graph_key_places) }
{
    for key in &GRAPH_KEYS {
        places.push(DocumentPlace::Key(*key))?;
    }
    Ok(())
}

/// Adds the place of each key of the outer object `graph` that graph files don't have.
fn add_other_keys(
    alloc: Global,
    places: &mut Vec<DocumentPlace>,
    graph: &Map<String, Value>,
) -> Result<(), OutOfMemory>
    ensures { OnOk result (places.new.items ≡ places.old.items
        ++ other_keys (members_view graph.now.entries)) }
{
    for (key, _value) in graph.iter() {
        if !is_graph_key(key.as_str()) {
            places.push(DocumentPlace::OtherKey(Text::copy_of(alloc, key.as_str())?))?;
        }
    }
    Ok(())
}

/// Adds the place of each of these pools.
fn add_pool_names(
    alloc: Global,
    places: &mut Vec<DocumentPlace>,
    pools: &Map<String, Value>,
) -> Result<(), OutOfMemory>
    ensures { OnOk result (places.new.items ≡ places.old.items
        ++ pools_of (members_view pools.now.entries)) }
{
    for (name, _slots) in pools.iter() {
        places.push(DocumentPlace::Pool(Text::copy_of(alloc, name.as_str())?))?;
    }
    Ok(())
}

/// Adds the place of each pool that the document names; adds nothing where it has no object `pools`.
fn add_pools(
    alloc: Global,
    places: &mut Vec<DocumentPlace>,
    document: &Value,
) -> Result<(), OutOfMemory>
    ensures { OnOk result (places.new.items
        ≡ places.old.items ++ pools_if_any (pools_at (view document.now))) }
{
    match pools_in(document) {
        Some(pools) => add_pool_names(alloc, places, pools),
        None => Ok(()),
    }
}

/// Adds the place of each key that a task may have, for task `n`, whether or not this one has it.
fn add_task_keys(places: &mut Vec<DocumentPlace>, n: usize) -> Result<(), OutOfMemory>
    ensures { OnOk result (places.new.items ≡ places.old.items ++ task_key_places n) }
{
    for key in &TASK_KEYS {
        places.push(DocumentPlace::TaskKey(n, *key))?;
    }
    Ok(())
}

/// Adds the place of each key of task `n` that tasks don't have.
fn add_other_task_keys(
    alloc: Global,
    places: &mut Vec<DocumentPlace>,
    n: usize,
    task: &Map<String, Value>,
) -> Result<(), OutOfMemory>
    ensures { OnOk result (places.new.items ≡ places.old.items
        ++ other_task_keys n (members_view task.now.entries)) }
{
    for (key, _value) in task.iter() {
        if !is_task_key(key.as_str()) {
            let key = Text::copy_of(alloc, key.as_str())?;
            places.push(DocumentPlace::OtherTaskKey(n, key))?;
        }
    }
    Ok(())
}

/// Gives the items of the list under a key of a task; none where there is no list.
#[tactic(auto, using(crate::proofs::Lists::list_viewed))]
fn items_under<'a>(task: &'a Value, key: TaskKey) -> &'a [Value]
    ensures { map view result.now ≡ items_in (view task.entry.now) key }
{
    match task.get(key.name()).and_then(|value| value.as_array()) {
        Some(items) => items.as_slice(),
        None => &[],
    }
}

/// Adds the place of each of the upstreams `items` of task `n`.
fn add_upstreams(
    places: &mut Vec<DocumentPlace>,
    n: usize,
    items: &[Value],
) -> Result<(), OutOfMemory>
    ensures { OnOk result (places.new.items ≡ places.old.items
        ++ upstreams n 0 (map view items.now)) }
{
    for (i, _upstream) in items.iter().enumerate() {
        places.push(DocumentPlace::Upstream(n, i))?;
    }
    Ok(())
}

/// Adds the place of each key `context`, `pull` or `item` that word `i` of task `n` has.
fn add_word_keys(
    places: &mut Vec<DocumentPlace>,
    n: usize,
    i: usize,
    word: &Value,
) -> Result<(), OutOfMemory>
    ensures { OnOk result (places.new.items ≡ places.old.items
        ++ word_keys_of n i (view word.now)) }
{
    for key in &WORD_KEYS {
        if word.get(key.name()).is_some() {
            places.push(DocumentPlace::WordKey(n, i, *key))?;
        }
    }
    Ok(())
}

/// Adds the place of each of the words `items` of task `n`, each followed by those of its keys.
fn add_words(places: &mut Vec<DocumentPlace>, n: usize, items: &[Value]) -> Result<(), OutOfMemory>
    ensures { OnOk result (places.new.items ≡ places.old.items ++ words n 0 (map view items.now)) }
{
    for (i, word) in items.iter().enumerate() {
        places.push(DocumentPlace::Word(n, i))?;
        add_word_keys(places, n, i, word)?;
    }
    Ok(())
}

/// Adds the place of task `n` and, where its value is an object, those of its keys, upstreams and words.
fn add_task(
    alloc: Global,
    places: &mut Vec<DocumentPlace>,
    n: usize,
    task: &Value,
) -> Result<(), OutOfMemory>
    ensures { OnOk result (places.new.items ≡ places.old.items ++ task_places n (view task.now)) }
{
    places.push(DocumentPlace::Task(n))?;
    let Some(members) = task.as_object() else {
        return Ok(());
    };
    add_task_keys(places, n)?;
    add_other_task_keys(alloc, places, n, members)?;
    add_upstreams(places, n, items_under(task, TaskKey::Upstream))?;
    add_words(places, n, items_under(task, TaskKey::Command))
}

/// Gives the places of task `n` and of all that it holds.
pub(crate) fn places_of_task(
    alloc: Global,
    n: usize,
    task: &Value,
) -> Result<Vec<DocumentPlace>, OutOfMemory>
    ensures { IfOk result (λ v. v.items ≡ task_places n (view task.now)) }
{
    let mut places = Vec::new(alloc);
    add_task(alloc, &mut places, n, task)?;
    Ok(places)
}

/// Gives the places of a document before its tasks, from the top down; only the top where it is no object.
pub(crate) fn places_before_tasks(
    alloc: Global,
    document: &Value,
) -> Result<Vec<DocumentPlace>, OutOfMemory>
    ensures { IfOk result (λ v. v.items ≡ head_places (view document.now)) }
{
    let mut places = Vec::new(alloc);
    places.push(DocumentPlace::Top)?;
    let Some(members) = document.as_object() else {
        return Ok(places);
    };
    add_graph_keys(&mut places)?;
    add_other_keys(alloc, &mut places, members)?;
    add_pools(alloc, &mut places, document)?;
    Ok(places)
}
