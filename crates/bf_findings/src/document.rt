//! The document of a graph file, and what stands at its places.
ghost use Rattle.std.specs.Prelude.{◌≡◌, option_map};
ghost use Rattle.serde_json.specs.View.{view};
ghost use Rattle.bf_findings.specs.Places.{task_value, item_value, value_in};

use crate::place::DocumentPlace;
use bf_read::{GraphKey, TaskKey};
use serde_json::Value;

/// Gives the value of task `n`, counted from 0; None where the document has none.
pub(crate) fn task_at<'a>(document: &'a Value, n: usize) -> Option<&'a Value>
    ensures { option_map (λ v. view v.now) result ≡ task_value (view document.entry.now) n }
{
    document.get(GraphKey::Tasks.name())?.get(n)
}

/// Gives the value of item `i` of the list under a key of task `n`, both counted from 0; None where there is none.
fn item_at<'a>(document: &'a Value, n: usize, key: TaskKey, i: usize) -> Option<&'a Value>
    ensures { option_map (λ v. view v.now) result ≡ item_value (view document.entry.now) n key i }
{
    task_at(document, n)?.get(key.name())?.get(i)
}

/// Gives the value at a place of the document; None where there is none. Unknown keys have values too.
pub(crate) fn value_at<'a>(document: &'a Value, place: &DocumentPlace) -> Option<&'a Value>
    ensures { option_map (λ v. view v.now) result ≡ value_in (view document.entry.now) place.now }
{
    match place {
        DocumentPlace::Top => Some(document),
        DocumentPlace::Key(key) => document.get(key.name()),
        DocumentPlace::OtherKey(key) => document.get(key.as_str()),
        DocumentPlace::Pool(name) => document.get(GraphKey::Pools.name())?.get(name.as_str()),
        DocumentPlace::Task(n) => task_at(document, *n),
        DocumentPlace::TaskKey(n, key) => task_at(document, *n)?.get(key.name()),
        DocumentPlace::OtherTaskKey(n, key) => task_at(document, *n)?.get(key.as_str()),
        DocumentPlace::Upstream(n, i) => item_at(document, *n, TaskKey::Upstream, *i),
        DocumentPlace::Word(n, i) => item_at(document, *n, TaskKey::Command, *i),
        DocumentPlace::WordKey(n, i, key) => item_at(document, *n, TaskKey::Command, *i)?.get(
            key.name(),
        ),
    }
}
