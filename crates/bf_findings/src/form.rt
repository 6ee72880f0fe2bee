//! What may stand at a place.
ghost use Rattle.std.specs.Prelude.{◌≡◌};
ghost use Rattle.serde_json.specs.View.{view};
ghost use Rattle.bf_findings.specs.Forms.{graph_form_of, task_form_of, is_expanded_in, form_in};

use crate::document::task_at;
use crate::place::{DocumentPlace, WordKey};
use bf_plan::is_id;
use bf_read::{
    GREATEST_WEIGHT, GraphKey, LONGEST_RETRY_DELAY, MOST_ACTIVE_RUNS, MOST_RETRIES, MOST_SLOTS,
    TaskKey,
};
use serde_json::Value;
use std::fmt;

/// What may stand at a place of a graph file's document.
#[derive(Clone, Copy, Debug, PartialEq, Eq)]
pub enum Form {
    /// The object of the file, or of a task.
    Object,
    /// Nothing: graph files don't have this key.
    NoGraphKey,
    /// Nothing: tasks don't have this key.
    NoTaskKey,
    /// Nothing: the name of this pool is no id.
    NoPool,
    /// Nothing: only an expanded task has an item.
    NoItem,
    Id,
    /// An id that none of the first so many tasks has.
    NewId(usize),
    Schedule,
    Zone,
    /// A whole number from the first to the second, both included.
    Whole(u32, u32),
    Pools,
    Tasks,
    Upstreams,
    Words,
    Flag,
    Rule,
    Kind,
    WeightRule,
    /// The id of a task of the file.
    TaskId,
    /// The name of a pool of the file, or `default_pool`.
    PoolName,
    Word,
    Context,
    Item,
}

/// Gives what may stand under a key of a graph file's outer object.
fn graph_form(key: GraphKey) -> Form
    ensures { result ≡ graph_form_of key }
{
    match key {
        GraphKey::DagId => Form::Id,
        GraphKey::Schedule => Form::Schedule,
        GraphKey::Zone => Form::Zone,
        GraphKey::MaxActiveRuns => Form::Whole(1, MOST_ACTIVE_RUNS),
        GraphKey::Pools => Form::Pools,
        GraphKey::Tasks => Form::Tasks,
    }
}

/// Gives what may stand under a key of task `n`, counted from 0.
fn task_form(n: usize, key: TaskKey) -> Form
    ensures { result ≡ task_form_of n key }
{
    match key {
        TaskKey::Id => Form::NewId(n),
        TaskKey::Upstream => Form::Upstreams,
        TaskKey::Rule => Form::Rule,
        TaskKey::Kind => Form::Kind,
        TaskKey::Command => Form::Words,
        TaskKey::Expand => Form::TaskId,
        TaskKey::DependsOnPast => Form::Flag,
        TaskKey::Retries => Form::Whole(0, MOST_RETRIES),
        TaskKey::RetryDelay => Form::Whole(0, LONGEST_RETRY_DELAY),
        TaskKey::Pool => Form::PoolName,
        TaskKey::PoolSlots => Form::Whole(1, MOST_SLOTS),
        TaskKey::PriorityWeight => Form::Whole(0, GREATEST_WEIGHT),
        TaskKey::WeightRule => Form::WeightRule,
    }
}

/// Answers whether task `n` of the document, counted from 0, has the key `expand`.
fn is_expanded(document: &Value, n: usize) -> bool
    ensures { result ≡ is_expanded_in (view document.now) n }
{
    task_at(document, n)
        .and_then(|task| task.get(TaskKey::Expand.name()))
        .is_some()
}

/// Gives what may stand at a place of the document, whatever stands there now.
pub(crate) fn form_of(document: &Value, place: &DocumentPlace) -> Form
    ensures { result ≡ form_in (view document.now) place.now }
{
    match place {
        DocumentPlace::Top | DocumentPlace::Task(_) => Form::Object,
        DocumentPlace::Key(key) => graph_form(*key),
        DocumentPlace::OtherKey(_) => Form::NoGraphKey,
        DocumentPlace::Pool(name) if is_id(name.as_str()) => Form::Whole(1, MOST_SLOTS),
        DocumentPlace::Pool(_) => Form::NoPool,
        DocumentPlace::TaskKey(n, key) => task_form(*n, *key),
        DocumentPlace::OtherTaskKey(_, _) => Form::NoTaskKey,
        DocumentPlace::Upstream(_, _) => Form::TaskId,
        DocumentPlace::Word(_, _) => Form::Word,
        DocumentPlace::WordKey(_, _, WordKey::Context) => Form::Context,
        DocumentPlace::WordKey(_, _, WordKey::Pull) => Form::TaskId,
        DocumentPlace::WordKey(n, _, WordKey::Item) if is_expanded(document, *n) => Form::Item,
        DocumentPlace::WordKey(_, _, WordKey::Item) => Form::NoItem,
    }
}

impl fmt::Display for Form {
    ghost use Rattle.std.specs.Prelude.{Some};
    ghost use Rattle.bf_findings.specs.Forms.{form_text};

    ghost output = { λ form. Some (form_text form) };

    /// Writes what may stand there, such as `has to be a whole number from 1 to 4096`.
    fn fmt<W: fmt::Write>(&self, f: &mut fmt::Formatter<W>) -> fmt::Result {
        if let Form::Whole(least, most) = self {
            return write!(f, "has to be a whole number from {least} to {most}");
        }
        f.write_str(self.words_without_bounds())
    }
}

impl Form {
    ghost use Rattle.bf_findings.specs.Forms.{form_words};

    /// Gives the words for what may stand there, such as `has to be true`; for a number they leave out its bounds.
    fn words_without_bounds(self) -> &'static str
        ensures { result.now ≡ form_words self }
    {
        match self {
            Form::Object => "has to be an object",
            Form::NoGraphKey => {
                "a graph file has the keys dag_id, schedule, zone, max_active_runs, pools and tasks"
            }
            Form::NoTaskKey => {
                "a task has the keys id, upstream, rule, kind, command, expand, depends_on_past, retries, retry_delay, pool, pool_slots, priority_weight and weight_rule"
            }
            Form::NoPool => {
                "the name of a pool has 1 to 250 letters, digits, dashes, dots and underscores"
            }
            Form::NoItem => "a task without the key expand has no item",
            Form::Id => "has to be an id of 1 to 250 letters, digits, dashes, dots and underscores",
            Form::NewId(_) => {
                "has to be an id of 1 to 250 letters, digits, dashes, dots and underscores that no task before has"
            }
            Form::Schedule => {
                "has to be five fields of cron that some day matches, or @hourly, @daily, @weekly, @monthly, @quarterly or @yearly"
            }
            Form::Zone => {
                "has to be UTC, an offset as +01:00, a rule as CET-1CEST,M3.5.0,M10.5.0/3, or file with a zone file beside it"
            }
            Form::Whole(_, _) => "has to be a whole number",
            Form::Pools => "has to be an object of names and slots",
            Form::Tasks => "has to be a list of at most 2000 tasks",
            Form::Upstreams => "has to be a list of ids of tasks",
            Form::Words => "has to be a list of at most 64 words",
            Form::Flag => "has to be true or false",
            Form::Rule => {
                "has to be all_success, all_failed, all_skipped, all_done, one_success, one_failed, one_done, none_failed, none_failed_min_one_success, none_skipped or always"
            }
            Form::Kind => "has to be program or branch",
            Form::WeightRule => "has to be downstream, upstream or absolute",
            Form::TaskId => "has to be the id of a task",
            Form::PoolName => "has to be default_pool or a name of pools",
            Form::Word => {
                "has to be a text of at most 4096 bytes, or an object with one key, context, pull or item"
            }
            Form::Context => {
                "has to be logical_date, data_interval_start, data_interval_end, dag_id, task_id, map_index or try_number"
            }
            Form::Item => "has to be true",
        }
    }
}
