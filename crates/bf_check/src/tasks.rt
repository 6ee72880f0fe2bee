//! The tasks of a plan.
ghost use Rattle.std.specs.Prelude.{◌≡◌, ◌≤◌, ℕ, List, length, map, slice_index_or, All, Contains, position, None, Some, IfOk};
ghost use Rattle.std.specs.Str.{bytes_eq};
ghost use Rattle.bf_graph.specs.Edges.{upstreams_of};
ghost use Rattle.bf_rule.specs.declared.rule.Rule.{Rule};
ghost use Rattle.bf_read.specs.Limits.{most_pulls, most_tasks};
ghost use Rattle.bf_read.specs.Drafts.{IsTask, pulled_by, pulled_in};
ghost use Rattle.bf_check.specs.Checking.{ids_of, task_in, word_in};
ghost use Rattle.bf_check.specs.inner.Looks.{links_in, AreFound, HasLinks};

use crate::edges::place_of;
use crate::pulls::Pulls;
use bf_graph::Graph;
use bf_plan::{Task, Word};
use bf_read::{TaskDraft, WordDraft};
use bf_rule::Rule;
use bf_value::{OutOfMemory, Sequence, Text};
use std::alloc::Global;

/// Gives the index of an id among the distinct ids `pulled`, of which it must be one.
fn place_of_pull(pulled: &[Text], id: &str) -> u32
    requires pulled { Contains pulled.now id.now }
    requires few { length pulled.now ≤ most_pulls }
    ensures { Some result ≡ position (bytes_eq id.now) pulled.now }
{
    place_of(pulled, id).unwrap() as u32
}

/// Makes a word of a plan's command; a pull becomes an index into `pulled`, the distinct ids that the command pulls
/// from.
fn word_of(pulled: &[Text], word: WordDraft) -> Word
    requires pulled { (id : List ℕ) → pulled_by word ≡ Some id → Contains pulled.now id }
    requires few { length pulled.now ≤ most_pulls }
    ensures { result ≡ word_in pulled.now word }
{
    match word {
        WordDraft::Text(text) => Word::Text(text),
        WordDraft::Context(variable) => Word::Context(variable),
        WordDraft::Pull(id) => Word::Pull(place_of_pull(pulled, id.as_str())),
        WordDraft::Item => Word::Item,
    }
}

/// Makes the words of a plan's command, in order; a pull becomes an index into `pulled`, the distinct ids that the
/// command pulls from.
fn words_of(
    alloc: Global,
    pulled: &[Text],
    drafts: Sequence<WordDraft>,
) -> Result<Vec<Word>, OutOfMemory>
    requires pulled { pulled.now ≡ pulled_in drafts }
    requires few { length pulled.now ≤ most_pulls }
    ensures { IfOk result (λ v. v.items ≡ map (word_in pulled.now) drafts) }
{
    let mut words = Vec::new(alloc);
    for word in drafts.into_vec() {
        words.push(word_of(pulled, word))?;
    }
    Ok(words)
}

/// What was found of a task beside its draft.
#[derive(Drop)]
struct Links {
    upstreams: Sequence<u32>,
    rule: Rule,
    pulls: Pulls,
    source: Option<u32>,
}

/// Makes a plan's task of its draft, with the upstreams, rule, pulls and source of `links`.
fn task_of(alloc: Global, draft: TaskDraft, links: Links) -> Result<Task, OutOfMemory>
    requires task { IsTask draft }
    requires pulled { links.pulls.ids ≡ pulled_in draft.command }
    ensures { IfOk result (λ task. (ids : List (List ℕ)) → links ≡ links_in ids draft → task
        ≡ task_in ids draft) }
{
    let pulls = links.pulls;
    let command = words_of(alloc, pulls.ids.as_slice(), draft.command)?;
    Ok(Task {
        id: draft.id,
        upstreams: links.upstreams,
        rule: links.rule,
        kind: draft.kind,
        command: Sequence::from_vec(command),
        pulls: pulls.numbers,
        expand: links.source,
        depends_on_past: draft.depends_on_past,
        retries: draft.retries,
    })
}

/// Gathers the links of the task numbered `task`: its upstreams in `graph`, its rule and source from those of all
/// tasks, and its own `pulls`.
fn links_of(
    alloc: Global,
    graph: &Graph,
    rules: &[Rule],
    sources: &[Option<u32>],
    task: u32,
    pulls: Pulls,
) -> Result<Links, OutOfMemory>
    requires { HasLinks graph.now rules.now sources.now task }
    ensures { IfOk result (λ links. links ≡ record {
      upstreams = upstreams_of graph.now.upstreams task;
      rule = slice_index_or rules.now task Rule.AllSuccess;
      pulls = pulls;
      source = slice_index_or sources.now task None;
    }) }
{
    let upstreams = graph.upstreams(task).to_vec(alloc)?;
    Ok(Links {
        upstreams: Sequence::from_vec(upstreams),
        rule: rules[task as usize],
        pulls,
        source: sources[task as usize],
    })
}

/// Makes the tasks of a plan, in file order, each of its draft and its upstreams, rule, pulls and source.
pub(crate) fn tasks_of(
    alloc: Global,
    drafts: Sequence<TaskDraft>,
    graph: &Graph,
    rules: &[Rule],
    pulls: Vec<Pulls>,
    sources: &[Option<u32>],
) -> Result<Vec<Task>, OutOfMemory>
    requires tasks { All IsTask drafts }
    requires few { length drafts ≤ most_tasks }
    requires found { AreFound drafts graph.now rules.now pulls.items sources.now }
    ensures { IfOk result (λ v. v.items ≡ map (task_in (ids_of drafts)) drafts) }
{
    let mut tasks = Vec::new(alloc);
    for (draft, pulls) in drafts.into_vec().into_iter().zip(pulls) {
        let t = tasks.len();
        let links = links_of(alloc, graph, rules, sources, t as u32, pulls)?;
        tasks.push(task_of(alloc, draft, links)?)?;
    }
    Ok(tasks)
}
