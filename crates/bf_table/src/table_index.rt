//! Which entry of a table comes first of those that name the same.
ghost use Rattle.std.specs.Prelude.{◌≡◌, ◌≤◌, ◌<◌, None, Some, IfOk, is_some};
ghost use Rattle.std.specs.List.{list_any};
ghost use Rattle.std.specs.BTreeMap as tree;
ghost use Rattle.bf_table.specs.TableIndex.{date_named, number_named, pattern_cmp, pattern_in, parts_named_in, AreFirstsOf, IsIndexOf};
ghost use Rattle.bf_table.specs.inner.TableIndex.{keys_with_date, keys_with_index, keys_with_task, earlier_place_of, first_of_keys, keys_of, pattern_of_try};

use crate::table::TableEntry;
use bf_graph::Graph;
use bf_value::{JobName, OutOfMemory, Text};
use std::alloc::Global;
use std::collections::BTreeMap;

/// What an entry names: a task by its number, the logical date of a run, a map index and a try number, or not.
#[derive(Clone, Copy, Debug, PartialEq, Eq, PartialOrd, Ord)]
pub(crate) struct Pattern {
    task: Option<u32>,
    date: Option<[u8; 20]>,
    index: Option<i64>,
    attempt: Option<i64>,
}

/// Which parts of a try any entry of a table names, beside its task.
#[derive(Clone, Copy, Debug, PartialEq, Eq)]
pub(crate) struct NamedParts {
    run: bool,
    index: bool,
    attempt: bool,
}

/// Whether any of these entries names a run.
fn any_names_run(entries: &[TableEntry]) -> bool
    ensures { result ≡ list_any (λ e. is_some e.run) entries.now }
{
    entries.iter().any(|entry| entry.run.is_some())
}

/// Whether any of these entries names a map index.
fn any_names_index(entries: &[TableEntry]) -> bool
    ensures { result ≡ list_any (λ e. is_some e.index) entries.now }
{
    entries.iter().any(|entry| entry.index.is_some())
}

/// Whether any of these entries names a try number.
fn any_names_attempt(entries: &[TableEntry]) -> bool
    ensures { result ≡ list_any (λ e. is_some e.attempt) entries.now }
{
    entries.iter().any(|entry| entry.attempt.is_some())
}

impl NamedParts {
    /// The parts that these entries name.
    fn of(entries: &[TableEntry]) -> NamedParts
        ensures { result ≡ parts_named_in entries.now }
    {
        NamedParts {
            run: any_names_run(entries),
            index: any_names_index(entries),
            attempt: any_names_attempt(entries),
        }
    }
}

impl Pattern {
    /// What an entry can name of a try: its task by number, and of the 20 bytes of its run's logical date, its map index
    /// and its number those parts that any entry names.
    fn of_try(named: NamedParts, date: [u8; 20], name: JobName) -> Pattern
        ensures { result ≡ pattern_of_try named date name }
    {
        Pattern {
            task: Some(name.task),
            date: named.run.then_some(date),
            index: named.index.then_some(i64::from(name.index)),
            attempt: named.attempt.then_some(i64::from(name.attempt)),
        }
    }
}

/// For each pattern the place, from 0, of the first entry that has it.
type Firsts = BTreeMap<Pattern, usize>;

/// Finds the first entry of a table that answers for a try.
#[derive(Drop)]
pub(crate) struct TableIndex {
    firsts: Firsts,
    named: NamedParts,
}

/// The number of the task that an entry names, `Some(None)` where it names none;
/// `None` where the graph has no such task.
fn task_number_named(graph: &Graph, named: &Option<Text>) -> Option<Option<u32>>
    ensures { result ≡ number_named graph.now.ids named.now }
{
    match named {
        Some(named) => graph.number_of(named.as_str()).map(|number| Some(number)),
        None => Some(None),
    }
}

/// The 20 bytes of the run that an entry names, `Some(None)` where it names none;
/// `None` where the text has another length.
fn run_date_named(named: &Option<Text>) -> Option<Option<[u8; 20]>>
    ensures { result ≡ date_named named.now }
{
    let Some(named) = named else {
        return Some(None);
    };
    match <[u8; 20]>::try_from(named.as_str().as_bytes()) {
        Ok(date) => Some(Some(date)),
        Err(_) => None,
    }
}

/// The pattern of what an entry names; None where its task isn't in the graph, or its run's text hasn't 20 bytes.
fn pattern_of(graph: &Graph, entry: &TableEntry) -> Option<Pattern>
    ensures { result ≡ pattern_in graph.now.ids entry.now }
{
    Some(Pattern {
        task: task_number_named(graph, &entry.task)?,
        date: run_date_named(&entry.run)?,
        index: entry.index,
        attempt: entry.attempt,
    })
}

/// For each pattern the place, from 0, of the first entry that has it. Entries without a pattern, which answer for no
/// try of the graph, are left out.
fn firsts_of(alloc: Global, graph: &Graph, entries: &[TableEntry]) -> Result<Firsts, OutOfMemory>
    ensures { IfOk result (AreFirstsOf graph.now.ids entries.now) }
{
    let mut firsts = BTreeMap::new(alloc);
    let mut number = entries.len();
    while number > 0 {
        number -= 1;
        if let Some(pattern) = pattern_of(graph, &entries[number]) {
            firsts.insert(pattern, number)?;
        }
    }
    Ok(firsts)
}

/// The lesser of two places, of which either may be missing; None where both are.
fn earlier_place(one: Option<usize>, other: Option<usize>) -> Option<usize>
    ensures { result ≡ earlier_place_of one other }
{
    match (one, other) {
        (Some(one), Some(other)) => Some(one.min(other)),
        (Some(one), None) => Some(one),
        (None, other) => other,
    }
}

/// The place, from 0, of the first entry with exactly this pattern; None where there is none.
fn first_with_pattern(firsts: &Firsts, pattern: Pattern) -> Option<usize>
    ensures { result ≡ tree.get pattern_cmp firsts.now pattern }
{
    firsts.get(&pattern).copied()
}

/// The place, from 0, of the first entry that names just this task, run (by `date`) and index, each unnamed where
/// None, and the try number of `asked` or none. None where there is no such entry.
#[tactic(auto, using(crate::proofs::IndexLemmas::two_keys, crate::proofs::IndexLemmas::key_again))]
fn first_with_index(
    firsts: &Firsts,
    asked: Pattern,
    task: Option<u32>,
    date: Option<[u8; 20]>,
    index: Option<i64>,
) -> Option<usize>
    ensures { result ≡ first_of_keys (tree.get pattern_cmp firsts.now)
        (keys_with_index asked task date index) }
{
    let any = Pattern {
        task,
        date,
        index,
        attempt: None,
    };
    let first = first_with_pattern(firsts, any);
    if asked.attempt.is_none() {
        return first;
    }
    let same = Pattern {
        attempt: asked.attempt,
        ..any
    };
    earlier_place(first, first_with_pattern(firsts, same))
}

/// The place, from 0, of the first entry that names just this task and run (by `date`), each unnamed where None, and
/// the index of `asked` or none, and so its try number. None where there is no such entry.
#[tactic(auto, using(crate::proofs::IndexLemmas::two_groups, crate::proofs::IndexLemmas::group_again))]
fn first_with_date(
    firsts: &Firsts,
    asked: Pattern,
    task: Option<u32>,
    date: Option<[u8; 20]>,
) -> Option<usize>
    ensures { result ≡ first_of_keys (tree.get pattern_cmp firsts.now)
        (keys_with_date asked task date) }
{
    let any = first_with_index(firsts, asked, task, date, None);
    if asked.index.is_none() {
        return any;
    }
    let same = first_with_index(firsts, asked, task, date, asked.index);
    earlier_place(any, same)
}

/// The place, from 0, of the first entry that names just this task, unnamed where None, and the run of `asked` or
/// none, and so its index and its try number. None where there is no such entry.
#[tactic(auto, using(crate::proofs::IndexLemmas::two_groups, crate::proofs::IndexLemmas::group_again))]
fn first_with_task(firsts: &Firsts, asked: Pattern, task: Option<u32>) -> Option<usize>
    ensures { result ≡ first_of_keys (tree.get pattern_cmp firsts.now)
        (keys_with_task asked task) }
{
    let any = first_with_date(firsts, asked, task, None);
    if asked.date.is_none() {
        return any;
    }
    let same = first_with_date(firsts, asked, task, asked.date);
    earlier_place(any, same)
}

/// The place, from 0, of the first entry of which each part is that of `asked` or names nothing. None where there is no
/// such entry.
fn first_for_pattern(firsts: &Firsts, asked: Pattern) -> Option<usize>
    ensures { result ≡ first_of_keys (tree.get pattern_cmp firsts.now) (keys_of asked) }
{
    let any = first_with_task(firsts, asked, None);
    let same = first_with_task(firsts, asked, asked.task);
    earlier_place(any, same)
}

impl TableIndex {
    /// The index of these entries, which name tasks of the graph by their ids.
    pub(crate) fn of(
        alloc: Global,
        graph: &Graph,
        entries: &[TableEntry],
    ) -> Result<TableIndex, OutOfMemory>
        ensures { IfOk result (IsIndexOf graph.now.ids entries.now) }
    {
        Ok(TableIndex {
            firsts: firsts_of(alloc, graph, entries)?,
            named: NamedParts::of(entries),
        })
    }

    /// The place, from 0, of the first entry that answers for a try in a run of this logical date; None where no entry
    /// does.
    #[tactic(auto, using(crate::proofs::IndexLemmas::nothing_found))]
    pub(crate) fn first_for_try(&self, date: [u8; 20], name: JobName) -> Option<usize>
        ensures { result ≡ first_of_keys (tree.get pattern_cmp self.now.firsts)
            (keys_of (pattern_of_try self.now.named date name)) }
    {
        if self.firsts.is_empty() {
            return None;
        }
        first_for_pattern(&self.firsts, Pattern::of_try(self.named, date, name))
    }
}
