//! A runner that answers by a table.
ghost use Rattle.std.specs.Prelude.{◌≡◌, [], All, IfOk, find, option_and_then, option_copied, slice_get, slice_index_or, length, IfNone, IfSome};
ghost use Rattle.std.specs.BTreeMap;
ghost use Rattle.bf_table.specs.TableIndex.{pattern_cmp, IsIndexOf};
ghost use Rattle.bf_table.specs.inner.TableIndex.{first_of_keys, keys_of, pattern_of_try};
ghost use Rattle.bf_plan.specs.Plans.{shape_of, task_of};
ghost use Rattle.bf_moment.specs.Moment.{IsShown};
ghost use Rattle.bf_table.specs.Tables.{answer_of, answers_for_in, dates_in, matches_number_in, matches_text_in, raw_in};

use crate::table::{Table, TableEntry};
use crate::table_index::TableIndex;
use bf_failure::{Detail, DetailedRunner};
use bf_moment::moment_bytes;
use bf_plan::Plan;
use bf_try::{Done, Raw, RunnerFault, TaskRunner, Ticket, copy_of_bytes};
use bf_value::{JobName, OutOfMemory, Sequence, Text};
use jiff::Timestamp;
use std::alloc::Global;
use std::marker::Model;

/// Answers tries by a table: the first entry that answers for a try gives its status and its line; without one the status
/// is 0 and the line empty.
#[derive(Drop)]
pub struct TableRunner<'a> {
    alloc: Global,
    table: Table,
    plan: &'a Plan,
    /// The logical dates of the runs, as reports spell them.
    dates: Vec<[u8; 20]>,
    index: TableIndex,
}

impl<'a> Model for TableRunner<'a> {
    ghost use Rattle.std.specs.Coded.{codes};
    ghost use Rattle.bf_plan.specs.Plans.{shape_of};
    ghost use Rattle.bf_plan.specs.contracts.plan.Dag;
    ghost use Rattle.bf_table.specs.contracts.table.TableEntry;
    ghost use Rattle.bf_table.specs.Tables.{Answering};
    ghost use Rattle.bf_table.specs.TableIndex.{IsIndexOf};

    ghost Value = { Answering };

    ghost coded = { Prim.hlevel (codes, Dag.the_row.coded, TableEntry.the_row.coded) };

    ghost view = { λ r. record { dag = r.plan.now.dag; dates = r.dates.items; entries = r.table } };

    ghost invariant = { λ r. IsIndexOf (shape_of r.plan.now.dag).ids r.table r.index };
}

/// Whether an entry that names `named`, or nothing, answers for what has this text.
fn matches_text(named: &Option<Text>, text: &[u8]) -> bool
    ensures { result ≡ matches_text_in named.now text.now }
{
    match named {
        Some(named) => named.as_str().as_bytes() == text,
        None => true,
    }
}

/// Whether an entry that names `named`, or nothing, answers for what has this number.
fn matches_number(named: Option<i64>, number: i64) -> bool
    ensures { result ≡ matches_number_in named number }
{
    match named {
        Some(named) => named == number,
        None => true,
    }
}

/// Whether an entry answers for a try whose task has this id and whose run this date: all that the entry names fits.
fn answers_for(id: &[u8], date: &[u8], name: JobName, entry: &TableEntry) -> bool
    ensures { result ≡ answers_for_in id.now date.now name entry.now }
{
    matches_text(&entry.task, id)
        && matches_text(&entry.run, date)
        && matches_number(entry.index, i64::from(name.index))
        && matches_number(entry.attempt, i64::from(name.attempt))
}

/// The first entry that answers for a try, found one entry after the other; None where none does. `id` is that of the
/// try's task, `date` that of its run.
// A try of no task of the plan, or of no run, is looked up one entry after the other.
fn find_by_scan<'a>(
    entries: &'a [TableEntry],
    id: &[u8],
    date: &[u8],
    name: JobName,
) -> Option<&'a TableEntry>
    ensures { option_copied result ≡ find (answers_for_in id.now date.now name) entries.entry.now }
{
    entries
        .iter()
        .find(|entry| answers_for(id, date, name, entry))
}

/// The first entry that answers for a try in a run of this date, found by the index of the entries; None where none
/// does.
fn find_by_index<'a>(
    entries: &'a [TableEntry],
    index: &TableIndex,
    date: [u8; 20],
    name: JobName,
) -> Option<&'a TableEntry>
    ensures { option_copied result
        ≡ option_and_then (slice_get entries.entry.now)
        (first_of_keys (BTreeMap.get pattern_cmp index.now.firsts)
        (keys_of (pattern_of_try index.now.named date name))) }
{
    match index.first_for_try(date, name) {
        Some(place) => entries.get(place),
        None => None,
    }
}

/// The 20 bytes of the logical date of the run with this number, from 0; None where there is no such run.
fn date_of(dates: &[[u8; 20]], run: u32) -> Option<[u8; 20]>
    ensures some { IfSome result (λ date. (length date ≡ 20)
        × (slice_index_or dates.now run [] ≡ date)) }
    ensures none { IfNone result (slice_index_or dates.now run [] ≡ []) }
{
    match dates.get(run as usize) {
        Some(date) => {
            let _bytes = date.as_slice();
            Some(*date)
        }
        None => None,
    }
}

/// The first entry that answers for a try in a run of this date, of 20 bytes; None where none does.
fn entry_in_run<'a>(
    entries: &'a [TableEntry],
    index: &TableIndex,
    plan: &Plan,
    date: [u8; 20],
    name: JobName,
) -> Option<&'a TableEntry>
    requires index { IsIndexOf (shape_of plan.now.dag).ids entries.now index.now }
    requires long { length date ≡ 20 }
    ensures { option_copied result
        ≡ find (answers_for_in (task_of plan.now.dag name.task).id date name) entries.entry.now }
{
    let dag = plan.dag();
    if (name.task as usize) < dag.tasks.len() {
        return find_by_index(entries, index, date, name);
    }
    find_by_scan(entries, dag.id_of(name.task).as_bytes(), &date, name)
}

/// The logical dates of runs that start at these moments, each of 20 bytes, as `2024-01-31T06:05:09Z`.
fn dates_of(alloc: Global, starts: &[Timestamp]) -> Result<Vec<[u8; 20]>, OutOfMemory>
    requires { All (λ start. IsShown start.nanosecond) starts.now }
    ensures { IfOk result (λ dates. dates.items ≡ dates_in starts.now) }
{
    let mut dates = Vec::with_capacity(alloc, starts.len())?;
    for start in starts {
        dates.push(moment_bytes(*start))?;
    }
    Ok(dates)
}

/// What an entry answers; where there is none, status 0 and an empty line.
fn raw_of(alloc: Global, entry: Option<&TableEntry>) -> Result<Raw, OutOfMemory>
    ensures { IfOk result (λ raw. raw ≡ raw_in (option_copied entry.entry)) }
{
    match entry {
        Some(entry) => {
            let line = copy_of_bytes(alloc, entry.line.as_slice())?;
            Ok(Raw::with_code(i32::from(entry.status), line))
        }
        None => Ok(Raw::with_code(0, Sequence::new(alloc))),
    }
}

impl<'a> TableRunner<'a> {
    ghost use Rattle.std.specs.Prelude.{All};

    /// A runner that answers by the table, for the tasks of the plan in runs that start at these moments, in the
    /// order of the runs' numbers.
    pub fn new(
        alloc: Global,
        table: Table,
        plan: &'a Plan,
        starts: &[Timestamp],
    ) -> Result<TableRunner<'a>, OutOfMemory>
        requires { All (λ start. IsShown start.nanosecond) starts.now }
        ensures { IfOk result (λ runner. runner
            ≡ record { dag = plan.now.dag; dates = dates_in starts.now; entries = table }) }
    {
        let dates = dates_of(alloc, starts)?;
        let index = TableIndex::of(alloc, plan.graph(), table.as_slice())?;
        Ok(TableRunner {
            alloc,
            table,
            plan,
            dates,
            index,
        })
    }

    /// The first entry of the table that answers for a try; None where none does.
    fn entry_for(&self, name: JobName) -> Option<&TableEntry>
        ensures { option_copied result
            ≡ find (answers_for_in (task_of self.now.dag name.task).id
            (slice_index_or self.now.dates name.run []) name) self.now.entries }
    {
        let entries = self.table.as_slice();
        match date_of(self.dates.as_slice(), name.run) {
            Some(date) => entry_in_run(entries, &self.index, self.plan, date, name),
            None => find_by_scan(
                entries,
                self.plan.dag().id_of(name.task).as_bytes(),
                &[],
                name,
            ),
        }
    }

    /// What the table answers for a try: status 0 and an empty line where no entry does.
    #[tactic(auto, unfolding(crate::specs::Tables::answer_of))]
    fn answer(&self, name: JobName) -> Result<Raw, OutOfMemory>
        ensures { IfOk result (λ raw. raw ≡ answer_of self.now name) }
    {
        raw_of(self.alloc, self.entry_for(name))
    }
}

impl TaskRunner for TableRunner<'_> {
    ghost use Rattle.std.specs.Prelude.{◌≡◌};
    ghost use Rattle.bf_table.specs.Tables.{answer_of};

    ghost may_answer = { λ s n g r. r ≡ answer_of s n };

    ghost may_give_up = { λ s n g. ⊥ };

    /// Answers by the table. The ticket comes back only where memory is wanting.
    fn run(&self, ticket: Ticket) -> Result<Done, (Ticket, RunnerFault)> {
        match self.answer(ticket.name()) {
            Ok(raw) => Ok(ticket.answer(raw)),
            Err(OutOfMemory) => Err((ticket, RunnerFault::OutOfMemory)),
        }
    }
}

/// A table knows no more than the answer.
impl DetailedRunner for TableRunner<'_> {
    ghost use Rattle.std.specs.Prelude.{◌≡◌, None};

    ghost may_know = { λ s n g raw detail. detail ≡ None };

    /// Answers by the table, with nothing beside the answer.
    fn run_in_detail(
        &self,
        ticket: Ticket,
    ) -> Result<(Done, Option<Detail>), (Ticket, RunnerFault)> {
        let done = self.run(ticket)?;
        Ok((done, None))
    }
}
