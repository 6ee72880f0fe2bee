//! Asking the core which steps may come, and putting those on an agenda.
ghost use Rattle.std.specs.Prelude.{◌≡◌, ◌<◌, ◌≤◌, ◌+◌, ℕ, length, slice_index, false};
ghost use Rattle.bf_graph.specs.Edges.{IsUpstream};
ghost use Rattle.bf_graph.specs.Lookups.{IsRisingListOf};
ghost use Rattle.bf_plan.specs.Plans.{shape_of};
ghost use Rattle.bf_core.specs.Cores.{IsThere};
ghost use Rattle.bf_due.specs.Dues.{HasAdded, HasRoom};
ghost use Rattle.bf_due.specs.inner.Dues.{Asks, AsksAll, Concerns, IsAround, IsBelow, IsCloseOf, IsOfFirst, IsOfRun, IsOfTask, IsOpening, IsStirred, IsUnder, SpeaksOfTask, newest};
ghost use Rattle.bf_due.specs.Cursors.{IsNoted};
ghost use Rattle.bf_due.specs.inner.Stirring.{is_past_known_in, is_settled, may_let_be_decided_in, waits_for_in};

use crate::agenda::{Agenda, Step};
use crate::cursors::Cursors;
use crate::decisions::decision_step;
use crate::news::{News, rule_looks_for};
use bf_core::{Core, Event};

/// Adds the step that decides a task, none of whose upstreams is awaited, where it has one.
fn add_decision(agenda: &mut Agenda, core: &Core<'_>, run: u32, task: u32)
    requires task { task < length core.now.dag.tasks }
    requires room { length agenda.old.items + 1 ≤ agenda.old.room }
    ensures added { HasAdded core.now (IsOfTask run task) agenda.old.items agenda.new.items }
    ensures len { length agenda.new.items ≤ length agenda.old.items + 1 }
    ensures room { agenda.old.room ≤ agenda.new.room }
{
    if let Some(step) = decision_step(core, run, task) {
        agenda.add(step);
    }
}

/// Adds the close of a run, where it may be closed now.
fn add_close(agenda: &mut Agenda, core: &Core<'_>, run: u32)
    requires { length agenda.old.items + 1 ≤ agenda.old.room }
    ensures added { HasAdded core.now (IsCloseOf run) agenda.old.items agenda.new.items }
    ensures len { length agenda.new.items ≤ length agenda.old.items + 1 }
    ensures room { agenda.old.room ≤ agenda.new.room }
{
    if core.may_close(run) {
        agenda.add(Step::Close { run });
    }
}

/// Adds the opening of the next run, where it may be opened now.
pub(crate) fn add_open(agenda: &mut Agenda, core: &Core<'_>)
    requires { length agenda.old.items + 1 ≤ agenda.old.room }
    ensures { HasAdded core.now IsOpening agenda.old.items agenda.new.items }
{
    if core.may_open() {
        agenda.add(Step::Open);
    }
}

/// Adds the step that decides a task in a run, once no upstream is awaited. `row` has the cursors of the run.
fn add_decision_if_unawaited(
    agenda: &mut Agenda,
    row: &mut Cursors,
    core: &Core<'_>,
    run: u32,
    task: u32,
)
    requires task { task < length core.now.dag.tasks }
    requires room { length agenda.old.items + 1 ≤ agenda.old.room }
    ensures asks { Asks core.now run (IsOfTask run task) row.old row.new agenda.old.items
        agenda.new.items }
    ensures len { length agenda.new.items ≤ length agenda.old.items + 1 }
    ensures room { agenda.old.room ≤ agenda.new.room }
{
    if row.is_free_to_decide(core, run, task) {
        add_decision(agenda, core, run, task);
    }
}

/// Whether an upstream keeps a task, directly below it, waiting until the upstream is settled: the task's rule waits, or
/// the upstream is a branch.
fn keeps_waiting(core: &Core<'_>, upstream: u32, task: u32) -> bool
    requires { task < length core.now.dag.tasks }
    ensures { result ≡ waits_for_in core.now.dag upstream task }
{
    let dag = core.plan().dag();
    dag.task(task).rule.waits_until_settled() || dag.is_branch(upstream)
}

/// Whether a task needn't wait for the run before: it doesn't depend on its past, this is the first run, or it is
/// settled in the run before.
fn is_past_known(core: &Core<'_>, run: u32, task: u32) -> bool
    requires { task < length core.now.dag.tasks }
    ensures { result ≡ is_past_known_in core.now.dag core.now.state run task }
{
    if !core.plan().dag().task(task).depends_on_past || run == 0 {
        return true;
    }
    core.is_settled(run - 1, task)
}

/// False only where the news, whose task is `settled` or isn't, can't let `task` be decided, which is directly below
/// it. Notes how far it looked in `row`, the cursors of the run of the news.
fn may_let_be_decided(
    row: &mut Cursors,
    core: &Core<'_>,
    news: News,
    settled: bool,
    task: u32,
) -> bool
    requires { task < length core.now.dag.tasks }
    ensures matters { IsNoted core.now news.run row.old
        → settled ≡ is_settled core.now.state news.run news.task → result ≡ false
        → may_let_be_decided_in core.now.dag core.now.state news task ≡ false }
    ensures reached { IsNoted core.now news.run row.old → IsNoted core.now news.run row.new }
{
    if keeps_waiting(core, news.task, task) {
        return settled;
    }
    let dag = core.plan().dag();
    if dag.task(task).expand.is_some() {
        return true;
    }
    let rule = dag.task(task).rule;
    if rule_looks_for(rule, news.counts) && is_past_known(core, news.run, task) {
        return true;
    }
    row.are_upstreams_settled(core, news.run, task)
}

/// Adds the step that decides `task`, directly below the task of the news, which is `settled` or isn't, where the news
/// matter to it and no upstream is awaited. `row` has the cursors of the run of the news.
fn add_decision_by_news(
    agenda: &mut Agenda,
    row: &mut Cursors,
    core: &Core<'_>,
    news: News,
    settled: bool,
    task: u32,
)
    requires task { task < length core.now.dag.tasks }
    requires room { length agenda.old.items + 1 ≤ agenda.old.room }
    ensures asks { settled ≡ is_settled core.now.state news.run news.task
        → Asks core.now news.run (IsStirred core.now.dag core.now.state news task) row.old row.new
        agenda.old.items agenda.new.items }
    ensures len { length agenda.new.items ≤ length agenda.old.items + 1 }
    ensures room { agenda.old.room ≤ agenda.new.room }
{
    if may_let_be_decided(row, core, news, settled, task) {
        add_decision_if_unawaited(agenda, row, core, news.run, task);
    }
}

/// Adds the steps that decide those of these tasks, directly below the task of the news, which is `settled` or isn't, to
/// which the news matter and none of whose upstreams is awaited. `row` has the cursors of the run of the news.
fn add_decisions_by_news(
    agenda: &mut Agenda,
    row: &mut Cursors,
    core: &Core<'_>,
    news: News,
    settled: bool,
    tasks: &[u32],
)
    requires tasks { (i : ℕ) → i < length tasks.now
        → slice_index tasks.now i < length core.now.dag.tasks }
    requires room { length agenda.old.items + length tasks.now ≤ agenda.old.room }
    ensures asks { settled ≡ is_settled core.now.state news.run news.task
        → Asks core.now news.run
        (IsOfFirst core.now.dag core.now.state news tasks.now (length tasks.now)) row.old row.new
        agenda.old.items agenda.new.items }
    ensures len { length agenda.new.items ≤ length agenda.old.items + length tasks.now }
    ensures room { agenda.old.room ≤ agenda.new.room }
{
    for task in tasks {
        add_decision_by_news(agenda, row, core, news, settled, *task);
    }
}

/// Adds the steps that decide those tasks of a run none of whose upstreams is awaited. `row` has the cursors of the run.
fn add_decisions_of_run(agenda: &mut Agenda, row: &mut Cursors, core: &Core<'_>, run: u32)
    requires { length agenda.old.items + length core.now.dag.tasks ≤ agenda.old.room }
    ensures asks { Asks core.now run (IsBelow run (length core.now.dag.tasks)) row.old row.new
        agenda.old.items agenda.new.items }
    ensures len { length agenda.new.items ≤ length agenda.old.items + length core.now.dag.tasks }
    ensures room { agenda.old.room ≤ agenda.new.room }
{
    let _replayed = core.journal();
    for task in 0..core.plan().dag().tasks.len() {
        add_decision_if_unawaited(agenda, row, core, run, task as u32);
    }
}

/// Adds the close of a run, where it may be closed now. `row` has the cursors of the run; the core is asked only once
/// each task is settled.
fn add_close_if_settled(agenda: &mut Agenda, row: &mut Cursors, core: &Core<'_>, run: u32)
    requires { length agenda.old.items + 1 ≤ agenda.old.room }
    ensures asks { Asks core.now run (IsCloseOf run) row.old row.new agenda.old.items
        agenda.new.items }
    ensures len { length agenda.new.items ≤ length agenda.old.items + 1 }
    ensures room { agenda.old.room ≤ agenda.new.room }
{
    if row.is_run_settled(core, run) {
        add_close(agenda, core, run);
    }
}

/// Adds the steps of a run that may come now: the decisions of its tasks, and its close. `row` has its cursors.
pub(crate) fn add_steps_of_run(agenda: &mut Agenda, row: &mut Cursors, core: &Core<'_>, run: u32)
    requires { HasRoom core.now.dag agenda.old.items agenda.old.room }
    ensures { Asks core.now run (IsOfRun run) row.old row.new agenda.old.items agenda.new.items }
{
    add_decisions_of_run(agenda, row, core, run);
    add_close_if_settled(agenda, row, core, run);
}

/// The tasks directly below a task.
fn downstreams<'a>(core: &Core<'a>, task: u32) -> &'a [u32]
    requires { task < length core.now.dag.tasks }
    ensures rising { IsRisingListOf (IsUpstream (shape_of core.now.dag).upstreams task) result.now }
    ensures tasks { (i : ℕ) → i < length result.now
        → slice_index result.now i < length core.now.dag.tasks }
    ensures few { length result.now ≤ length core.now.dag.tasks }
{
    core.plan().graph().downstreams(task)
}

/// Adds what may come now of this: the decisions of the tasks directly below the task of the news, to which the news
/// matter, and the close of its run, where the task of the news is `settled`. `row` has the cursors of the run.
fn add_steps_below(
    agenda: &mut Agenda,
    row: &mut Cursors,
    core: &Core<'_>,
    news: News,
    settled: bool,
)
    requires task { news.task < length core.now.dag.tasks }
    requires room { HasRoom core.now.dag agenda.old.items agenda.old.room }
    ensures asks { settled ≡ is_settled core.now.state news.run news.task
        → Asks core.now news.run (IsUnder core.now.dag core.now.state news) row.old row.new
        agenda.old.items agenda.new.items }
    ensures len { length agenda.new.items ≤ length agenda.old.items +
        (length core.now.dag.tasks + 1) }
    ensures room { agenda.old.room ≤ agenda.new.room }
{
    add_decisions_by_news(
        agenda,
        row,
        core,
        news,
        settled,
        downstreams(core, news.task),
    );
    if settled {
        add_close_if_settled(agenda, row, core, news.run);
    }
}

/// Adds the step that decides a task in a run, where there is such a run and no upstream is awaited. `rows` has
/// the cursors of each run.
fn add_decision_if_there(
    agenda: &mut Agenda,
    rows: &mut Vec<Cursors>,
    core: &Core<'_>,
    run: u32,
    task: u32,
)
    requires task { task < length core.now.dag.tasks }
    requires rows { length core.now.state.runs ≤ length rows.old.items }
    requires room { length agenda.old.items + 1 ≤ agenda.old.room }
    ensures { AsksAll core.now (IsOfTask run task) rows.old.items rows.new.items agenda.old.items
        agenda.new.items }
{
    if (run as usize) < rows.len() {
        let row = &mut rows[run as usize];
        add_decision_if_unawaited(agenda, row, core, run, task);
    }
}

/// Adds the steps of a run that may come now, where there is such a run. `rows` has the cursors of each run.
fn add_steps_of_opened(agenda: &mut Agenda, rows: &mut Vec<Cursors>, core: &Core<'_>, run: u32)
    requires rows { length core.now.state.runs ≤ length rows.old.items }
    requires room { HasRoom core.now.dag agenda.old.items agenda.old.room }
    ensures { AsksAll core.now (IsOfRun run) rows.old.items rows.new.items agenda.old.items
        agenda.new.items }
{
    if (run as usize) < rows.len() {
        let row = &mut rows[run as usize];
        add_steps_of_run(agenda, row, core, run);
    }
}

/// Adds the steps that news of a task may have made possible: those of the tasks directly below, the close of the run
/// and, once the task is settled, that of the task in the next run. `rows` has the cursors of each run.
fn add_steps_around(agenda: &mut Agenda, rows: &mut Vec<Cursors>, core: &Core<'_>, news: News)
    requires there { IsThere core.now.dag core.now.state news.run news.task }
    requires rows { length core.now.state.runs ≤ length rows.old.items }
    requires room { HasRoom core.now.dag agenda.old.items agenda.old.room }
    ensures { AsksAll core.now (IsAround core.now.dag core.now.state news) rows.old.items
        rows.new.items agenda.old.items agenda.new.items }
{
    let _few = core.run_count();
    let row = &mut rows[news.run as usize];
    let settled = row.is_settled(core, news.run, news.task);
    add_steps_below(agenda, row, core, news, settled);
    if settled {
        add_decision_if_there(agenda, rows, core, news.run + 1, news.task);
    }
}

/// The run that was opened last, by its number from 0; 0 while none is opened.
fn newest_run(core: &Core<'_>) -> u32
    ensures { result ≡ newest core.now.state }
{
    core.opened_runs().saturating_sub(1)
}

/// Adds the steps that may come now and that an event, which has come, may have made possible. `rows` has the cursors
/// of each run.
pub(crate) fn add_steps_after(
    agenda: &mut Agenda,
    rows: &mut Vec<Cursors>,
    core: &Core<'_>,
    event: &Event,
)
    requires there { SpeaksOfTask core.now.dag core.now.state event.now }
    requires rows { length core.now.state.runs ≤ length rows.old.items }
    requires room { HasRoom core.now.dag agenda.old.items agenda.old.room }
    ensures { AsksAll core.now (Concerns core.now.dag core.now.state event.now) rows.old.items
        rows.new.items agenda.old.items agenda.new.items }
{
    match event {
        Event::Settle { run, task } | Event::Expand { run, task } => {
            add_steps_around(agenda, rows, core, News::of_decision(core, *run, *task));
        }
        Event::End(name, _) => add_steps_around(agenda, rows, core, News::of_end(core, *name)),
        Event::Open => add_steps_of_opened(agenda, rows, core, newest_run(core)),
        Event::Close { .. } => add_open(agenda, core),
        Event::Begin(_) | Event::Tick { .. } => {}
    }
}
