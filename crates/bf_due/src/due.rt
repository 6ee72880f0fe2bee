//! The steps that are due.
ghost use Rattle.std.specs.Prelude.{◌≡◌, ◌<◌, ◌≤◌, ◌+◌, ◌↔◌, [], length, IsTrue, OnOk, IfOk, true};
ghost use Rattle.bf_graph.specs.Ranks.{Ranking};
ghost use Rattle.bf_plan.specs.Plans.{shape_of};
ghost use Rattle.bf_core.specs.Events.{next_run};
ghost use Rattle.bf_core.specs.Cores.{Backfill, IsReplay, IsThere, MayCome, moved};
ghost use Rattle.bf_due.specs.Steps.{IsNextStep};
ghost use Rattle.bf_due.specs.Cursors.{AreNoted};
ghost use Rattle.bf_due.specs.Dues.{HasAdded, HasRoomForSteps, IsUpToDate};
ghost use Rattle.bf_due.specs.inner.Dues.{IsOfRunBelow, SpeaksOfTask};

use crate::agenda::Agenda;
use crate::asking::{add_open, add_steps_after, add_steps_of_run};
use crate::cursors::Cursors;
use crate::pruning::drop_outdated_steps;
use bf_core::{Core, Event};
use bf_value::OutOfMemory;
use std::alloc::Global;
use std::marker::Model;

/// The steps of a backfill that may come by themselves, kept over its events. It doesn't hold the core, and is told of
/// each event: `make_room` before the core takes it, and `on_event` afterwards.
#[derive(Drop)]
pub struct Due {
    alloc: Global,
    agenda: Agenda,
    /// How far each run has come. Nothing is noted of a run that isn't open.
    progress: Vec<Cursors>,
}

impl Model for Due {
    ghost use Rattle.bf_due.specs.Dues.{Kept};
    ghost use Rattle.bf_due.specs.contracts.agenda.Step;
    ghost use Rattle.bf_due.specs.contracts.cursors.Cursors;
    ghost use Rattle.std.specs.Coded.{codes};

    ghost Value = { Kept };

    ghost coded = { Prim.hlevel (codes, Step.the_row.coded, Cursors.the_row.coded) };

    ghost view = { λ d. record {
      steps = d.agenda.items;
      room = d.agenda.room;
      progress = d.progress.items;
    } };
}

/// Whether the core has such a run and the plan such a task.
fn is_there(core: &Core<'_>, run: u32, task: u32) -> bool
    ensures { IsTrue result ↔ IsThere core.now.dag core.now.state run task }
{
    run < core.run_count() && (task as usize) < core.plan().dag().tasks.len()
}

/// Whether the run and the task are there which an event decides, or of which it ends a try; true for other events.
fn names_no_stranger(core: &Core<'_>, event: &Event) -> bool
    ensures { IsTrue result ↔ SpeaksOfTask core.now.dag core.now.state event.now }
{
    match event {
        Event::Settle { run, task } | Event::Expand { run, task } => is_there(core, *run, *task),
        Event::End(name, _) => is_there(core, name.run, name.task),
        Event::Open | Event::Begin(_) | Event::Close { .. } | Event::Tick { .. } => true,
    }
}

/// A law: every task of a core's plan has a rank, at most the number of tasks, and ranks rise along edges. It is
/// `Graph::tasks_have_ranks`, said of the plan's graph.
fn tasks_have_ranks(core: &Core<'_>)
    ensures { Ranking (shape_of core.now.dag).upstreams }
{
    core.plan().graph().tasks_have_ranks();
}

/// The agenda of all steps that may come now in the runs that were opened.
fn steps_of_runs(alloc: Global, core: &Core<'_>) -> Result<Agenda, OutOfMemory>
    ensures { IfOk result (λ agenda. HasAdded core.now (IsOfRunBelow (next_run core.now.state)) []
        agenda.items) }
{
    let mut agenda = Agenda::new(alloc);
    let most = core.plan().dag().tasks.len() + 2;
    for run in 0..core.opened_runs() {
        agenda.make_room(most)?;
        let mut row = Cursors::unknown(alloc);
        add_steps_of_run(&mut agenda, &mut row, core, run);
    }
    Ok(agenda)
}

/// How many runs there are.
fn run_count(core: &Core<'_>) -> u32
    ensures runs { result ≡ core.now.runs }
    ensures rows { length core.now.state.runs ≡ core.now.runs }
    ensures replayed { IsReplay core.now }
{
    let _replayed = core.journal();
    core.run_count()
}

/// Adds rows in which nothing is known, until there is one for each of `runs` runs. What is noted stays true, at `Err`
/// too.
fn make_rows(alloc: Global, rows: &mut Vec<Cursors>, runs: u32) -> Result<(), OutOfMemory>
    ensures reached { (b : Backfill) → AreNoted b rows.old.items → AreNoted b rows.new.items }
    ensures rows { OnOk result (runs ≤ length rows.new.items) }
{
    for _run in rows.len()..runs as usize {
        rows.push(Cursors::unknown(alloc))?;
    }
    Ok(())
}

/// The run that an event opens, or of which it decides a task or ends a try; None for other events. No clause says
/// which run it is.
fn run_touched_by(core: &Core<'_>, event: &Event) -> Option<u32> {
    match event {
        Event::Open => Some(core.opened_runs()),
        Event::Settle { run, .. } | Event::Expand { run, .. } => Some(*run),
        Event::End(name, _) => Some(name.run),
        Event::Begin(_) | Event::Close { .. } | Event::Tick { .. } => None,
    }
}

/// Gives the row of a run room to note something of each of `tasks` tasks, where it has none yet; does nothing where
/// the run has no row. What is noted stays true, at `Err` too.
fn prepare_row(
    alloc: Global,
    rows: &mut Vec<Cursors>,
    run: u32,
    tasks: usize,
) -> Result<(), OutOfMemory>
    ensures reached { (b : Backfill) → AreNoted b rows.old.items → AreNoted b rows.new.items }
    ensures len { length rows.new.items ≡ length rows.old.items }
{
    if (run as usize) < rows.len() && rows[run as usize].passed.is_empty() {
        let row = Cursors::new(alloc, tasks)?;
        rows[run as usize] = row;
    }
    Ok(())
}

/// Makes a row for each run, and room to note something in that of the run that an event touches. What is noted stays
/// true, at `Err` too.
fn make_rows_for(
    alloc: Global,
    rows: &mut Vec<Cursors>,
    core: &Core<'_>,
    event: &Event,
) -> Result<(), OutOfMemory>
    ensures reached { (b : Backfill) → AreNoted b rows.old.items → AreNoted b rows.new.items }
    ensures rows { OnOk result (core.now.runs ≤ length rows.new.items) }
{
    make_rows(alloc, rows, run_count(core))?;
    match run_touched_by(core, event) {
        Some(run) => prepare_row(alloc, rows, run, core.plan().dag().tasks.len()),
        None => Ok(()),
    }
}

/// Forgets what was noted of a run that an event has closed; does nothing for other events.
fn forget_closed(alloc: Global, rows: &mut Vec<Cursors>, event: &Event)
    ensures { (b : Backfill) → AreNoted b rows.old.items → AreNoted b rows.new.items }
{
    if let Event::Close { run } = event {
        if (*run as usize) < rows.len() {
            rows[*run as usize] = Cursors::unknown(alloc);
        }
    }
}

impl Due {
    /// The steps of a backfill that may come by themselves now.
    pub fn new(alloc: Global, core: &Core<'_>) -> Result<Due, OutOfMemory>
        ensures { IfOk result (λ due. IsUpToDate core.now due) }
    {
        let _replayed = core.journal();
        tasks_have_ranks(core);
        let mut agenda = steps_of_runs(alloc, core)?;
        agenda.make_room(1)?;
        add_open(&mut agenda, core);
        let progress = Vec::new(alloc);
        drop_outdated_steps(&mut agenda, progress.as_slice(), core);
        Ok(Due {
            alloc,
            agenda,
            progress,
        })
    }

    /// Makes room for the steps that `event` may make possible; called before the event comes. What is kept stays up to
    /// date, at `Err` too.
    pub fn make_room(&mut self, core: &Core<'_>, event: &Event) -> Result<(), OutOfMemory>
        ensures kept { (b : Backfill) → IsUpToDate b self.old → IsUpToDate b self.new }
        ensures room { OnOk result (HasRoomForSteps core.now self.new) }
    {
        make_rows_for(self.alloc, &mut self.progress, core, event)?;
        self.agenda.make_room(core.plan().dag().tasks.len() + 2)
    }

    /// Keeps the steps up to date after an event that has come to the core, for which `make_room` made room. It takes
    /// no memory.
    pub fn on_event(&mut self, core: &Core<'_>, event: &Event)
        requires { HasRoomForSteps core.now self.old }
        ensures { (b : Backfill) → MayCome b event.now → core.now ≡ moved b event.now
            → IsUpToDate b self.old → IsUpToDate core.now self.new }
    {
        let _runs = run_count(core);
        if names_no_stranger(core, event) {
            add_steps_after(&mut self.agenda, &mut self.progress, core, event);
            forget_closed(self.alloc, &mut self.progress, event);
            drop_outdated_steps(&mut self.agenda, self.progress.as_slice(), core);
        }
    }

    /// The first step that may come by itself: by kind, then by run, by rank and in file order, as a look at the whole
    /// backfill finds it. None where none may come.
    pub fn next_step(&self) -> Option<Event>
        ensures { (b : Backfill) → IsUpToDate b self.now → IsNextStep b result }
    {
        let step = self.agenda.first()?;
        Some(step.event())
    }
}
