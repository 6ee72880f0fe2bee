//! The state of a backfill: what each part of it is, and how that is read and changed.
ghost use Rattle.std.specs.Prelude.{◌≡◌, ◌<◌, ◌↔◌, ◌&&◌, length, IsSome, IfSome, IfNone, is_some, IfOk};
ghost use Rattle.std.specs.List.{list_all};
ghost use Rattle.bf_core.specs.Events.{put, with_phase, row_of, cell_at, phase_of, is_open, value_in, instance_of, change_instance, is_made_again, undecided_cells_of, empty_runs_of};
ghost use Rattle.bf_core.specs.inner.Events.{is_closed};
ghost use Rattle.bf_core.specs.inner.Words.{is_finished};
ghost use Rattle.bf_core.specs.inner.Tries.{changed, IsCountable};

use bf_try::{EndedTries, Outcome};
use bf_value::{OutOfMemory, Sequence};
use bf_xcom::SharedGiven;
use std::alloc::Global;

/// How far an instance has come.
#[derive(Debug, Drop)]
pub enum Phase {
    /// Its present try has not begun.
    Waiting,
    Running,
    /// Its last try has ended.
    Finished(Outcome),
}

impl Phase {
    /// Whether the instance is finished: no try of it runs or comes any more.
    fn is_finished(&self) -> bool
        ensures { result ≡ is_finished self.now }
    {
        matches!(self, Phase::Finished(_))
    }
}

/// An instance of a task in a run: what its tries are given, and how far it has come.
#[derive(Debug, Drop)]
pub struct Instance {
    pub given: SharedGiven,
    /// The number of its present try, from 1.
    pub attempt: u32,
    pub phase: Phase,
}

/// What becomes of the present try of an instance.
#[derive(Drop)]
pub(crate) enum Change {
    Begin,
    /// It ends with `outcome`, where its task has so many `retries`. A failed try that has a retry left is followed by
    /// another.
    End { retries: u32, outcome: Outcome },
}

/// Whether a try is followed by another: it failed, and its number `attempt`, from 1, is at most the task's
/// `retries`.
pub(crate) fn is_retried(retries: u32, attempt: u32, outcome: &Outcome) -> bool
    ensures { result ≡ is_made_again retries attempt outcome.now }
{
    matches!(outcome, Outcome::Failed) && attempt <= retries
}

impl Instance {
    /// Begins or ends the present try. At its end the instance waits for its next try where that is made, else it is
    /// finished.
    fn change(&mut self, change: Change)
        requires { IsCountable change }
        ensures { self.new ≡ changed change self.old }
    {
        match change {
            Change::Begin => self.phase = Phase::Running,
            Change::End { retries, outcome } => {
                if is_retried(retries, self.attempt, &outcome) {
                    self.attempt += 1;
                    self.phase = Phase::Waiting;
                } else {
                    self.phase = Phase::Finished(outcome);
                }
            }
        }
    }
}

/// Whether all instances are finished.
pub(crate) fn are_finished(instances: &[Instance]) -> bool
    ensures { result ≡ list_all (λ x. is_finished x.phase) instances.now }
{
    instances
        .iter()
        .all(|instance| instance.phase.is_finished())
}

/// What was decided of a task in a run.
#[derive(Debug, Drop)]
pub enum Cell {
    Undecided,
    Blocked,
    Skipped,
    UpstreamFailed,
    /// Its instances by map index: one for an unmapped task.
    Ran(Sequence<Instance>),
}

impl Cell {
    /// Whether the task is settled: decided, and each of its instances finished.
    #[tactic(auto, using(crate::proofs::Sums::finished_settled))]
    pub fn is_settled(&self) -> bool
        ensures { result ≡ is_some (value_in self.now) }
    {
        match self {
            Cell::Undecided => false,
            Cell::Blocked | Cell::Skipped | Cell::UpstreamFailed => true,
            Cell::Ran(instances) => are_finished(instances.as_slice()),
        }
    }

    /// Begins or ends the present try of the instance at `place`, from 0.
    fn change_instance_at(&mut self, place: usize, change: Change)
        requires countable { IsCountable change }
        requires there { IsSome (instance_of self.old place) }
        ensures { self.new ≡ change_instance (changed change) self.old place }
    {
        if let Cell::Ran(instances) = self {
            let instance = &mut instances.items[place];
            instance.change(change);
        }
    }
}

/// Where a run is: not opened, open, or closed.
#[derive(Clone, Copy, Debug, PartialEq, Eq)]
pub enum RunPhase {
    Unopened,
    Open,
    Closed,
}

impl RunPhase {
    /// Whether the run is closed.
    pub(crate) fn is_closed(self) -> bool
        ensures { result ≡ is_closed self }
    {
        matches!(self, RunPhase::Closed)
    }

    /// Whether the run is open: opened, and not closed yet.
    pub(crate) fn is_open(self) -> bool
        ensures { result ≡ is_open self }
    {
        matches!(self, RunPhase::Open)
    }
}

/// A run, with a cell for each task in file order.
#[derive(Debug, Drop)]
pub struct Run {
    pub phase: RunPhase,
    pub cells: Sequence<Cell>,
}

/// Whether all tasks of a run are settled: decided, and their instances finished.
fn are_settled(cells: &[Cell]) -> bool
    ensures { result ≡ list_all (λ c. is_some (value_in c)) cells.now }
{
    cells.iter().all(|cell| cell.is_settled())
}

/// Whether a run is open and all its tasks are settled.
pub(crate) fn is_closable(row: &Run) -> bool
    ensures { result ≡ (is_open row.now.phase
        && list_all (λ c. is_some (value_in c)) row.now.cells) }
{
    row.phase.is_open() && are_settled(row.cells.as_slice())
}

/// The cells of a new run: an undecided one for each of `tasks` tasks.
#[tactic(auto, using(crate::proofs::Starting::one_more_cell))]
fn undecided_cells(alloc: Global, tasks: usize) -> Result<Sequence<Cell>, OutOfMemory>
    ensures { IfOk result (λ cells. cells ≡ undecided_cells_of tasks) }
{
    let mut cells = Vec::with_capacity(alloc, tasks)?;
    for _task in 0..tasks {
        cells.push(Cell::Undecided)?;
    }
    Ok(Sequence::from_vec(cells))
}

/// As many unopened runs as `runs` says, each with an undecided cell for each of `tasks` tasks.
#[tactic(auto, using(crate::proofs::Starting::one_more_run))]
pub(crate) fn unopened_runs(
    alloc: Global,
    tasks: usize,
    runs: usize,
) -> Result<Sequence<Run>, OutOfMemory>
    ensures { IfOk result (λ made. made ≡ empty_runs_of tasks runs) }
{
    let mut made = Vec::with_capacity(alloc, runs)?;
    for _run in 0..runs {
        made.push(Run {
            phase: RunPhase::Unopened,
            cells: undecided_cells(alloc, tasks)?,
        })?;
    }
    Ok(Sequence::from_vec(made))
}

/// The runs in order of date, and the tries that have ended.
#[derive(Drop)]
pub struct State {
    pub runs: Sequence<Run>,
    pub ledger: EndedTries,
}

impl State {
    /// The cell of a task in a run; None where the run or the task isn't there.
    pub fn cell(&self, run: u32, task: u32) -> Option<&Cell>
        ensures there { IsSome result ↔
            ((run < length self.now.runs) × (task < length (row_of self.now.runs run).cells)) }
        ensures cell { IfSome result (λ c. c.now ≡ cell_at self.now run task) }
        ensures none { IfNone result (cell_at self.now run task ≡ Cell.Undecided) }
    {
        match self.runs.get(run as usize) {
            Some(row) => row.cells.get(task as usize),
            None => None,
        }
    }

    /// Whether a run is open; false where there is no such run.
    pub(crate) fn is_open(&self, run: u32) -> bool
        ensures { result ≡ is_open (phase_of self.now run) }
    {
        match self.runs.get(run as usize) {
            Some(row) => row.phase.is_open(),
            None => false,
        }
    }

    /// Puts a cell into the place of a task in a run, and hands the former one back.
    pub(crate) fn replace_cell(&mut self, run: u32, task: u32, cell: Cell) -> Cell
        requires run { run < length self.old.runs }
        requires task { task < length (row_of self.old.runs run).cells }
        ensures was { result ≡ cell_at self.old run task }
        ensures now { self.new ≡ put self.old run task cell }
    {
        let row = &mut self.runs.items[run as usize];
        row.cells.replace(task as usize, cell)
    }

    /// Puts a run into a phase.
    pub(crate) fn set_phase(&mut self, run: u32, phase: RunPhase)
        requires { run < length self.old.runs }
        ensures { self.new ≡ with_phase self.old run phase }
    {
        let row = &mut self.runs.items[run as usize];
        row.phase = phase;
    }

    /// Begins or ends the present try of the instance at `place`, from 0, of a task in a run.
    pub(crate) fn change_instance_at(&mut self, run: u32, task: u32, place: usize, change: Change)
        requires run { run < length self.old.runs }
        requires task { task < length (row_of self.old.runs run).cells }
        requires there { IsSome (instance_of (cell_at self.old run task) place) }
        requires countable { IsCountable change }
        ensures { self.new ≡ put self.old run task
            (change_instance (changed change) (cell_at self.old run task) place) }
    {
        let mut cell = self.replace_cell(run, task, Cell::Undecided);
        cell.change_instance_at(place, change);
        let _ = self.replace_cell(run, task, cell);
    }
}
