//! How far a backfill is.
ghost use Rattle.std.specs.Prelude.{◌≡◌, IfOk, string_bytes};
ghost use Rattle.bf_progress.specs.inner.Lines.{counts_line, kept_line};

use bf_core::{Cell, Core, Event, Phase};
use bf_try::Outcome;
use bf_value::{JobName, OutOfMemory};
use std::alloc::Global;
use std::fmt;

/// How far a backfill is. Contracts don't say what is counted.
#[derive(Clone, Copy, Debug, Drop)]
pub(crate) struct Counts {
    /// All runs, and how many of them were opened and closed.
    pub(crate) runs: u64,
    pub(crate) opened: u64,
    pub(crate) closed: u64,
    /// All tasks of all runs together, and how many of them are settled.
    pub(crate) tasks: u64,
    pub(crate) settled: u64,
    /// How many tries run, and how many wait.
    pub(crate) running: u32,
    pub(crate) waiting: u64,
    /// How many instances failed, with no try left.
    pub(crate) failed: u64,
}

/// As `runs 12/90 (4 open)  tasks 431/1800  running 8  waiting 3  failed 2`.
impl fmt::Display for Counts {
    ghost use Rattle.std.specs.Prelude.{Some};
    ghost use Rattle.bf_progress.specs.Lines.{counts_text};

    ghost output = { λ counts. Some (counts_text counts) };

    /// Writes the counts, in the form `runs 12/90 (4 open)  tasks 431/1800  running 8  waiting 3  failed 2`.
    fn fmt<W: fmt::Write>(&self, f: &mut fmt::Formatter<W>) -> fmt::Result {
        let open = self.opened.saturating_sub(self.closed);
        write!(f, "runs {}/{} ({open} open)", self.closed, self.runs)?;
        write!(f, "  tasks {}/{}", self.settled, self.tasks)?;
        write!(f, "  running {}", self.running)?;
        write!(f, "  waiting {}  failed {}", self.waiting, self.failed)
    }
}

impl Counts {
    /// Makes the counts before the first event, for so many runs with so many tasks each. No contract covers this.
    pub(crate) fn new(runs: usize, tasks: usize) -> Counts {
        let (runs, tasks) = (runs as u64, tasks as u64);
        Counts {
            runs,
            opened: 0,
            closed: 0,
            tasks: runs.saturating_mul(tasks),
            settled: 0,
            running: 0,
            waiting: 0,
            failed: 0,
        }
    }

    /// Counts the decision of a task in a run: the tries that now wait, and the task where it is settled. `core` has
    /// taken the decision in already. No contract covers this.
    fn note_decision(&mut self, core: &Core<'_>, run: u32, task: u32) {
        if let Some(Cell::Ran(instances)) = core.cell(run, task) {
            self.waiting = self.waiting.saturating_add(instances.len() as u64);
        }
        self.note_settled(core, run, task);
    }

    /// Counts the end of a try: a further try that waits, or an instance that failed for good, and the task where it is
    /// settled. `core` has taken the end in already. No contract covers this.
    fn note_end(&mut self, core: &Core<'_>, name: JobName) {
        match core.instance(name) {
            Some(instance) => match instance.phase {
                Phase::Waiting => self.waiting = self.waiting.saturating_add(1),
                Phase::Finished(Outcome::Failed) => self.failed = self.failed.saturating_add(1),
                _ => {}
            },
            None => {}
        }
        self.note_settled(core, name.run, name.task);
    }

    /// Counts the task where it is settled in the run. No contract covers this.
    fn note_settled(&mut self, core: &Core<'_>, run: u32, task: u32) {
        if core.is_settled(run, task) {
            self.settled = self.settled.saturating_add(1);
        }
    }

    /// Counts what an event changes; `core` has taken the event in already. No contract covers this.
    pub(crate) fn note_event(&mut self, event: &Event, core: &Core<'_>) {
        match event {
            Event::Open => self.opened = self.opened.saturating_add(1),
            Event::Close { .. } => self.closed = self.closed.saturating_add(1),
            Event::Settle { run, task } | Event::Expand { run, task } => {
                self.note_decision(core, *run, *task);
            }
            Event::Begin(_) => self.waiting = self.waiting.saturating_sub(1),
            Event::End(name, _) => self.note_end(core, *name),
            Event::Tick { .. } => {}
        }
    }
}

/// Makes the line of the counts, with its line feed.
pub(crate) fn line_of_counts(alloc: Global, counts: &Counts) -> Result<String, OutOfMemory>
    ensures { IfOk result (λ line. string_bytes line ≡ counts_line counts.now) }
{
    Ok(format!(in alloc; "{counts}\n")?)
}

/// Makes the line of the counts for a terminal, which overwrites it each time: without a line feed, and in escape
/// sequences that turn line wrapping off and on again.
pub(crate) fn terminal_line_of_counts(alloc: Global, counts: &Counts) -> Result<String, OutOfMemory>
    ensures { IfOk result (λ line. string_bytes line ≡ kept_line counts.now) }
{
    Ok(format!(in alloc; "\u{1b}[?7l{counts}\u{1b}[?7h")?)
}
