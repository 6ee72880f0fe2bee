//! Reports.
ghost use Rattle.std.specs.Prelude.{◌≡◌, ℕ, ◌++◌, ◌∷◌, [], Some, None, IfOk, OnErr, OnOk, option_copied};
ghost use Rattle.bf_moment.specs.Moment.{IsShown};
ghost use Rattle.bf_report.specs.Told.{told_by};

use bf_interval::Interval;
use bf_value::{OutOfMemory, Sequence, Text, Xval, copy_option};
use bf_xcom::{Outcome, RunState, SharedValue, TaskResult};
use std::alloc::Global;
use std::marker::Model;

/// The version of a report. In version 1 instances have neither items nor pulls.
#[derive(Clone, Copy, Debug, PartialEq, Eq)]
pub enum Version {
    One,
    Two,
}

/// What an instance pulled from the task with this id: a value, or nothing.
#[derive(Debug, Drop)]
pub struct Pull {
    pub task: Text,
    pub value: SharedValue,
}

/// How an instance ended, with what it pushed and was given.
#[derive(Debug, Drop)]
struct Told {
    outcome: Outcome,
    item: Option<Xval>,
    pulls: Sequence<Pull>,
}

/// How an instance is stored: in full only where it pushed or pulled something, or was given an item and didn't succeed.
#[derive(Debug, Drop)]
enum Kept {
    Success,
    Failed,
    Skipped,
    /// A success that was given this item.
    SuccessWith(Box<Xval>),
    Told(Box<Told>),
}

impl Kept {
    /// Stores an instance in full, all but the number of its tries.
    #[inline(always)]
    fn in_full(
        alloc: Global,
        outcome: Outcome,
        item: Option<Xval>,
        pulls: Sequence<Pull>,
    ) -> Result<Kept, OutOfMemory>
        ensures { IfOk result (λ kept. (tries : ℕ) → told_by tries kept
            ≡ record {
              result = record { outcome = outcome; tries = tries };
              item = item;
              pulls = pulls;
            }) }
    {
        let told = Told {
            outcome,
            item,
            pulls,
        };
        Ok(Kept::Told(Box::new(alloc, told)?))
    }
}

/// An instance with at least one try: how the last one ended, the item that it was given, if its task is expanded, and
/// what it pulled, in the order of its task's pulls.
///
/// Most instances push nothing and are given nothing, so that they take no more than a word, or have an item alone; the
/// others stand in a box.
#[derive(Debug, Drop)]
pub struct InstanceReport {
    tries: u32,
    kept: Kept,
}

impl Model for InstanceReport {
    ghost use Rattle.std.specs.Coded.{codes};
    ghost use Rattle.bf_value.specs.contracts.xval.Xval;
    ghost use Rattle.bf_xcom.specs.contracts.values.TaskResult;
    ghost use Rattle.bf_report.specs.contracts.report.Pull;
    ghost use Rattle.bf_report.specs.Instances.{ReportedInstance};

    ghost Value = { ReportedInstance };

    ghost coded = { Prim.hlevel (
      codes,
      Xval.the_row.coded,
      TaskResult.the_row.coded,
      Pull.the_row.coded,
    ) };

    ghost use Rattle.bf_report.specs.Told.{instance_told};

    ghost view = { instance_told };
}

impl InstanceReport {
    ghost use Rattle.bf_report.specs.Report.{state_word, value_word, pulled_word};
    ghost use Rattle.bf_xcom.specs.Pulls.{pushed_by};

    /// Makes an instance that ended so, without an item and without pulls.
    #[inline(always)]
    pub fn new_bare(alloc: Global, ended: TaskResult) -> Result<InstanceReport, OutOfMemory>
        ensures { IfOk result (λ instance. instance
            ≡ record { result = ended; item = None; pulls = [] }) }
    {
        let TaskResult { outcome, tries } = ended;
        let kept = match outcome {
            Outcome::Success(pushed) => {
                if pushed.get().is_none() {
                    Kept::Success
                } else {
                    let outcome = Outcome::Success(pushed);
                    Kept::in_full(alloc, outcome, None, Sequence::new(alloc))?
                }
            }
            Outcome::Failed => Kept::Failed,
            Outcome::Skipped => Kept::Skipped,
        };
        Ok(InstanceReport { tries, kept })
    }

    /// Makes an instance that ended so, with its item and without pulls.
    fn new_with_item(
        alloc: Global,
        ended: TaskResult,
        item: Xval,
    ) -> Result<InstanceReport, OutOfMemory>
        ensures { IfOk result (λ instance. instance
            ≡ record { result = ended; item = Some item; pulls = [] }) }
    {
        let mut instance = InstanceReport::new_bare(alloc, ended)?;
        instance.set_item(alloc, item)?;
        Ok(instance)
    }

    /// Makes an instance that ended so, with its item, None for a task that isn't expanded, and its pulls.
    pub fn new(
        alloc: Global,
        ended: TaskResult,
        item: Option<Xval>,
        pulls: Sequence<Pull>,
    ) -> Result<InstanceReport, OutOfMemory>
        ensures { IfOk result (λ instance. instance
            ≡ record { result = ended; item = item; pulls = pulls }) }
    {
        if pulls.is_empty() {
            return match item {
                Some(item) => InstanceReport::new_with_item(alloc, ended, item),
                None => InstanceReport::new_bare(alloc, ended),
            };
        }
        let TaskResult { outcome, tries } = ended;
        let kept = Kept::in_full(alloc, outcome, item, pulls)?;
        Ok(InstanceReport { tries, kept })
    }

    /// Gives how the instance's last try ended, and that try's number. The value that it pushed is shared.
    pub fn result(&self) -> Result<TaskResult, OutOfMemory>
        ensures { IfOk result (λ ended. ended ≡ self.now.result) }
    {
        let outcome = match &self.kept {
            Kept::Success | Kept::SuccessWith(_) => Outcome::Success(SharedValue::nothing()),
            Kept::Failed => Outcome::Failed,
            Kept::Skipped => Outcome::Skipped,
            Kept::Told(told) => told.outcome.share()?,
        };
        let tries = self.tries;
        Ok(TaskResult { outcome, tries })
    }

    /// Gives the word for how the instance's last try ended.
    pub(crate) fn state(&self) -> &'static str
        ensures { result.now ≡ state_word self.now.result.outcome }
    {
        match &self.kept {
            Kept::Success | Kept::SuccessWith(_) => "success",
            Kept::Failed => "failed",
            Kept::Skipped => "skipped",
            Kept::Told(told) => match told.outcome {
                Outcome::Success(_) => "success",
                Outcome::Failed => "failed",
                Outcome::Skipped => "skipped",
            },
        }
    }

    /// Gives the number of the instance's last try, from 1.
    pub(crate) fn tries(&self) -> u32
        ensures { result ≡ self.now.result.tries }
    {
        self.tries
    }

    /// Gives the value that the instance pushed; None where it pushed nothing or didn't succeed.
    pub(crate) fn pushed(&self) -> Option<&Xval>
        ensures word { pulled_word (option_copied result) ≡ value_word self.now.result.outcome }
        ensures value { option_copied result ≡ pushed_by self.now.result.outcome }
    {
        match &self.kept {
            Kept::Told(told) => match &told.outcome {
                Outcome::Success(pushed) => pushed.get(),
                Outcome::Failed | Outcome::Skipped => None,
            },
            Kept::Success | Kept::Failed | Kept::Skipped | Kept::SuccessWith(_) => None,
        }
    }

    /// Gives the item that the instance was given; None where it was given none.
    pub fn item(&self) -> Option<&Xval>
        ensures { option_copied result ≡ self.now.item }
    {
        match &self.kept {
            Kept::SuccessWith(item) => Some(&**item),
            Kept::Told(told) => told.item.as_ref(),
            Kept::Success | Kept::Failed | Kept::Skipped => None,
        }
    }

    /// Gives what the instance pulled, in the order of its task's pulls.
    pub fn pulls(&self) -> &[Pull]
        ensures { result.now ≡ self.now.pulls }
    {
        match &self.kept {
            Kept::Told(told) => told.pulls.as_slice(),
            Kept::Success | Kept::Failed | Kept::Skipped | Kept::SuccessWith(_) => &[],
        }
    }

    /// Sets the instance's item, in place of any before; `Err` changes nothing.
    pub fn set_item(&mut self, alloc: Global, item: Xval) -> Result<(), OutOfMemory>
        ensures ok { OnOk result (self.new ≡ record self.old { item = Some item }) }
        ensures err { OnErr result (self.new ≡ self.old) }
    {
        match &mut self.kept {
            Kept::Told(told) => told.item = Some(item),
            Kept::Success | Kept::SuccessWith(_) => {
                self.kept = Kept::SuccessWith(Box::new(alloc, item)?);
            }
            Kept::Failed | Kept::Skipped => {
                let TaskResult { outcome, .. } = self.result()?;
                self.kept = Kept::in_full(alloc, outcome, Some(item), Sequence::new(alloc))?;
            }
        }
        Ok(())
    }

    /// Adds a pull behind the instance's other pulls; `Err` changes nothing.
    pub fn add_pull(&mut self, alloc: Global, pull: Pull) -> Result<(), OutOfMemory>
        ensures ok { OnOk result (self.new
            ≡ record self.old { pulls = self.old.pulls ++ pull ∷ [] }) }
        ensures err { OnErr result (self.new ≡ self.old) }
    {
        if let Kept::Told(told) = &mut self.kept {
            return told.pulls.push(pull);
        }
        let mut pulls = Sequence::new(alloc);
        pulls.push(pull)?;
        let TaskResult { outcome, .. } = self.result()?;
        let item = copy_option(alloc, self.item())?;
        self.kept = Kept::in_full(alloc, outcome, item, pulls)?;
        Ok(())
    }
}

/// What came of a task in one run. `NoStatus` stands for a blocked or undecided task; `NoStatus`, `Skipped` and
/// `UpstreamFailed` had no try. `Ran` has the only instance of a task that isn't expanded, `Mapped` those of an
/// expanded one by map index.
#[derive(Debug, Drop)]
pub enum TaskReport {
    NoStatus,
    Skipped,
    UpstreamFailed,
    Ran(InstanceReport),
    Mapped(Sequence<InstanceReport>),
}

/// A run in a report: its data interval, whose moments have years of four digits, its state, and the reports of its
/// tasks in file order.
#[derive(Debug, Drop)]
pub struct RunReport {
    pub interval: Interval,
    pub state: RunState,
    pub tasks: Sequence<TaskReport>,
    pub ghost shown_start: { IsShown interval.start.nanosecond },
    pub ghost shown_end: { IsShown interval.end.nanosecond },
}

/// A report: its version, the dag id, the ids of the tasks in file order, and the runs by date. The text of a report
/// without runs tells no ids, and `report_of` then gives it none.
#[derive(Debug, Drop)]
pub struct Report {
    pub version: Version,
    pub dag_id: Text,
    pub tasks: Sequence<Text>,
    pub runs: Sequence<RunReport>,
}
