//! The letter of a task in a run, which tells its state and why it has that.
ghost use Rattle.std.specs.Prelude.{◌≡◌, ◌<◌, ◌==◌, Bool, List, length, map};
ghost use Rattle.std.specs.List.{list_any};
ghost use Rattle.bf_reason.specs.inner.Causes.{runs_with_count_in};
ghost use Rattle.bf_reason.specs.Letters.{ended_letter_of, expanded_digit_of, letter_by_flags_of, first_letter_of, letter_for, letter_of, uppercase_letter_of};
ghost use Rattle.bf_reason.specs.Runs.{tasks_in, tasks_before};
ghost use Rattle.bf_report.specs.declared.report.InstanceReport.{InstanceReport};
ghost use Rattle.bf_report.specs.declared.report.TaskReport.{TaskReport};
ghost use Rattle.bf_report.specs.declared.report.Report.{Report};

use crate::cause::{StateCause, cause_at};
use crate::settled::Settled;
use bf_core::is_expanded;
use bf_plan::Plan;
use bf_report::TaskReport;
use bf_xcom::{Outcome, TaskResult};

/// The letter for how an instance ended: `s` for a success in its first try, `r` for one in a later try, `f` for
/// failed, `x` for skipped.
pub fn ended_letter(ended: &TaskResult) -> u8
    ensures letter { result ≡ ended_letter_of ended.now.outcome ended.now.tries }
    ensures ascii { result < 128 }
{
    match ended.outcome {
        Outcome::Success(_) if ended.tries == 1 => b's',
        Outcome::Success(_) => b'r',
        Outcome::Failed => b'f',
        Outcome::Skipped => b'x',
    }
}

/// Whether one of these instances has this letter, by how it ended.
fn has_letter(results: &[TaskResult], letter: u8) -> bool
    ensures { result ≡ list_any (λ ended. ended_letter_of ended.outcome ended.tries == letter)
        results.now }
{
    results.iter().any(|ended| ended_letter(ended) == letter)
}

/// The first of `f`, `r` and `s` whose flag is set; `x` where none is.
fn letter_by_flags(some_f: bool, some_r: bool, some_s: bool) -> u8
    ensures letter { result ≡ letter_by_flags_of some_f some_r some_s }
    ensures ascii { result < 128 }
{
    match (some_f, some_r, some_s) {
        (true, _, _) => b'f',
        (false, true, _) => b'r',
        (false, false, true) => b's',
        (false, false, false) => b'x',
    }
}

/// The first of `f`, `r` and `s` that one of these instances has; `x` where none has one of them.
fn first_letter(results: &[TaskResult]) -> u8
    ensures letter { (instances : List InstanceReport) → results.now
        ≡ map (λ instance. instance.result) instances →
        result ≡ first_letter_of instances }
    ensures ascii { result < 128 }
{
    letter_by_flags(
        has_letter(results, b'f'),
        has_letter(results, b'r'),
        has_letter(results, b's'),
    )
}

/// The letter of an expanded task that follows from the graph: `first`, as `first_letter` gives it, in upper case.
fn uppercase_letter(first: u8) -> u8
    ensures letter { result ≡ uppercase_letter_of first }
    ensures ascii { result < 128 }
{
    match first {
        b'f' => b'F',
        b'r' => b'R',
        b's' => b'S',
        _ => b'X',
    }
}

/// The digit of an expanded task that doesn't follow from the graph, by `first`, as `first_letter` gives it: 8 for `f`,
/// 9 for `x`, else 7.
fn expanded_digit(first: u8) -> u8
    ensures letter { result ≡ expanded_digit_of first }
    ensures ascii { result < 128 }
{
    match first {
        b'f' => b'8',
        b'x' => b'9',
        _ => b'7',
    }
}

/// The letter for why a task is skipped; the digit 4 where this cause doesn't skip it.
fn skipped_letter(cause: StateCause) -> u8
    ensures letter { (expanded : Bool) → result ≡ letter_for expanded cause TaskReport.Skipped }
    ensures ascii { result < 128 }
{
    match cause {
        StateCause::NotFollowed => b'b',
        StateCause::RuleSkips => b'k',
        StateCause::HasNoItems => b'e',
        _ => b'4',
    }
}

/// The letter for why a task is upstream_failed; the digit 5 where this cause doesn't make it so.
fn upstream_failed_letter(cause: StateCause) -> u8
    ensures letter { (expanded : Bool) → result
        ≡ letter_for expanded cause TaskReport.UpstreamFailed }
    ensures ascii { result < 128 }
{
    match cause {
        StateCause::RuleFails => b'u',
        StateCause::ItemsAreMissing => b'i',
        _ => b'5',
    }
}

/// The letter for why a task has no status; the digit 6 where this cause gives it one.
fn no_status_letter(cause: StateCause) -> u8
    ensures letter { (expanded : Bool) → result ≡ letter_for expanded cause TaskReport.NoStatus }
    ensures ascii { result < 128 }
{
    match cause {
        StateCause::BranchIsBlocked => b'q',
        StateCause::UpstreamIsBlocked => b'p',
        StateCause::PastHasNotPassed => b'n',
        _ => b'6',
    }
}

/// The letter of a task that a report has as one instance, by how that ended. A digit, 1 to 3, where the graph expands
/// the task or this cause doesn't let it run.
fn ran_letter(is_expanded: bool, cause: StateCause, ended: &TaskResult) -> u8
    ensures letter { (instance : InstanceReport) → instance.result ≡ ended.now →
        result ≡ letter_for is_expanded cause (TaskReport.Ran instance) }
    ensures ascii { result < 128 }
{
    if !is_expanded && matches!(cause, StateCause::Runs(_)) {
        return ended_letter(ended);
    }
    match ended.outcome {
        Outcome::Success(_) => b'1',
        Outcome::Failed => b'2',
        Outcome::Skipped => b'3',
    }
}

/// Whether a cause lets a task run as exactly `count` instances.
fn runs_with_count(cause: StateCause, count: usize) -> bool
    ensures { result ≡ runs_with_count_in cause count }
{
    match cause {
        StateCause::Runs(instances) => count == instances,
        _ => false,
    }
}

/// The uppercase letter of a task that a report has as expanded, by how its instances ended. A digit, 7 to 9, where the
/// graph doesn't expand the task, or this cause doesn't let it run as so many instances.
fn mapped_letter(is_expanded: bool, cause: StateCause, results: &[TaskResult]) -> u8
    ensures letter { (instances : List InstanceReport) → results.now
        ≡ map (λ instance. instance.result) instances →
        result ≡ letter_for is_expanded cause (TaskReport.Mapped instances) }
    ensures ascii { result < 128 }
{
    let first = first_letter(results);
    if is_expanded && runs_with_count(cause, results.len()) {
        uppercase_letter(first)
    } else {
        expanded_digit(first)
    }
}

/// The letter of a task, by its report and the cause of what the graph decides for it; a digit where the report doesn't
/// follow from that cause.
pub fn letter_by(is_expanded: bool, cause: StateCause, settled: &Settled<'_>) -> u8
    ensures letter { result ≡ letter_for is_expanded cause settled.now }
    ensures ascii { result < 128 }
{
    match (settled.task_report(), settled.results()) {
        (TaskReport::NoStatus, _) => no_status_letter(cause),
        (TaskReport::Skipped, _) => skipped_letter(cause),
        (TaskReport::UpstreamFailed, _) => upstream_failed_letter(cause),
        (TaskReport::Ran(_), [ended, ..]) => ran_letter(is_expanded, cause, ended),
        (TaskReport::Ran(_), []) => b'1',
        (TaskReport::Mapped(_), results) => mapped_letter(is_expanded, cause, results),
    }
}

/// The letter of task number `task` in run number `run`, from 0, which the report has as `told`; a digit where that
/// isn't what the graph decides. `settled` are the tasks of the run and `before` those of the run before, empty for the
/// first.
pub fn letter_at(
    plan: &Plan,
    run: usize,
    settled: &[Settled<'_>],
    before: &[Settled<'_>],
    task: u32,
    told: &Settled<'_>,
) -> u8
    requires { task < length plan.now.dag.tasks }
    ensures letter { (report : Report) → settled.now ≡ tasks_in report run → before.now
        ≡ tasks_before report run →
        result ≡ letter_of plan.now.dag report run task told.now }
    ensures ascii { result < 128 }
{
    let cause = cause_at(plan, run, settled, before, task);
    letter_by(is_expanded(plan.dag(), task), cause, told)
}
