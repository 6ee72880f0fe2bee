//! Grades.
ghost use Rattle.std.specs.Prelude.{◌≡◌, ◌<◌, ◌||◌, ℕ, true, not, length, IfOk, IsUtf8};
ghost use Rattle.bf_value.specs.Json.{value_of_line};
ghost use Rattle.bf_plan.specs.declared.plan.Dag.{Dag};
ghost use Rattle.bf_xcom.specs.declared.values.Outcome.{Outcome};
ghost use Rattle.bf_try.specs.declared.answers.Raw.{Raw};
ghost use Rattle.std.specs.List.{list_any};
ghost use Rattle.bf_rule.specs.Branches.{names_downstreams_in};
ghost use Rattle.bf_plan.specs.Plans.{task_of, shape_of, is_branch_in};
ghost use Rattle.bf_try.specs.Grades.{grade_of, grade_line_of, fits_in, gives_items_in, GradesTo, HasSoundValue, is_list_of_items_in, is_short_value_in, is_source, is_readable_from_line_in, may_push_in};

use crate::answers::{Exit, Line, Raw, copy_of_bytes};
use bf_plan::{Dag, Plan};
use bf_rule::names_downstreams;
use bf_value::{DEEPEST, LineFault, OutOfMemory, Sequence, Xval, read_line, text_of};
use bf_xcom::{Outcome, SharedValue};
use std::alloc::Global;

/// How many bytes the compact JSON text of a pushed value may have.
pub const LONGEST_VALUE: usize = 65_536;

/// How many items a list may have that tasks are expanded over.
pub const MOST_ITEMS: usize = 1_024;

/// The status by which a try says that it is skipped. Airflow's `BashOperator` has the same.
const SKIP_STATUS: i32 = 99;

/// Whether the compact JSON text of what is pushed, if anything is, has at most `LONGEST_VALUE` bytes.
fn is_short_value(value: &SharedValue) -> bool
    ensures { result ≡ is_short_value_in value.now }
{
    match value.get() {
        Some(value) => value.has_text_within(LONGEST_VALUE),
        None => true,
    }
}

/// Whether what is pushed is a list of at most `MOST_ITEMS` items.
fn is_list_of_items(value: &SharedValue) -> bool
    ensures { result ≡ is_list_of_items_in value.now }
{
    match value.get() {
        Some(Xval::List(values)) => values.as_slice().len() <= MOST_ITEMS,
        _ => false,
    }
}

/// Whether a task with this `expand` is expanded over `source`.
fn is_source_of(source: u32, expand: Option<u32>) -> bool
    ensures { result ≡ is_source expand source }
{
    expand == Some(source)
}

/// Whether a task is expanded over `source`; false where there is no such task.
#[tactic(auto, unfolding(bf_plan::specs::Plans::task_of))]
fn is_expanded_over(dag: &Dag, task: u32, source: u32) -> bool
    ensures { result ≡ is_source (task_of dag.now task).expand source }
{
    match dag.tasks.get(task as usize) {
        Some(task) => is_source_of(source, task.expand),
        None => false,
    }
}

/// Whether one of these tasks is expanded over `source`.
fn some_is_expanded_over(dag: &Dag, tasks: &[u32], source: u32) -> bool
    ensures { result ≡ list_any (λ t. is_source (task_of dag.now t).expand source) tasks.now }
{
    tasks
        .iter()
        .any(|task| is_expanded_over(dag, *task, source))
}

/// Whether a task of the plan is expanded over this one.
// A task that is expanded over another is a direct downstream of it, so not all tasks are looked at.
fn is_source_of_some(plan: &Plan, task: u32) -> bool
    requires { task < length plan.now.dag.tasks }
    ensures { result ≡ list_any (λ t. is_source t.expand task) plan.now.dag.tasks }
{
    let downstreams = plan.graph().downstreams(task);
    some_is_expanded_over(plan.dag(), downstreams, task)
}

/// Whether a task of the plan is expanded over this one, which itself isn't expanded.
fn gives_items(plan: &Plan, task: u32) -> bool
    requires { task < length plan.now.dag.tasks }
    ensures { result ≡ gives_items_in plan.now.dag task }
{
    plan.expands() && (plan.dag().task(task).expand.is_none() && is_source_of_some(plan, task))
}

/// Whether a task is no branch, or `value` names only direct downstreams of it.
fn names_downstreams_if_branch(plan: &Plan, task: u32, value: &SharedValue) -> bool
    requires { task < length plan.now.dag.tasks }
    ensures { result ≡ (not (is_branch_in (task_of plan.now.dag task))
        || names_downstreams_in (shape_of plan.now.dag) task value.now) }
{
    !plan.dag().is_branch(task) || names_downstreams(plan.graph(), task, value.get())
}

/// Whether a task may push `value`: it is short enough, names downstreams if the task is a branch, and is a list of
/// items if another task is expanded over this unmapped one.
fn may_push(plan: &Plan, task: u32, value: &SharedValue) -> bool
    requires { task < length plan.now.dag.tasks }
    ensures { result ≡ may_push_in plan.now.dag task value.now }
{
    is_short_value(value)
        && (names_downstreams_if_branch(plan, task, value)
            && (!gives_items(plan, task) || is_list_of_items(value)))
}

/// Whether some line of output pushes this: nothing, or a value that isn't `null` and whose lists nest at most
/// `DEEPEST` deep.
fn is_readable_from_line(value: &SharedValue) -> bool
    ensures { result ≡ is_readable_from_line_in value.now }
{
    match value.get() {
        Some(Xval::Nil) => false,
        Some(value) => value.is_nested_within(DEEPEST),
        None => true,
    }
}

/// Whether `grade` could give this outcome for a try of the task.
#[tactic(auto, unfolding(crate::specs::Grades::fits_in))]
pub fn fits(plan: &Plan, task: u32, outcome: &Outcome) -> bool
    requires { task < length plan.now.dag.tasks }
    ensures { result ≡ fits_in plan.now.dag task outcome.now }
{
    match outcome {
        Outcome::Success(value) => is_readable_from_line(value) && may_push(plan, task, value),
        Outcome::Failed | Outcome::Skipped => true,
    }
}

/// The outcome of a try with status 0 whose output ends with this line: a success with what the line pushes, failed
/// where the task may not push that or the line isn't UTF-8.
fn grade_line(alloc: Global, plan: &Plan, task: u32, line: &[u8]) -> Result<Outcome, OutOfMemory>
    requires { task < length plan.now.dag.tasks }
    ensures { IfOk result (λ outcome. outcome ≡ grade_line_of plan.now.dag task line.now) }
{
    match read_line(alloc, line) {
        Ok(value) => {
            let pushed = SharedValue::new(alloc, value)?;
            if may_push(plan, task, &pushed) {
                Ok(Outcome::Success(pushed))
            } else {
                Ok(Outcome::Failed)
            }
        }
        Err(LineFault::NotUtf8) => Ok(Outcome::Failed),
        Err(LineFault::OutOfMemory) => Err(OutOfMemory),
    }
}

/// Grades a raw answer. It is failed where the program didn't start, was ended by a signal or its output couldn't be
/// had; skipped at status 99; failed at any other status than 0. At 0 it is a success that pushes the value of the last
/// line, but failed where that isn't UTF-8, the value's text is longer than 65,536 bytes, the task is a branch and the
/// value doesn't name direct downstreams, or a task is expanded over this unmapped one and the value is no list of at
/// most 1,024 items.
#[tactic(auto, unfolding(crate::specs::Grades::grade_of))]
pub fn grade(alloc: Global, plan: &Plan, task: u32, raw: &Raw) -> Result<Outcome, OutOfMemory>
    requires { task < length plan.now.dag.tasks }
    ensures { IfOk result (λ outcome. outcome ≡ grade_of plan.now.dag task raw.now) }
{
    let Exit::Code(status) = raw.exit else {
        return Ok(Outcome::Failed);
    };
    let Line::Bytes(line) = &raw.line else {
        return Ok(Outcome::Failed);
    };
    match status {
        SKIP_STATUS => Ok(Outcome::Skipped),
        0 => grade_line(alloc, plan, task, line.as_slice()),
        _ => Ok(Outcome::Failed),
    }
}

/// A law: the grade of an answer to a try fits the task of the try.
pub fn grades_fit()
    ensures { (dag : Dag) (task : ℕ) (raw : Raw) → fits_in dag task (grade_of dag task raw)
        ≡ true }
{}

/// A law: each outcome that fits a task is the grade of some answer to a try of it.
pub fn each_fit_is_a_grade()
    ensures { (dag : Dag) (task : ℕ) (outcome : Outcome) → HasSoundValue outcome
        → fits_in dag task outcome ≡ true → (raw : Raw) × (grade_of dag task raw ≡ outcome) }
{}

/// The last line of output, without a line feed, that pushes this value; empty where nothing is pushed. It reads back
/// as the value wherever some line can push that (`is_readable_from_line`).
fn line_that_pushes(alloc: Global, pushed: &SharedValue) -> Result<Sequence<u8>, OutOfMemory>
    ensures text { IfOk result (λ line. IsUtf8 line) }
    ensures reads_back { IfOk result
        (λ line. is_readable_from_line_in pushed.now ≡ true → value_of_line line ≡ pushed.now) }
{
    let Some(value) = pushed.get() else {
        return Ok(Sequence::new(alloc));
    };
    let text = text_of(alloc, value)?;
    copy_of_bytes(alloc, text.as_str().as_bytes())
}

/// An answer whose grade is this outcome, for a try of any task that the outcome fits.
pub fn answer_for(alloc: Global, outcome: &Outcome) -> Result<Raw, OutOfMemory>
    ensures { IfOk result (λ raw. GradesTo raw outcome.now) }
{
    match outcome {
        Outcome::Success(pushed) => Ok(Raw::with_code(0, line_that_pushes(alloc, pushed)?)),
        Outcome::Failed => Ok(Raw::with_code(1, Sequence::new(alloc))),
        Outcome::Skipped => Ok(Raw::with_code(SKIP_STATUS, Sequence::new(alloc))),
    }
}
