//! Which line of grading a raw answer came to.
ghost use Rattle.std.specs.Prelude.{◌≡◌, ◌<◌, ◌&&◌, not, length, IfOk, option_copied};
ghost use Rattle.std.specs.List.{list_any};
ghost use Rattle.bf_rule.specs.Branches.{names_downstreams_in};
ghost use Rattle.bf_plan.specs.Plans.{task_of, shape_of, is_branch_in};
ghost use Rattle.bf_try.specs.declared.answers.Line.{Line};
ghost use Rattle.bf_try.specs.Grades.{gives_items_in, is_list_of_items_in, is_short_value_in, is_source};
ghost use Rattle.bf_failure.specs.Failures.{answer_failure, failure_of, first_expanded, id_in, line_failure, text_in, value_failure};

use crate::failure::Failure;
use bf_plan::{Dag, Plan, Task};
use bf_rule::names_downstreams;
use bf_try::{Exit, LONGEST_VALUE, Line, MOST_ITEMS, Raw};
use bf_value::{LineFault, OutOfMemory, Text, Xval, read_line, text_of};
use std::alloc::Global;

/// The exit status by which a program says that its try is skipped.
const SKIP_STATUS: i32 = 99;

/// Answers whether the pushed value's compact JSON has at most `LONGEST_VALUE` bytes; true for None.
fn is_short_value(value: &Option<Xval>) -> bool
    ensures { result ≡ is_short_value_in value.now }
{
    match value {
        Some(value) => value.has_text_within(LONGEST_VALUE),
        None => true,
    }
}

/// Answers whether the pushed value is a list of at most `MOST_ITEMS` items; false for None.
fn is_list_of_items(value: &Option<Xval>) -> bool
    ensures { result ≡ is_list_of_items_in value.now }
{
    match value {
        Some(Xval::List(values)) => values.as_slice().len() <= MOST_ITEMS,
        _ => false,
    }
}

/// Answers whether `task` is expanded over the task with the number `source`.
fn is_expanded_over(task: &Task, source: u32) -> bool
    ensures { result ≡ is_source task.now.expand source }
{
    task.expand == Some(source)
}

/// Gives the first task, in file order, that is expanded over the task with the number `source`; None where none is.
fn first_expanded_over(dag: &Dag, source: u32) -> Option<&Task>
    ensures { option_copied result ≡ first_expanded dag.now source }
{
    dag.tasks
        .as_slice()
        .iter()
        .find(|task| is_expanded_over(task, source))
}

/// Gives the id of the first task, in file order, that is expanded over the task with the number `source`; empty where
/// none is.
fn id_of_first_expanded_over(alloc: Global, dag: &Dag, source: u32) -> Result<Text, OutOfMemory>
    ensures { IfOk result (λ id. id ≡ id_in (first_expanded dag.now source)) }
{
    match first_expanded_over(dag, source) {
        Some(task) => task.id.copy(alloc),
        None => Ok(Text::new(String::new(alloc))),
    }
}

/// Answers whether some task is expanded over the task with the number `source`.
fn is_source_of_some(dag: &Dag, source: u32) -> bool
    ensures { result ≡ list_any (λ t. is_source t.expand source) dag.now.tasks }
{
    dag.tasks
        .as_slice()
        .iter()
        .any(|task| is_expanded_over(task, source))
}

/// Answers whether some task is expanded over this one, which itself isn't expanded.
fn gives_items(dag: &Dag, task: u32) -> bool
    requires { task < length dag.now.tasks }
    ensures { result ≡ gives_items_in dag.now task }
{
    dag.task(task).expand.is_none() && is_source_of_some(dag, task)
}

/// Answers whether the task is a branch and the pushed value isn't one that names tasks directly downstream of it.
fn is_branch_without_downstream(plan: &Plan, task: u32, value: &Option<Xval>) -> bool
    ensures { result ≡ (is_branch_in (task_of plan.now.dag task)
        && not (names_downstreams_in (shape_of plan.now.dag) task value.now)) }
{
    plan.dag().is_branch(task) && !names_downstreams(plan.graph(), task, value.as_ref())
}

/// Answers whether the task gives items to others (`gives_items`) and the pushed value isn't a list of at most
/// `MOST_ITEMS`.
fn is_source_without_items(plan: &Plan, task: u32, value: &Option<Xval>) -> bool
    requires { task < length plan.now.dag.tasks }
    ensures { result ≡ (gives_items_in plan.now.dag task && not (is_list_of_items_in value.now)) }
{
    gives_items(plan.dag(), task) && !is_list_of_items(value)
}

/// Gives a value's compact JSON; empty for None.
fn json_of(alloc: Global, value: &Option<Xval>) -> Result<Text, OutOfMemory>
    ensures { IfOk result (λ text. text ≡ text_in value.now) }
{
    match value {
        Some(value) => Ok(Text::new(text_of(alloc, value)?)),
        None => Ok(Text::new(String::new(alloc))),
    }
}

/// Finds why a try of the task that ended with status 0 and pushed this value fails; None where it doesn't fail.
fn find_failure_in_value(
    alloc: Global,
    plan: &Plan,
    task: u32,
    value: &Option<Xval>,
) -> Result<Option<Failure>, OutOfMemory>
    requires { task < length plan.now.dag.tasks }
    ensures { IfOk result (λ failure. failure ≡ value_failure plan.now.dag task value.now) }
{
    if !is_short_value(value) {
        return Ok(Some(Failure::LongValue));
    }
    if is_branch_without_downstream(plan, task, value) {
        return Ok(Some(Failure::NoDownstream(json_of(alloc, value)?)));
    }
    if is_source_without_items(plan, task, value) {
        return Ok(Some(Failure::NoItems(id_of_first_expanded_over(alloc, plan.dag(), task)?)));
    }
    Ok(None)
}

/// Finds why a try of the task that ended with status 0 and this last line of output fails; None where it doesn't fail.
fn find_failure_in_line(
    alloc: Global,
    plan: &Plan,
    task: u32,
    line: &[u8],
) -> Result<Option<Failure>, OutOfMemory>
    requires { task < length plan.now.dag.tasks }
    ensures { IfOk result (λ failure. failure ≡ line_failure plan.now.dag task line.now) }
{
    match read_line(alloc, line) {
        Ok(value) => find_failure_in_value(alloc, plan, task, &value),
        Err(LineFault::NotUtf8) => Ok(Some(Failure::NotUtf8)),
        Err(LineFault::OutOfMemory) => Err(OutOfMemory),
    }
}

/// Finds why a try of the task fails, from how its program ended and its last line of output; None where the try
/// succeeds or is skipped.
fn find_failure_in_exit(
    alloc: Global,
    plan: &Plan,
    task: u32,
    exit: Exit,
    line: &[u8],
) -> Result<Option<Failure>, OutOfMemory>
    requires { task < length plan.now.dag.tasks }
    ensures { IfOk result (λ failure. failure
        ≡ answer_failure plan.now.dag task exit (Line.Bytes line.now)) }
{
    match exit {
        Exit::Code(SKIP_STATUS) => Ok(None),
        Exit::Code(0) => find_failure_in_line(alloc, plan, task, line),
        Exit::Code(status) => Ok(Some(Failure::Status(status))),
        Exit::Signal => Ok(Some(Failure::Signal(None))),
        Exit::NotStarted => Ok(Some(Failure::NotStarted(None))),
    }
}

/// Finds why a try of the task with this raw answer fails: the first cause in the order of grading. None where the try
/// succeeds or is skipped. What a raw answer doesn't tell is left to `Failure::with_detail`.
#[tactic(auto, unfolding(crate::specs::Failures::failure_of))]
pub fn find_failure(
    alloc: Global,
    plan: &Plan,
    task: u32,
    raw: &Raw,
) -> Result<Option<Failure>, OutOfMemory>
    requires { task < length plan.now.dag.tasks }
    ensures { IfOk result (λ failure. failure ≡ failure_of plan.now.dag task raw.now) }
{
    match &raw.line {
        Line::Bytes(line) => find_failure_in_exit(alloc, plan, task, raw.exit, line.as_slice()),
        Line::TooMuch => Ok(Some(Failure::TooMuchOutput)),
        Line::ReadFault => Ok(Some(Failure::UnreadOutput)),
    }
}
