//! The words of an instance's last try, as a line of a shell.
ghost use Rattle.std.specs.Prelude.{◌≡◌, ◌<◌, IfOk, length, map, option_copied};
ghost use Rattle.std.specs.List.{list_all};
ghost use Rattle.bf_core.specs.Terms.{task_of};
ghost use Rattle.bf_clear.specs.Entries.{given_in};
ghost use Rattle.bf_explain.specs.ByHand.{AreHandLines, IsHandLine, index_in, tells_word_in, tells_words_in};
ghost use Rattle.bf_graph.specs.Shape.{texts};

use crate::variables::hand_line;
use bf_moment::Moment;
use bf_plan::{Plan, Word};
use bf_process::clock_of_run;
use bf_report::{InstanceReport, Pull, RunReport, TaskReport, Version};
use bf_value::{OutOfMemory, Sequence, Text, copy_option};
use bf_wording::one_line;
use bf_words::{JobContext, words};
use bf_xcom::{Given, SharedValue};
use std::alloc::Global;

/// Whether a report of this version holds the value that `word` stands for in the command of `instance`. Version 1
/// holds neither pulls nor items; version 2 holds an item only where the instance has one.
fn tells_word(version: Version, instance: &InstanceReport, word: &Word) -> bool
    ensures { result ≡ tells_word_in version instance.now word.now }
{
    match (version, word) {
        (Version::One, Word::Pull(_)) | (Version::One, Word::Item) => false,
        (Version::Two, Word::Item) => instance.item().is_some(),
        _ => true,
    }
}

/// Whether a report of this version holds the value of every word of `command` for `instance`; true for no words.
fn tells_each(version: Version, instance: &InstanceReport, command: &[Word]) -> bool
    ensures { result ≡ list_all (tells_word_in version instance.now) command.now }
{
    command
        .iter()
        .all(|word| tells_word(version, instance, word))
}

/// Whether `command` isn't empty and a report of this version holds the value of each of its words for `instance`.
fn tells_words(version: Version, instance: &InstanceReport, command: &[Word]) -> bool
    ensures { result ≡ tells_words_in version instance.now command.now }
{
    !command.is_empty() && tells_each(version, instance, command)
}

/// The map index of the instance to explain: `index` where the task ran expanded and an index is given, else -1.
pub(crate) fn index_of(told: &TaskReport, index: Option<i32>) -> i32
    ensures { result ≡ index_in told.now index }
{
    match (told, index) {
        (TaskReport::Mapped(_), Some(index)) => index,
        _ => -1,
    }
}

/// The value of each pull, in order; a pull that found nothing keeps its place, without a value.
fn pulled_values(alloc: Global, pulls: &[Pull]) -> Result<Sequence<SharedValue>, OutOfMemory>
    ensures { IfOk result (λ values. values ≡ map (λ pull. pull.value) pulls.now) }
{
    let mut values = Vec::with_capacity(alloc, pulls.len())?;
    for pull in pulls {
        values.push(pull.value.share()?)?;
    }
    Ok(Sequence::from_vec(values))
}

/// What an instance was given, as its report has it: its item and the values that it pulled.
fn given_of(alloc: Global, instance: &InstanceReport) -> Result<Given, OutOfMemory>
    ensures { IfOk result (λ given. given ≡ given_in instance.now) }
{
    let item = copy_option(alloc, instance.item())?;
    let pulled = pulled_values(alloc, instance.pulls())?;
    Ok(Given { item, pulled })
}

/// Turns `words` into texts, in order.
fn texts_of(alloc: Global, words: Vec<String>) -> Result<Vec<Text>, OutOfMemory>
    ensures { IfOk result (λ all. all.items ≡ texts words.items) }
{
    let mut all = Vec::with_capacity(alloc, words.len())?;
    for word in words {
        all.push(Text::new(word))?;
    }
    Ok(all)
}

/// The shell line, without a line feed, that repeats the last try of `instance`: the words of its command with their
/// values, and before them the variables that they name. `report` is run number `run`, and `clocks` are what the clocks
/// of the graph's zone show at the start of each run; `index` is -1 where the task isn't expanded.
fn by_hand_line(
    alloc: Global,
    plan: &Plan,
    report: &RunReport,
    clocks: &[Moment],
    run: u32,
    task: u32,
    index: i32,
    instance: &InstanceReport,
) -> Result<Text, OutOfMemory>
    requires { task < length plan.now.dag.tasks }
    ensures { IfOk result (IsHandLine plan.now.dag report.now.interval
        (map (λ clock. clock.at.nanosecond) clocks.now) run task index instance.now) }
{
    let dag = plan.dag();
    let made = dag.task(task);
    let ended = instance.result()?;
    let given = given_of(alloc, instance)?;
    let context = JobContext {
        data_interval_start: Moment::new(report.interval.start),
        data_interval_end: Moment::new(report.interval.end),
        dag_id: dag.id.as_str(),
        task_id: made.id.as_str(),
        map_index: index,
        try_number: ended.tries,
    };
    let words = texts_of(
        alloc,
        words(alloc, made.command.as_slice(), &context, &given)?,
    )?;
    let clock = clock_of_run(clocks, run, &context);
    hand_line(alloc, words.as_slice(), &context, clock)
}

/// Whether task number `task` has a command, and a report of this version holds the value of each of its words for
/// `instance`.
fn is_command_told(plan: &Plan, version: Version, task: u32, instance: &InstanceReport) -> bool
    requires { task < length plan.now.dag.tasks }
    ensures { result ≡ tells_words_in version instance.now (task_of plan.now.dag task).command }
{
    tells_words(version, instance, plan.dag().task(task).command.as_slice())
}

/// The one shell line that repeats the last try of `instance`. Empty where `instance` is None, the task has no command,
/// or the report lacks the value of one of its words. `report` is run number `run`, and `clocks` are what the clocks of
/// the graph's zone show at the start of each run; `index` is -1 where the task isn't expanded.
pub(crate) fn by_hand_lines(
    alloc: Global,
    plan: &Plan,
    report: &RunReport,
    version: Version,
    clocks: &[Moment],
    run: u32,
    task: u32,
    index: i32,
    instance: Option<&InstanceReport>,
) -> Result<Vec<Text>, OutOfMemory>
    requires { task < length plan.now.dag.tasks }
    ensures { IfOk result (λ lines. AreHandLines plan.now.dag report.now.interval version
        (map (λ clock. clock.at.nanosecond) clocks.now) run task index
        (option_copied instance.entry) lines.items) }
{
    let Some(instance) = instance else {
        return Ok(Vec::new(alloc));
    };
    if !is_command_told(plan, version, task, instance) {
        return Ok(Vec::new(alloc));
    }
    one_line(
        alloc,
        by_hand_line(alloc, plan, report, clocks, run, task, index, instance)?,
    )
}
