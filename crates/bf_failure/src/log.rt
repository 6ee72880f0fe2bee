//! Where the logs of a try stand.
ghost use Rattle.std.specs.Prelude.{◌≡◌, IfOk, string_bytes};
ghost use Rattle.bf_failure.specs.Tried.{index_text_of, log_of};

use bf_value::OutOfMemory;
use bf_words::JobContext;
use std::alloc::Global;

/// Gives a map index between the texts `before` and `behind`; empty for -1, the index of a task that isn't expanded.
pub(crate) fn index_text(
    alloc: Global,
    before: &str,
    index: i32,
    behind: &str,
) -> Result<String, OutOfMemory>
    ensures { IfOk result (λ text. string_bytes text ≡ index_text_of before.now index behind.now) }
{
    if index < 0 {
        return Ok(String::new(alloc));
    }
    Ok(format!(in alloc; "{before}{index}{behind}")?)
}

/// Makes the path of a try's log below `folder`: `FOLDER/dag=ID/run=MOMENT/task=ID/try=N.out` for the ending `.out`.
/// For an instance of an expanded task the last part is `index=I,try=N.out`.
pub fn log_path(
    alloc: Global,
    folder: &str,
    context: &JobContext<'_>,
    ending: &str,
) -> Result<String, OutOfMemory>
    ensures { IfOk result (λ path. string_bytes path ≡ log_of folder.now context.now ending.now) }
{
    let (dag, run, task) = (context.dag_id, context.data_interval_start, context.task_id);
    let index = index_text(alloc, "index=", context.map_index, ",")?;
    let attempt = context.try_number;
    Ok(format!(in alloc; "{folder}/dag={dag}/run={run}/task={task}/{index}try={attempt}{ending}")?)
}
