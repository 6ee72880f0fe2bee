//! Looking things up by task.
ghost use Rattle.std.specs.Prelude.{◌≡◌, IfOk, option_copied, slice_get};
ghost use Rattle.bf_reason.specs.Settled.{results_of, value_among};
ghost use Rattle.bf_xcom.specs.Pulls.{only_pushed_value_in};

use bf_reason::Settled;
use bf_value::Xval;
use bf_xcom::TaskResult;

/// What the first of these results pushed; None where there is no result or it pushed nothing.
fn pushed_by_first(results: &[TaskResult]) -> Option<&Xval>
    ensures { option_copied result ≡ only_pushed_value_in results.now }
{
    match results {
        [first, ..] => first.outcome.pushed(),
        [] => None,
    }
}

/// What the first instance of task number `task` pushed; None where it pushed nothing, the task didn't run, or
/// `settled`, the tasks of the run, lacks it.
pub(crate) fn first_pushed_by<'a>(settled: &'a [Settled<'_>], task: u32) -> Option<&'a Xval>
    ensures { option_copied result
        ≡ only_pushed_value_in (results_of (value_among settled.entry.now task)) }
{
    match settled.get(task as usize) {
        Some(settled) => pushed_by_first(settled.results()),
        None => None,
    }
}
