//! The tries that wait for their delay.
ghost use Rattle.std.specs.Prelude.{◌≡◌, ◌++◌, ◌∷◌, [], IfSome, OnErr, OnOk, filter};
ghost use Rattle.bf_progress.specs.inner.Delays.{IsDelayedBy, delay_of, waits_at};

use bf_core::{Core, Event, Phase};
use bf_plan::Plan;
use bf_value::{JobName, OutOfMemory};
use std::time::Duration;

/// A try that waits for its delay, and when that is over by the monotonic clock.
#[derive(Clone, Copy, Debug, Drop)]
pub(crate) struct Delayed {
    pub(crate) name: JobName,
    pub(crate) until: Duration,
}

/// Gives how many seconds the retries of a task wait; None where the plan has no such task.
fn retry_delay_of(plan: &Plan, task: u32) -> Option<u32>
    ensures { result ≡ delay_of plan.now.dag plan.now.limits task }
{
    if (task as usize) < plan.dag().tasks.len() {
        Some(plan.demand(task).retry_delay)
    } else {
        None
    }
}

/// Gives the try that waits from `now` on, where the event is the end of the one before it; None where no try waits
/// for its delay by this event. `core` has taken the event in already.
pub(crate) fn delayed_by(event: &Event, core: &Core<'_>, now: Duration) -> Option<Delayed>
    ensures { IfSome result (IsDelayedBy event.now core.now.dag core.now.limits now) }
{
    let Event::End(ended, _) = event else {
        return None;
    };
    let instance = core.instance(*ended)?;
    if !matches!(instance.phase, Phase::Waiting) {
        return None;
    }
    let delay = retry_delay_of(core.plan(), ended.task)?;
    Some(Delayed {
        name: JobName {
            attempt: instance.attempt,
            ..*ended
        },
        until: now.checked_add(Duration::from_secs(u64::from(delay)))?,
    })
}

/// Adds a try to those that wait. At want of memory these stay as they were.
pub(crate) fn push_delayed(waiting: &mut Vec<Delayed>, delayed: Delayed) -> Result<(), OutOfMemory>
    ensures ok { OnOk result (waiting.new.items ≡ waiting.old.items ++ delayed ∷ []) }
    ensures err { OnErr result (waiting.new.items ≡ waiting.old.items) }
{
    waiting.reserve(1)?;
    waiting.push_reserved(delayed);
    Ok(())
}

/// Removes the tries whose delay is over at `now` from those that wait.
pub(crate) fn remove_over(waiting: &mut Vec<Delayed>, now: Duration)
    ensures { waiting.new.items ≡ filter (waits_at now) waiting.old.items }
{
    waiting.retain(
        |delayed: &Delayed| -> bool
            ensures { result ≡ waits_at now delayed.now }
        { 0 < delayed.until.saturating_sub(now).as_nanos() },
    );
}
