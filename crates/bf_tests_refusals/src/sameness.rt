//! Whether two cores have come to the same.
use bf_core::{Cell, Core, Event, Instance, Phase};
use bf_try::Entry;
use bf_value::JobName;

fn is_same_phase(one: &Phase, other: &Phase) -> bool {
    match (one, other) {
        (Phase::Waiting, Phase::Waiting) | (Phase::Running, Phase::Running) => true,
        (Phase::Finished(one), Phase::Finished(other)) => one.is_same(other),
        _ => false,
    }
}

fn is_same_instance(one: &Instance, other: &Instance) -> bool {
    one.given.is_same(&other.given)
        && one.attempt == other.attempt
        && is_same_phase(&one.phase, &other.phase)
}

fn are_same_instances(one: &[Instance], other: &[Instance]) -> bool {
    one.len() == other.len()
        && one
            .iter()
            .zip(other)
            .all(|(one, other)| is_same_instance(one, other))
}

fn is_same_cell(one: Option<&Cell>, other: Option<&Cell>) -> bool {
    match (one, other) {
        (None, None)
        | (Some(Cell::Undecided), Some(Cell::Undecided))
        | (Some(Cell::Blocked), Some(Cell::Blocked))
        | (Some(Cell::Skipped), Some(Cell::Skipped))
        | (Some(Cell::UpstreamFailed), Some(Cell::UpstreamFailed)) => true,
        (Some(Cell::Ran(one)), Some(Cell::Ran(other))) => {
            are_same_instances(one.as_slice(), other.as_slice())
        }
        _ => false,
    }
}

/// Answers whether two cores of one plan have the same cell of each task in each run.
fn are_same_cells(one: &Core<'_>, other: &Core<'_>) -> bool {
    let tasks = one.plan().dag().tasks.len() as u32;
    (0..one.run_count()).all(|run| (0..tasks).all(|task| is_same_cell(
        one.cell(run, task),
        other.cell(run, task),
    )))
}

fn is_same_event(one: &Event, other: &Event) -> bool {
    match (one, other) {
        (Event::End(name, one), Event::End(other_name, other)) => {
            name == other_name && one.is_same(other)
        }
        (Event::Begin(one), Event::Begin(other)) => one == other,
        (Event::Open, Event::Open) => true,
        (Event::Settle { run, task }, Event::Settle { run: r, task: t })
        | (Event::Expand { run, task }, Event::Expand { run: r, task: t }) => run == r && task == t,
        (Event::Close { run }, Event::Close { run: other }) => run == other,
        (Event::Tick { moment }, Event::Tick { moment: other }) => moment == other,
        _ => false,
    }
}

fn are_same_events(one: &[Event], other: &[Event]) -> bool {
    one.len() == other.len()
        && one
            .iter()
            .zip(other)
            .all(|(one, other)| is_same_event(one, other))
}

fn is_same_try(one: &(JobName, Entry), other: &(JobName, Entry)) -> bool {
    one.0 == other.0
        && one.1.given.is_same(&other.1.given)
        && one.1.outcome.is_same(&other.1.outcome)
}

fn are_same_tries(one: &[(JobName, Entry)], other: &[(JobName, Entry)]) -> bool {
    one.len() == other.len()
        && one
            .iter()
            .zip(other)
            .all(|(one, other)| is_same_try(one, other))
}

/// Answers whether two cores of one plan have the same state, the same events behind them, and the same ledger in the
/// same order.
pub(crate) fn is_same_core(one: &Core<'_>, other: &Core<'_>) -> bool {
    one.opened_runs() == other.opened_runs()
        && one.is_ended() == other.is_ended()
        && are_same_events(one.journal(), other.journal())
        && are_same_cells(one, other)
        && are_same_tries(one.ledger().entries(), other.ledger().entries())
}
