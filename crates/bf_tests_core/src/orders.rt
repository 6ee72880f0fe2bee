//! Orders of events: the report doesn't rest on them.
use crate::steps::{Answered, End, TestStep, core_after};
use bf_core::{Ended, Illegal};
use bf_device::Memory;
use bf_plan::Plan;
use bf_report::{Report, report_of, write_report};
use bf_tests_graphs::{epoch_run, plan_of};
use std::alloc::Global;
use std::process::Abort;
use std::test::Fail;

const JOIN: &str = r#"{"dag_id":"d","schedule":"@daily",
    "tasks":[{"id":"x"},{"id":"y"},{"id":"z","upstream":["x","y"]}]}"#;

/// The report of `JOIN` where `x` is skipped and `y` fails, worked out by hand.
const REPORT: &str = "@backfill 2 d\n\
    @run 1970-01-01T00:00:00Z 1970-01-01T00:00:00Z failed\n\
    x -1 skipped 1 -\n\
    y -1 failed 1 -\n\
    z -1 upstream_failed 0 -\n\
    @end 1\n";

/// Makes the report of a backfill that has ended, over the one run at 1970; fails where it has other runs.
fn report_over_run(alloc: Global, ended: Ended<'_>) -> Result<Report, Fail> {
    let runs = epoch_run(alloc)?;
    if ended.run_states().len() != runs.count() {
        return Err(Fail::from("it has other runs"));
    }
    Ok(report_of(alloc, &runs, ended)?)
}

/// Takes these steps from the start of the plan's backfill of one run, and makes its report; fails where it hasn't
/// ended.
fn report_over(
    rt: &impl Abort,
    alloc: Global,
    plan: &Plan,
    steps: &[Answered],
) -> Result<Report, Fail> {
    let core = core_after(rt, alloc, plan, steps)?;
    let ended = core.into_ended().ok().ok_or("it has not ended")?;
    report_over_run(alloc, ended)
}

/// Makes the report of `JOIN` after these steps. It tells the whole ledger, by the law `reports_tell_ledgers`.
fn report_after(rt: &impl Abort, alloc: Global, steps: &[Answered]) -> Result<Report, Fail> {
    let plan = plan_of(alloc, JOIN)?;
    report_over(rt, alloc, &plan, steps)
}

/// Checks that the report's text is `REPORT`.
fn is_written(rt: &impl Abort, alloc: Global, report: &Report) -> Result<(), Fail> {
    let mut out = Memory::new(alloc);
    write_report(alloc, report, &mut out)?;
    assert_eq!(rt; out.as_slice(), REPORT.as_bytes());
    Ok(())
}

/// Checks that the report of `JOIN` after these steps has the text `REPORT`.
fn is_reported(rt: &impl Abort, alloc: Global, steps: &[Answered]) -> Result<(), Fail> {
    let report = report_after(rt, alloc, steps)?;
    is_written(rt, alloc, &report)
}

static X_FIRST: [Answered; 10] = [
    (TestStep::Open, Ok(())),
    (TestStep::Settle(0, 0), Ok(())),
    (TestStep::Settle(0, 1), Ok(())),
    (TestStep::Begin(0, -1, 1), Ok(())),
    (TestStep::Begin(1, -1, 1), Ok(())),
    (TestStep::End(0, -1, 1, End::Skips), Ok(())),
    (TestStep::Settle(0, 2), Err(Illegal::NotEnabled)),
    (TestStep::End(1, -1, 1, End::Fails), Ok(())),
    (TestStep::Settle(0, 2), Ok(())),
    (TestStep::Close(0), Ok(())),
];

static Y_FIRST: [Answered; 10] = [
    (TestStep::Open, Ok(())),
    (TestStep::Settle(0, 1), Ok(())),
    (TestStep::Begin(1, -1, 1), Ok(())),
    (TestStep::Settle(0, 0), Ok(())),
    (TestStep::End(1, -1, 1, End::Fails), Ok(())),
    (TestStep::Settle(0, 2), Err(Illegal::NotEnabled)),
    (TestStep::Begin(0, -1, 1), Ok(())),
    (TestStep::End(0, -1, 1, End::Skips), Ok(())),
    (TestStep::Settle(0, 2), Ok(())),
    (TestStep::Close(0), Ok(())),
];

#[test]
fn a_join_rests_on_no_order(rt: HostRuntime) -> Result<(), Fail> {
    is_reported(&rt, rt.alloc(), &X_FIRST)?;
    is_reported(&rt, rt.alloc(), &Y_FIRST)
}
