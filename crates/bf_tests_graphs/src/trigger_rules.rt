//! Verdicts of the trigger rules.
use bf_rule::{Counts, Rule, Verdict, verdict};
use std::process::Abort;

/// A rule over counts of success, failed, upstream_failed, skipped, blocked and unfinished instances.
type Row = (Rule, [u32; 6], Verdict);

static EARLY: [Row; 9] = [
    (Rule::OneSuccess, [1, 0, 0, 0, 0, 1], Verdict::Run),
    (Rule::OneSuccess, [0, 3, 0, 0, 0, 1], Verdict::Wait),
    (Rule::OneFailed, [0, 0, 1, 0, 0, 1], Verdict::Run),
    (Rule::OneDone, [0, 0, 0, 1, 0, 1], Verdict::Wait),
    (Rule::OneDone, [0, 1, 0, 0, 0, 1], Verdict::Run),
    (Rule::OneDone, [0, 0, 1, 0, 0, 1], Verdict::Wait),
    (Rule::Always, [0, 0, 0, 0, 1, 1], Verdict::Run),
    (Rule::AllDone, [1, 0, 0, 0, 1, 1], Verdict::Wait),
    (Rule::NoneSkipped, [1, 0, 0, 1, 0, 1], Verdict::Wait),
];

static SETTLED: [Row; 29] = [
    (Rule::AllSkipped, [0, 0, 0, 0, 0, 0], Verdict::Run),
    (Rule::OneSuccess, [0, 0, 0, 0, 0, 0], Verdict::Run),
    (Rule::OneFailed, [0, 1, 0, 0, 1, 0], Verdict::Run),
    (Rule::OneFailed, [1, 0, 0, 0, 1, 0], Verdict::Blocked),
    (Rule::AllSuccess, [2, 0, 0, 0, 0, 0], Verdict::Run),
    (Rule::AllSuccess, [2, 0, 0, 1, 0, 0], Verdict::Skip),
    (
        Rule::AllSuccess,
        [2, 0, 1, 1, 0, 0],
        Verdict::UpstreamFailed,
    ),
    (
        Rule::AllSuccess,
        [0, 1, 0, 1, 0, 0],
        Verdict::UpstreamFailed,
    ),
    (Rule::AllFailed, [0, 1, 1, 0, 0, 0], Verdict::Run),
    (Rule::AllFailed, [0, 1, 0, 1, 0, 0], Verdict::Skip),
    (Rule::AllSkipped, [0, 0, 0, 2, 0, 0], Verdict::Run),
    (Rule::AllSkipped, [1, 0, 0, 2, 0, 0], Verdict::Skip),
    (Rule::AllDone, [0, 1, 1, 1, 0, 0], Verdict::Run),
    (Rule::AllDone, [1, 0, 0, 0, 1, 0], Verdict::Blocked),
    (Rule::OneSuccess, [0, 0, 0, 2, 0, 0], Verdict::Skip),
    (
        Rule::OneSuccess,
        [0, 1, 0, 1, 0, 0],
        Verdict::UpstreamFailed,
    ),
    (Rule::OneFailed, [1, 0, 0, 1, 0, 0], Verdict::Skip),
    (Rule::OneFailed, [1, 0, 1, 0, 0, 0], Verdict::Run),
    (Rule::OneDone, [0, 0, 1, 1, 0, 0], Verdict::Skip),
    (Rule::OneDone, [0, 1, 0, 1, 0, 0], Verdict::Run),
    (Rule::NoneFailed, [1, 0, 0, 1, 0, 0], Verdict::Run),
    (Rule::NoneFailed, [0, 0, 0, 2, 0, 0], Verdict::Run),
    (
        Rule::NoneFailed,
        [1, 0, 1, 0, 0, 0],
        Verdict::UpstreamFailed,
    ),
    (
        Rule::NoneFailedMinOneSuccess,
        [1, 0, 0, 1, 0, 0],
        Verdict::Run,
    ),
    (
        Rule::NoneFailedMinOneSuccess,
        [0, 0, 0, 2, 0, 0],
        Verdict::Skip,
    ),
    (
        Rule::NoneFailedMinOneSuccess,
        [1, 1, 0, 0, 0, 0],
        Verdict::UpstreamFailed,
    ),
    (Rule::NoneSkipped, [0, 1, 0, 0, 0, 0], Verdict::Run),
    (Rule::NoneSkipped, [1, 0, 0, 1, 0, 0], Verdict::Skip),
    (Rule::Always, [0, 0, 0, 1, 0, 0], Verdict::Run),
];

fn says(rt: &impl Abort, row: Row) {
    let (rule, counts, wanted) = row;
    let [
        success,
        failed,
        upstream_failed,
        skipped,
        blocked,
        unfinished,
    ] = counts;
    let counts = Counts {
        success,
        failed,
        upstream_failed,
        skipped,
        blocked,
        unfinished,
    };
    assert_eq!(rt; verdict(rule, &counts), wanted, "of {rule:?} at {counts:?}");
}

#[test]
fn rules_wait_or_decide_before_all_have_finished(rt: HostRuntime) {
    for &row in &EARLY {
        says(&rt, row);
    }
}

#[test]
fn rules_decide_once_all_have_finished(rt: HostRuntime) {
    for &row in &SETTLED {
        says(&rt, row);
    }
}
