//! Verdicts.
ghost use Rattle.std.specs.Prelude.{◌≡◌, ◌+◌, ◌<◌, ◌^◌, if◌then◌else◌};
ghost use Rattle.bf_rule.specs.Verdicts.{verdict_of, add, failures_of, finished_of, total_of, is_rule_met_in, verdict_by_table_of};

use crate::rule::{Counts, Rule, Verdict};

impl Counts {
    /// No instances.
    pub const NONE: Counts = Counts {
        success: 0,
        failed: 0,
        upstream_failed: 0,
        skipped: 0,
        blocked: 0,
        unfinished: 0,
    };

    /// The counts of two groups of instances together.
    pub fn plus(self, other: Counts) -> Counts
        requires { total_of self + total_of other < 2 ^ 32 }
        ensures { result ≡ add self other }
    {
        Counts {
            success: self.success + other.success,
            failed: self.failed + other.failed,
            upstream_failed: self.upstream_failed + other.upstream_failed,
            skipped: self.skipped + other.skipped,
            blocked: self.blocked + other.blocked,
            unfinished: self.unfinished + other.unfinished,
        }
    }

    /// How many instances failed or are upstream_failed.
    fn failures(&self) -> u64
        ensures { result ≡ failures_of self.now }
    {
        u64::from(self.failed) + u64::from(self.upstream_failed)
    }

    /// How many instances have finished, be it skipped: all but the blocked and the unfinished.
    fn finished(&self) -> u64
        ensures { result ≡ finished_of self.now }
    {
        u64::from(self.success) + self.failures() + u64::from(self.skipped)
    }

    /// How many instances there are, in whatever state.
    fn total(&self) -> u64
        ensures { result ≡ total_of self.now }
    {
        self.finished() + u64::from(self.blocked) + u64::from(self.unfinished)
    }
}

/// Whether these instances alone let a task of the rule run, whatever comes of others: by one success
/// (`one_success`), one that failed or is upstream_failed (`one_failed`), one success or failure (`one_done`), in any
/// case (`always`).
pub fn is_rule_met(rule: Rule, counts: &Counts) -> bool
    ensures { result ≡ is_rule_met_in rule counts.now }
{
    match rule {
        Rule::OneSuccess => counts.success > 0,
        Rule::OneFailed => counts.failures() > 0,
        Rule::OneDone => u64::from(counts.success) + u64::from(counts.failed) > 0,
        Rule::Always => true,
        _ => false,
    }
}

/// `Verdict::Run` where `runs`, else `otherwise`.
fn run_if(runs: bool, otherwise: Verdict) -> Verdict
    ensures { result ≡ (if runs then Verdict.Run else otherwise) }
{
    if runs { Verdict::Run } else { otherwise }
}

/// The verdict of a rule by the table of docs/SPECIFICATION.md, once all instances of the upstreams have finished and
/// none is blocked.
fn verdict_by_table(rule: Rule, counts: &Counts) -> Verdict
    ensures { result ≡ verdict_by_table_of rule counts.now }
{
    let failures = counts.failures();
    let finished = counts.finished();
    match rule {
        Rule::AllSuccess if failures > 0 => Verdict::UpstreamFailed,
        Rule::AllSuccess => run_if(counts.skipped == 0, Verdict::Skip),
        Rule::AllFailed => run_if(failures == finished, Verdict::Skip),
        Rule::AllSkipped => run_if(u64::from(counts.skipped) == finished, Verdict::Skip),
        Rule::OneSuccess if counts.success > 0 => Verdict::Run,
        Rule::OneSuccess if u64::from(counts.skipped) == finished => Verdict::Skip,
        Rule::OneSuccess => Verdict::UpstreamFailed,
        Rule::OneFailed | Rule::OneDone => run_if(is_rule_met(rule, counts), Verdict::Skip),
        Rule::NoneFailed => run_if(failures == 0, Verdict::UpstreamFailed),
        Rule::NoneFailedMinOneSuccess if failures > 0 => Verdict::UpstreamFailed,
        Rule::NoneFailedMinOneSuccess => run_if(counts.success > 0, Verdict::Skip),
        Rule::NoneSkipped => run_if(counts.skipped == 0, Verdict::Skip),
        Rule::AllDone | Rule::Always => Verdict::Run,
    }
}

/// The verdict on a task, from how many instances of its upstreams are in each state (Airflow's "Trigger Rules"; what
/// each rule says at each count is this project's own). A task without upstreams runs, and so does one whose rule finds
/// what it looks for among the instances that have finished. Else an unfinished upstream makes it wait, then a blocked
/// one blocks it, and then `verdict_by_table` decides.
#[tactic(auto, unfolding(crate::specs::Verdicts::verdict_of))]
pub fn verdict(rule: Rule, counts: &Counts) -> Verdict
    ensures { result ≡ verdict_of rule counts.now }
{
    if counts.total() == 0 || is_rule_met(rule, counts) {
        Verdict::Run
    } else if counts.unfinished > 0 {
        Verdict::Wait
    } else if counts.blocked > 0 {
        Verdict::Blocked
    } else {
        verdict_by_table(rule, counts)
    }
}
