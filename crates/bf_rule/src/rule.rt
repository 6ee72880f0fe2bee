//! Trigger rules, what they count, and what they say.
ghost use Rattle.std.specs.Prelude.{◌≡◌};
ghost use Rattle.bf_rule.specs.Names.{rule_named};
ghost use Rattle.bf_rule.specs.Verdicts.{is_waiting};

/// A trigger rule, by its name in Airflow ("Trigger Rules").
#[derive(Clone, Copy, Debug, PartialEq, Eq)]
pub enum Rule {
    AllSuccess,
    AllFailed,
    AllSkipped,
    AllDone,
    OneSuccess,
    OneFailed,
    OneDone,
    NoneFailed,
    NoneFailedMinOneSuccess,
    NoneSkipped,
    Always,
}

impl Rule {
    /// The rule with this name, written as in Airflow (`all_success`); None where no rule has it.
    pub fn named(name: &str) -> Option<Rule>
        ensures { result ≡ rule_named name.now }
    {
        match name {
            "all_success" => Some(Rule::AllSuccess),
            "all_failed" => Some(Rule::AllFailed),
            "all_skipped" => Some(Rule::AllSkipped),
            "all_done" => Some(Rule::AllDone),
            "one_success" => Some(Rule::OneSuccess),
            "one_failed" => Some(Rule::OneFailed),
            "one_done" => Some(Rule::OneDone),
            "none_failed" => Some(Rule::NoneFailed),
            "none_failed_min_one_success" => Some(Rule::NoneFailedMinOneSuccess),
            "none_skipped" => Some(Rule::NoneSkipped),
            "always" => Some(Rule::Always),
            _ => None,
        }
    }

    /// Whether a task of this rule is decided only once its upstreams are settled, and not before.
    pub fn waits_until_settled(self) -> bool
        ensures { result ≡ is_waiting self }
    {
        !matches!(
            self,
            Rule::OneSuccess | Rule::OneFailed | Rule::OneDone | Rule::Always
        )
    }
}

/// How many instances of the upstreams are in each state. A task that is undecided counts as one unfinished
/// instance, and so do one that waits for its next try and one that runs.
#[derive(Clone, Copy, Debug, PartialEq, Eq)]
pub struct Counts {
    pub success: u32,
    pub failed: u32,
    pub upstream_failed: u32,
    pub skipped: u32,
    pub blocked: u32,
    pub unfinished: u32,
}

/// What the upstreams say of a task.
#[derive(Clone, Copy, Debug, PartialEq, Eq)]
pub enum Verdict {
    /// Too little is known of the upstreams.
    Wait,
    Run,
    Skip,
    UpstreamFailed,
    /// An upstream is blocked, and so is the task.
    Blocked,
}
