//! States of instances.
ghost use Rattle.std.specs.Prelude.{◌≡◌, ◌≤◌, ◌+◌, if◌then◌else◌};
ghost use Rattle.bf_why.specs.Since.{count_of, has_instance_of};
ghost use Rattle.bf_rule.specs.Verdicts.{total_of};

use bf_reason::{Settled, counts_at};
use bf_rule::Counts;

/// A set of states that an instance may be in: those whose field is true.
#[derive(Clone, Copy, Debug, PartialEq, Eq)]
pub struct States {
    pub success: bool,
    pub failed: bool,
    pub upstream_failed: bool,
    pub skipped: bool,
}

/// `count` where it is chosen, 0 otherwise.
fn count_if(chosen: bool, count: u32) -> u32
    ensures { result ≡ (if chosen then count else 0) }
{
    if chosen { count } else { 0 }
}

impl States {
    /// Just the state success.
    pub(crate) const SUCCESS: States = States {
        success: true,
        failed: false,
        upstream_failed: false,
        skipped: false,
    };

    /// The states failed and upstream_failed.
    pub const FAILURES: States = States {
        success: false,
        failed: true,
        upstream_failed: true,
        skipped: false,
    };

    /// Just the state skipped.
    pub const SKIPPED: States = States {
        success: false,
        failed: false,
        upstream_failed: false,
        skipped: true,
    };

    /// How many of the counted instances, at most 1,024, are in one of these states.
    pub(crate) fn count_in(self, counts: &Counts) -> u32
        requires { total_of counts.now ≤ 1_024 }
        ensures { result ≡ count_of self counts.now }
    {
        let success = count_if(self.success, counts.success);
        let failed = count_if(self.failed, counts.failed);
        let upstream_failed = count_if(self.upstream_failed, counts.upstream_failed);
        let skipped = count_if(self.skipped, counts.skipped);
        success + failed + upstream_failed + skipped
    }
}

/// Whether an instance of task number `task` is in one of these states; false where `settled`, the tasks of the run,
/// lacks it.
pub fn has_instance_in(settled: &[Settled<'_>], states: States, task: u32) -> bool
    ensures { result ≡ has_instance_of settled.now states task }
{
    let counts = counts_at(settled, task);
    states.count_in(&counts) > 0
}
