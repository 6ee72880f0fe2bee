//! What a try is given, and what comes of tries.
ghost use Rattle.std.specs.Prelude.{◌≡◌, ◌↔◌, IfOk, IsTrue, option_copied};
ghost use Rattle.bf_xcom.specs.Givens.{nothing_given};
ghost use Rattle.bf_xcom.specs.Pulls.{pushed_by};

use crate::shared_value::SharedValue;
use bf_value::{OutOfMemory, Sequence, Xval, copy_option, is_same_option};
use std::alloc::Global;

/// What the tries of an instance are given: its item, for an instance of an expanded task, and for each pull of
/// the task the value or nothing.
#[derive(Debug, Drop)]
pub struct Given {
    pub item: Option<Xval>,
    pub pulled: Sequence<SharedValue>,
}

/// How a try ended. A success pushes a value or nothing.
#[derive(Debug, Drop)]
pub enum Outcome {
    Success(SharedValue),
    Failed,
    Skipped,
}

/// What came of an instance: how its last try ended, and the number of that try.
#[derive(Debug, Drop)]
pub struct TaskResult {
    pub outcome: Outcome,
    pub tries: u32,
}

/// The value of a task in a run, once it is settled: blocked by its past or by a blocked task; skipped or
/// upstream_failed without a try; or ran, with a result for each instance by map index (one for an unmapped task).
#[derive(Debug, Drop)]
pub enum TaskValue {
    Blocked,
    Skipped,
    UpstreamFailed,
    Ran(Sequence<TaskResult>),
}

/// The state of a run that is closed (Airflow's "DAG Run status").
#[derive(Clone, Copy, Debug, PartialEq, Eq)]
pub enum RunState {
    Success,
    Failed,
}

impl Given {
    /// Nothing: no item, and nothing pulled. Takes no memory.
    pub fn nothing(alloc: Global) -> Given
        ensures { result ≡ nothing_given }
    {
        Given {
            item: None,
            pulled: Sequence::new(alloc),
        }
    }

    /// Whether two tries were given the same: equal items and pulls.
    pub fn is_same(&self, other: &Given) -> bool
        ensures { IsTrue result ↔ (self.now ≡ other.now) }
    {
        is_same_option(self.item.as_ref(), other.item.as_ref())
            && are_same(self.pulled.as_slice(), other.pulled.as_slice())
    }

    /// A copy of what is given; pulled values are shared and not copied. Contracts see no sharing.
    pub fn copy(&self, alloc: Global) -> Result<Given, OutOfMemory>
        ensures { IfOk result (λ given. given ≡ self.now) }
    {
        let pulled = shares_of(alloc, self.pulled.as_slice())?;
        Ok(Given {
            item: copy_option(alloc, self.item.as_ref())?,
            pulled: Sequence::from_vec(pulled),
        })
    }
}

/// Whether both lists have equal values, in the same order.
pub(crate) fn are_same(one: &[SharedValue], other: &[SharedValue]) -> bool
    ensures { IsTrue result ↔ (one.now ≡ other.now) }
{
    if one.len() != other.len() {
        return false;
    }
    for i in 0..one.len() {
        if !one[i].is_same(&other[i]) {
            return false;
        }
    }
    true
}

/// The same values once more, in order; they are shared and not copied. Contracts see no sharing.
fn shares_of(alloc: Global, all: &[SharedValue]) -> Result<Vec<SharedValue>, OutOfMemory>
    ensures { IfOk result (λ shares. shares.items ≡ all.now) }
{
    let mut shares = Vec::with_capacity(alloc, all.len())?;
    for pulled in all {
        shares.push(pulled.share()?)?;
    }
    Ok(shares)
}

impl Outcome {
    /// What a try with this outcome pushed; None where it pushed nothing or didn't succeed.
    pub fn pushed(&self) -> Option<&Xval>
        ensures { option_copied result ≡ pushed_by self.now }
    {
        match self {
            Outcome::Success(pushed) => pushed.get(),
            Outcome::Failed | Outcome::Skipped => None,
        }
    }

    /// What a try that ended so pushed, shared with one more holder. Contracts see no sharing.
    pub fn share_pushed(&self) -> Result<SharedValue, OutOfMemory>
        ensures { IfOk result (λ pushed. pushed ≡ pushed_by self.now) }
    {
        match self {
            Outcome::Success(pushed) => pushed.share(),
            Outcome::Failed | Outcome::Skipped => Ok(SharedValue::nothing()),
        }
    }

    /// Whether two outcomes are equal, in what they pushed too.
    pub fn is_same(&self, other: &Outcome) -> bool
        ensures { IsTrue result ↔ (self.now ≡ other.now) }
    {
        match (self, other) {
            (Outcome::Success(one), Outcome::Success(other)) => one.is_same(other),
            (Outcome::Failed, Outcome::Failed) | (Outcome::Skipped, Outcome::Skipped) => true,
            _ => false,
        }
    }

    /// The same outcome for one more holder; what was pushed is shared and not copied. Contracts see no sharing.
    pub fn share(&self) -> Result<Outcome, OutOfMemory>
        ensures { IfOk result (λ outcome. outcome ≡ self.now) }
    {
        match self {
            Outcome::Success(pushed) => Ok(Outcome::Success(pushed.share()?)),
            Outcome::Failed => Ok(Outcome::Failed),
            Outcome::Skipped => Ok(Outcome::Skipped),
        }
    }

    /// A copy of the outcome. It shares what was pushed, as `share` does, and so takes no memory of the allocator.
    pub fn copy(&self, _alloc: Global) -> Result<Outcome, OutOfMemory>
        ensures { IfOk result (λ outcome. outcome ≡ self.now) }
    {
        self.share()
    }
}
