//! What a runner knows beside a raw answer.
ghost use Rattle.std.specs.Prelude.{◌≡◌, IfOk, IfErr};

use bf_try::{Done, RunnerFault, TaskRunner, Ticket};
use bf_value::{OutOfMemory, Text};
use std::alloc::Global;

/// What is known of how a program ended, or why it wasn't started, beside its raw answer.
#[derive(Debug, Drop)]
pub enum Detail {
    /// The number of the signal that ended it.
    Signal(i32),
    /// Why it wasn't started, in the system's words, as `No such file or directory`.
    NotStarted(Text),
}

impl Detail {
    /// Copies the detail.
    pub(crate) fn copy(&self, alloc: Global) -> Result<Detail, OutOfMemory>
        ensures { IfOk result (λ detail. detail ≡ self.now) }
    {
        Ok(match self {
            Detail::Signal(number) => Detail::Signal(*number),
            Detail::NotStarted(words) => Detail::NotStarted(Text::copy_of(alloc, words.as_str())?),
        })
    }
}

/// A runner that can say more of a try than its raw answer does.
pub trait DetailedRunner: TaskRunner {
    ghost use Rattle.std.specs.Prelude.{Option};
    ghost use Rattle.bf_value.specs.declared.name.JobName.{JobName};
    ghost use Rattle.bf_xcom.specs.declared.values.Given.{Given};
    ghost use Rattle.bf_try.specs.declared.answers.Raw.{Raw};
    ghost use Rattle.bf_failure.specs.declared.detail.Detail.{Detail as Known};

    /// This may be known of a try that it answers so.
    ghost may_know: { Self → JobName → Given → Raw → Option Known → Type 0 };

    /// Runs the try of a ticket, as `run` does, and gives its answer with what else is known of the try. At a fault the
    /// ticket comes back.
    fn run_in_detail(&self, ticket: Ticket) -> Result<(Done, Option<Detail>), (Ticket, RunnerFault)>
        ensures ok { IfOk result (λ d. (d.0.name ≡ ticket.name) × (d.0.given ≡ ticket.given)
            × Self.may_answer self.now d.0.name d.0.given d.0.raw
            × may_know self.now d.0.name d.0.given d.0.raw d.1) }
        ensures err { IfErr result (λ f. (f.0 ≡ ticket)
            × (f.1 ≡ RunnerFault.GaveUp → Self.may_give_up self.now ticket.name ticket.given)) };
}
