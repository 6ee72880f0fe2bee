//! What runs tries.
ghost use Rattle.std.specs.Prelude.{◌≡◌, IfOk, IfErr};

use crate::tickets::{Done, Ticket};
use bf_value::OutOfMemory;
use thiserror::Error;

/// Why a runner gave no answer.
#[derive(Clone, Copy, Debug, PartialEq, Eq, Error)]
pub enum RunnerFault {
    #[error("the runner gave up")]
    GaveUp,
    #[error("out of memory")]
    OutOfMemory,
}

impl From<OutOfMemory> for RunnerFault {
    ghost use Rattle.bf_try.specs.declared.runner.RunnerFault.TheVariants.{OutOfMemory};

    ghost from_gives = { λ _ e. e ≡ OutOfMemory };

    /// Want of memory is the fault `OutOfMemory`.
    fn from(_e: OutOfMemory) -> RunnerFault {
        RunnerFault::OutOfMemory
    }
}

/// Runs tries. Its two relations say which answers may come, and which tries it may give up. The runner promises them,
/// and all that is said of a backfill rests on that.
pub trait TaskRunner {
    ghost use Rattle.bf_value.specs.declared.name.JobName.{JobName};
    ghost use Rattle.bf_xcom.specs.declared.values.Given.{Given};
    ghost use Rattle.bf_try.specs.declared.answers.Raw.{Raw};

    /// The try of this name, given this, may answer so.
    ghost may_answer: { Self → JobName → Given → Raw → Type 0 };

    /// The try of this name, given this, may be given up.
    ghost may_give_up: { Self → JobName → Given → Type 0 };

    /// Runs the try of a ticket. `Err` hands the ticket back: `GaveUp` where the runner gave the try up, `OutOfMemory`
    /// at want of memory.
    fn run(&self, ticket: Ticket) -> Result<Done, (Ticket, RunnerFault)>
        ensures ok { IfOk result (λ d. (d.name ≡ ticket.name) × (d.given ≡ ticket.given)
            × may_answer self.now d.name d.given d.raw) }
        ensures err { IfErr result (λ f. (f.0 ≡ ticket)
            × (f.1 ≡ RunnerFault.GaveUp → may_give_up self.now ticket.name ticket.given)) };
}
