//! The tries that run.
ghost use Rattle.std.specs.Prelude.{◌≡◌, ◌++◌, ◌∷◌, [], OnErr, OnOk, filter};
ghost use Rattle.bf_progress.specs.inner.Due.{is_other};

use bf_value::{JobName, OutOfMemory};
use std::time::Duration;

/// A running try, and when it began by the monotonic clock.
#[derive(Clone, Copy, Debug, Drop)]
pub(crate) struct Begun {
    pub(crate) name: JobName,
    pub(crate) at: Duration,
}

/// Adds a try that has begun to the running ones. At want of memory these stay as they were.
pub(crate) fn push_begun(running: &mut Vec<Begun>, begun: Begun) -> Result<(), OutOfMemory>
    ensures ok { OnOk result (running.new.items ≡ running.old.items ++ begun ∷ []) }
    ensures err { OnErr result (running.new.items ≡ running.old.items) }
{
    running.reserve(1)?;
    running.push_reserved(begun);
    Ok(())
}

/// Removes the try of this name, which has ended, from the running ones.
pub(crate) fn remove_ended(running: &mut Vec<Begun>, name: JobName)
    ensures { running.new.items ≡ filter (is_other name) running.old.items }
{
    running.retain(
        |begun: &Begun| -> bool
            ensures { result ≡ is_other name begun.now }
        { begun.name != name },
    );
}
