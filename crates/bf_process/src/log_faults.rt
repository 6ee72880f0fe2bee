//! What went wrong with logs.
use std::sync::atomic::{AtomicBool, Ordering};

/// What went wrong with the logs of tries, noted by the threads that run these. Contracts don't say what is noted.
#[derive(Drop)]
pub struct LogFaults {
    cannot_make: AtomicBool,
    lost_some: AtomicBool,
}

impl LogFaults {
    /// Makes the record of no faults yet.
    pub(crate) fn new() -> LogFaults {
        LogFaults {
            cannot_make: AtomicBool::new(false),
            lost_some: AtomicBool::new(false),
        }
    }

    /// Notes that a log could not be made.
    pub(crate) fn note_unmade_log(&self) {
        self.cannot_make.store(true, Ordering::SeqCst);
    }

    /// Notes that a log lacks a part of what was written to it.
    pub(crate) fn note_incomplete_log(&self) {
        self.lost_some.store(true, Ordering::SeqCst);
    }

    /// Answers whether a log could not be made, so that its try was given up.
    pub fn has_unmade_log(&self) -> bool {
        self.cannot_make.load(Ordering::SeqCst)
    }

    /// Answers whether a log that was made lacks a part of what was written to it.
    pub fn has_incomplete_log(&self) -> bool {
        self.lost_some.load(Ordering::SeqCst)
    }
}
