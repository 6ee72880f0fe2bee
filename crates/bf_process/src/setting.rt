//! What a try's program is started in.
ghost use Rattle.std.specs.Prelude.{◌≡◌, IfOk, codes, option_map, string_bytes};
ghost use Rattle.bf_failure.specs.Tried.{log_of};

use crate::log_faults::LogFaults;
use bf_failure::log_path;
use bf_moment::Moment;
use bf_value::OutOfMemory;
use bf_words::JobContext;
use std::alloc::Global;

/// The paths of a try's logs, and the text of what the try was given, which is written to one of them.
#[derive(Debug, Drop)]
pub struct TryLogs {
    /// The path of the log of its standard output.
    pub out: String,
    /// The path of the log of its standard error.
    pub err: String,
    /// The path of the file that says what it was given.
    pub given: String,
    /// What it was given, as `{"item":..,"pulls":{"ID":..}}`.
    pub given_text: String,
}

impl TryLogs {
    /// Makes the paths of a try's logs below `folder`, that of all logs; `given_text` is the text of what the try was
    /// given.
    pub(crate) fn in_folder(
        alloc: Global,
        folder: &str,
        context: &JobContext<'_>,
        given_text: String,
    ) -> Result<TryLogs, OutOfMemory>
        ensures out { IfOk result (λ logs. string_bytes logs.out
            ≡ log_of folder.now context.now (codes ".out")) }
        ensures err { IfOk result (λ logs. string_bytes logs.err
            ≡ log_of folder.now context.now (codes ".err")) }
        ensures given { IfOk result (λ logs. string_bytes logs.given
            ≡ log_of folder.now context.now (codes ".given.json")) }
        ensures text { IfOk result (λ logs. logs.given_text ≡ given_text) }
    {
        Ok(TryLogs {
            out: log_path(alloc, folder, context, ".out")?,
            err: log_path(alloc, folder, context, ".err")?,
            given: log_path(alloc, folder, context, ".given.json")?,
            given_text,
        })
    }
}

/// The try that a program is started for, and its logs.
#[derive(Drop)]
pub struct Setting<'c, 'l> {
    pub context: &'c JobContext<'c>,
    /// What the clocks of the graph's zone show at the start of its run, written as a moment of UTC.
    pub clock: &'c Moment,
    pub logs: Option<&'l TryLogs>,
    /// Where it is noted that a log could not be made, or lacks a part.
    pub log_faults: &'l LogFaults,
}

impl<'c, 'l> Setting<'c, 'l> {
    /// Gives the path of the file that says what the try was given; None where no logs are kept.
    pub(crate) fn path_of_given(&self) -> Option<&str>
        ensures { option_map (λ path. path.now) result
            ≡ option_map (λ logs. string_bytes logs.now.given) self.now.logs }
    {
        match self.logs {
            Some(logs) => Some(logs.given.as_str()),
            None => None,
        }
    }
}
