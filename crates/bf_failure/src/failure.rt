//! Why a try failed.
ghost use Rattle.std.specs.Prelude.{◌≡◌};
ghost use Rattle.bf_failure.specs.Failures.{detailed};

use crate::detail::Detail;
use bf_value::Text;
use std::fmt;

/// Why a try failed. Without logs, a program whose output is too long or can't be read is read no further, and mostly dies
/// of a signal for that: then the output counts as the cause.
#[derive(Debug, Drop)]
pub enum Failure {
    /// The program ended with this exit status, which is neither 0 nor 99.
    Status(i32),
    /// A signal ended the program; its number, if known.
    Signal(Option<i32>),
    /// The program wasn't started; the system's words for why, if known.
    NotStarted(Option<Text>),
    /// The program wrote more than 1,048,576 bytes to its standard output.
    TooMuchOutput,
    /// The program's standard output couldn't be read.
    UnreadOutput,
    /// The last line of output isn't UTF-8.
    NotUtf8,
    /// The pushed value's compact JSON has more than 65,536 bytes.
    LongValue,
    /// The task is a branch, and pushed this value, as compact JSON, which names no tasks directly downstream.
    NoDownstream(Text),
    /// The task with this id, the first of those expanded over the failed one, would have no items: what was pushed is
    /// no list, or one of more than 1,024 items.
    NoItems(Text),
}

impl Failure {
    /// Adds the number of the signal that ended the program, or the system's words for why it wasn't started, where the
    /// failure lacks it and `detail` has it; else gives the failure unchanged.
    pub(crate) fn with_detail(self, detail: Option<Detail>) -> Failure
        ensures { result ≡ detailed self detail }
    {
        match (self, detail) {
            (Failure::Signal(None), Some(Detail::Signal(number))) => Failure::Signal(Some(number)),
            (Failure::NotStarted(None), Some(Detail::NotStarted(words))) => {
                Failure::NotStarted(Some(words))
            }
            (failure, _) => failure,
        }
    }
}

impl fmt::Display for Failure {
    ghost use Rattle.std.specs.Prelude.{Some};
    ghost use Rattle.bf_failure.specs.Failures.{failure_text};

    ghost output = { λ failure. Some (failure_text failure) };

    /// Writes why the try failed, such as `exit status 3` or `killed by signal 9`.
    fn fmt<W: fmt::Write>(&self, f: &mut fmt::Formatter<W>) -> fmt::Result {
        match self {
            Failure::Status(status) => write!(f, "exit status {status}"),
            Failure::Signal(None) => write!(f, "killed by a signal"),
            Failure::Signal(Some(number)) => write!(f, "killed by signal {number}"),
            Failure::NotStarted(None) => write!(f, "not started"),
            Failure::NotStarted(Some(words)) => write!(f, "not started: {words}"),
            Failure::TooMuchOutput => write!(f, "more than 1048576 bytes of output"),
            Failure::UnreadOutput => write!(f, "its output couldn't be read"),
            Failure::NotUtf8 => write!(f, "its last line isn't UTF-8"),
            Failure::LongValue => write!(f, "a value of more than 65536 bytes"),
            Failure::NoDownstream(value) => {
                write!(f, "a branch that names no direct downstream: {value}")
            }
            Failure::NoItems(id) => {
                write!(f, "no list of at most 1024 items, which {id} expands")
            }
        }
    }
}
