//! What a program answers.
ghost use Rattle.std.specs.Prelude.{◌≡◌, IfOk};
ghost use Rattle.bf_try.specs.declared.answers.Exit.{Exit};
ghost use Rattle.bf_try.specs.declared.answers.Line.{Line};

use bf_value::{OutOfMemory, Sequence};
use std::alloc::Global;

/// How a program ended.
#[derive(Clone, Copy, Debug, PartialEq, Eq)]
pub enum Exit {
    Code(i32),
    Signal,
    NotStarted,
}

/// The last line of a program's output, or why there is none: the output was too long, or could not be read.
#[derive(Debug, Drop)]
pub enum Line {
    Bytes(Sequence<u8>),
    TooMuch,
    ReadFault,
}

/// What a try answered, before it is graded.
#[derive(Debug, Drop)]
pub struct Raw {
    pub exit: Exit,
    pub line: Line,
}

/// A copy of bytes.
pub fn copy_of_bytes(alloc: Global, bytes: &[u8]) -> Result<Sequence<u8>, OutOfMemory>
    ensures { IfOk result (λ copy. copy ≡ bytes.now) }
{
    Ok(Sequence::from_vec(bytes.to_vec(alloc)?))
}

impl Line {
    /// A copy of the line.
    fn copy(&self, alloc: Global) -> Result<Line, OutOfMemory>
        ensures { IfOk result (λ line. line ≡ self.now) }
    {
        match self {
            Line::Bytes(bytes) => Ok(Line::Bytes(copy_of_bytes(alloc, bytes.as_slice())?)),
            Line::TooMuch => Ok(Line::TooMuch),
            Line::ReadFault => Ok(Line::ReadFault),
        }
    }
}

impl Raw {
    /// The raw answer of a program that ended with this status and printed this last line.
    pub fn with_code(code: i32, line: Sequence<u8>) -> Raw
        ensures { result ≡ record { exit = Exit.Code code; line = Line.Bytes line } }
    {
        Raw {
            exit: Exit::Code(code),
            line: Line::Bytes(line),
        }
    }

    /// A copy of the raw answer.
    pub fn copy(&self, alloc: Global) -> Result<Raw, OutOfMemory>
        ensures { IfOk result (λ raw. raw ≡ self.now) }
    {
        Ok(Raw {
            exit: self.exit,
            line: self.line.copy(alloc)?,
        })
    }
}
