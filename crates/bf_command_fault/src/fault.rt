//! Why a command gave no answer, and what is printed then.
ghost use Rattle.std.specs.Prelude.{◌≡◌, IfOk, string_bytes};
ghost use Rattle.bf_command_fault.specs.Refusal.{line_of, number_of, status_of};

use crate::range::RangeFault;
use crate::status::Status;
use crate::stop::StopFault;
use bf_check::CheckFault;
use bf_dependents::ClearFault;
use bf_device::{Cause, WriteFault};
use bf_interval::IntervalFault;
use bf_journal::JournalFault;
use bf_read::ReadFault;
use bf_report_reader::ReportFault;
use bf_seeds::SeedsFault;
use bf_table::TableFault;
use bf_value::{OutOfMemory, Text};
use std::alloc::{AllocError, Global};
use std::error::Error;
use std::fmt;

/// Why a command gave no answer. A refusal of what it was given has a number in docs/FORMATS.md; a fault of the
/// machine, or a backfill that stopped, has none.
#[derive(Debug, Drop)]
pub enum CommandFault {
    /// The graph file can't be read as a graph.
    Read(ReadFault),
    /// The graph was read and breaks a rule, as by a cycle.
    Check(CheckFault),
    /// The file of answers isn't a table.
    Table(TableFault),
    /// The runs of the range can't be listed, or there is none where some are asked for.
    Range(RangeFault),
    /// The file that is named as a report isn't one.
    Report(ReportFault),
    /// The journal is of another backfill, or has a line that is no record.
    Journal(JournalFault),
    /// A task or run that is named isn't there, or the report isn't of this graph or range.
    Clear(ClearFault),
    /// The file that names what to clear is refused.
    Seeds(SeedsFault),
    /// Another backfill has the journal open.
    JournalInUse,
    /// The task has no instance of the map index that is asked for in that run.
    UnknownIndex,
    /// A text isn't a moment or a day, or its date doesn't exist.
    BadMoment,
    /// Memory ran out.
    OutOfMemory,
    /// The file at this path, as the line spells it, can't be read.
    CannotRead(Text),
    /// The output device failed after this many bytes of the text.
    CannotWrite(u64),
    /// The file at this path, as the line spells it, can't be written or replaced.
    CannotWriteFile(Text),
    /// The report can't take the place of the file at `path`, as the line spells it, and stands whole in the file `left`.
    ReportLeft { path: Text, left: Text },
    /// The launcher at this path, as the line spells it, can't be started.
    CannotLaunch(Text),
    /// The backfill stopped before its end.
    Stopped(StopFault),
}

impl CommandFault {
    /// Answers the number that docs/FORMATS.md gives the refusal; None for want of memory, in any variant, for other
    /// faults of the machine, and for a backfill that stopped.
    pub fn refusal_number(&self) -> Option<u32>
        ensures { result ≡ number_of self.now }
    {
        match self {
            CommandFault::Read(fault) => fault.refusal_number(),
            CommandFault::Check(fault) => fault.refusal_number(),
            CommandFault::Table(fault) => fault.refusal_number(),
            CommandFault::Range(fault) => fault.refusal_number(),
            CommandFault::Report(fault) => fault.refusal_number(),
            CommandFault::Journal(fault) => fault.refusal_number(),
            CommandFault::Clear(fault) => fault.refusal_number(),
            CommandFault::Seeds(fault) => fault.refusal_number(),
            CommandFault::JournalInUse => Some(44),
            CommandFault::UnknownIndex => Some(46),
            CommandFault::BadMoment => Some(28),
            CommandFault::OutOfMemory
            | CommandFault::CannotRead(_)
            | CommandFault::CannotWrite(_)
            | CommandFault::CannotWriteFile(_)
            | CommandFault::ReportLeft { path: _, left: _ }
            | CommandFault::CannotLaunch(_)
            | CommandFault::Stopped(_) => None,
        }
    }

    /// Gives the exit status that the program ends with: `Refused` where there is a refusal number, else `Fault`.
    pub fn status(&self) -> Status
        ensures { result ≡ status_of self.now }
    {
        match self.refusal_number() {
            Some(_) => Status::Refused,
            None => Status::Fault,
        }
    }

    /// Gives the line for standard error, with its line feed: `refused`, the number and the words, or `fault:` and the
    /// words.
    pub fn line(&self, alloc: Global) -> Result<String, OutOfMemory>
        ensures { IfOk result (λ line. string_bytes line ≡ line_of self.now) }
    {
        let line = match self.refusal_number() {
            Some(number) => format!(in alloc; "refused {number} {self}\n"),
            None => format!(in alloc; "fault: {self}\n"),
        };
        Ok(line?)
    }
}

impl fmt::Display for CommandFault {
    ghost use Rattle.std.specs.Prelude.{Some};
    ghost use Rattle.bf_command_fault.specs.Refusal.{words_of};

    ghost output = { λ fault. Some (words_of fault) };

    /// Writes the words alone, without `refused`, `fault:` or the number.
    fn fmt<W: fmt::Write>(&self, f: &mut fmt::Formatter<W>) -> fmt::Result {
        match self {
            CommandFault::Read(fault) => write!(f, "{fault}"),
            CommandFault::Check(fault) => write!(f, "{fault}"),
            CommandFault::Table(fault) => write!(f, "{fault}"),
            CommandFault::Range(fault) => write!(f, "{fault}"),
            CommandFault::Report(fault) => write!(f, "{fault}"),
            CommandFault::Journal(fault) => write!(f, "{fault}"),
            CommandFault::Clear(fault) => write!(f, "{fault}"),
            CommandFault::Seeds(fault) => write!(f, "{fault}"),
            CommandFault::JournalInUse => write!(f, "journal in use"),
            CommandFault::UnknownIndex => write!(f, "unknown index"),
            CommandFault::BadMoment => write!(f, "bad moment"),
            CommandFault::OutOfMemory => write!(f, "out of memory"),
            CommandFault::CannotRead(path) => write!(f, "cannot read {path}"),
            CommandFault::CannotWrite(_) => write!(f, "cannot write"),
            CommandFault::CannotWriteFile(path) => write!(f, "cannot write {path}"),
            CommandFault::ReportLeft { path, left } => {
                write!(f, "cannot write {path}: the report is in {left}")
            }
            CommandFault::CannotLaunch(path) => write!(f, "cannot start {path}"),
            CommandFault::Stopped(fault) => write!(f, "{fault}"),
        }
    }
}

impl Error for CommandFault {}

impl From<OutOfMemory> for CommandFault {
    ghost use Rattle.bf_command_fault.specs.declared.fault.CommandFault.TheVariants.{OutOfMemory};

    ghost from_gives = { λ _ e. e ≡ OutOfMemory };

    /// Gives `OutOfMemory`.
    fn from(_e: OutOfMemory) -> CommandFault {
        CommandFault::OutOfMemory
    }
}

impl From<AllocError> for CommandFault {
    ghost use Rattle.bf_command_fault.specs.declared.fault.CommandFault.TheVariants.{OutOfMemory};

    ghost from_gives = { λ _ e. e ≡ OutOfMemory };

    /// Gives `OutOfMemory`.
    fn from(_e: AllocError) -> CommandFault {
        CommandFault::OutOfMemory
    }
}

impl From<ReadFault> for CommandFault {
    ghost use Rattle.bf_command_fault.specs.Refusal.{of_read};

    ghost from_gives = { λ fault e. e ≡ of_read fault };

    /// Wraps what is wrong with a graph file; want of memory becomes `OutOfMemory`.
    fn from(fault: ReadFault) -> CommandFault {
        match fault {
            ReadFault::OutOfMemory => CommandFault::OutOfMemory,
            fault => CommandFault::Read(fault),
        }
    }
}

impl From<CheckFault> for CommandFault {
    ghost use Rattle.bf_command_fault.specs.Refusal.{of_check};

    ghost from_gives = { λ fault e. e ≡ of_check fault };

    /// Wraps what is wrong with a graph; want of memory becomes `OutOfMemory`.
    fn from(fault: CheckFault) -> CommandFault {
        match fault {
            CheckFault::OutOfMemory => CommandFault::OutOfMemory,
            fault => CommandFault::Check(fault),
        }
    }
}

impl From<TableFault> for CommandFault {
    ghost use Rattle.bf_command_fault.specs.Refusal.{of_table};

    ghost from_gives = { λ fault e. e ≡ of_table fault };

    /// Wraps what is wrong with a table; want of memory becomes `OutOfMemory`.
    fn from(fault: TableFault) -> CommandFault {
        match fault {
            TableFault::OutOfMemory => CommandFault::OutOfMemory,
            fault => CommandFault::Table(fault),
        }
    }
}

impl From<IntervalFault> for CommandFault {
    ghost use Rattle.bf_command_fault.specs.Refusal.{of_range};

    ghost from_gives = { λ fault e. e ≡ of_range fault };

    /// Wraps why data intervals can't be listed; want of memory becomes `OutOfMemory`.
    fn from(fault: IntervalFault) -> CommandFault {
        match fault {
            IntervalFault::OutOfMemory => CommandFault::OutOfMemory,
            fault => CommandFault::Range(RangeFault::Unlisted(fault)),
        }
    }
}

impl From<ReportFault> for CommandFault {
    ghost use Rattle.bf_command_fault.specs.Refusal.{of_report};

    ghost from_gives = { λ fault e. e ≡ of_report fault };

    /// Wraps what is wrong with a report; want of memory becomes `OutOfMemory`.
    fn from(fault: ReportFault) -> CommandFault {
        match fault {
            ReportFault::OutOfMemory => CommandFault::OutOfMemory,
            fault => CommandFault::Report(fault),
        }
    }
}

impl From<JournalFault> for CommandFault {
    ghost use Rattle.bf_command_fault.specs.Refusal.{of_journal};

    ghost from_gives = { λ fault e. e ≡ of_journal fault };

    /// Wraps what is wrong with a journal; want of memory becomes `OutOfMemory`.
    fn from(fault: JournalFault) -> CommandFault {
        match fault {
            JournalFault::OutOfMemory => CommandFault::OutOfMemory,
            fault => CommandFault::Journal(fault),
        }
    }
}

impl From<ClearFault> for CommandFault {
    ghost use Rattle.bf_command_fault.specs.Refusal.{of_clear};

    ghost from_gives = { λ fault e. e ≡ of_clear fault };

    /// Wraps why a report can't be cleared; want of memory becomes `OutOfMemory`.
    fn from(fault: ClearFault) -> CommandFault {
        match fault {
            ClearFault::OutOfMemory => CommandFault::OutOfMemory,
            fault => CommandFault::Clear(fault),
        }
    }
}

impl From<SeedsFault> for CommandFault {
    ghost use Rattle.bf_command_fault.specs.Refusal.{of_seeds};

    ghost from_gives = { λ fault e. e ≡ of_seeds fault };

    /// Wraps what is wrong with a seeds file. An unknown task or run becomes `Clear`, as for a seed on the line, and
    /// want of memory `OutOfMemory`.
    fn from(fault: SeedsFault) -> CommandFault {
        match fault {
            SeedsFault::OutOfMemory => CommandFault::OutOfMemory,
            SeedsFault::Unknown(fault) => CommandFault::from(fault),
            fault => CommandFault::Seeds(fault),
        }
    }
}

impl From<WriteFault> for CommandFault {
    ghost use Rattle.bf_command_fault.specs.Refusal.{of_write};

    ghost from_gives = { λ fault e. e ≡ of_write fault };

    /// Keeps how many bytes were written before the device failed; want of memory becomes `OutOfMemory`.
    fn from(fault: WriteFault) -> CommandFault {
        match fault.cause {
            Cause::Io => CommandFault::CannotWrite(fault.sent),
            Cause::OutOfMemory => CommandFault::OutOfMemory,
        }
    }
}
