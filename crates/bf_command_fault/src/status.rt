//! Exit statuses.
ghost use Rattle.std.specs.Prelude.{◌≡◌};
ghost use Rattle.bf_command_fault.specs.Status.{code_of, of_runs};

/// How the program ends; the numbers are its exit statuses.
#[derive(Clone, Copy, Debug, PartialEq, Eq)]
pub enum Status {
    /// The command is done, and each of its runs, if any, succeeded.
    Success = 0,
    /// The command is done, and some run failed.
    Failed = 1,
    /// The line, a moment, or what a file holds was refused, or the journal is in use.
    Refused = 2,
    /// A file, device, program or thread failed, memory ran out, or a backfill stopped early.
    Fault = 3,
}

impl Status {
    /// Gives the exit status of a backfill: `Success` where every run `succeeded`, else `Failed`.
    pub fn of_runs(succeeded: bool) -> Status
        ensures { result ≡ of_runs succeeded }
    {
        if succeeded {
            Status::Success
        } else {
            Status::Failed
        }
    }

    /// Gives the exit status as a number: 0 success, 1 failed, 2 refused, 3 fault.
    pub fn code(self) -> u8
        ensures { result ≡ code_of self }
    {
        self as u8
    }
}
