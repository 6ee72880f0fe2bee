//! The range that a command line asks for.
ghost use Rattle.std.specs.Prelude.{◌≡◌, IfOk, IfErr};
ghost use Rattle.bf_backfills.specs.Commands.{IsNoStarts, MeansRange, MeansStarts};

use bf_command_fault::CommandFault;
use bf_command_line::{RangeAsked, StartsAsked};
use bf_days::Days;
use bf_input::moment_of;
use bf_planning::{MomentRange, RunRange, Starts};

/// Reads where data intervals have to start: between two moments, both included, or on days. `Err(BadMoment)` where a
/// text is no moment or no days.
fn read_starts(asked: &StartsAsked) -> Result<Starts, CommandFault>
    ensures means { IfOk result (MeansStarts asked.now) }
    ensures bad { IfErr result (λ f. (f ≡ CommandFault.BadMoment) × IsNoStarts asked.now) }
{
    match asked {
        StartsAsked::Between { from, to } => {
            let from = moment_of(from.as_str())?;
            let to = moment_of(to.as_str())?;
            Ok(Starts::Between(MomentRange { from, to }))
        }
        StartsAsked::On(text) => match Days::read(text.as_str()) {
            Some(days) => Ok(Starts::On(days)),
            None => Err(CommandFault::BadMoment),
        },
    }
}

/// Reads the range of runs that a line asks for. `Err(BadMoment)` where a text is no moment or no days.
pub(crate) fn range_of(asked: &RangeAsked) -> Result<RunRange, CommandFault>
    ensures means { IfOk result (MeansRange asked.now) }
    ensures bad { IfErr result (λ f. (f ≡ CommandFault.BadMoment) × IsNoStarts asked.now.starts) }
{
    let starts = read_starts(&asked.starts)?;
    Ok(RunRange {
        starts,
        some: asked.some,
    })
}
