//! The moments that a command line says.
ghost use Rattle.std.specs.Prelude.{◌≡◌, IfOk, IfErr};
ghost use Rattle.bf_input.specs.Moments.{IsNoMoment, Means};

use bf_command_fault::CommandFault;
use bf_moment::moment_in;
use jiff::Timestamp;

/// Reads a moment in UTC, such as `2024-01-31T06:00:00Z`, or `2024-01-31` for its midnight. `Err(BadMoment)` for any
/// other text.
pub fn moment_of(text: &str) -> Result<Timestamp, CommandFault>
    ensures means { IfOk result (Means text.now) }
    ensures bad { IfErr result (λ f. (f ≡ CommandFault.BadMoment) × IsNoMoment text.now) }
{
    match moment_in(text) {
        Some(moment) => Ok(moment),
        None => Err(CommandFault::BadMoment),
    }
}
