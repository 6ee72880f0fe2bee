//! Why a command gave no answer, what is printed of it, and how the program ends.
//!
//! A `CommandFault` is a refusal, which has a number and comes of what was asked or of a file, or a fault, which has none and comes
//! of the machine: memory, a device, a thread, a try that was given up. Its line is what standard error gets, and its `Status` the
//! exit status, 2 or 3. Faults of the crates below are turned into it here and nowhere else.
#![tactic(auto)]

mod fault;
mod range;
mod status;
mod stop;

pub use fault::CommandFault;
pub use range::RangeFault;
pub use status::Status;
pub use stop::StopFault;
