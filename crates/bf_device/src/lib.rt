//! Devices: what bytes are written to and read from.
//!
//! `Write` and `Read` are the devices that contracts can speak of: of the bytes that went out or are left, where the device
//! tells them, and of how often it was interrupted and how often it failed. `Output` and `Input` are those over writers and
//! readers of std, which tell nothing of their own; `Memory` and `Bytes` stand in memory and tell all; `Halting` halts at chosen
//! calls, for tests. `send` writes a text in whatever pieces a device takes.
#![tactic(auto)]

mod bytes;
mod device;
mod halting;
mod input;
mod memory;
mod output;
mod sending;

pub use bytes::Bytes;
pub use device::{Halt, Halts, MOST_INTERRUPTIONS, Read, Write};
pub use halting::Halting;
pub use input::Input;
pub use memory::Memory;
pub use output::Output;
pub use sending::{Cause, WriteFault, halted_after, send, send_more};
