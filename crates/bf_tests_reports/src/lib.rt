//! Tests of reports: their text, what is read of it, and the devices that they go to and come from, as outputs of programs do.
//!
//! Files of the system are tested by scripts in tests/system, over the built program.
#![tactic(auto)]

#[cfg(test)]
mod devices;
#[cfg(test)]
mod reports;
