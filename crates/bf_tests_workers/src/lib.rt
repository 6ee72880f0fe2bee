//! Tests of backfills by several workers, with runners that see what is asked of them, and of the clock that they go by.
//!
//! Threads really run here, as many at once as the test says, and none is left when it ends.
#![tactic(auto)]

#[cfg(test)]
mod asking;
#[cfg(test)]
mod backfills;
#[cfg(test)]
mod clocks;
#[cfg(test)]
mod faults;
#[cfg(test)]
mod gates;
#[cfg(test)]
mod pools;
