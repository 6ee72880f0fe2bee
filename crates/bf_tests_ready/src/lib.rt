//! Tests of what comes next in a backfill: what is kept over the events is what a look at the whole backfill finds.
//!
//! That look is bf_rescan, which no program has.
#![tactic(auto)]

#[cfg(test)]
mod chance;
#[cfg(test)]
mod graphs;
#[cfg(test)]
mod looks;
#[cfg(test)]
mod walks;
